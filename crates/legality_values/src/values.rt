//! Names as values (ISO/IEC 8652:2012, 4.1, 4.4).
ghost use Rattle.std.specs.Prelude.{◌≡◌, ◌++◌, OnOk};
ghost use Rattle.ada_regions.specs.Completions.{holds_of};
ghost use Rattle.ada_regions.specs.Words.{and_then};
ghost use Rattle.ada_legality.specs.Values.{denoted_kind, is_object_kind, is_function_kind};
ghost use Rattle.ada_legality.specs.Values.{is_kind, kind_of_name, is_denoted};
ghost use Rattle.ada_legality.specs.Reading.{denotes_barrier_part};
ghost use Rattle.ada_legality.specs.ReadExpressions.{is_declared_object, component_owner};
ghost use Rattle.ada_legality.specs.ReadExpressions.{name_shape, name_read, index_fitted};
ghost use Rattle.ada_legality.specs.ReadExpressions.{is_unclear_object, index_fits, may_be_value};

use crate::barriers::denotes_barrier_part;
use ada_entities::denoted_by;
use ada_legality::{ActualPart, Asked, Finding, Known, NameShape, Read, Shape};
use ada_regions::{AdaType, ComponentOwner, Denoted, EntityKind};
use ada_tree::Name;
use ann_base::{NoMemory, Place};
use legality_entities::{
    denoted_kind, is_function_kind, is_object_kind, kind_of_name, subtype_of_entity,
};
use legality_names::{denotes_function, denotes_value, ends_of_object, is_variable, typed_name};
use legality_reads::{fitted, plain_read};
use world_tables::List;

/// A declared object.
fn is_declared_object(kind: &EntityKind) -> bool
    ensures { result ≡ is_declared_object kind.now }
{
    match kind {
        EntityKind::Object { .. } => true,
        _ => false,
    }
}

/// The protected unit of a component.
fn component_owner(kind: &EntityKind) -> Option<AdaType>
    ensures { result ≡ component_owner kind.now }
{
    match kind {
        EntityKind::Component { owner, .. } => match owner {
            ComponentOwner::Protected(unit) => Some(AdaType::Protected(*unit)),
            ComponentOwner::Controlled(_) => None,
        },
        _ => None,
    }
}

/// A name denotes a function of the source.
fn names_function(known: &Known<'_, '_>, name: &Name) -> bool
    ensures { result ≡ is_kind is_function_kind known.now name.now }
{
    match kind_of_name(known, name) {
        None => false,
        Some(kind) => is_function_kind(kind),
    }
}

/// A name denotes a declared object.
pub fn names_object(known: &Known<'_, '_>, name: &Name) -> bool
    ensures { result ≡ is_kind is_declared_object known.now name.now }
{
    match kind_of_name(known, name) {
        None => false,
        Some(kind) => is_declared_object(kind),
    }
}

/// The protected unit of which a name denotes a component.
pub fn owner_of_name(known: &Known<'_, '_>, name: &Name) -> Option<AdaType>
    ensures { result ≡ and_then (kind_of_name known.now name.now) component_owner }
{
    let kind = kind_of_name(known, name)?;
    component_owner(kind)
}

/// A name denotes a part of a barrier.
fn names_barrier_part(known: &Known<'_, '_>, name: &Name) -> bool
    ensures { result ≡ is_denoted (denotes_barrier_part known.now) known.now name.now }
{
    match denoted_by(known.names.get(), name) {
        None => false,
        Some(denoted) => denotes_barrier_part(known, denoted),
    }
}

/// What rules ask of a name that is an expression.
#[tactic(auto, unfolding(ada_legality::specs::ReadExpressions::name_shape))]
fn name_shape(known: &Known<'_, '_>, name: &Name, has_arguments: bool) -> NameShape
    ensures { result ≡ name_shape known.now name.now has_arguments }
{
    NameShape {
        is_function: names_function(known, name),
        is_variable: is_variable(known, name),
        is_declared_object: names_object(known, name),
        component_of: owner_of_name(known, name),
        is_simple_barrier: !has_arguments && names_barrier_part(known, name),
    }
}

/// Where a name begins.
pub fn place_of(name: &Name) -> Place
    ensures { result ≡ name.now.parts.first.place }
{
    name.parts.first.place
}

/// What a name without attribute is read as.
#[tactic(auto, unfolding(ada_legality::specs::ReadExpressions::name_read))]
pub fn name_read(known: &Known<'_, '_>, name: &Name, has_arguments: bool) -> Read
    ensures { result ≡ name_read known.now name.now has_arguments }
{
    let mut read = plain_read(place_of(name), typed_name(known, name, has_arguments));
    read.shape = Shape::Name(name_shape(known, name, has_arguments));
    read.built_as_barrier = !has_arguments && names_barrier_part(known, name);
    read
}

/// The index is a value of the type of the array's index.
pub fn index_fitted(
    found: &mut List<Finding>,
    t: Option<AdaType>,
    actuals: &[ActualPart],
) -> Result<(), NoMemory>
    ensures { OnOk result (found.new ≡ found.old ++ index_fitted t actuals.now) }
{
    match actuals.first() {
        None => Ok(()),
        Some(actual) => fitted(found, Asked::ForValue, t, &actual.read),
    }
}

/// What is denoted is an object.
fn is_object(known: &Known<'_, '_>, denoted: Denoted) -> bool
    ensures { result ≡ holds_of is_object_kind (denoted_kind known.now.names denoted) }
{
    match denoted_kind(known.names.get(), denoted) {
        None => false,
        Some(kind) => is_object_kind(kind),
    }
}

/// An object whose own declaration names no type.
#[tactic(auto, unfolding(ada_legality::specs::ReadExpressions::is_unclear_object))]
pub fn is_unclear_object(known: &Known<'_, '_>, denoted: Denoted) -> bool
    ensures { result ≡ is_unclear_object known.now denoted }
{
    is_object(known, denoted) && subtype_of_entity(known, denoted).is_none()
}

/// Arguments stand behind an array alone.
#[tactic(auto, unfolding(ada_legality::specs::ReadExpressions::index_fits))]
pub fn index_fits(known: &Known<'_, '_>, has_arguments: bool, denoted: Denoted) -> bool
    ensures { result ≡ index_fits known.now has_arguments denoted }
{
    if has_arguments {
        is_unclear_object(known, denoted) || ends_of_object(known, denoted).is_some()
    } else {
        true
    }
}

/// A value, an element of an array, or a function's call.
#[tactic(auto, unfolding(ada_legality::specs::ReadExpressions::may_be_value))]
fn may_be_value(known: &Known<'_, '_>, has_arguments: bool, denoted: Denoted) -> bool
    ensures { result ≡ may_be_value known.now has_arguments denoted }
{
    denotes_function(known, denoted)
        || (denotes_value(known, denoted) && index_fits(known, has_arguments, denoted))
}

/// A name may stand where a value stands.
pub fn names_value(known: &Known<'_, '_>, name: &Name, has_arguments: bool) -> bool
    ensures { result ≡ is_denoted (may_be_value known.now has_arguments) known.now name.now }
{
    match denoted_by(known.names.get(), name) {
        None => false,
        Some(denoted) => may_be_value(known, has_arguments, denoted),
    }
}
