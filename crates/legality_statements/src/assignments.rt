//! Assignments and delays (ISO/IEC 8652:2012, 5.2, 7.5, 7.6, 9.6).
ghost use Rattle.std.specs.Prelude.{◌≡◌, ◌++◌, OnOk};
ghost use Rattle.ada_legality.specs.Types.{is_copied_controlled, is_limited, typed_is};
ghost use Rattle.ada_legality.specs.Values.{denotes_object, is_denoted};
ghost use Rattle.ada_legality.specs.SimpleStatements.{may_be_target, typed_target};
ghost use Rattle.ada_legality.specs.SimpleStatements.{type_of_index_of, names_declared_object};
ghost use Rattle.ada_legality.specs.SimpleStatements.{same_types, copies_a_parameter};
ghost use Rattle.ada_legality.specs.SimpleStatements.{is_wrong_target, assignment_judged};
ghost use Rattle.ada_legality.specs.SimpleStatements.{target_judged, assignment_found};
ghost use Rattle.ada_legality.specs.SimpleStatements.{delay_type, delay_found};

use ada_entities::denoted_by;
use ada_legality::{Asked, Finding, Known, Read, Rule, Shape, Typed};
use ada_regions::{AdaType, Denoted, Names};
use ada_tree::{Assignment, Delay, Name};
use ann_base::NoMemory;
use legality_calls::component_assigned;
use legality_conditions::{value_found, value_found_if};
use legality_expressions::Readable;
use legality_names::{denotes_object, ends_of_object, is_variable, typed_name};
use legality_reads::fitted;
use legality_types::{
    broken_if, broken_unless, fits, has_type, is_copied_controlled, is_limited, operand_type,
};
use legality_values::{index_fits, names_object, owner_of_name, place_of};
use std::alloc::Global;
use world_tables::List;

/// An object, with an index where that may stand.
fn may_be_target(known: &Known<'_, '_>, has_index: bool, denoted: Denoted) -> bool
    ensures { result ≡ may_be_target known.now has_index denoted }
{
    denotes_object(known, denoted) && index_fits(known, has_index, denoted)
}

/// A name may be the target of an assignment.
fn names_target(known: &Known<'_, '_>, name: &Name, has_index: bool) -> bool
    ensures { result ≡ is_denoted (may_be_target known.now has_index) known.now name.now }
{
    match denoted_by(known.names.get(), name) {
        None => false,
        Some(denoted) => may_be_target(known, has_index, denoted),
    }
}

/// A name denotes an object, a constant one too.
fn names_any_object(known: &Known<'_, '_>, name: &Name) -> bool
    ensures { result ≡ is_denoted (denotes_object known.now) known.now name.now }
{
    match denoted_by(known.names.get(), name) {
        None => false,
        Some(denoted) => denotes_object(known, denoted),
    }
}

/// The type of what is assigned.
#[tactic(auto, unfolding(ada_legality::specs::SimpleStatements::typed_target))]
fn typed_target(known: &Known<'_, '_>, name: &Name, has_index: bool) -> Typed
    ensures { result ≡ typed_target known.now name.now has_index }
{
    if names_any_object(known, name) {
        typed_name(known, name, has_index)
    } else {
        Typed::WithoutType
    }
}

/// The type of the index of an array.
#[tactic(auto, unfolding(ada_legality::specs::SimpleStatements::type_of_index_of))]
fn type_of_index_of(known: &Known<'_, '_>, name: &Name) -> Option<AdaType>
    ensures { result ≡ type_of_index_of known.now name.now }
{
    let denoted = denoted_by(known.names.get(), name)?;
    ends_of_object(known, denoted)
}

fn names_declared_object(shape: Shape) -> bool
    ensures { result ≡ names_declared_object shape }
{
    match shape {
        Shape::Name(name) => name.is_declared_object,
        Shape::Number => false,
        Shape::Other => false,
    }
}

/// Two expressions have the same type.
#[tactic(auto, unfolding(ada_legality::specs::SimpleStatements::same_types))]
fn same_types(a: Typed, b: Typed) -> bool
    ensures { result ≡ same_types a b }
{
    match operand_type(a) {
        None => false,
        Some(t) => fits(b, t),
    }
}

/// A side of an assignment is no declared object.
#[tactic(auto, unfolding(ada_legality::specs::SimpleStatements::copies_a_parameter))]
fn copies_a_parameter(known: &Known<'_, '_>, name: &Name, target: Typed, read: &Read) -> bool
    ensures { result ≡ copies_a_parameter known.now name.now target read.now }
{
    !names_object(known, name)
        || (has_type(read.typed)
            && (same_types(target, read.typed) && !names_declared_object(read.shape)))
}

/// The type is that of a Controlled object.
#[tactic(auto, unfolding(ada_legality::specs::Types::typed_is))]
fn is_copied(names: &Names<'_>, typed: Typed) -> bool
    ensures { result ≡ typed_is (is_copied_controlled names.now) typed }
{
    match operand_type(typed) {
        None => false,
        Some(t) => is_copied_controlled(names, t),
    }
}

/// The type is limited.
#[tactic(auto, unfolding(ada_legality::specs::Types::typed_is))]
fn is_limited_type(names: &Names<'_>, typed: Typed) -> bool
    ensures { result ≡ typed_is (is_limited names.now) typed }
{
    match operand_type(typed) {
        None => false,
        Some(t) => is_limited(names, t),
    }
}

/// What is assigned is no variable, or may not be copied so.
#[tactic(auto, unfolding(ada_legality::specs::SimpleStatements::is_wrong_target))]
fn is_wrong_target(known: &Known<'_, '_>, name: &Name, target: Typed, read: &Read) -> bool
    ensures { result ≡ is_wrong_target known.now name.now target read.now }
{
    has_type(target)
        && (!is_variable(known, name)
            || (is_copied(known.names.get(), target)
                && copies_a_parameter(known, name, target, read)))
}

/// An assignment, of which the value is read.
#[tactic(auto, unfolding(ada_legality::specs::SimpleStatements::assignment_judged))]
fn assignment_judged(
    found: &mut List<Finding>,
    known: &Known<'_, '_>,
    name: &Name,
    target: Typed,
    read: &Read,
) -> Result<(), NoMemory>
    ensures { OnOk result
        (found.new ≡ found.old ++ assignment_judged known.now name.now target read.now) }
{
    let broken = is_wrong_target(known, name, target, read);
    broken_if(found, Rule::AssignedVariable, broken, place_of(name))?;
    let broken = is_limited_type(known.names.get(), target);
    broken_if(found, Rule::LimitedObject, broken, place_of(name))?;
    fitted(found, Asked::ForValue, operand_type(target), read)
}

/// The target of an assignment.
#[tactic(auto, unfolding(ada_legality::specs::SimpleStatements::target_judged))]
fn target_judged(
    found: &mut List<Finding>,
    known: &Known<'_, '_>,
    name: &Name,
    has_index: bool,
) -> Result<(), NoMemory>
    ensures { OnOk result (found.new ≡ found.old ++ target_judged known.now name.now has_index) }
{
    let kept = names_target(known, name, has_index);
    broken_unless(found, Rule::KindOfName, kept, place_of(name))?;
    component_assigned(found, known, owner_of_name(known, name))
}

/// An assignment.
#[tactic(auto, unfolding(ada_legality::specs::SimpleStatements::assignment_found))]
pub fn assignment_found(
    alloc: Global,
    found: &mut List<Finding>,
    known: &Known<'_, '_>,
    assignment: &Assignment,
) -> Result<(), NoMemory>
    ensures { OnOk result (found.new ≡ found.old ++ assignment_found assignment.now known.now) }
{
    let name = &assignment.target;
    let has_index = assignment.index.is_some();
    target_judged(found, known, name, has_index)?;
    let t = type_of_index_of(known, name);
    value_found_if(alloc, found, known, t, &assignment.index)?;
    let read = assignment.value.read(alloc, found, known)?;
    let target = typed_target(known, name, has_index);
    assignment_judged(found, known, name, target, &read)
}

fn delay_type(until: bool) -> AdaType
    ensures { result ≡ delay_type until }
{
    if until {
        AdaType::Time
    } else {
        AdaType::Duration
    }
}

/// A delay.
#[tactic(auto, unfolding(ada_legality::specs::SimpleStatements::delay_found))]
pub fn delay_found(
    alloc: Global,
    found: &mut List<Finding>,
    known: &Known<'_, '_>,
    delay: &Delay,
) -> Result<(), NoMemory>
    ensures { OnOk result (found.new ≡ found.old ++ delay_found delay.now known.now) }
{
    let broken = known.in_force.no_relative_delay && !delay.until;
    broken_if(found, Rule::Restriction, broken, delay.place)?;
    value_found(
        alloc,
        found,
        known,
        Some(delay_type(delay.until)),
        &delay.value,
    )
}
