//! Names as values, and attributes of them (ISO/IEC 8652:2012, 4.1, 4.1.4).
ghost use Rattle.std.specs.Prelude.{◌≡◌, option_copied};
ghost use Rattle.ada_image.specs.BuiltExpressions.{is_given, is_given_if, is_entry, kind_of};
ghost use Rattle.ada_image.specs.BuiltExpressions.{attribute_built, object_built, entity_built};

use ada_entities::{denoted_by, entity_of, kind_at};
use ada_regions::{EntityKind, Names, Subtype};
use ada_subtypes::attribute_value;
use ada_tree::{Attribute, Name};
use image_layout::subtype_is_thing;
use profile_image::{DeclNo, Value};

/// Whether a text can give a value: it is no task of a run, and no thing.
#[tactic(auto, using(crate::proofs::Given::whole_is_given, crate::proofs::Given::truth_is_given, crate::proofs::Given::literal_is_given, crate::proofs::Given::ticks_are_given))]
pub fn is_given(value: Value) -> bool
    ensures { result ≡ is_given value }
{
    match value {
        Value::Task(None) => true,
        Value::Task(Some(_)) => false,
        Value::Thing(_) => false,
        _ => true,
    }
}

/// Whether a static value is there and a text can give it.
fn is_given_if(value: Option<Value>) -> bool
    ensures { result ≡ is_given_if value }
{
    match value {
        None => false,
        Some(value) => is_given(value),
    }
}

/// Whether an entity is an entry.
fn is_entry(kind: Option<&EntityKind>) -> bool
    ensures { result ≡ is_entry (option_copied kind.entry) }
{
    match kind {
        None => false,
        Some(kind) => matches!(kind, EntityKind::Entry { .. }),
    }
}

/// What the entity is that a name denotes, if it denotes one.
pub(crate) fn kind_of<'n>(names: &'n Names<'_>, name: &Name) -> Option<&'n EntityKind>
    ensures { option_copied result ≡ kind_of names.now name.now }
{
    let denoted = denoted_by(names, name)?;
    let entity = entity_of(denoted)?;
    kind_at(names, entity)
}

/// An attribute of a name (4.1.4).
pub(crate) fn attribute_built(names: &Names<'_>, name: &Name, attribute: Attribute) -> bool
    ensures { result ≡ attribute_built names.now name.now attribute }
{
    match attribute {
        Attribute::First => is_given_if(attribute_value(names, name, Attribute::First)),
        Attribute::Last => is_given_if(attribute_value(names, name, Attribute::Last)),
        Attribute::Image => false,
        Attribute::Count => is_entry(kind_of(names, name)),
        Attribute::Identity => true,
        Attribute::Access => false,
    }
}

/// An object: one that stands for itself has a number, and a variable's index is built.
fn object_built(subtype: Option<Subtype>, declaration: Option<DeclNo>, index: bool) -> bool
    ensures { result ≡ object_built subtype declaration index }
{
    if subtype_is_thing(subtype) {
        declaration.is_some()
    } else {
        index
    }
}

/// A name as a value, by what its entity is and whether the index behind it is built.
pub(crate) fn entity_built(kind: &EntityKind, index: bool) -> bool
    ensures { result ≡ entity_built kind.now index }
{
    match kind {
        EntityKind::Literal { .. } => true,
        EntityKind::Object {
            subtype,
            declaration,
            ..
        } => object_built(*subtype, Some(*declaration), index),
        EntityKind::Parameter {
            subtype,
            declaration,
            ..
        } => object_built(*subtype, *declaration, index),
        EntityKind::LoopParameter(_) => index,
        EntityKind::Component { .. } => index,
        _ => false,
    }
}
