//! Attributes (ISO/IEC 8652:2012, 3.5, 3.10.2, 9.9, C.7.1).
ghost use Rattle.std.specs.Prelude.{◌≡◌};
ghost use Rattle.ada_regions.specs.Completions.{holds_of};
ghost use Rattle.ada_legality.specs.Values.{denoted_kind};
ghost use Rattle.ada_legality.specs.Attributes.{type_of_index, type_of_mark_ends, ends_of_mark};
ghost use Rattle.ada_legality.specs.Attributes.{ends_of_object, type_of_ends, has_images};
ghost use Rattle.ada_legality.specs.Attributes.{has_count, is_task_object, typed_attribute};
ghost use Rattle.ada_legality.specs.Attributes.{takes_arguments, typed_attribute_of};

use crate::prefixes::typed_access;
use ada_entities::denoted_by;
use ada_legality::{Known, Typed};
use ada_regions::{AdaType, Denoted, EntityKind, is_task_type};
use ada_subtypes::mark_denoted;
use ada_tree::{Attribute, Name};
use legality_entities::{denoted_kind, in_own_task, stands_in_type, subtype_of_entity};
use legality_types::{has_ranges, is_discrete, typed_as, typed_if};
use profile_image::EntryUnit;

/// The type of an array's index.
#[tactic(auto, unfolding(ada_legality::specs::Attributes::type_of_index))]
fn type_of_index(known: &Known<'_, '_>, t: AdaType) -> Option<AdaType>
    ensures { result ≡ type_of_index known.now t }
{
    match t {
        AdaType::Array(array) => known.indexes.get().get(array as usize).copied(),
        _ => None,
    }
}

/// The type of First and Last of a type of values in an order, or of an array type.
#[tactic(auto, unfolding(ada_legality::specs::Attributes::type_of_mark_ends))]
fn type_of_mark_ends(known: &Known<'_, '_>, t: AdaType) -> Option<AdaType>
    ensures { result ≡ type_of_mark_ends known.now t }
{
    if has_ranges(t) {
        Some(t)
    } else {
        type_of_index(known, t)
    }
}

/// The type of First and Last of a subtype.
#[tactic(auto, unfolding(ada_legality::specs::Attributes::ends_of_mark))]
pub fn ends_of_mark(known: &Known<'_, '_>, denoted: Denoted) -> Option<AdaType>
    ensures { result ≡ ends_of_mark known.now denoted }
{
    let subtype = mark_denoted(known.names.get(), denoted)?;
    type_of_mark_ends(known, subtype.of_type)
}

/// The type of First and Last of an array.
#[tactic(auto, unfolding(ada_legality::specs::Attributes::ends_of_object))]
pub fn ends_of_object(known: &Known<'_, '_>, denoted: Denoted) -> Option<AdaType>
    ensures { result ≡ ends_of_object known.now denoted }
{
    let subtype = subtype_of_entity(known, denoted)?;
    type_of_index(known, subtype.of_type)
}

/// The type of First and Last.
#[tactic(auto, unfolding(ada_legality::specs::Attributes::type_of_ends))]
pub fn type_of_ends(known: &Known<'_, '_>, denoted: Denoted) -> Option<AdaType>
    ensures { result ≡ type_of_ends known.now denoted }
{
    match ends_of_mark(known, denoted) {
        Some(t) => Some(t),
        None => ends_of_object(known, denoted),
    }
}

/// Image of a discrete subtype.
#[tactic(auto, unfolding(ada_legality::specs::Attributes::has_images))]
pub fn has_images(known: &Known<'_, '_>, denoted: Denoted) -> bool
    ensures { result ≡ has_images known.now denoted }
{
    match mark_denoted(known.names.get(), denoted) {
        None => false,
        Some(subtype) => is_discrete(subtype.of_type),
    }
}

/// An entry whose Count may be asked here (9.9).
#[tactic(auto, unfolding(ada_legality::specs::Attributes::has_count))]
fn has_count(known: &Known<'_, '_>, kind: &EntityKind) -> bool
    ensures { result ≡ has_count known.now kind.now }
{
    match kind {
        EntityKind::Entry { unit, .. } => match unit {
            EntryUnit::Task(unit) => in_own_task(AdaType::Task(*unit), &known.around),
            EntryUnit::Protected(unit) => stands_in_type(known, AdaType::Protected(*unit)),
        },
        _ => false,
    }
}

/// Identity of a task object (C.7.1).
#[tactic(auto, unfolding(ada_legality::specs::Attributes::is_task_object))]
pub fn is_task_object(known: &Known<'_, '_>, denoted: Denoted) -> bool
    ensures { result ≡ is_task_object known.now denoted }
{
    match subtype_of_entity(known, denoted) {
        None => false,
        Some(subtype) => is_task_type(subtype.of_type),
    }
}

/// Count of what is denoted may be asked here.
pub fn counts(known: &Known<'_, '_>, denoted: Denoted) -> bool
    ensures { result ≡ holds_of (has_count known.now) (denoted_kind known.now.names denoted) }
{
    match denoted_kind(known.names.get(), denoted) {
        None => false,
        Some(kind) => has_count(known, kind),
    }
}

/// The type of an attribute of what a name denotes.
#[tactic(auto, unfolding(ada_legality::specs::Attributes::typed_attribute))]
pub fn typed_attribute(
    known: &Known<'_, '_>,
    name: &Name,
    denoted: Denoted,
    attribute: Attribute,
) -> Typed
    ensures { result ≡ typed_attribute known.now name.now denoted attribute }
{
    match attribute {
        Attribute::First => typed_if(type_of_ends(known, denoted)),
        Attribute::Last => typed_if(type_of_ends(known, denoted)),
        Attribute::Image => {
            if has_images(known, denoted) {
                Typed::OfText
            } else {
                Typed::WithoutType
            }
        }
        Attribute::Count => {
            if counts(known, denoted) {
                typed_as(AdaType::Integer)
            } else {
                Typed::WithoutType
            }
        }
        Attribute::Identity => {
            if is_task_object(known, denoted) {
                typed_as(AdaType::TaskId)
            } else {
                Typed::WithoutType
            }
        }
        Attribute::Access => typed_access(known, name),
    }
}

/// Image alone has an argument.
pub fn takes_arguments(attribute: Attribute) -> bool
    ensures { result ≡ takes_arguments attribute }
{
    match attribute {
        Attribute::Image => true,
        _ => false,
    }
}

/// The type of an attribute of a name.
#[tactic(auto, unfolding(ada_legality::specs::Attributes::typed_attribute_of))]
pub fn typed_attribute_of(
    known: &Known<'_, '_>,
    name: &Name,
    attribute: Attribute,
    has_arguments: bool,
) -> Typed
    ensures { result ≡ typed_attribute_of known.now name.now attribute has_arguments }
{
    if has_arguments && !takes_arguments(attribute) {
        Typed::WithoutType
    } else {
        match denoted_by(known.names.get(), name) {
            None => Typed::WithoutType,
            Some(denoted) => typed_attribute(known, name, denoted, attribute),
        }
    }
}
