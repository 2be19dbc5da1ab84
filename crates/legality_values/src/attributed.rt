//! Attributes of names (ISO/IEC 8652:2012, 3.5, 3.10.2, 9.9, C.7.1).
ghost use Rattle.std.specs.Prelude.{◌≡◌, ◌++◌, OnOk};
ghost use Rattle.ada_regions.specs.Completions.{holds_of};
ghost use Rattle.ada_legality.specs.Values.{denoted_kind, is_denoted};
ghost use Rattle.ada_legality.specs.ReadExpressions.{attribute_read, is_unclear_mark};
ghost use Rattle.ada_legality.specs.ReadExpressions.{denotes_subprogram, is_unclear};
ghost use Rattle.ada_legality.specs.ReadExpressions.{may_have_attribute, no_handler_access};
ghost use Rattle.ada_legality.specs.ReadExpressions.{attribute_alone, other_attribute};

use crate::values::{is_unclear_object, place_of};
use ada_entities::denoted_by;
use ada_legality::{ActualPart, Finding, Known, Read, Rule};
use ada_regions::{Denoted, EntityKind};
use ada_tree::{Attribute, Name};
use ann_base::NoMemory;
use legality_entities::{denoted_kind, is_function_kind, is_procedure_kind};
use legality_names::{
    counts, has_images, is_library_handler, is_task_object, type_of_ends, typed_attribute_of,
};
use legality_reads::{image_length, plain_read};
use legality_types::{broken_if, broken_unless};
use world_tables::List;

/// What an attribute of a name is read as.
#[tactic(auto, unfolding(ada_legality::specs::ReadExpressions::attribute_read))]
pub fn attribute_read(
    known: &Known<'_, '_>,
    name: &Name,
    attribute: Attribute,
    has_arguments: bool,
) -> Read
    ensures { result ≡ attribute_read known.now name.now attribute has_arguments }
{
    let typed = typed_attribute_of(known, name, attribute, has_arguments);
    let bytes = image_length(known, name, attribute);
    let mut read = plain_read(place_of(name), typed);
    read.piece = bytes;
    read.line = bytes;
    read
}

/// A subtype whose own definition names no type.
pub fn is_unclear_mark(kind: &EntityKind) -> bool
    ensures { result ≡ is_unclear_mark kind.now }
{
    match kind {
        EntityKind::Mark(subtype) => match subtype {
            None => true,
            Some(_) => false,
        },
        _ => false,
    }
}

/// What is denoted is such a subtype.
fn denotes_unclear_mark(known: &Known<'_, '_>, denoted: Denoted) -> bool
    ensures { result ≡ holds_of is_unclear_mark (denoted_kind known.now.names denoted) }
{
    match denoted_kind(known.names.get(), denoted) {
        None => false,
        Some(kind) => is_unclear_mark(kind),
    }
}

/// A subprogram of the source.
fn denotes_subprogram(known: &Known<'_, '_>, denoted: Denoted) -> bool
    ensures { result ≡ denotes_subprogram known.now denoted }
{
    match denoted_kind(known.names.get(), denoted) {
        None => false,
        Some(kind) => is_function_kind(kind) || is_procedure_kind(kind),
    }
}

/// An object or a subtype whose own declaration names no type.
fn is_unclear(known: &Known<'_, '_>, denoted: Denoted) -> bool
    ensures { result ≡ is_unclear known.now denoted }
{
    is_unclear_object(known, denoted) || denotes_unclear_mark(known, denoted)
}

/// What an attribute may be asked of.
#[tactic(auto, unfolding(ada_legality::specs::ReadExpressions::may_have_attribute))]
fn may_have_attribute(known: &Known<'_, '_>, attribute: Attribute, denoted: Denoted) -> bool
    ensures { result ≡ may_have_attribute known.now attribute denoted }
{
    match attribute {
        Attribute::First => type_of_ends(known, denoted).is_some() || is_unclear(known, denoted),
        Attribute::Last => type_of_ends(known, denoted).is_some() || is_unclear(known, denoted),
        Attribute::Image => has_images(known, denoted) || denotes_unclear_mark(known, denoted),
        Attribute::Count => counts(known, denoted),
        Attribute::Identity => {
            is_task_object(known, denoted) || is_unclear_object(known, denoted)
        }
        Attribute::Access => denotes_subprogram(known, denoted),
    }
}

/// An attribute may be asked of what a name denotes.
fn name_may_have(known: &Known<'_, '_>, attribute: Attribute, name: &Name) -> bool
    ensures { result ≡ is_denoted (may_have_attribute known.now attribute) known.now name.now }
{
    match denoted_by(known.names.get(), name) {
        None => false,
        Some(denoted) => may_have_attribute(known, attribute, denoted),
    }
}

/// A name denotes a subprogram of the source.
fn names_subprogram(known: &Known<'_, '_>, name: &Name) -> bool
    ensures { result ≡ is_denoted (denotes_subprogram known.now) known.now name.now }
{
    match denoted_by(known.names.get(), name) {
        None => false,
        Some(denoted) => denotes_subprogram(known, denoted),
    }
}

/// Access of a subprogram that is no handler.
fn no_handler_access(
    found: &mut List<Finding>,
    known: &Known<'_, '_>,
    name: &Name,
    attribute: Attribute,
) -> Result<(), NoMemory>
    ensures { OnOk result
        (found.new ≡ found.old ++ no_handler_access known.now name.now attribute) }
{
    match attribute {
        Attribute::Access => {
            let broken = names_subprogram(known, name) && !is_library_handler(known, name);
            broken_if(found, Rule::HandlerProcedure, broken, place_of(name))
        }
        _ => Ok(()),
    }
}

/// An attribute without arguments.
#[tactic(auto, unfolding(ada_legality::specs::ReadExpressions::attribute_alone))]
pub fn attribute_alone(
    found: &mut List<Finding>,
    known: &Known<'_, '_>,
    name: &Name,
    attribute: Attribute,
) -> Result<(), NoMemory>
    ensures { OnOk result (found.new ≡ found.old ++ attribute_alone known.now name.now attribute) }
{
    let kept = name_may_have(known, attribute, name);
    broken_unless(found, Rule::KindOfName, kept, place_of(name))?;
    no_handler_access(found, known, name, attribute)
}

/// Another attribute, which has no argument.
pub fn other_attribute(
    found: &mut List<Finding>,
    known: &Known<'_, '_>,
    name: &Name,
    attribute: Attribute,
    actuals: &[ActualPart],
) -> Result<(), NoMemory>
    ensures { OnOk result
        (found.new ≡ found.old ++ other_attribute known.now name.now attribute actuals.now) }
{
    match actuals {
        [] => attribute_alone(found, known, name, attribute),
        [_, ..] => broken_if(found, Rule::Actuals, true, place_of(name)),
    }
}
