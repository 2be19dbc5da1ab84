//! Aspects with their values (ISO/IEC 8652:2012, 13.1.1).
ghost use Rattle.std.specs.Prelude.{◌≡◌, ◌++◌, OnOk};
ghost use Rattle.ada_legality.specs.Findings.{Reads};
ghost use Rattle.ada_legality.specs.Aspects.{aspect_alone, aspect_named, aspect_read};
ghost use Rattle.ada_legality.specs.Aspects.{aspect_with_value, aspects_found};
ghost use Rattle.ada_legality.specs.Aspects.{aspects_judged, aspects_read, static_level};

use ada_legality::{AspectName, AspectOwner, AspectPart, Finding, Known, Number, Rule, add_aspect};
use ada_regions::{AdaType, Names};
use ada_subtypes::static_value;
use ada_tree::{Aspect, Expression, Identifier};
use ann_base::{NoMemory, Place};
use image_policies::level_of;
use legality_choices::{aspects_from, may_be_attached, stands_before_attach, static_number};
use legality_expressions::Readable;
use legality_reads::without_point;
use legality_types::broken_if;
use profile_image::ImageList;
use std::alloc::Global;
use world_tables::List;

/// Which aspect it is.
#[tactic(auto, unfolding(ada_legality::specs::Aspects::aspect_named))]
fn aspect_named(name: &[u8]) -> AspectName
    ensures { result ≡ aspect_named name.now }
{
    if name == b"priority".as_slice() {
        AspectName::Priority
    } else if name == b"interrupt_priority".as_slice() {
        AspectName::InterruptPriority
    } else if name == b"cpu".as_slice() {
        AspectName::Cpu
    } else if name == b"relative_deadline".as_slice() {
        AspectName::RelativeDeadline
    } else if name == b"attach_handler".as_slice() {
        AspectName::AttachHandler
    } else {
        AspectName::Other
    }
}

/// A priority that is static.
#[tactic(auto, unfolding(ada_legality::specs::Aspects::static_level))]
fn static_level(names: &Names<'_>, expression: &Expression) -> Option<u32>
    ensures { result ≡ static_level names.now expression.now }
{
    let value = static_value(names, expression)?;
    level_of(value)
}

/// An aspect with a value, of which nothing is expected but that it is no number with a point.
#[tactic(auto, unfolding(ada_legality::specs::Aspects::aspect_with_value))]
fn aspect_with_value(
    alloc: Global,
    found: &mut List<Finding>,
    known: &Known<'_, '_>,
    name: &Identifier,
    value: &Expression,
) -> Result<AspectPart, NoMemory>
    ensures { Reads (aspect_with_value name.now value.now known.now) found.old found.new result }
{
    let read = value.read(alloc, found, known)?;
    without_point(found, &read)?;
    let number = static_number(known, AdaType::Integer, value, read.typed)?;
    Ok(AspectPart {
        place: name.place,
        name: aspect_named(name.text.as_slice()),
        typed: Some(read.typed),
        number,
        level: static_level(known.names.get(), value),
    })
}

/// An aspect without a value.
#[tactic(auto, unfolding(ada_legality::specs::Aspects::aspect_alone))]
fn aspect_alone(name: &Identifier) -> AspectPart
    ensures { result ≡ aspect_alone name.now }
{
    AspectPart {
        place: name.place,
        name: aspect_named(name.text.as_slice()),
        typed: None,
        number: None,
        level: None,
    }
}

/// An aspect.
#[tactic(auto, unfolding(ada_legality::specs::Aspects::aspect_read))]
fn aspect_read(
    alloc: Global,
    found: &mut List<Finding>,
    known: &Known<'_, '_>,
    name: &Identifier,
    value: &Option<Expression>,
) -> Result<AspectPart, NoMemory>
    ensures { Reads (aspect_read name.now value.now known.now) found.old found.new result }
{
    match value {
        None => Ok(aspect_alone(name)),
        Some(value) => aspect_with_value(alloc, found, known, name, value),
    }
}

// Aspects in their order. The check of borrows asks that a loop whose list holds numbers is in a
// function that names their type.
#[tactic(auto, unfolding(ada_legality::specs::Aspects::aspects_read))]
fn aspects_in_order(
    alloc: Global,
    found: &mut List<Finding>,
    known: &Known<'_, '_>,
    aspects: &[Aspect],
    _number: Option<Number>,
) -> Result<ImageList<AspectPart>, NoMemory>
    ensures { Reads (aspects_read aspects.now known.now) found.old found.new result }
{
    let mut parts = ImageList::new(alloc);
    for aspect in aspects {
        let part = aspect_read(alloc, found, known, &aspect.name, &aspect.value)?;
        add_aspect(&mut parts, part)?;
    }
    Ok(parts)
}

/// Aspects in their order.
fn aspects_read(
    alloc: Global,
    found: &mut List<Finding>,
    known: &Known<'_, '_>,
    aspects: &[Aspect],
) -> Result<ImageList<AspectPart>, NoMemory>
    ensures { Reads (aspects_read aspects.now known.now) found.old found.new result }
{
    aspects_in_order(alloc, found, known, aspects, None)
}

/// The aspects of a construct that begins here.
#[tactic(auto, unfolding(ada_legality::specs::Aspects::aspects_judged))]
fn aspects_judged(
    found: &mut List<Finding>,
    known: &Known<'_, '_>,
    owner: AspectOwner,
    place: Place,
    aspects: &[AspectPart],
) -> Result<(), NoMemory>
    ensures { OnOk result
        (found.new ≡ found.old ++ aspects_judged known.now owner place aspects.now) }
{
    let broken = stands_before_attach(aspects) && !may_be_attached(owner);
    broken_if(found, Rule::HandlerProcedure, broken, place)?;
    aspects_from(
        found,
        known.names.get().last_priority,
        owner,
        place,
        aspects,
    )
}

/// Aspects that are read and judged.
#[tactic(auto, unfolding(ada_legality::specs::Aspects::aspects_found))]
pub fn aspects_found(
    alloc: Global,
    found: &mut List<Finding>,
    known: &Known<'_, '_>,
    owner: AspectOwner,
    place: Place,
    aspects: &[Aspect],
) -> Result<ImageList<AspectPart>, NoMemory>
    ensures { Reads (aspects_found owner place aspects.now known.now) found.old found.new result }
{
    let parts = aspects_read(alloc, found, known, aspects)?;
    aspects_judged(found, known, owner, place, parts.as_slice())?;
    Ok(parts)
}
