//! Task and protected units, the components of controlled types, accepts, blocks and loops (ISO/IEC
//! 8652:2012, 3.9.1, 5.5, 5.6, 9.1, 9.4, 9.5.2).
ghost use Rattle.std.specs.Prelude.{◌≡◌, true, false, option_map, IfOk, OnOk};
ghost use Rattle.ada_regions.specs.Words.{and_then};
ghost use Rattle.ada_regions.specs.Names.{kind_at, region_of_entity};
ghost use Rattle.ada_regions.specs.Declaring.{type_of_kind};
ghost use Rattle.ada_regions.specs.Regions.{unit_frame, record_frame, opened_if};
ghost use Rattle.ada_regions.specs.Regions.{unit_begun, record_begun, accept_frame};
ghost use Rattle.ada_regions.specs.Regions.{loop_frame, opened_new, with_scope, next_scope};

use crate::frames::{next_scope, opened_new, with_scope};
use ada_completions::{components_of, type_of_entity};
use ada_entities::{copy, no_frame, opened, region_of_entity};
use ada_regions::{AdaType, Frame, Names};
use ada_tree::Identifier;
use ann_base::{NoMemory, Place};
use std::alloc::Global;

/// The frame of a region that exports what is declared in it.
fn exporting_frame(
    alloc: Global,
    owner: Option<u32>,
    identifier: &Identifier,
    of_type: Option<AdaType>,
    region: u32,
) -> Result<Frame, NoMemory>
    ensures { IfOk result
        (λ frame. frame ≡ record (record_frame identifier.now of_type region) { owner = owner }) }
{
    let name = copy(alloc, identifier.text.as_slice())?;
    Ok(Frame {
        region,
        owner,
        scope: None,
        is_accept: false,
        name: Some(name),
        exports: true,
        components: components_of(of_type),
        part: 0,
    })
}

/// A task or protected unit that is declared begins: its region is that of its entity.
fn unit_opened(
    alloc: Global,
    names: &mut Names<'_>,
    entity: u32,
    identifier: &Identifier,
) -> Result<(), NoMemory>
    ensures { OnOk result
        (names.new
        ≡ opened_if
        (option_map
        (unit_frame entity identifier.now (and_then (kind_at names.old entity) type_of_kind))
        (region_of_entity names.old entity)) names.old) }
{
    match region_of_entity(names, entity) {
        None => opened_new(names, no_frame()),
        Some(region) => {
            let of_type = type_of_entity(names, entity);
            let frame = exporting_frame(alloc, Some(entity), identifier, of_type, region)?;
            opened(names, frame)
        }
    }
}

/// A task or protected unit begins.
#[tactic(auto, unfolding(ada_regions::specs::Regions::unit_begun))]
pub(crate) fn unit_begun(
    alloc: Global,
    names: &mut Names<'_>,
    entity: Option<u32>,
    identifier: &Identifier,
) -> Result<(), NoMemory>
    ensures { OnOk result (names.new ≡ unit_begun entity identifier.now names.old) }
{
    match entity {
        None => opened_new(names, no_frame()),
        Some(entity) => unit_opened(alloc, names, entity, identifier),
    }
}

/// The components of a controlled type that is declared begin: their region is that of its entity.
fn record_opened(
    alloc: Global,
    names: &mut Names<'_>,
    entity: u32,
    identifier: &Identifier,
) -> Result<(), NoMemory>
    ensures { OnOk result
        (names.new
        ≡ opened_if
        (option_map (record_frame identifier.now (and_then (kind_at names.old entity) type_of_kind))
        (region_of_entity names.old entity)) names.old) }
{
    match region_of_entity(names, entity) {
        None => opened_new(names, no_frame()),
        Some(region) => {
            let of_type = type_of_entity(names, entity);
            let frame = exporting_frame(alloc, None, identifier, of_type, region)?;
            opened(names, frame)
        }
    }
}

/// The components of a controlled type begin.
#[tactic(auto, unfolding(ada_regions::specs::Regions::record_begun))]
pub(crate) fn record_begun(
    alloc: Global,
    names: &mut Names<'_>,
    entity: Option<u32>,
    identifier: &Identifier,
) -> Result<(), NoMemory>
    ensures { OnOk result (names.new ≡ record_begun entity identifier.now names.old) }
{
    match entity {
        None => opened_new(names, no_frame()),
        Some(entity) => record_opened(alloc, names, entity, identifier),
    }
}

/// An accept statement begins.
pub(crate) fn accept_begun(
    names: &mut Names<'_>,
    entity: Option<u32>,
    place: Place,
) -> Result<(), NoMemory>
    ensures { OnOk result
        (names.new
        ≡ opened_new (accept_frame (next_scope names.old) entity)
        (with_scope place false true names.old)) }
{
    let mut frame = no_frame();
    frame.owner = entity;
    frame.scope = next_scope(names)?;
    frame.is_accept = true;
    with_scope(names, place, false, true)?;
    opened_new(names, frame)
}

/// A loop begins.
pub(crate) fn loop_begun(names: &mut Names<'_>, entity: Option<u32>) -> Result<(), NoMemory>
    ensures { OnOk result (names.new ≡ opened_new (loop_frame entity) names.old) }
{
    let mut frame = no_frame();
    frame.owner = entity;
    opened_new(names, frame)
}
