//! What names denote, the entities of a text, and the earliest fault of its names (ISO/IEC
//! 8652:2012, 3.1, 8.6).
ghost use Rattle.std.specs.Prelude.{◌≡◌, None, OnOk, option_copied};
ghost use Rattle.world_tables.specs.Tables.{item_at};
ghost use Rattle.ada_regions.specs.Completions.{holds_of};
ghost use Rattle.ada_regions.specs.Regions.{is_package, is_used_package};
ghost use Rattle.ada_regions.specs.Names.{place_of_fault, earlier, told, noted_among, noted_in};
ghost use Rattle.ada_regions.specs.Names.{noted, denoted_at, last_part, denoted_by, entity_at};
ghost use Rattle.ada_regions.specs.Names.{kind_at, region_of_entity, entity_of, entity_denoted};

use crate::places::stands_before;
use ada_regions::{Denoted, Entity, EntityKind, NameFault, Names};
use ada_tree::{Identifier, Name};
use ann_base::{NoMemory, Place};
use std::alloc::Global;
use world_tables::Table;

fn place_of_fault(fault: NameFault) -> Place
    ensures { result ≡ place_of_fault fault }
{
    match fault {
        NameFault::Unknown(place) => place,
        NameFault::Twice(place) => place,
        NameFault::Ambiguous(place) => place,
    }
}

/// The earlier in the text of a fault that was told, if one was, and another one.
pub fn earlier(fault: Option<NameFault>, other: NameFault) -> NameFault
    ensures { result ≡ earlier fault other }
{
    match fault {
        None => other,
        Some(fault) => {
            if stands_before(place_of_fault(other), place_of_fault(fault)) {
                other
            } else {
                fault
            }
        }
    }
}

/// A fault is told; the earliest in the text counts.
pub fn told(names: &mut Names<'_>, fault: NameFault)
    ensures { names.new ≡ told fault names.old }
{
    names.fault = Some(earlier(names.fault, fault));
}

/// The first name of a line denotes this.
fn noted_first(
    alloc: Global,
    lines: &mut Table<Table<Denoted>>,
    place: Place,
    denoted: Denoted,
) -> Result<(), NoMemory>
    ensures { OnOk result (lines.new ≡ noted_among None place denoted lines.old) }
{
    let mut columns = Table::new(alloc);
    columns.put(place.column, denoted)?;
    lines.put(place.line, columns)?;
    Ok(())
}

fn noted_in(
    alloc: Global,
    lines: &mut Table<Table<Denoted>>,
    place: Place,
    denoted: Denoted,
) -> Result<(), NoMemory>
    ensures { OnOk result (lines.new ≡ noted_in place denoted lines.old) }
{
    match lines.get_mut(place.line) {
        Some(columns) => {
            columns.put(place.column, denoted)?;
            Ok(())
        }
        None => noted_first(alloc, lines, place, denoted),
    }
}

/// The name at a place denotes this.
pub fn noted(
    alloc: Global,
    names: &mut Names<'_>,
    place: Place,
    denoted: Denoted,
) -> Result<(), NoMemory>
    ensures { OnOk result (names.new ≡ noted place denoted names.old) }
{
    noted_in(alloc, &mut names.denotations, place, denoted)
}

/// What the name at this column denotes, where its line has some.
fn denoted_among(columns: &Table<Denoted>, column: u32) -> Option<Denoted>
    ensures { result ≡ item_at column columns.now }
{
    let denoted = columns.get(column)?;
    Some(*denoted)
}

/// What the name at this place denotes.
pub fn denoted_at(names: &Names<'_>, place: Place) -> Option<Denoted>
    ensures { result ≡ denoted_at names.now place }
{
    let columns = names.denotations.get(place.line)?;
    denoted_among(columns, place.column)
}

/// The last identifier of a name.
pub fn last_part(name: &Name) -> &Identifier
    ensures { result.now ≡ last_part name.now }
{
    let mut last = &name.parts.first;
    for part in name.parts.others.as_slice() {
        last = part;
    }
    last
}

/// What a name denotes.
pub fn denoted_by(names: &Names<'_>, name: &Name) -> Option<Denoted>
    ensures { result ≡ denoted_by names.now name.now }
{
    denoted_at(names, last_part(name).place)
}

/// The entity with this number, if there is one.
pub fn entity_at<'n>(names: &'n Names<'_>, entity: u32) -> Option<&'n Entity>
    ensures { option_copied result ≡ entity_at names.now entity }
{
    names.entities.get(entity as usize)
}

/// What the entity with this number is, if there is one.
pub fn kind_at<'n>(names: &'n Names<'_>, entity: u32) -> Option<&'n EntityKind>
    ensures { option_copied result ≡ kind_at names.now entity }
{
    let entity = entity_at(names, entity)?;
    Some(&entity.kind)
}

/// Whether an entity is a package (7.1).
pub fn is_package_at(names: &Names<'_>, entity: u32) -> bool
    ensures { result ≡ holds_of is_package (kind_at names.now entity) }
{
    match kind_at(names, entity) {
        None => false,
        Some(kind) => matches!(kind, EntityKind::Package),
    }
}

/// Whether it is a package, or a predefined unit.
pub fn is_used_package(names: &Names<'_>, denoted: Denoted) -> bool
    ensures { result ≡ is_used_package names.now denoted }
{
    match denoted {
        Denoted::Entity(entity) => is_package_at(names, entity),
        Denoted::Unit(_) => true,
        Denoted::Item { .. } => false,
    }
}

/// The region of an entity that has one.
pub fn region_of_entity(names: &Names<'_>, entity: u32) -> Option<u32>
    ensures { result ≡ region_of_entity names.now entity }
{
    entity_at(names, entity)?.region
}

/// The number of the entity that is denoted; what is predefined has none.
pub fn entity_of(denoted: Denoted) -> Option<u32>
    ensures { result ≡ entity_of denoted }
{
    match denoted {
        Denoted::Entity(entity) => Some(entity),
        Denoted::Unit(_) => None,
        Denoted::Item { .. } => None,
    }
}

/// The number of the entity that the name at this place denotes.
pub fn entity_denoted(names: &Names<'_>, place: Place) -> Option<u32>
    ensures { result ≡ entity_denoted names.now place }
{
    entity_of(denoted_at(names, place)?)
}
