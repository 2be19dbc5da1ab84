//! Bindings of names, and entities (ISO/IEC 8652:2012, 3.1, 8.3).
ghost use Rattle.std.specs.Prelude.{◌≡◌, IfOk, OnOk, is_some};
ghost use Rattle.ada_regions.specs.Names.{binding_in, enclosure_of};
ghost use Rattle.ada_regions.specs.Declaring.{with_binding, hidden, is_taken, told_if_taken};
ghost use Rattle.ada_regions.specs.Declaring.{with_entity, entered, entered_here};
ghost use Rattle.ada_regions.specs.Declaring.{library_frame, unit_is_taken, entered_as_unit};

use ada_entities::{binding_in, bound_in, copy, enclosure_here, noted, region_here, told};
use ada_regions::{Binding, Denoted, Enclosure, Entity, EntityKind, NameFault, Names};
use ada_tree::Identifier;
use ada_visibility::{bound, in_standard};
use ann_base::{NoMemory, Place};
use std::alloc::Global;

/// A count as a number of 32 bits.
pub fn number(count: usize) -> Result<u32, NoMemory>
    ensures { IfOk result (λ number. number ≡ count) }
{
    if count <= u32::MAX as usize {
        Ok(count as u32)
    } else {
        Err(NoMemory)
    }
}

/// A name is bound in a region.
fn with_binding(
    alloc: Global,
    names: &mut Names<'_>,
    enclosure: Enclosure,
    name: &[u8],
    entity: Option<u32>,
) -> Result<(), NoMemory>
    ensures { OnOk result (names.new ≡ with_binding enclosure name.now entity names.old) }
{
    let name = copy(alloc, name)?;
    let binding = Binding {
        name,
        entity,
        exported: enclosure.exports,
    };
    bound_in(alloc, &mut names.bindings, enclosure.region, binding)
}

/// Whether a region binds a name, be it hidden or not.
fn is_bound(names: &Names<'_>, region: u32, name: &[u8]) -> bool
    ensures { result ≡ is_some (binding_in names.now.bindings region name.now) }
{
    match binding_in(&names.bindings, region, name) {
        Some(_) => true,
        None => false,
    }
}

/// A name is hidden where its region has none of it (8.3).
#[tactic(auto, unfolding(ada_regions::specs::Declaring::hidden))]
pub fn hidden(alloc: Global, names: &mut Names<'_>, identifier: &Identifier) -> Result<(), NoMemory>
    ensures { OnOk result (names.new ≡ hidden identifier.now names.old) }
{
    let enclosure = enclosure_here(names);
    if is_bound(names, enclosure.region, identifier.text.as_slice()) {
        Ok(())
    } else {
        with_binding(alloc, names, enclosure, identifier.text.as_slice(), None)
    }
}

/// Whether a region has a declaration of this name already.
pub fn is_taken(names: &Names<'_>, region: u32, name: &[u8]) -> bool
    ensures { result ≡ is_taken names.now region name.now }
{
    match binding_in(&names.bindings, region, name) {
        Some(binding) => bound(binding).is_some(),
        None => false,
    }
}

fn told_if_taken(names: &mut Names<'_>, taken: bool, identifier: &Identifier)
    ensures { names.new ≡ told_if_taken taken identifier.now names.old }
{
    if taken {
        told(names, NameFault::Twice(identifier.place));
    }
}

/// An entity that is new gets the next number.
fn with_entity(
    names: &mut Names<'_>,
    place: Place,
    kind: EntityKind,
    region: Option<u32>,
) -> Result<(), NoMemory>
    ensures { OnOk result (names.new ≡ with_entity place kind region names.old) }
{
    names.entities.push_back(Entity {
        place,
        kind,
        region,
    })?;
    Ok(())
}

/// A name is declared in this region.
#[tactic(auto, unfolding(ada_regions::specs::Declaring::entered))]
pub fn entered(
    alloc: Global,
    names: &mut Names<'_>,
    enclosure: Enclosure,
    taken: bool,
    identifier: &Identifier,
    kind: EntityKind,
    region: Option<u32>,
) -> Result<(), NoMemory>
    ensures { OnOk result
        (names.new ≡ entered enclosure taken identifier.now kind region names.old) }
{
    let entity = number(names.entities.len())?;
    told_if_taken(names, taken, identifier);
    with_entity(names, identifier.place, kind, region)?;
    with_binding(
        alloc,
        names,
        enclosure,
        identifier.text.as_slice(),
        Some(entity),
    )?;
    noted(alloc, names, identifier.place, Denoted::Entity(entity))
}

/// A name is declared in the region in which it stands.
#[tactic(auto, unfolding(ada_regions::specs::Declaring::entered_here))]
pub fn entered_here(
    alloc: Global,
    names: &mut Names<'_>,
    identifier: &Identifier,
    kind: EntityKind,
    region: Option<u32>,
) -> Result<(), NoMemory>
    ensures { OnOk result (names.new ≡ entered_here identifier.now kind region names.old) }
{
    let enclosure = enclosure_here(names);
    let taken = is_taken(names, region_here(names), identifier.text.as_slice());
    entered(alloc, names, enclosure, taken, identifier, kind, region)
}

/// The region of Standard, in which library units stand (10.1).
fn library_enclosure() -> Enclosure
    ensures { result ≡ enclosure_of library_frame }
{
    Enclosure {
        region: 0,
        exports: false,
        components: None,
        part: 0,
    }
}

#[tactic(auto, unfolding(ada_regions::specs::Declaring::unit_is_taken))]
fn unit_is_taken(names: &Names<'_>, name: &[u8]) -> bool
    ensures { result ≡ unit_is_taken names.now name.now }
{
    is_taken(names, 0, name) || in_standard(names.last_priority, name).is_some()
}

/// A library unit is declared (10.1).
#[tactic(auto, unfolding(ada_regions::specs::Declaring::entered_as_unit))]
pub fn entered_as_unit(
    alloc: Global,
    names: &mut Names<'_>,
    identifier: &Identifier,
    kind: EntityKind,
    region: Option<u32>,
) -> Result<(), NoMemory>
    ensures { OnOk result (names.new ≡ entered_as_unit identifier.now kind region names.old) }
{
    let taken = unit_is_taken(names, identifier.text.as_slice());
    entered(
        alloc,
        names,
        library_enclosure(),
        taken,
        identifier,
        kind,
        region,
    )
}
