//! The bodies of task and protected units, and the names of entry bodies (ISO/IEC 8652:2012, 9.1,
//! 9.4, 9.5.2).
ghost use Rattle.std.specs.Prelude.{◌≡◌, [], OnOk};
ghost use Rattle.profile_image.specs.Words.{edit_at};
ghost use Rattle.ada_regions.specs.Words.{and_then};
ghost use Rattle.ada_regions.specs.Names.{kind_at, region_of_entity};
ghost use Rattle.ada_regions.specs.Declaring.{type_of_kind};
ghost use Rattle.ada_regions.specs.Completions.{body_apart, seen_again, is_of_kind, type_is};
ghost use Rattle.ada_regions.specs.Completions.{is_unit, components_in, components_of};
ghost use Rattle.ada_regions.specs.Completions.{with_scope_of, task_numbered, task_scoped};
ghost use Rattle.ada_regions.specs.Completions.{body_of_unit, has_body, first_body};
ghost use Rattle.ada_regions.specs.Completions.{later_body, body_here, body_elsewhere};
ghost use Rattle.ada_regions.specs.Completions.{body_begun, entry_mentioned};

use crate::bodies::{body_apart, body_frame};
use crate::seen_again::seen_again;
use crate::subprograms::{entity_bound, with_body};
use ada_entities::{entity_denoted, kind_at, noted, opened, region_here, region_of_entity};
use ada_regions::{AdaType, ComponentOwner, Denoted, Names, NumberedTask, UnitKind, type_of_kind};
use ada_tree::Identifier;
use ada_visibility::resolved;
use ann_base::NoMemory;
use std::alloc::Global;
use world_tables::List;

fn is_of_kind(kind: UnitKind, of_type: AdaType) -> bool
    ensures { result ≡ is_of_kind kind of_type }
{
    match kind {
        UnitKind::Task => matches!(of_type, AdaType::Task(_)),
        UnitKind::Protected => matches!(of_type, AdaType::Protected(_)),
    }
}

fn type_is(kind: UnitKind, of_type: Option<AdaType>) -> bool
    ensures { result ≡ type_is kind of_type }
{
    match of_type {
        None => false,
        Some(of_type) => is_of_kind(kind, of_type),
    }
}

/// The type of an entity, if it has one.
pub fn type_of_entity(names: &Names<'_>, entity: u32) -> Option<AdaType>
    ensures { result ≡ and_then (kind_at names.now entity) type_of_kind }
{
    let kind = kind_at(names, entity)?;
    type_of_kind(kind)
}

/// Whether an entity is a unit of this kind, and no other object of its type.
#[tactic(auto, unfolding(ada_regions::specs::Completions::is_unit))]
pub fn is_unit(names: &Names<'_>, kind: UnitKind, entity: u32) -> bool
    ensures { result ≡ is_unit kind names.now entity }
{
    region_of_entity(names, entity).is_some() && type_is(kind, type_of_entity(names, entity))
}

fn components_in(of_type: AdaType) -> Option<ComponentOwner>
    ensures { result ≡ components_in of_type }
{
    match of_type {
        AdaType::Protected(unit) => Some(ComponentOwner::Protected(unit)),
        AdaType::Derived(controlled) => Some(ComponentOwner::Controlled(controlled)),
        _ => None,
    }
}

/// Of which objects the variables in a unit of this type are components.
pub fn components_of(of_type: Option<AdaType>) -> Option<ComponentOwner>
    ensures { result ≡ components_of of_type }
{
    let of_type = of_type?;
    components_in(of_type)
}

#[tactic(auto, using(crate::proofs::Edits::edited_past))]
fn edit_scope(task_units: &mut List<NumberedTask<'_>>, number: u32, scope: u32)
    ensures { task_units.new ≡ edit_at number (with_scope_of scope) task_units.old }
{
    if let Some(unit) = task_units.get_mut(number as usize) {
        unit.scope = scope;
    }
}

fn task_numbered(names: &mut Names<'_>, of_type: AdaType, scope: u32)
    ensures { names.new ≡ task_numbered of_type scope names.old }
{
    match of_type {
        AdaType::Task(unit) => edit_scope(&mut names.task_units, unit.0, scope),
        _ => (),
    }
}

/// The body of a task unit has its scope.
#[tactic(auto, unfolding(ada_regions::specs::Completions::task_scoped))]
fn task_scoped(names: &mut Names<'_>, of_type: Option<AdaType>, scope: Option<u32>)
    ensures { names.new ≡ task_scoped of_type scope names.old }
{
    match (of_type, scope) {
        (None, _) => (),
        (Some(_), None) => (),
        (Some(of_type), Some(scope)) => task_numbered(names, of_type, scope),
    }
}

#[tactic(auto, unfolding(ada_regions::specs::Completions::body_of_unit))]
fn body_of_unit(
    alloc: Global,
    names: &mut Names<'_>,
    entity: u32,
    region: u32,
    identifier: &Identifier,
    scope: Option<u32>,
) -> Result<(), NoMemory>
    ensures { OnOk result (names.new ≡ body_of_unit entity region identifier.now scope names.old) }
{
    let of_type = type_of_entity(names, entity);
    let mut frame = body_frame(alloc, region, Some(entity), identifier, scope)?;
    frame.components = components_of(of_type);
    opened(names, frame)?;
    task_scoped(names, of_type, scope);
    with_body(names, entity)
}

/// Whether the table knows the body of an entity.
pub fn has_body(names: &Names<'_>, entity: u32) -> bool
    ensures { result ≡ has_body names.now entity }
{
    names.bodies.iter().any(|body| entity == *body)
}

/// A body in a region of its own, that sees what the unit declares.
fn body_again(
    alloc: Global,
    names: &mut Names<'_>,
    entity: u32,
    region: u32,
    identifier: &Identifier,
    scope: Option<u32>,
) -> Result<(), NoMemory>
    ensures { OnOk result
        (names.new
        ≡ body_apart (Some entity) identifier.now scope (seen_again names.old region) names.old) }
{
    let seen = seen_again(alloc, names, region)?;
    body_apart(alloc, names, Some(entity), identifier, scope, seen)
}

/// A body in a region of its own, that sees nothing of a unit.
fn body_alone(
    alloc: Global,
    names: &mut Names<'_>,
    identifier: &Identifier,
    scope: Option<u32>,
) -> Result<(), NoMemory>
    ensures { OnOk result (names.new ≡ body_apart None identifier.now scope [] names.old) }
{
    body_apart(alloc, names, None, identifier, scope, List::new(alloc))
}

#[tactic(auto, unfolding(ada_regions::specs::Completions::first_body))]
fn first_body(
    alloc: Global,
    names: &mut Names<'_>,
    entity: u32,
    identifier: &Identifier,
    scope: Option<u32>,
) -> Result<(), NoMemory>
    ensures { OnOk result
        (names.new
        ≡ first_body entity (region_of_entity names.old entity) identifier.now scope names.old) }
{
    match region_of_entity(names, entity) {
        None => body_alone(alloc, names, identifier, scope),
        Some(region) => {
            if has_body(names, entity) {
                body_again(alloc, names, entity, region, identifier, scope)
            } else {
                body_of_unit(alloc, names, entity, region, identifier, scope)
            }
        }
    }
}

#[tactic(auto, unfolding(ada_regions::specs::Completions::later_body))]
fn later_body(
    alloc: Global,
    names: &mut Names<'_>,
    entity: u32,
    identifier: &Identifier,
    scope: Option<u32>,
) -> Result<(), NoMemory>
    ensures { OnOk result
        (names.new
        ≡ later_body entity (region_of_entity names.old entity) identifier.now scope names.old) }
{
    match region_of_entity(names, entity) {
        None => body_alone(alloc, names, identifier, scope),
        Some(region) => body_again(alloc, names, entity, region, identifier, scope),
    }
}

/// A body whose name its own region declares.
#[tactic(auto, unfolding(ada_regions::specs::Completions::body_here))]
fn body_here(
    alloc: Global,
    names: &mut Names<'_>,
    kind: UnitKind,
    entity: u32,
    identifier: &Identifier,
    scope: Option<u32>,
) -> Result<(), NoMemory>
    ensures { OnOk result (names.new ≡ body_here kind entity identifier.now scope names.old) }
{
    if is_unit(names, kind, entity) {
        noted(alloc, names, identifier.place, Denoted::Entity(entity))?;
        first_body(alloc, names, entity, identifier, scope)
    } else {
        body_alone(alloc, names, identifier, scope)
    }
}

/// A body whose name denotes something further out, or nothing.
#[tactic(auto, unfolding(ada_regions::specs::Completions::body_elsewhere))]
fn body_elsewhere(
    alloc: Global,
    names: &mut Names<'_>,
    kind: UnitKind,
    entity: Option<u32>,
    identifier: &Identifier,
    scope: Option<u32>,
) -> Result<(), NoMemory>
    ensures { OnOk result (names.new ≡ body_elsewhere kind entity identifier.now scope names.old) }
{
    match entity {
        None => body_alone(alloc, names, identifier, scope),
        Some(entity) => {
            if is_unit(names, kind, entity) {
                later_body(alloc, names, entity, identifier, scope)
            } else {
                body_alone(alloc, names, identifier, scope)
            }
        }
    }
}

/// The body of a task or protected unit begins.
#[tactic(auto, unfolding(ada_regions::specs::Completions::body_begun, ada_regions::specs::Completions::body_sought))]
pub fn body_begun(
    alloc: Global,
    names: &mut Names<'_>,
    kind: UnitKind,
    identifier: &Identifier,
    scope: Option<u32>,
) -> Result<(), NoMemory>
    ensures { OnOk result (names.new ≡ body_begun kind identifier.now scope names.old) }
{
    match entity_bound(names, region_here(names), identifier.text.as_slice()) {
        Some(entity) => body_here(alloc, names, kind, entity, identifier, scope),
        None => {
            resolved(alloc, names, identifier)?;
            let entity = entity_denoted(names, identifier.place);
            body_elsewhere(alloc, names, kind, entity, identifier, scope)
        }
    }
}

/// The name of an entry's body: an entry of the unit, else whatever the name denotes.
#[tactic(auto, unfolding(ada_regions::specs::Completions::entry_mentioned))]
pub fn entry_mentioned(
    alloc: Global,
    names: &mut Names<'_>,
    identifier: &Identifier,
) -> Result<(), NoMemory>
    ensures { OnOk result (names.new ≡ entry_mentioned identifier.now names.old) }
{
    match entity_bound(names, region_here(names), identifier.text.as_slice()) {
        Some(entity) => noted(alloc, names, identifier.place, Denoted::Entity(entity)),
        None => resolved(alloc, names, identifier),
    }
}
