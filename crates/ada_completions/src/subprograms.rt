//! The bodies of subprograms (ISO/IEC 8652:2012, 6.3).
ghost use Rattle.std.specs.Prelude.{◌≡◌, OnOk};
ghost use Rattle.profile_image.specs.Words.{edit_at};
ghost use Rattle.ada_regions.specs.Words.{and_then};
ghost use Rattle.ada_regions.specs.Names.{kind_at};
ghost use Rattle.ada_regions.specs.Completions.{specified_number, entity_bound, is_specified};
ghost use Rattle.ada_regions.specs.Completions.{completed_in, headed, with_body};
ghost use Rattle.ada_regions.specs.Completions.{with_body_of, numbered_if, body_of_declared};
ghost use Rattle.ada_regions.specs.Completions.{completed_or_declared, completed};

use crate::frames::owned;
use ada_declarations::{hidden, subprogram_declared};
use ada_entities::{
    binding_in, entity_denoted, kind_at, noted, outside_enclosure, region_here, scope_in,
};
use ada_regions::{Denoted, Enclosure, EntityKind, Formal, Names, NumberedSubprogram};
use ada_subtypes::formals_of;
use ada_tree::{Identifier, SubprogramSpecification};
use ann_base::NoMemory;
use profile_image::{ImageList, SubprogramNo};
use std::alloc::Global;
use world_tables::List;

/// The number of a subprogram that a subprogram declaration declares.
fn specified_number(kind: &EntityKind) -> Option<SubprogramNo>
    ensures { result ≡ specified_number kind.now }
{
    match kind {
        EntityKind::Subprogram {
            number,
            specified,
            ..
        } => { if *specified { Some(*number) } else { None } }
        _ => None,
    }
}

/// The entity that a region binds to a name, where the name is not hidden.
pub fn entity_bound(names: &Names<'_>, region: u32, name: &[u8]) -> Option<u32>
    ensures { result ≡ entity_bound names.now region name.now }
{
    let binding = binding_in(&names.bindings, region, name)?;
    binding.entity
}

/// The number of an entity that a subprogram declaration declares.
fn number_specified(names: &Names<'_>, entity: u32) -> Option<SubprogramNo>
    ensures { result ≡ and_then (kind_at names.now entity) specified_number }
{
    let kind = kind_at(names, entity)?;
    specified_number(kind)
}

/// Whether a subprogram declaration declares an entity.
pub fn is_specified(names: &Names<'_>, entity: u32) -> bool
    ensures { result ≡ is_specified names.now entity }
{
    number_specified(names, entity).is_some()
}

/// The subprogram that a body in this region completes: the one that is declared there under its
/// name.
#[tactic(auto, unfolding(ada_regions::specs::Completions::completed_in))]
fn completed_in(names: &Names<'_>, region: u32, name: &[u8]) -> Option<u32>
    ensures { result ≡ completed_in names.now region name.now }
{
    let entity = entity_bound(names, region, name)?;
    if is_specified(names, entity) {
        Some(entity)
    } else {
        None
    }
}

/// The name before a body's profile is hidden where it declares the subprogram.
#[tactic(auto, unfolding(ada_regions::specs::Completions::headed))]
pub fn headed(alloc: Global, names: &mut Names<'_>, identifier: &Identifier) -> Result<(), NoMemory>
    ensures { OnOk result (names.new ≡ headed identifier.now names.old) }
{
    if completed_in(names, region_here(names), identifier.text.as_slice()).is_some() {
        Ok(())
    } else {
        hidden(alloc, names, identifier)
    }
}

/// An entity has a body.
pub(crate) fn with_body(names: &mut Names<'_>, entity: u32) -> Result<(), NoMemory>
    ensures { OnOk result (names.new ≡ with_body entity names.old) }
{
    names.bodies.push_front(entity)?;
    Ok(())
}

/// The subprogram with this number has a body with this scope and these formals.
#[tactic(auto, using(crate::proofs::Edits::edited_past))]
fn edit_body(
    subprograms: &mut List<NumberedSubprogram<'_>>,
    number: u32,
    scope: u32,
    formals: ImageList<Formal>,
)
    ensures { subprograms.new ≡ edit_at number (with_body_of scope formals) subprograms.old }
{
    if let Some(subprogram) = subprograms.get_mut(number as usize) {
        subprogram.scope = scope;
        subprogram.formals = formals;
    }
}

/// The body of a declared subprogram gives it a scope, and formals.
#[tactic(auto, unfolding(ada_regions::specs::Completions::numbered_if))]
fn numbered_if(
    alloc: Global,
    names: &mut Names<'_>,
    specification: &SubprogramSpecification,
    number: Option<SubprogramNo>,
) -> Result<(), NoMemory>
    ensures { OnOk result (names.new ≡ numbered_if specification.now names.old number) }
{
    match number {
        None => Ok(()),
        Some(number) => {
            let scope = scope_in(&names.frames);
            let formals = formals_of(alloc, names, specification.parameters.as_slice())?;
            edit_body(&mut names.subprograms, number.0, scope, formals);
            Ok(())
        }
    }
}

#[tactic(auto, unfolding(ada_regions::specs::Completions::body_of_declared))]
fn body_of_declared(
    alloc: Global,
    names: &mut Names<'_>,
    entity: u32,
    identifier: &Identifier,
    specification: &SubprogramSpecification,
) -> Result<(), NoMemory>
    ensures { OnOk result
        (names.new ≡ body_of_declared entity identifier.now specification.now names.old) }
{
    let number = number_specified(names, entity);
    numbered_if(alloc, names, specification, number)?;
    with_body(names, entity)?;
    noted(alloc, names, identifier.place, Denoted::Entity(entity))
}

#[tactic(auto, unfolding(ada_regions::specs::Completions::completed_or_declared))]
fn completed_or_declared<'t>(
    alloc: Global,
    names: &mut Names<'t>,
    outer: Enclosure,
    entity: Option<u32>,
    identifier: &'t Identifier,
    specification: &'t SubprogramSpecification,
) -> Result<(), NoMemory>
    ensures { OnOk result
        (names.new
        ≡ completed_or_declared outer entity identifier.now specification.now names.old) }
{
    match entity {
        Some(entity) => body_of_declared(alloc, names, entity, identifier, specification),
        None => {
            let scope = scope_in(&names.frames);
            subprogram_declared(alloc, names, outer, false, scope, identifier, specification)
        }
    }
}

/// The `is` of a subprogram's body.
#[tactic(auto, unfolding(ada_regions::specs::Completions::completed))]
pub fn completed<'t>(
    alloc: Global,
    names: &mut Names<'t>,
    identifier: &'t Identifier,
    specification: &'t SubprogramSpecification,
) -> Result<(), NoMemory>
    ensures { OnOk result (names.new ≡ completed identifier.now specification.now names.old) }
{
    let outer = outside_enclosure(names);
    let entity = completed_in(names, outer.region, identifier.text.as_slice());
    completed_or_declared(alloc, names, outer, entity, identifier, specification)?;
    let owner = entity_denoted(names, identifier.place);
    owned(alloc, names, owner, identifier.text.as_slice())
}
