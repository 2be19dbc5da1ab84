//! Completions (ISO/IEC 8652:2012, 3.11.1, 6.3.1, 9.5.2): a declaration that needs a body, a body,
//! and its profile beside that of its declaration.
ghost use Rattle.std.specs.Prelude.{◌≡◌, ◌++◌, OnOk};
ghost use Rattle.ada_legality.specs.Profiles.{accept_conforms, body_noted};
ghost use Rattle.ada_legality.specs.Profiles.{body_profile_judged, declaration_noted};
ghost use Rattle.ada_legality.specs.Profiles.{entry_body_profile_judged, other_profile_if};

use crate::conformance::{conforms, conforms_to};
use crate::declared::{entry_declared_as, specification_of};
use ada_entities::entity_denoted;
use ada_legality::{BodyKind, Finding, Known, Rule};
use ada_tree::{Identifier, Parameter, SubprogramSpecification};
use ann_base::{NoMemory, Place};
use legality_types::{broken_unless, note};
use std::alloc::Global;
use world_tables::List;

/// A declaration that needs a body.
#[tactic(auto, unfolding(ada_legality::specs::Profiles::declaration_noted))]
pub fn declaration_noted(
    found: &mut List<Finding>,
    known: &Known<'_, '_>,
    kind: BodyKind,
    name: &Identifier,
    place: Place,
) -> Result<(), NoMemory>
    ensures { OnOk result
        (found.new ≡ found.old ++ declaration_noted known.now kind name.now place) }
{
    match entity_denoted(known.names.get(), name.place) {
        None => Ok(()),
        Some(entity) => note(
            found,
            Finding::Declared {
                kind,
                entity,
                place,
            },
        ),
    }
}

/// A body.
#[tactic(auto, unfolding(ada_legality::specs::Profiles::body_noted))]
pub fn body_noted(
    found: &mut List<Finding>,
    known: &Known<'_, '_>,
    kind: BodyKind,
    name: &Identifier,
) -> Result<(), NoMemory>
    ensures { OnOk result (found.new ≡ found.old ++ body_noted known.now kind name.now) }
{
    match entity_denoted(known.names.get(), name.place) {
        None => Ok(()),
        Some(entity) => note(found, Finding::Completed { kind, entity }),
    }
}

/// A body of another profile than its declaration, where it does not conform.
fn other_profile_if(
    found: &mut List<Finding>,
    kind: BodyKind,
    entity: u32,
    conforming: bool,
) -> Result<(), NoMemory>
    ensures { OnOk result (found.new ≡ found.old ++ other_profile_if kind entity conforming) }
{
    if conforming {
        Ok(())
    } else {
        note(found, Finding::OtherProfile { kind, entity })
    }
}

/// A subprogram's body, beside the declaration that it completes.
#[tactic(auto, unfolding(ada_legality::specs::Profiles::body_profile_judged))]
pub fn body_profile_judged(
    alloc: Global,
    found: &mut List<Finding>,
    known: &Known<'_, '_>,
    body: &SubprogramSpecification,
    entity: Option<u32>,
) -> Result<(), NoMemory>
    ensures { OnOk result (found.new ≡ found.old ++ body_profile_judged known.now body.now entity) }
{
    match entity {
        None => Ok(()),
        Some(entity) => {
            match specification_of(known.names.get(), entity, known.occurrences.get()) {
                None => Ok(()),
                Some(declared) => {
                    let conforming = conforms_to(alloc, known.names.get(), declared, body)?;
                    other_profile_if(found, BodyKind::Subprogram, entity, conforming)
                }
            }
        }
    }
}

/// An entry's body, beside its declaration.
#[tactic(auto, unfolding(ada_legality::specs::Profiles::entry_body_profile_judged))]
pub fn entry_body_profile_judged(
    alloc: Global,
    found: &mut List<Finding>,
    known: &Known<'_, '_>,
    parameters: &[Parameter],
    entity: Option<u32>,
) -> Result<(), NoMemory>
    ensures { OnOk result
        (found.new ≡ found.old ++ entry_body_profile_judged known.now parameters.now entity) }
{
    match entity {
        None => Ok(()),
        Some(entity) => {
            match entry_declared_as(known.names.get(), entity, known.occurrences.get()) {
                None => Ok(()),
                Some(declared) => {
                    let conforming = conforms(alloc, known.names.get(), declared, parameters)?;
                    other_profile_if(found, BodyKind::ProtectedEntry, entity, conforming)
                }
            }
        }
    }
}

/// An accept statement, beside the declaration of its entry.
#[tactic(auto, unfolding(ada_legality::specs::Profiles::accept_conforms))]
pub fn accept_conforms(
    alloc: Global,
    found: &mut List<Finding>,
    known: &Known<'_, '_>,
    place: Place,
    parameters: &[Parameter],
    entity: Option<u32>,
) -> Result<(), NoMemory>
    ensures { OnOk result
        (found.new ≡ found.old ++ accept_conforms known.now place parameters.now entity) }
{
    match entity {
        None => Ok(()),
        Some(entity) => {
            match entry_declared_as(known.names.get(), entity, known.occurrences.get()) {
                None => Ok(()),
                Some(declared) => {
                    let conforming = conforms(alloc, known.names.get(), declared, parameters)?;
                    broken_unless(found, Rule::Completions, conforming, place)
                }
            }
        }
    }
}
