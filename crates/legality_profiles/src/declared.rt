//! Declarations of subprograms and entries, by the names of the whole source (ISO/IEC 8652:2012,
//! 6.1, 9.5.2).
ghost use Rattle.std.specs.Prelude.{◌≡◌, map, option_copied};
ghost use Rattle.ada_regions.specs.Shown.{occurrence_shown};
ghost use Rattle.ada_legality.specs.Profiles.{declares_entity, entry_declared_as, entry_in};
ghost use Rattle.ada_legality.specs.Profiles.{specification_in, specification_of};

use ada_entities::entity_denoted;
use ada_regions::{Names, Occurrence, Occurrences};
use ada_tree::{Identifier, Parameter, SubprogramSpecification};
use legality_entities::is_entity;

/// Whether an identifier denotes this entity.
pub fn declares_entity(names: &Names<'_>, entity: u32, name: &Identifier) -> bool
    ensures { result ≡ declares_entity names.now entity name.now }
{
    is_entity(entity, entity_denoted(names, name.place))
}

/// The declaration of a subprogram with this entity.
fn specification_in<'t>(
    names: &Names<'_>,
    entity: u32,
    occurrence: Occurrence<'t>,
) -> Option<&'t SubprogramSpecification>
    ensures { option_copied result
        ≡ specification_in names.now entity (occurrence_shown occurrence.entry) }
{
    match occurrence {
        Occurrence::DeclareSubprogram {
            name,
            specification,
        } => {
            if declares_entity(names, entity, name) {
                Some(specification)
            } else {
                None
            }
        }
        _ => None,
    }
}

#[tactic(auto, unfolding(ada_legality::specs::Profiles::specification_of))]
fn specification_among<'t>(
    names: &Names<'_>,
    entity: u32,
    occurrences: &[Occurrence<'t>],
) -> Option<&'t SubprogramSpecification>
    ensures { option_copied result
        ≡ specification_of names.now entity (map occurrence_shown occurrences.now) }
{
    for occurrence in occurrences {
        match specification_in(names, entity, *occurrence) {
            Some(specification) => return Some(specification),
            None => (),
        }
    }
    None
}

/// The declaration of the subprogram with this entity.
pub(crate) fn specification_of<'t>(
    names: &Names<'_>,
    entity: u32,
    occurrences: &Occurrences<'t>,
) -> Option<&'t SubprogramSpecification>
    ensures { option_copied result ≡ specification_of names.now entity occurrences.now }
{
    specification_among(names, entity, occurrences.as_slice())
}

/// The parameters of an entry with this entity.
fn entry_in<'t>(
    names: &Names<'_>,
    entity: u32,
    occurrence: Occurrence<'t>,
) -> Option<&'t [Parameter]>
    ensures { option_copied result ≡ entry_in names.now entity (occurrence_shown occurrence.entry) }
{
    match occurrence {
        Occurrence::DeclareEntry { name, parameters } => {
            if declares_entity(names, entity, name) {
                Some(parameters)
            } else {
                None
            }
        }
        _ => None,
    }
}

#[tactic(auto, unfolding(ada_legality::specs::Profiles::entry_declared_as))]
fn entry_among<'t>(
    names: &Names<'_>,
    entity: u32,
    occurrences: &[Occurrence<'t>],
) -> Option<&'t [Parameter]>
    ensures { option_copied result
        ≡ entry_declared_as names.now entity (map occurrence_shown occurrences.now) }
{
    for occurrence in occurrences {
        match entry_in(names, entity, *occurrence) {
            Some(parameters) => return Some(parameters),
            None => (),
        }
    }
    None
}

/// The parameters of the entry with this entity.
pub(crate) fn entry_declared_as<'t>(
    names: &Names<'_>,
    entity: u32,
    occurrences: &Occurrences<'t>,
) -> Option<&'t [Parameter]>
    ensures { option_copied result ≡ entry_declared_as names.now entity occurrences.now }
{
    entry_among(names, entity, occurrences.as_slice())
}
