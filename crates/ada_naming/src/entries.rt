//! The bodies of entries (ISO/IEC 8652:2012, 9.5.2).
ghost use Rattle.std.specs.Prelude.{◌≡◌, OnOk};
ghost use Rattle.profile_image.specs.Words.{edit_at};
ghost use Rattle.ada_regions.specs.Words.{and_then};
ghost use Rattle.ada_regions.specs.Names.{kind_at};
ghost use Rattle.ada_regions.specs.Completions.{holds_of};
ghost use Rattle.ada_regions.specs.Regions.{is_entry, entry_owner, entry_number, with_entry_body};
ghost use Rattle.ada_regions.specs.Regions.{entry_body_numbered, entry_body_begun};

use crate::frames::scope_begun;
use ada_declarations::number;
use ada_entities::kind_at;
use ada_regions::{ExpressionOf, Names, NumberedEntry, NumberedEntryBody, entry_number, is_entry};
use ada_tree::Expression;
use ann_base::{NoMemory, Place};
use profile_image::EntryNo;
use world_tables::List;

fn is_entry_at(names: &Names<'_>, entity: u32) -> bool
    ensures { result ≡ holds_of is_entry (kind_at names.now entity) }
{
    match kind_at(names, entity) {
        None => false,
        Some(kind) => is_entry(kind),
    }
}

/// The entry whose body it is.
#[tactic(auto, unfolding(ada_regions::specs::Regions::entry_owner))]
pub(crate) fn entry_owner(names: &Names<'_>, entity: Option<u32>) -> Option<u32>
    ensures { result ≡ entry_owner names.now entity }
{
    let entity = entity?;
    if is_entry_at(names, entity) {
        Some(entity)
    } else {
        None
    }
}

/// The number of an entry.
fn number_of_entry(names: &Names<'_>, entity: Option<u32>) -> Option<EntryNo>
    ensures { result ≡ and_then entity (λ x. and_then (kind_at names.now x) entry_number) }
{
    let entity = entity?;
    let kind = kind_at(names, entity)?;
    entry_number(kind)
}

#[tactic(auto, using(ada_completions::proofs::Edits::edited_past))]
fn edit_entry<'t>(
    entries: &mut List<NumberedEntry<'t>>,
    number: u32,
    barrier: &'t Expression,
    scope: u32,
)
    ensures { entries.new ≡ edit_at number (with_entry_body barrier.now scope) entries.old }
{
    if let Some(entry) = entries.get_mut(number as usize) {
        entry.body = Some(NumberedEntryBody {
            barrier: ExpressionOf::new(barrier),
            scope,
        });
    }
}

#[tactic(auto, unfolding(ada_regions::specs::Regions::entry_body_numbered))]
fn entry_body_numbered<'t>(
    names: &mut Names<'t>,
    barrier: &'t Expression,
    entry: Option<EntryNo>,
) -> Result<(), NoMemory>
    ensures { OnOk result (names.new ≡ entry_body_numbered barrier.now names.old entry) }
{
    match entry {
        None => Ok(()),
        Some(entry) => {
            let scope = number(names.scopes.len())?;
            edit_entry(&mut names.entries, entry.0, barrier, scope);
            Ok(())
        }
    }
}

/// The body of an entry begins.
#[tactic(auto, unfolding(ada_regions::specs::Regions::entry_body_begun))]
pub(crate) fn entry_body_begun<'t>(
    names: &mut Names<'t>,
    entity: Option<u32>,
    place: Place,
    barrier: &'t Expression,
) -> Result<(), NoMemory>
    ensures { OnOk result (names.new ≡ entry_body_begun entity place barrier.now names.old) }
{
    let entry = number_of_entry(names, entity);
    entry_body_numbered(names, barrier, entry)?;
    scope_begun(names, place, false, entity, None)
}
