//! Accept statements (ISO/IEC 8652:2012, 9.5.2, 9.7.4): in the body of the entry's task itself, and
//! not inside one for the same entry.
ghost use Rattle.std.specs.Prelude.{◌≡◌, ◌++◌, OnOk, option_copied};
ghost use Rattle.ada_regions.specs.Completions.{holds_of};
ghost use Rattle.ada_regions.specs.Names.{kind_at};
ghost use Rattle.ada_regions.specs.Words.{and_then};
ghost use Rattle.ada_regions.specs.Regions.{is_entry};
ghost use Rattle.ada_legality.specs.SimpleStatements.{task_type_of_entry};
ghost use Rattle.ada_legality.specs.Words.{any_in_body};
ghost use Rattle.ada_legality.specs.Statements.{accept_judged, accepts_entry};
ghost use Rattle.ada_legality.specs.Statements.{is_asynchronous_select, stands_in_own_task};

use ada_entities::{entity_denoted, kind_at};
use ada_legality::{Around, Finding, Known, Rule};
use ada_regions::{AdaType, EntityKind, is_entry};
use ada_tree::Identifier;
use ann_base::{NoMemory, Place};
use legality_entities::{in_own_task, is_body, same_entities, task_type_of_entry};
use legality_types::{broken_if, broken_unless};
use world_tables::List;

/// What the entity is, where there is one.
pub fn kind_of_entity<'n>(known: &'n Known<'_, '_>, entity: Option<u32>) -> Option<&'n EntityKind>
    ensures { option_copied result ≡ and_then entity (kind_at known.now.names) }
{
    let entity = entity?;
    kind_at(known.names.get(), entity)
}

/// The task unit of an entry, where it is one.
fn task_type_if(kind: Option<&EntityKind>) -> Option<AdaType>
    ensures { result ≡ and_then (option_copied kind.entry) task_type_of_entry }
{
    let kind = kind?;
    task_type_of_entry(kind)
}

/// An entry.
fn names_entry(kind: Option<&EntityKind>) -> bool
    ensures { result ≡ holds_of is_entry (option_copied kind.entry) }
{
    match kind {
        None => false,
        Some(kind) => is_entry(kind),
    }
}

/// An accept statement stands in the body of its entry's task.
#[tactic(auto, unfolding(ada_legality::specs::Statements::stands_in_own_task))]
fn stands_in_own_task(known: &Known<'_, '_>, kind: Option<&EntityKind>) -> bool
    ensures { result ≡ stands_in_own_task known.now (option_copied kind.entry) }
{
    match task_type_if(kind) {
        None => false,
        Some(t) => in_own_task(t, &known.around),
    }
}

/// An accept statement for the entry.
fn accepts_entry(entity: Option<u32>, around: Around) -> bool
    ensures { result ≡ accepts_entry entity around }
{
    match around {
        Around::Accept(other) => same_entities(entity, other),
        _ => false,
    }
}

/// A part of an asynchronous select.
fn is_asynchronous_select(around: Around) -> bool
    ensures { result ≡ is_asynchronous_select around }
{
    match around {
        Around::AsynchronousSelect => true,
        _ => false,
    }
}

/// An accept statement for the entry is open, inside the innermost body.
#[tactic(auto, unfolding(ada_legality::specs::Words::any_in_body))]
fn stands_in_accept_of(entity: Option<u32>, outer: &List<Around>) -> bool
    ensures { result ≡ any_in_body (accepts_entry entity) outer.now }
{
    for around in outer.iter() {
        if is_body(*around) {
            return false;
        }
        if accepts_entry(entity, *around) {
            return true;
        }
    }
    false
}

/// A part of an asynchronous select is open, inside the innermost body.
#[tactic(auto, unfolding(ada_legality::specs::Words::any_in_body))]
fn stands_in_asynchronous_select(outer: &List<Around>) -> bool
    ensures { result ≡ any_in_body is_asynchronous_select outer.now }
{
    for around in outer.iter() {
        if is_body(*around) {
            return false;
        }
        if is_asynchronous_select(*around) {
            return true;
        }
    }
    false
}

/// An accept statement in another place, or in an asynchronous select.
#[tactic(auto, unfolding(ada_legality::specs::Statements::accept_judged))]
pub fn accept_judged(
    found: &mut List<Finding>,
    known: &Known<'_, '_>,
    place: Place,
    name: &Identifier,
    kind: Option<&EntityKind>,
) -> Result<(), NoMemory>
    ensures { OnOk result
        (found.new
        ≡ found.old ++ accept_judged known.now place name.now (option_copied kind.entry)) }
{
    let is_named = names_entry(kind);
    broken_unless(found, Rule::KindOfName, is_named, name.place)?;
    let entity = entity_denoted(known.names.get(), name.place);
    let is_misplaced = !stands_in_own_task(known, kind)
        || stands_in_accept_of(entity, &known.around);
    broken_if(
        found,
        Rule::AcceptStatement,
        is_named && is_misplaced,
        place,
    )?;
    let is_inside = stands_in_asynchronous_select(&known.around);
    broken_if(
        found,
        Rule::AsynchronousSelect,
        is_named && is_inside,
        place,
    )
}
