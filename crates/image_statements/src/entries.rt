//! Entries, abort statements and requeue statements (ISO/IEC 8652:2012, 9.5.2, 9.5.4, 9.8).
ghost use Rattle.std.specs.Prelude.{◌≡◌, ◌∷◌, map, IfOk};
ghost use Rattle.ada_regions.specs.Regions.{entry_number};
ghost use Rattle.ada_image.specs.Made.{Made};
ghost use Rattle.ada_image.specs.ImageOfExpressions.{thing_named};
ghost use Rattle.ada_image.specs.ImageOfStatements.{entry_at, abort_put, unit_of_kind};
ghost use Rattle.ada_image.specs.ImageOfStatements.{unit_of_entry, requeue_put};

use ada_entities::{entity_denoted, kind_at, last_part};
use ada_image::{Lists, Within};
use ada_regions::{EntityKind, entry_number};
use ada_tree::{Name, OneOrMore};
use ann_base::{NoMemory, Place};
use image_actuals::owner_of_entry;
use image_layout::action_put;
use image_names::{kind_named, thing_named};
use profile_image::{
    DeclNo, EntryNo, EntryUnit, ImageList, StatementForm, StatementNo, TaskUnitNo,
};
use std::alloc::Global;

/// The entry that the name at a place denotes.
#[tactic(auto, unfolding(ada_image::specs::ImageOfStatements::entry_at))]
pub fn entry_at(within: &Within<'_, '_>, place: Place) -> EntryNo
    ensures { result ≡ entry_at within.now place }
{
    match entity_denoted(within.names.get(), place) {
        None => EntryNo(0),
        Some(entity) => match kind_at(within.names.get(), entity) {
            None => EntryNo(0),
            Some(kind) => entry_number(kind).unwrap_or(EntryNo(0)),
        },
    }
}

/// The tasks that an abort names.
fn tasks_named(
    alloc: Global,
    within: &Within<'_, '_>,
    names: &OneOrMore<Name>,
) -> Result<ImageList<DeclNo>, NoMemory>
    ensures { IfOk result
        (λ tasks.
        tasks
        ≡ thing_named within.now names.now.first ∷ map (thing_named within.now) names.now.others) }
{
    let mut tasks = ImageList::new(alloc);
    tasks.push(thing_named(within, &names.first))?;
    for name in names.others.as_slice() {
        tasks.push(thing_named(within, name))?;
    }
    Ok(tasks)
}

/// An abort statement (9.8).
#[tactic(auto, unfolding(ada_image::specs::ImageOfStatements::abort_put))]
pub fn abort_put(
    alloc: Global,
    lists: &mut Lists,
    within: &Within<'_, '_>,
    tasks: &OneOrMore<Name>,
    next: Option<StatementNo>,
) -> Result<Option<StatementNo>, NoMemory>
    ensures { Made (abort_put within.now tasks.now next) lists.old lists.new result }
{
    let tasks = tasks_named(alloc, within, tasks)?;
    action_put(lists, StatementForm::Abort(tasks), 0, next)
}

fn unit_of_kind(kind: &EntityKind) -> Option<EntryUnit>
    ensures { result ≡ unit_of_kind kind.now }
{
    match kind {
        EntityKind::Entry { unit, .. } => Some(*unit),
        _ => None,
    }
}

/// The unit whose entry a name denotes.
#[tactic(auto, unfolding(ada_image::specs::ImageOfStatements::unit_of_entry))]
fn unit_of_entry(within: &Within<'_, '_>, name: &Name) -> EntryUnit
    ensures { result ≡ unit_of_entry within.now name.now }
{
    match kind_named(within, name) {
        None => EntryUnit::Task(TaskUnitNo(0)),
        Some(kind) => unit_of_kind(kind).unwrap_or(EntryUnit::Task(TaskUnitNo(0))),
    }
}

/// A requeue statement (9.5.4).
#[tactic(auto, unfolding(ada_image::specs::ImageOfStatements::requeue_put))]
pub fn requeue_put(
    lists: &mut Lists,
    within: &Within<'_, '_>,
    name: &Name,
    with_abort: bool,
    next: Option<StatementNo>,
) -> Result<Option<StatementNo>, NoMemory>
    ensures { Made (requeue_put within.now name.now with_abort next) lists.old lists.new result }
{
    let form = StatementForm::Requeue {
        entry: entry_at(within, last_part(name).place),
        owner: owner_of_entry(within, name, unit_of_entry(within, name)),
        with_abort,
    };
    action_put(lists, form, 0, next)
}
