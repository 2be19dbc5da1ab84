//! Objects of tasks (ISO/IEC 8652:2012, 9.1, D.2.6, D.7).
ghost use Rattle.std.specs.Prelude.{◌≡◌, ◌++◌, OnOk};
ghost use Rattle.std.specs.List.{list_any};
ghost use Rattle.ada_image.specs.UnitsOfImage.{same_entry_unit};
ghost use Rattle.ada_legality.specs.Declarations.{has_entries, is_library_name};
ghost use Rattle.ada_legality.specs.Declarations.{is_outside_deadlines, is_task_outside};
ghost use Rattle.ada_legality.specs.Declarations.{is_task_outside_library};
ghost use Rattle.ada_legality.specs.Declarations.{is_wrong_with_deadlines, single_task_judged};
ghost use Rattle.ada_legality.specs.Declarations.{task_judged, type_of_identifier};

use ada_legality::{Finding, Known, Rule};
use ada_regions::{AdaType, Names, NumberedEntry, is_task_type, type_of_kind};
use ada_tree::Identifier;
use ann_base::{NoMemory, Place};
use image_layout::same_entry_unit;
use legality_entities::{is_library_object, kind_of_identifier};
use legality_types::broken_if;
use profile_image::EntryUnit;
use world_tables::List;

/// An object of a library package.
#[tactic(auto, unfolding(ada_legality::specs::Declarations::is_library_name))]
pub(crate) fn is_library_name(known: &Known<'_, '_>, name: &Identifier) -> bool
    ensures { result ≡ is_library_name known.now name.now }
{
    match kind_of_identifier(known, name) {
        None => false,
        Some(kind) => is_library_object(known.names.get(), kind),
    }
}

/// The type of an object or a unit.
pub(crate) fn type_of_identifier(known: &Known<'_, '_>, name: &Identifier) -> Option<AdaType>
    ensures { result ≡ type_of_identifier known.now name.now }
{
    let kind = kind_of_identifier(known, name)?;
    type_of_kind(kind)
}

/// A task object outside library packages.
fn is_task_outside(known: &Known<'_, '_>, name: &Identifier, t: AdaType) -> bool
    ensures { result ≡ is_task_outside known.now name.now t }
{
    is_task_type(t) && !is_library_name(known, name)
}

/// A task object outside library packages, which a restriction may forbid.
#[tactic(auto, unfolding(ada_legality::specs::Declarations::is_task_outside_library))]
fn is_task_outside_library(known: &Known<'_, '_>, name: &Identifier) -> bool
    ensures { result ≡ is_task_outside_library known.now name.now }
{
    match type_of_identifier(known, name) {
        None => false,
        Some(t) => is_task_outside(known, name, t),
    }
}

/// Some entry is of the unit.
fn has_entry_of(entries: &List<NumberedEntry<'_>>, unit: EntryUnit) -> bool
    ensures { result ≡ list_any (λ e. same_entry_unit e.unit unit) entries.now }
{
    entries
        .iter()
        .any(|entry| same_entry_unit(entry.unit, unit))
}

/// A task unit has entries.
#[tactic(auto, using(crate::proofs::EntriesThere::entries_there))]
fn has_entries(names: &Names<'_>, t: AdaType) -> bool
    ensures { result ≡ has_entries names.now t }
{
    match t {
        AdaType::Task(unit) => has_entry_of(&names.entries, EntryUnit::Task(unit)),
        _ => false,
    }
}

/// A task object with entries, or outside library packages: a source with an EDF range has none
/// (this profile's own).
fn is_wrong_with_deadlines(known: &Known<'_, '_>, name: &Identifier, t: AdaType) -> bool
    ensures { result ≡ is_wrong_with_deadlines known.now name.now t }
{
    is_task_type(t) && (!is_library_name(known, name) || has_entries(known.names.get(), t))
}

/// The same of an identifier.
#[tactic(auto, unfolding(ada_legality::specs::Declarations::is_outside_deadlines))]
fn is_outside_deadlines(known: &Known<'_, '_>, name: &Identifier) -> bool
    ensures { result ≡ is_outside_deadlines known.now name.now }
{
    match type_of_identifier(known, name) {
        None => false,
        Some(t) => is_wrong_with_deadlines(known, name, t),
    }
}

/// An object that may be one of a task, declared here.
#[tactic(auto, unfolding(ada_legality::specs::Declarations::task_judged))]
pub fn task_judged(
    found: &mut List<Finding>,
    known: &Known<'_, '_>,
    name: &Identifier,
    place: Place,
) -> Result<(), NoMemory>
    ensures { OnOk result (found.new ≡ found.old ++ task_judged known.now name.now place) }
{
    let broken = known.in_force.no_task_hierarchy && is_task_outside_library(known, name);
    broken_if(found, Rule::Restriction, broken, place)?;
    let broken = known.in_force.has_deadlines && is_outside_deadlines(known, name);
    broken_if(found, Rule::DeadlineScheduling, broken, place)
}

/// A single task is an object.
pub fn single_task_judged(
    found: &mut List<Finding>,
    known: &Known<'_, '_>,
    name: &Identifier,
    place: Place,
    is_type: bool,
) -> Result<(), NoMemory>
    ensures { OnOk result
        (found.new ≡ found.old ++ single_task_judged known.now name.now place is_type) }
{
    if is_type {
        Ok(())
    } else {
        task_judged(found, known, name, place)
    }
}
