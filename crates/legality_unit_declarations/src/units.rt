//! Task and protected declarations (ISO/IEC 8652:2012, 9.1, 9.4, D.1, D.3).
ghost use Rattle.std.specs.Prelude.{◌≡◌, ◌++◌, OnOk};
ghost use Rattle.ada_legality.specs.CallStatements.{all_found, found_if};
ghost use Rattle.ada_legality.specs.Declarations.{ceiling_noted, operation_found};
ghost use Rattle.ada_legality.specs.Declarations.{other_ceiling_noted, protected_component_found};
ghost use Rattle.ada_legality.specs.Declarations.{protected_found, single_object_noted};
ghost use Rattle.ada_legality.specs.Declarations.{task_found, task_priority_noted};
ghost use Rattle.legality_unit_declarations.specs.ProtectedParts.{protected_parts};

use ada_legality::{AspectOwner, AspectPart, BodyKind, Ceiling, Finding, Known};
use ada_tree::{Component, Identifier, ProtectedDeclaration, ProtectedOperation, TaskDeclaration};
use ann_base::{NoMemory, Place};
use legality_choices::{is_other_ceiling, place_of_priority, stated_value};
use legality_conditions::cells_noted;
use legality_declarations::{entries_found, entry_found, protected_components_found};
use legality_parts::aspects_found;
use legality_profiles::declaration_noted;
use legality_subprograms::subprogram_found;
use legality_tasking::{
    entries_judged, entries_of_definition, entries_of_operations, protected_noted,
    protected_unit_of_name, single_task_judged,
};
use legality_types::note;
use sqlite_items::Items;
use std::alloc::Global;
use world_tables::List;

/// A task's base priority, where it is stated.
#[tactic(auto, unfolding(ada_legality::specs::Declarations::task_priority_noted))]
fn task_priority_noted(
    found: &mut List<Finding>,
    last: u8,
    aspects: &[AspectPart],
    place: Place,
) -> Result<(), NoMemory>
    ensures { OnOk result (found.new ≡ found.old ++ task_priority_noted last aspects.now place) }
{
    match stated_value(last, aspects) {
        None => Ok(()),
        Some(number) => note(
            found,
            Finding::TaskPriority {
                number,
                place: place_of_priority(last, aspects, place),
            },
        ),
    }
}

/// A task declaration.
#[tactic(auto, unfolding(ada_legality::specs::Declarations::task_found))]
pub fn task_found(
    alloc: Global,
    found: &mut List<Finding>,
    known: &Known<'_, '_>,
    task: &TaskDeclaration,
) -> Result<(), NoMemory>
    ensures { OnOk result (found.new ≡ found.old ++ task_found task.now known.now) }
{
    let listed = entries_of_definition(alloc, &task.definition)?;
    let entries = listed.as_slice();
    declaration_noted(found, known, BodyKind::Task, &task.name, task.place)?;
    single_task_judged(found, known, &task.name, task.place, task.is_type)?;
    cells_noted(found, known, &task.name, task.place)?;
    let aspects = aspects_found(
        alloc,
        found,
        known,
        AspectOwner::OnTask,
        task.place,
        task.aspects.as_slice(),
    )?;
    let last = known.names.get().last_priority;
    task_priority_noted(found, last, aspects.as_slice(), task.place)?;
    entries_judged(found, known, true, entries)?;
    entries_found(alloc, found, known, entries)
}

/// An operation of a protected declaration.
fn operation_found(
    alloc: Global,
    found: &mut List<Finding>,
    known: &Known<'_, '_>,
    operation: &ProtectedOperation,
) -> Result<(), NoMemory>
    ensures { OnOk result (found.new ≡ found.old ++ operation_found operation.now known.now) }
{
    match operation {
        ProtectedOperation::Subprogram(specification) => {
            subprogram_found(alloc, found, known, specification)
        }
        ProtectedOperation::Entry(entry) => entry_found(alloc, found, known, entry),
    }
}

/// All operations of a protected declaration.
fn operations_found(
    alloc: Global,
    found: &mut List<Finding>,
    known: &Known<'_, '_>,
    operations: &[ProtectedOperation],
) -> Result<(), NoMemory>
    ensures { OnOk result
        (found.new ≡ found.old ++ all_found operation_found operations.now known.now) }
{
    for operation in operations {
        operation_found(alloc, found, known, operation)?;
    }
    Ok(())
}

/// A single protected object.
fn single_object_noted(
    found: &mut List<Finding>,
    known: &Known<'_, '_>,
    name: &Identifier,
    is_type: bool,
) -> Result<(), NoMemory>
    ensures { OnOk result
        (found.new ≡ found.old ++ single_object_noted known.now name.now is_type) }
{
    if is_type {
        Ok(())
    } else {
        protected_noted(found, known, true, name)
    }
}

/// A protected unit whose stated priority is not the highest.
fn other_ceiling_noted(
    found: &mut List<Finding>,
    is_other: bool,
    place: Place,
    unit: Option<u32>,
) -> Result<(), NoMemory>
    ensures { OnOk result (found.new ≡ found.old ++ other_ceiling_noted is_other place unit) }
{
    match (is_other, unit) {
        (true, Some(unit)) => note(found, Finding::OtherCeiling { unit, place }),
        (true, None) => Ok(()),
        (false, _) => Ok(()),
    }
}

/// The ceiling of a protected unit.
#[tactic(auto, unfolding(ada_legality::specs::Declarations::ceiling_noted))]
fn ceiling_noted(
    found: &mut List<Finding>,
    last: u8,
    aspects: &[AspectPart],
    place: Place,
    unit: Option<u32>,
) -> Result<(), NoMemory>
    ensures { OnOk result (found.new ≡ found.old ++ ceiling_noted last aspects.now place unit) }
{
    let is_other = is_other_ceiling(last, stated_value(last, aspects));
    other_ceiling_noted(found, is_other, place, unit)?;
    note(
        found,
        Finding::Ceiling(Ceiling {
            unit,
            stated: stated_value(last, aspects),
            place: place_of_priority(last, aspects, place),
        }),
    )
}

/// The components of a protected unit, where it has some.
fn components_if(
    alloc: Global,
    found: &mut List<Finding>,
    known: &Known<'_, '_>,
    components: &Option<Items<Component>>,
) -> Result<(), NoMemory>
    ensures { OnOk result
        (found.new
        ≡ found.old ++ found_if (all_found protected_component_found) components.now known.now) }
{
    match components {
        None => Ok(()),
        Some(components) => {
            protected_components_found(alloc, found, known, components.as_slice())
        }
    }
}

/// The entries and operations of a protected declaration.
fn protected_parts(
    alloc: Global,
    found: &mut List<Finding>,
    known: &Known<'_, '_>,
    protected: &ProtectedDeclaration,
) -> Result<(), NoMemory>
    ensures { OnOk result (found.new ≡ found.old ++ protected_parts protected.now known.now) }
{
    let operations = protected.operations.as_slice();
    let entries = entries_of_operations(alloc, operations)?;
    entries_judged(found, known, false, entries.as_slice())?;
    operations_found(alloc, found, known, operations)?;
    components_if(alloc, found, known, &protected.components)
}

/// A protected declaration.
#[tactic(auto, unfolding(ada_legality::specs::Declarations::protected_found))]
pub fn protected_found(
    alloc: Global,
    found: &mut List<Finding>,
    known: &Known<'_, '_>,
    protected: &ProtectedDeclaration,
) -> Result<(), NoMemory>
    ensures { OnOk result (found.new ≡ found.old ++ protected_found protected.now known.now) }
{
    let name = &protected.name;
    let place = protected.place;
    declaration_noted(found, known, BodyKind::Protected, name, place)?;
    single_object_noted(found, known, name, protected.is_type)?;
    cells_noted(found, known, name, place)?;
    let aspects = aspects_found(
        alloc,
        found,
        known,
        AspectOwner::OnProtected,
        place,
        protected.aspects.as_slice(),
    )?;
    let last = known.names.get().last_priority;
    let unit = protected_unit_of_name(known, name);
    ceiling_noted(found, last, aspects.as_slice(), place, unit)?;
    protected_parts(alloc, found, known, protected)
}
