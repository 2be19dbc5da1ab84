//! Task units (ISO/IEC 8652:2012, 9.1, D.1, D.2.6).
ghost use Rattle.std.specs.Prelude.{◌≡◌, IfOk};
ghost use Rattle.ada_image.specs.Made.{Made};
ghost use Rattle.ada_image.specs.UnitsOfImage.{task_unit_with, task_units_made};
ghost use Rattle.ada_image.specs.ImageOfExpressions.{optional_value};
ghost use Rattle.image_units.specs.Parts.{task_unit_made};

use crate::aspects::{aspect_value, priority_given};
use crate::unit_entries::entries_of;
use ada_image::{Lists, Within};
use ada_regions::{Names, NumberedTask};
use ann_base::NoMemory;
use image_expressions::optional_value;
use image_layout::added;
use image_scopes::scope_no;
use profile_image::{EntryUnit, ExprNo, ImageList, TaskUnit, TaskUnitNo};
use std::alloc::Global;

/// A task unit, given the number of its deadline.
#[tactic(auto, unfolding(ada_image::specs::UnitsOfImage::task_unit_with))]
fn task_unit_with(
    alloc: Global,
    names: &Names<'_>,
    number: u32,
    task: &NumberedTask<'_>,
    deadline: Option<ExprNo>,
) -> Result<TaskUnit, NoMemory>
    ensures { IfOk result (λ unit. unit ≡ task_unit_with names.now number task.now deadline) }
{
    Ok(TaskUnit {
        scope: scope_no(task.scope),
        priority: priority_given(names, task.aspects.as_slice())?,
        relative_deadline: deadline,
        entries: entries_of(alloc, names, EntryUnit::Task(TaskUnitNo(number)))?,
    })
}

/// A task unit is made: its deadline, and what it is.
#[tactic(auto, unfolding(crate::specs::Parts::task_unit_made))]
fn task_unit_made(
    alloc: Global,
    lists: &mut Lists,
    within: &Within<'_, '_>,
    number: u32,
    task: &NumberedTask<'_>,
) -> Result<TaskUnit, NoMemory>
    ensures { Made (task_unit_made within.now number task.now) lists.old lists.new result }
{
    let deadline = aspect_value(b"relative_deadline", task.aspects.as_slice());
    let number_of_deadline = optional_value(lists, within, deadline)?;
    task_unit_with(alloc, within.names.get(), number, task, number_of_deadline)
}

/// The task units, in the order of the text.
#[tactic(auto, unfolding(ada_image::specs::UnitsOfImage::task_units_made))]
pub fn task_units_made(
    alloc: Global,
    lists: &mut Lists,
    within: &Within<'_, '_>,
) -> Result<ImageList<TaskUnit>, NoMemory>
    ensures { Made (task_units_made within.now 0 within.now.names.task_units) lists.old lists.new
        result }
{
    let names = within.names.get();
    let mut units = ImageList::new(alloc);
    let mut number = 0u32;
    for task in names.task_units.iter() {
        let unit = task_unit_made(alloc, lists, within, number, task)?;
        units.push(unit)?;
        number = added(number, 1)?;
    }
    Ok(units)
}
