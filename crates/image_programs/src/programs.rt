//! The program that the machine runs, made of a source and the table of its names (ISO/IEC
//! 8652:2012, 10.2).
ghost use Rattle.std.specs.Prelude.{◌≡◌, IfOk};
ghost use Rattle.ada_image.specs.Made.{Made};
ghost use Rattle.ada_image.specs.ImageOfUnits.{all_made, outermost, program_from};

use crate::elaboration::actions_made;
use ada_image::{Lists, MadeLists, OpenLoop, Within};
use ada_regions::Names;
use ada_tree::Unit;
use ann_base::NoMemory;
use image_initials::declarations_made;
use image_layout::{nothing_made, outermost};
use image_library::program_with;
use image_units::{entries_made, task_units_made};
use profile_image::Image;
use std::alloc::Global;
use world_tables::List;

/// All that has numbers of its own is made: the actions, the deadlines of task units, the barriers,
/// and the initial values.
#[tactic(auto, unfolding(ada_image::specs::ImageOfUnits::all_made))]
fn all_made(
    alloc: Global,
    lists: &mut Lists,
    unit: &Unit,
    within: &Within<'_, '_>,
) -> Result<MadeLists, NoMemory>
    ensures { Made (all_made unit.now within.now) lists.old lists.new result }
{
    actions_made(alloc, lists, unit, within)?;
    let task_units = task_units_made(alloc, lists, within)?;
    let entries = entries_made(alloc, lists, within)?;
    let declarations = declarations_made(alloc, lists, within)?;
    Ok(MadeLists {
        task_units,
        entries,
        declarations,
    })
}

/// The same outside all bodies, but for these loops and units.
fn all_made_in<'n>(
    alloc: Global,
    lists: &mut Lists,
    unit: &Unit,
    names: &'n Names<'_>,
    outside: &'n (List<OpenLoop>, List<u32>),
) -> Result<MadeLists, NoMemory>
    ensures { Made
        (all_made unit.now
        (record (outermost names.now) { loops = outside.now.0; units = outside.now.1 }))
        lists.old lists.new result }
{
    let within = outermost(names, &outside.0, &outside.1);
    all_made(alloc, lists, unit, &within)
}

/// The program of a source, where the table of its names is given. A number that its type cannot
/// hold is answered as want of memory.
#[tactic(auto, unfolding(ada_image::specs::ImageOfUnits::program_from))]
pub fn program_from(alloc: Global, names: &Names<'_>, unit: &Unit) -> Result<Image, NoMemory>
    ensures { IfOk result (λ program. program ≡ program_from names.now unit.now) }
{
    let outside = (List::new(alloc), List::new(alloc));
    let mut lists = nothing_made(alloc);
    let made = all_made_in(alloc, &mut lists, unit, &*names, &outside)?;
    program_with(alloc, names, unit, lists, made)
}
