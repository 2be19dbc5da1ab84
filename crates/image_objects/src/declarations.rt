//! The actions of declarations (ISO/IEC 8652:2012, 3.11, 9.1, 9.4).
ghost use Rattle.std.specs.Prelude.{◌≡◌};
ghost use Rattle.ada_image.specs.Made.{Made};
ghost use Rattle.ada_image.specs.ImageOfDeclarations.{declaration_put, declarations_put};
ghost use Rattle.ada_image.specs.ImageOfDeclarations.{makes_task, make_tasks};

use crate::objects::{object_makes_task, objects_put, single_put};
use ada_image::{Lists, Within};
use ada_tree::Declaration;
use ann_base::NoMemory;
use profile_image::StatementNo;
use std::alloc::Global;

/// A declaration (3.1).
#[tactic(auto, unfolding(ada_image::specs::ImageOfDeclarations::declaration_put))]
fn declaration_put<Q>(
    alloc: Global,
    lists: &mut Lists,
    within: &Within<'_, '_>,
    part: u32,
    declaration: &Declaration<Q>,
    next: Option<StatementNo>,
) -> Result<Option<StatementNo>, NoMemory>
    ensures { Made (declaration_put within.now part declaration.now next) lists.old lists.new
        result }
{
    match declaration {
        Declaration::Object(object) => objects_put(alloc, lists, within, part, object, next),
        Declaration::Task(task) => {
            single_put(alloc, lists, within, part, task.is_type, &task.name, next)
        }
        Declaration::Protected(protected) => {
            single_put(
                alloc,
                lists,
                within,
                part,
                protected.is_type,
                &protected.name,
                next,
            )
        }
        _ => Ok(next),
    }
}

/// The declarations of a list, each leading to the next (3.11). The part is that of a library
/// package, or 0.
#[tactic(auto, using(std::proofs::lemmas::List::drop_all, image_layout::proofs::Drops::one_before), unfolding(ada_image::specs::ImageOfDeclarations::declarations_put))]
pub fn declarations_put<Q>(
    alloc: Global,
    lists: &mut Lists,
    within: &Within<'_, '_>,
    part: u32,
    declarations: &[Declaration<Q>],
    next: Option<StatementNo>,
) -> Result<Option<StatementNo>, NoMemory>
    ensures { Made (declarations_put within.now part declarations.now next) lists.old lists.new
        result }
{
    let mut later = next;
    let mut place = declarations.len();
    while place > 0 {
        place -= 1;
        later = declaration_put(alloc, lists, within, part, &declarations[place], later)?;
    }
    Ok(later)
}

/// Whether a declaration makes a task (9.1).
#[tactic(auto, unfolding(ada_image::specs::ImageOfDeclarations::makes_task))]
fn makes_task<Q>(within: &Within<'_, '_>, declaration: &Declaration<Q>) -> bool
    ensures { result ≡ makes_task within.now declaration.now }
{
    match declaration {
        Declaration::Object(object) => object_makes_task(within, object),
        Declaration::Task(task) => !task.is_type,
        _ => false,
    }
}

/// Whether a declarative part makes tasks, which are activated behind it (9.2).
#[tactic(auto, unfolding(ada_image::specs::ImageOfDeclarations::make_tasks))]
pub fn make_tasks<Q>(within: &Within<'_, '_>, declarations: &[Declaration<Q>]) -> bool
    ensures { result ≡ make_tasks within.now declarations.now }
{
    for declaration in declarations {
        if makes_task(within, declaration) {
            return true;
        }
    }
    false
}
