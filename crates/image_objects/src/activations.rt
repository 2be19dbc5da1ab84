//! The activation of tasks, and its end (ISO/IEC 8652:2012, 9.2).
ghost use Rattle.ada_image.specs.Made.{Made};
ghost use Rattle.ada_image.specs.ImageOfDeclarations.{activation_put, end_of_activation_put};

use ada_image::Lists;
use ann_base::NoMemory;
use image_layout::action_put;
use profile_image::{StatementForm, StatementNo};

/// The activation of the tasks of a part.
#[tactic(auto, unfolding(ada_image::specs::ImageOfDeclarations::activation_put))]
pub fn activation_put(
    lists: &mut Lists,
    part: Option<u32>,
    next: Option<StatementNo>,
) -> Result<Option<StatementNo>, NoMemory>
    ensures { Made (activation_put part next) lists.old lists.new result }
{
    match part {
        None => Ok(next),
        Some(part) => action_put(lists, StatementForm::Activate(part), 0, next),
    }
}

/// The end of a task's own activation.
#[tactic(auto, unfolding(ada_image::specs::ImageOfDeclarations::end_of_activation_put))]
pub fn end_of_activation_put(
    lists: &mut Lists,
    is_task_body: bool,
    next: Option<StatementNo>,
) -> Result<Option<StatementNo>, NoMemory>
    ensures { Made (end_of_activation_put is_task_body next) lists.old lists.new result }
{
    if is_task_body {
        action_put(lists, StatementForm::EndActivation, 0, next)
    } else {
        Ok(next)
    }
}
