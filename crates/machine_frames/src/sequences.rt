//! Sequences with handlers: each is opened at no cost by the task that has come to it (ISO/IEC
//! 8652:2012, 11.2).
ghost use Rattle.std.specs.Prelude.{OnOk};
ghost use Rattle.profile_machine.specs.Frames.{open_handled, open_at, open_sequence, open_if_ready};
ghost use Rattle.machine_frames.specs.Did.{Did};

use crate::effects::Effect;
use crate::frames::{goes, new_frame, onward_in, onward_of, push, raises};
use crate::room::has_room;
use crate::tasks::{is_runnable, task_at};
use ann_base::{NoMemory, Raised};
use machine_program::{Program, form_of, next_of};
use profile_image::{StatementForm, StatementNo};
use profile_machine::world::{Mark, Part};
use trace_text::Who;

/// The sequence with handlers that begins here is opened, if one does. Without room for its mark
/// Storage_Error is raised.
#[tactic(auto, unfolding(profile_machine::specs::Frames::open_handled))]
pub fn open_handled(
    p: &Program,
    effect: &mut Effect,
    part: Part,
    name: Who,
    s: StatementNo,
    form: &StatementForm,
) -> Result<(), NoMemory>
    ensures { OnOk result (Did (open_handled p.now part name s form.now) effect.old effect.new) }
{
    match form {
        StatementForm::Handled { first, .. } => {
            if has_room(&effect.world, name, 1, 0) {
                goes(effect, name, next_of(p, s));
                push(
                    &mut effect.world,
                    name,
                    new_frame(Mark::Handled(s), Some(*first)),
                )
            } else {
                raises(effect, part, name, Raised::Storage)
            }
        }
        _ => Ok(()),
    }
}

/// The sequence that begins at this action is opened, if one does.
#[tactic(auto, unfolding(profile_machine::specs::Frames::open_at))]
pub fn open_at(
    p: &Program,
    effect: &mut Effect,
    part: Part,
    name: Who,
    onward: Option<StatementNo>,
) -> Result<(), NoMemory>
    ensures { OnOk result (Did (open_at p.now part name onward) effect.old effect.new) }
{
    match onward {
        Some(s) => open_handled(p, effect, part, name, s, form_of(p, s)),
        None => Ok(()),
    }
}

/// The task opens the sequence to which it has come: behind the effect of its action, or, where it
/// has waited, in the effect that ends the wait.
#[tactic(auto, unfolding(profile_machine::specs::Frames::open_sequence))]
pub fn open_sequence(
    p: &Program,
    effect: &mut Effect,
    part: Part,
    name: Who,
) -> Result<(), NoMemory>
    ensures { OnOk result (Did (open_sequence p.now part name) effect.old effect.new) }
{
    let onward = onward_of(&effect.world, name);
    open_at(p, effect, part, name, onward)
}

/// The same behind the effect of an action: who has blocked opens nothing. One look at the task
/// serves.
#[tactic(auto, unfolding(profile_machine::specs::Frames::open_if_ready, profile_machine::specs::Frames::open_sequence))]
pub fn open_if_ready(p: &Program, effect: &mut Effect, name: Who) -> Result<(), NoMemory>
    ensures { OnOk result (Did (open_if_ready p.now name) effect.old effect.new) }
{
    match task_at(&effect.world, name) {
        Some(task) if is_runnable(task) => {
            let onward = onward_in(task);
            open_at(p, effect, Part::Own, name, onward)
        }
        _ => Ok(()),
    }
}
