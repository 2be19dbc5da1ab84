//! Edits of the mark on top.
ghost use Rattle.std.specs.Prelude.{◌≡◌};
ghost use Rattle.profile_machine.specs.Controlled.{edit_scope_mark, edit_top_scope};
ghost use Rattle.profile_machine.specs.Controlled.{finalize_has_raised, at_step};
ghost use Rattle.profile_machine.specs.Controlled.{edit_assign, edit_top_assign};
ghost use Rattle.profile_machine.specs.Tasking.{being_left_mark};

use machine_frames::task_mut;
use profile_machine::world::{AssignStep, Mark, World};
use trace_text::Who;

fn mark_being_left(mark: &mut Mark)
    ensures { mark.new ≡ edit_scope_mark being_left_mark mark.old }
{
    if let Mark::Scope(scope) = mark {
        scope.being_left = true;
    }
}

fn mark_finalize_raised(mark: &mut Mark)
    ensures { mark.new ≡ edit_scope_mark finalize_has_raised mark.old }
{
    if let Mark::Scope(scope) = mark {
        scope.finalize_raised = true;
    }
}

fn mark_step(mark: &mut Mark, step: AssignStep)
    ensures { mark.new ≡ edit_assign (at_step step) mark.old }
{
    if let Mark::InAssign(assign) = mark {
        assign.step = step;
    }
}

/// The scope on top stands between its `leave` and its `left`.
pub fn set_being_left(world: &mut World, name: Who)
    ensures { world.new ≡ edit_top_scope name being_left_mark world.old }
{
    if let Some(task) = task_mut(world, name) {
        if let Some(frame) = task.frames.front_mut() {
            mark_being_left(&mut frame.mark);
        }
    }
}

/// A Finalize of an object of the scope on top has raised an exception.
pub(crate) fn set_finalize_raised(world: &mut World, name: Who)
    ensures { world.new ≡ edit_top_scope name finalize_has_raised world.old }
{
    if let Some(task) = task_mut(world, name) {
        if let Some(frame) = task.frames.front_mut() {
            mark_finalize_raised(&mut frame.mark);
        }
    }
}

/// The assignment on top goes on with this step.
pub(crate) fn set_step(world: &mut World, name: Who, step: AssignStep)
    ensures { world.new ≡ edit_top_assign name (at_step step) world.old }
{
    if let Some(task) = task_mut(world, name) {
        if let Some(frame) = task.frames.front_mut() {
            mark_step(&mut frame.mark, step);
        }
    }
}
