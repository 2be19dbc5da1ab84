//! Abortable parts among the open constructs of a task (ISO/IEC 8652:2012, 9.7.4).
ghost use Rattle.std.specs.Prelude.{◌≡◌, true, not};
ghost use Rattle.profile_machine.specs.CallEnds.{is_abortable_of, depth_of_abortable};
ghost use Rattle.profile_machine.specs.CallEnds.{abortable_depth, edit_depth, edit_frame};
ghost use Rattle.profile_machine.specs.CallEnds.{edit_abortable, edit_abortable_at};
ghost use Rattle.profile_machine.specs.CallEnds.{triggered_mark, waited_mark, is_cancelled};
ghost use Rattle.profile_machine.specs.Frames.{with_mark};
ghost use Rattle.profile_machine.specs.Unwinding.{struck_frame};
ghost use Rattle.profile_image.specs.Words.{is_the, same_call};
ghost use Rattle.machine_calls.specs.Depths.{place_at};

use ann_base::CallNo;
use machine_frames::{task_at, task_mut};
use profile_machine::world::{Call, FrameStack, Mark, Outcome, World};
use trace_text::Who;

fn is_the_call(call: Option<CallNo>, c: CallNo) -> bool
    ensures { result ≡ is_the same_call call c }
{
    match call {
        Some(call) => call.0 == c.0,
        None => false,
    }
}

// Whether a construct is the abortable part of this call.
fn is_abortable_of(c: CallNo, mark: &Mark) -> bool
    ensures { result ≡ is_abortable_of c mark.now }
{
    match mark {
        Mark::Scope(_) => false,
        Mark::Handled(_) => false,
        Mark::InProtected(_) => false,
        Mark::InAccept(_) => false,
        Mark::Abortable(part) => is_the_call(part.call, c),
        Mark::InInitialize(_) => false,
        Mark::InFinalize(_) => false,
        Mark::InAssign(_) => false,
    }
}

fn depth_of_abortable(c: CallNo, frames: &FrameStack) -> Option<usize>
    ensures { result ≡ depth_of_abortable c frames.now }
{
    let mut below = frames.len();
    for frame in frames.iter() {
        below -= 1;
        if is_abortable_of(c, &frame.mark) {
            return Some(below);
        }
    }
    None
}

/// How many constructs stand below the abortable part of a call, where it is open.
pub fn abortable_depth(world: &World, call: &Call) -> Option<usize>
    ensures { result ≡ abortable_depth world.now call.now }
{
    depth_of_abortable(call.number, &task_at(world, Who::Task(call.caller))?.frames)
}

// The trigger of an abortable part has completed.
fn set_triggered(mark: &mut Mark)
    ensures { mark.new ≡ edit_abortable triggered_mark mark.old }
{
    if let Mark::Abortable(part) = mark {
        part.triggered = true;
    }
}

/// The end of an abortable part waits for its call, whose cancellation was attempted.
pub fn set_waits(mark: &mut Mark)
    ensures { mark.new ≡ edit_abortable (λ m. record m { waits = true }) mark.old }
{
    if let Mark::Abortable(part) = mark {
        part.waits = true;
    }
}

fn is_cancelled(outcome: Outcome) -> bool
    ensures { result ≡ is_cancelled outcome }
{
    matches!(outcome, Outcome::Cancelled)
}

// The end of an abortable part waits for its call no more, which has ended so.
fn set_waited(mark: &mut Mark, outcome: Outcome)
    ensures { mark.new ≡ edit_abortable (waited_mark (not (is_cancelled outcome))) mark.old }
{
    if let Mark::Abortable(part) = mark {
        part.waits = false;
        part.triggered = !is_cancelled(outcome);
    }
}

// Where the construct stands that has so many below it.
fn place_at(frames: &FrameStack, depth: usize) -> Option<usize>
    ensures { result ≡ place_at depth frames.now }
{
    if depth < frames.len() {
        Some(frames.len() - depth - 1)
    } else {
        None
    }
}

#[tactic(auto, using(crate::proofs::DepthLemmas::depth_laws))]
fn strike_in(frames: &mut FrameStack, depth: usize)
    ensures { frames.new ≡ edit_depth depth struck_frame frames.old }
{
    if let Some(place) = place_at(frames, depth) {
        if let Some(frame) = frames.get_mut(place) {
            frame.struck = true;
        }
    }
}

#[tactic(auto, using(crate::proofs::DepthLemmas::depth_laws))]
fn trigger_in(frames: &mut FrameStack, depth: usize)
    ensures { frames.new
        ≡ edit_depth depth (λ x. with_mark (edit_abortable triggered_mark x.mark) x) frames.old }
{
    if let Some(place) = place_at(frames, depth) {
        if let Some(frame) = frames.get_mut(place) {
            set_triggered(&mut frame.mark);
        }
    }
}

#[tactic(auto, using(crate::proofs::DepthLemmas::depth_laws))]
fn end_wait_in(frames: &mut FrameStack, depth: usize, outcome: Outcome)
    ensures { frames.new
        ≡ edit_depth depth
        (λ x. with_mark (edit_abortable (waited_mark (not (is_cancelled outcome))) x.mark) x)
        frames.old }
{
    if let Some(place) = place_at(frames, depth) {
        if let Some(frame) = frames.get_mut(place) {
            set_waited(&mut frame.mark, outcome);
        }
    }
}

// The construct of a task with so many below it is struck.
pub(crate) fn strike_at(world: &mut World, name: Who, depth: usize)
    ensures { world.new ≡ edit_frame name depth struck_frame world.old }
{
    if let Some(task) = task_mut(world, name) {
        strike_in(&mut task.frames, depth);
    }
}

// The trigger of the abortable part with so many below it has completed.
pub(crate) fn set_triggered_at(world: &mut World, name: Who, depth: usize)
    ensures { world.new ≡ edit_abortable_at name depth triggered_mark world.old }
{
    if let Some(task) = task_mut(world, name) {
        trigger_in(&mut task.frames, depth);
    }
}

// The abortable part with so many below it waits for its call no more.
pub(crate) fn set_waited_at(world: &mut World, name: Who, depth: usize, outcome: Outcome)
    ensures { world.new
        ≡ edit_abortable_at name depth (waited_mark (not (is_cancelled outcome))) world.old }
{
    if let Some(task) = task_mut(world, name) {
        end_wait_in(&mut task.frames, depth, outcome);
    }
}
