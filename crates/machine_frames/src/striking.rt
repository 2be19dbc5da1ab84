//! Constructs that abort or a completed trigger has struck, and whether they may be left now
//! (ISO/IEC 8652:2012, 9.8).
ghost use Rattle.std.specs.Prelude.{◌≡◌};
ghost use Rattle.profile_machine.specs.Unwinding.{struck_frame, edit_last, strike_outermost};
ghost use Rattle.profile_machine.specs.Unwinding.{is_being_left, may_leave_struck};
ghost use Rattle.profile_machine.specs.Unwinding.{is_unwinding, may_unwind};
ghost use Rattle.machine_frames.specs.Struck.{may_leave_next};

use crate::tasks::task_mut;
use profile_machine::Leaving;
use profile_machine::world::{Frame, FrameStack, Mark, World, defers};
use trace_text::Who;

/// Abort strikes the outermost scope of a task.
pub fn strike_outermost(world: &mut World, name: Who)
    ensures { world.new ≡ strike_outermost name world.old }
{
    if let Some(task) = task_mut(world, name) {
        strike_last(&mut task.frames);
    }
}

fn strike_last(frames: &mut FrameStack)
    ensures { frames.new ≡ edit_last struck_frame frames.old }
{
    if let Some(last) = frames.len().checked_sub(1) {
        if let Some(frame) = frames.get_mut(last) {
            frame.struck = true;
        }
    }
}

// Whether a construct is being left from its own action on.
fn is_being_left(mark: &Mark) -> bool
    ensures { result ≡ is_being_left mark.now }
{
    match mark {
        Mark::Scope(scope) => scope.being_left,
        Mark::Handled(_) => false,
        Mark::InProtected(_) => false,
        Mark::InAccept(_) => false,
        Mark::Abortable(part) => part.waits,
        Mark::InInitialize(_) => false,
        Mark::InFinalize(_) => false,
        Mark::InAssign(_) => false,
    }
}

// Whether the last struck one so far may be left, where this one stands next: by itself if it is
// struck, else as before.
fn may_leave_next(frame: &Frame, deferred: bool, may: bool) -> bool
    ensures { result ≡ may_leave_next frame.now deferred may }
{
    if frame.struck {
        !deferred && !is_being_left(&frame.mark)
    } else {
        may
    }
}

// Whether the outermost struck construct is not yet being left, and none above it defers.
#[tactic(auto, using(crate::proofs::StruckLemmas::struck_laws))]
fn may_leave_struck(frames: &FrameStack) -> bool
    ensures { result ≡ may_leave_struck frames.now }
{
    let mut deferred = false;
    let mut may = false;
    for frame in frames.iter() {
        may = may_leave_next(frame, deferred, may);
        deferred = deferred || defers(&frame.mark);
    }
    may
}

// Whether constructs are being left with Abort already.
fn is_unwinding(frames: &FrameStack) -> bool
    ensures { result ≡ is_unwinding frames.now }
{
    match frames.front() {
        Some(frame) => matches!(frame.left_as, Some(Leaving::Abort)),
        None => false,
    }
}

/// Whether a struck construct may be left now.
pub fn may_unwind(frames: &FrameStack) -> bool
    ensures { result ≡ may_unwind frames.now }
{
    may_leave_struck(frames) && !is_unwinding(frames)
}
