//! The call that an accept or entry body serves (ISO/IEC 8652:2012, 6.5, 9.5.2).
ghost use Rattle.std.specs.Prelude.{◌≡◌};
ghost use Rattle.profile_machine.specs.Frames.{frames_of};
ghost use Rattle.profile_machine.specs.Subprograms.{call_that_returns};

use crate::tasks::task_at;
use ann_base::CallNo;
use profile_machine::world::{FrameStack, Mark, Purpose, World};
use trace_text::Who;

// The call of the accept or entry body that a return ends.
fn call_that_returns(frames: &FrameStack) -> Option<CallNo>
    ensures { result ≡ call_that_returns frames.now }
{
    for frame in frames.iter() {
        match &frame.mark {
            Mark::Scope(scope) => match &scope.purpose {
                Purpose::Block(_) => {}
                Purpose::Subprogram(_, _) => return None,
                Purpose::EntryBody(call) => return Some(*call),
                Purpose::Task => return None,
            },
            Mark::InAccept(accept) => return Some(accept.call),
            Mark::Handled(_)
            | Mark::InProtected(_)
            | Mark::Abortable(_)
            | Mark::InInitialize(_)
            | Mark::InFinalize(_)
            | Mark::InAssign(_) => {}
        }
    }
    None
}

/// The call of the accept or entry body in which the one with this name stands.
pub fn call_returned(world: &World, name: Who) -> Option<CallNo>
    ensures { result ≡ call_that_returns (frames_of world.now name) }
{
    call_that_returns(&task_at(world, name)?.frames)
}
