//! Requeues (ISO/IEC 8652:2012, 9.5.4).
ghost use Rattle.std.specs.Prelude.{◌≡◌, OnOk};
ghost use Rattle.profile_machine.specs.Calls.{edit_call};
ghost use Rattle.profile_machine.specs.EntryCalls.{with_sending, mark_sending, requeue};
ghost use Rattle.machine_frames.specs.Did.{Did};

use crate::owners::owner_of_entry;
use ann_base::{CallNo, NoMemory};
use machine_frames::{Effect, call_returned, leaves, raises};
use machine_program::Program;
use machine_queues::call_mut;
use machine_values::seen_by;
use profile_image::{EntryNo, EntryOwner};
use profile_machine::Leaving;
use profile_machine::world::{Owner, Part, Sending, World};
use trace_text::Who;

// The call is to be sent on, once the marks are left.
fn mark_sending(
    world: &mut World,
    c: Option<CallNo>,
    owner: Owner,
    entry: EntryNo,
    with_abort: bool,
)
    ensures { world.new ≡ mark_sending c owner entry with_abort world.old }
{
    match c {
        Some(c) => set_sending(world, c, owner, entry, with_abort),
        None => {}
    }
}

fn set_sending(world: &mut World, c: CallNo, owner: Owner, entry: EntryNo, with_abort: bool)
    ensures { world.new ≡ edit_call c (with_sending owner entry with_abort) world.old }
{
    if let Some(call) = call_mut(&mut world.calls, c) {
        call.sending = Some(Sending {
            owner,
            entry,
            with_abort,
        });
    }
}

/// A requeue: the call of the accept or entry body in which it stands is to be sent on.
///
/// Errors: memory ran out.
#[tactic(auto, unfolding(profile_machine::specs::EntryCalls::requeue))]
pub fn requeue(
    p: &Program,
    effect: &mut Effect,
    name: Who,
    e: EntryNo,
    o: EntryOwner,
    with_abort: bool,
) -> Result<(), NoMemory>
    ensures { OnOk result (Did (requeue p.now name e o with_abort) effect.old effect.new) }
{
    match owner_of_entry(&seen_by(p, &effect.world, name), e, o) {
        Ok(owner) => {
            let c = call_returned(&effect.world, name);
            mark_sending(&mut effect.world, c, owner, e, with_abort);
            leaves(effect, name, Leaving::Return);
            Ok(())
        }
        Err(exception) => raises(effect, Part::Own, name, exception),
    }
}
