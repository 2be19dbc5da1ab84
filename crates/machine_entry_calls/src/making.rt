//! An entry call is made (ISO/IEC 8652:2012, 9.5.3): it draws its number, and `call` comes first of
//! all.
ghost use Rattle.std.specs.Prelude.{◌≡◌, IfOk, OnOk, suc};
ghost use Rattle.profile_machine.specs.EntryCalls.{make_call, end_at_once, marks_if_queued};
ghost use Rattle.profile_machine.specs.Frames.{has_room};
ghost use Rattle.trace_text.specs.declared.events.Who.TheVariants as who;
ghost use Rattle.machine_frames.specs.Did.{Did};
ghost use Rattle.machine_entry_calls.specs.Making.{call_number, add_numbered, LeadsWith};

use ann_base::{CallNo, NoMemory, Raised};
use machine_frames::{Effect, goes, has_room, raises};
use machine_program::{Program, next_of};
use machine_queues::{call_drawn, copy_of_call, forget_call, says_call};
use profile_machine::world::{Call, CallKind, Part, World};
use trace_text::Who;

// The number that the next call gets.
//
// Errors: the numbers of calls are used up.
fn next_number(world: &World) -> Result<CallNo, NoMemory>
    ensures { IfOk result (λ number. number ≡ call_number (suc world.now.drawn.calls)) }
{
    let number = world.drawn.calls.checked_add(1).ok_or(NoMemory)?;
    Ok(CallNo(number))
}

fn add_call(world: &mut World, c: Call) -> Result<(), NoMemory>
    ensures { OnOk result (world.new ≡ add_numbered c world.old) }
{
    world.calls.push_front(c)?;
    call_drawn(&mut world.drawn)
}

/// The call is made, and answered as it is then. The caller goes on behind its statement first, so
/// that where it blocks or has the object open its frame names what it does once the call has
/// ended; the end of the call may say otherwise.
///
/// Errors: memory ran out, or the numbers of calls are used up.
pub fn make_call(p: &Program, effect: &mut Effect, c: Call) -> Result<Call, NoMemory>
    ensures { IfOk result (λ made. LeadsWith (make_call p.now c) made effect.old effect.new) }
{
    goes(effect, Who::Task(c.caller), next_of(p, c.statement));
    let mut made = c;
    made.number = next_number(&effect.world)?;
    add_call(&mut effect.world, copy_of_call(&made)?)?;
    says_call(effect, Part::TheCall, &made)?;
    Ok(made)
}

/// A call ends at once with an exception.
///
/// Errors: memory ran out.
#[tactic(auto, unfolding(profile_machine::specs::EntryCalls::end_at_once))]
pub fn end_at_once(
    effect: &mut Effect,
    part: Part,
    c: &Call,
    exception: Raised,
) -> Result<(), NoMemory>
    ensures { OnOk result (Did (end_at_once part c.now exception) effect.old effect.new) }
{
    forget_call(&mut effect.world, c.number);
    raises(effect, part, Who::Task(c.caller), exception)
}

// A triggering call needs a mark where it is queued.
fn marks_if_queued(kind: CallKind) -> u32
    ensures { result ≡ marks_if_queued kind }
{
    match kind {
        CallKind::Plain => 0,
        CallKind::Conditional => 0,
        CallKind::Timed => 0,
        CallKind::Triggering => 1,
    }
}

/// Whether the call has room for the mark that it needs where it is queued.
pub fn has_room_if_queued(world: &World, c: &Call) -> bool
    ensures { result ≡ has_room world.now (who.Task c.now.caller) (marks_if_queued c.now.kind) 0 }
{
    has_room(world, Who::Task(c.caller), marks_if_queued(c.kind), 0)
}
