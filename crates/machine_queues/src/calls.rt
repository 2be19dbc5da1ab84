//! The entry calls that have not been resumed: looking at one, and changing one (ISO/IEC 8652:2012,
//! 9.5.3).
ghost use Rattle.std.specs.Prelude.{◌≡◌, OnOk, IfOk, length, take, find, option_copied};
ghost use Rattle.std.specs.List.{position_from};
ghost use Rattle.std.specs.Option.{option_copied_mut};
ghost use Rattle.std.specs.Borrow.{sem};
ghost use Rattle.profile_machine.specs.Calls.{is_call, call_of, forget_call, call_drawn, says_call};
ghost use Rattle.profile_machine.specs.Calls.{formals_count, parameters_of, priority_of};
ghost use Rattle.profile_image.specs.Program.{entry_of};
ghost use Rattle.profile_image.specs.Words.{without};
ghost use Rattle.machine_queues.specs.Lends.{lends_call};
ghost use Rattle.machine_frames.specs.Did.{Did};

use ann_base::{CallNo, Level, NoMemory};
use machine_frames::{Effect, says};
use machine_program::{Program, entry_of};
use profile_image::Value;
use profile_machine::world::{Call, Drawn, Line, Part, World};
use rosters::Roster;
use std::alloc::Global;
use world_tables::List;

/// Whether a call has this number.
pub fn is_call(c: CallNo, call: &Call) -> bool
    ensures { result ≡ is_call c call.now }
{
    c.0 == call.number.0
}

pub(crate) fn found_call(calls: &Roster<Call>, c: CallNo) -> Option<&Call>
    ensures { option_copied result ≡ find (is_call c) calls.now }
{
    calls.find(c.0)
}

/// The call with this number, if it is there.
pub fn call_of(world: &World, c: CallNo) -> Option<&Call>
    ensures { option_copied result ≡ call_of world.now c }
{
    found_call(&world.calls, c)
}

// Where the first call with this number stands.
fn place_of(calls: &Roster<Call>, c: CallNo) -> Option<usize>
    ensures { result ≡ position_from (is_call c) 0 calls.now }
{
    calls.place_of(c.0)
}

// The call in this place, where the first one with this number stands, for writing.
fn call_in_place(calls: &mut Roster<Call>, c: CallNo, place: usize) -> Option<&mut Call>
    requires { position_from (is_call c) 0 calls.old ≡ Some place }
    ensures* writes_back { sem 𝓛 (lends_call calls.entry c result) }
    ensures value { option_copied_mut result ≡ find (is_call c) calls.old }
{
    calls.get_mut(place)
}

/// The call with this number for writing, if it is there.
pub fn call_mut(calls: &mut Roster<Call>, c: CallNo) -> Option<&mut Call>
    ensures* writes_back { sem 𝓛 (lends_call calls.entry c result) }
    ensures value { option_copied_mut result ≡ find (is_call c) calls.old }
{
    match place_of(calls, c) {
        Some(place) => call_in_place(calls, c, place),
        None => None,
    }
}

/// A copy of a call.
///
/// Errors: memory ran out.
pub fn copy_of_call(call: &Call) -> Result<Call, NoMemory>
    ensures { IfOk result (λ copy. copy ≡ call.now) }
{
    Ok(Call {
        number: call.number,
        caller: call.caller,
        kind: call.kind,
        statement: call.statement,
        owner: call.owner,
        entry: call.entry,
        priority: call.priority,
        begun: call.begun,
        firm: call.firm,
        sent_with_abort: call.sent_with_abort,
        attempted: call.attempted,
        moment: call.moment,
        values: call.values.clone()?,
        results: call.results.clone()?,
        sending: call.sending,
        outcome: call.outcome,
    })
}

/// A copy of the call with this number, if it is there: a step that goes on with the call while the
/// world changes keeps it.
///
/// Errors: memory ran out.
pub fn copied_call(world: &World, c: CallNo) -> Result<Option<Call>, NoMemory>
    ensures { IfOk result (λ call. call ≡ call_of world.now c) }
{
    match call_of(world, c) {
        Some(call) => Ok(Some(copy_of_call(call)?)),
        None => Ok(None),
    }
}

fn forget_in(calls: &mut Roster<Call>, c: CallNo)
    ensures { calls.new ≡ without (is_call c) calls.old }
{
    calls.forget(c.0);
}

/// The call is no longer among the calls.
pub fn forget_call(world: &mut World, c: CallNo)
    ensures { world.new ≡ forget_call c world.old }
{
    forget_in(&mut world.calls, c);
}

/// One more call has been drawn.
///
/// Errors: the numbers of calls are used up; nothing is told of `drawn` then.
pub fn call_drawn(drawn: &mut Drawn) -> Result<(), NoMemory>
    ensures { OnOk result (drawn.new ≡ call_drawn drawn.old) }
{
    let calls = drawn.calls.checked_add(1).ok_or(NoMemory)?;
    drawn.calls = calls;
    Ok(())
}

/// The `call` line.
#[tactic(auto, unfolding(profile_machine::specs::Calls::says_call))]
pub fn says_call(effect: &mut Effect, part: Part, call: &Call) -> Result<(), NoMemory>
    ensures { OnOk result (Did (says_call part call.now) effect.old effect.new) }
{
    says(
        effect,
        part,
        Line::Call {
            task: call.caller,
            call: call.number,
            owner: call.owner,
            entry: call.entry,
            priority: call.priority,
        },
    )
}

/// How many parameters the entry has at which a call is now.
pub fn formals_count(p: &Program, call: &Call) -> usize
    ensures { result ≡ length (entry_of p.now call.now.entry).formals }
{
    entry_of(p, call.entry).formals.as_slice().len()
}

/// The values for the parameters of the body that takes a call: those of the call's present entry
/// alone, also where it was sent on to an entry without any (9.5.4).
///
/// Errors: memory ran out.
pub fn parameters_of(alloc: Global, p: &Program, call: &Call) -> Result<List<Value>, NoMemory>
    ensures { IfOk result (λ values. values ≡ parameters_of p.now call.now) }
{
    first_values(alloc, &call.values, formals_count(p, call))
}

// So many of these values, or all.
#[tactic(auto, using(crate::proofs::TakeLemmas::take_laws))]
fn first_values(alloc: Global, values: &List<Value>, count: usize) -> Result<List<Value>, NoMemory>
    ensures { IfOk result (λ first. first ≡ take count values.now) }
{
    let mut first = List::new(alloc);
    for value in values.iter() {
        if first.len() == count {
            return Ok(first);
        }
        first.push_back(*value)?;
    }
    Ok(first)
}

/// The priority of a call; 0 where it is not there.
pub fn priority_of(world: &World, c: CallNo) -> Level
    ensures { result ≡ priority_of world.now c }
{
    match call_of(world, c) {
        Some(call) => call.priority,
        None => 0,
    }
}
