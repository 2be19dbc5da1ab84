//! Barriers of protected entries, and the call that is served next (ISO/IEC 8652:2012, 9.5.2,
//! 9.5.3, D.4).
ghost use Rattle.std.specs.Prelude.{◌≡◌, IfOk};
ghost use Rattle.profile_machine.specs.Calls.{better_of, next_call};
ghost use Rattle.profile_machine.specs.Protected.{seen_by_barrier, is_barrier_open, is_open_entry};
ghost use Rattle.profile_machine.specs.Protected.{is_open_body, open_queues, served_next};
ghost use Rattle.profile_machine.specs.Values.{object_of, queue_at};
ghost use Rattle.world_tables.specs.Lists.{first_of};
ghost use Rattle.machine_barriers.specs.Heads.{next_with, next_or};

use ann_base::{CallNo, NoMemory, ObjectNo, OrMemory};
use machine_frames::object_of;
use machine_program::{Program, entry_of, policies, protected_unit_of};
use machine_queues::{place_of_entry, priority_of};
use machine_values::{Seen, condition};
use profile_image::{EntryBody, EntryNo, Queuing};
use profile_machine::world::{Object, World};
use trace_text::Who;
use world_tables::List;

fn seen_by_barrier<'a>(p: &'a Program, world: &'a World, name: Who, object: &Object) -> Seen<'a>
    ensures { result ≡ seen_by_barrier p.now world.now name object.now }
{
    Seen {
        program: p,
        world,
        who: name,
        within: Some(object.located.within),
        object: Some(object.number),
    }
}

fn is_open_body(
    p: &Program,
    world: &World,
    name: Who,
    object: &Object,
    body: Option<EntryBody>,
) -> Result<bool, NoMemory>
    ensures { IfOk result (λ opens. opens ≡ is_open_body p.now world.now name object.now body) }
{
    match body {
        Some(body) => match condition(&seen_by_barrier(p, world, name, object), body.barrier) {
            Ok(open) => Ok(open),
            Err(OrMemory::Fault(_)) => Ok(false),
            Err(OrMemory::Memory) => Err(NoMemory),
        },
        None => Ok(false),
    }
}

fn is_open_entry(
    p: &Program,
    world: &World,
    name: Who,
    object: &Object,
    e: EntryNo,
) -> Result<bool, NoMemory>
    ensures { IfOk result (λ opens. opens ≡ is_open_entry p.now world.now name object.now e) }
{
    is_open_body(p, world, name, object, entry_of(p, e).body)
}

/// Whether the barrier of an entry of an object is open. Evaluating one costs nothing and never
/// raises.
///
/// Errors: memory ran out, or a number does not fit its type.
pub fn is_barrier_open(
    p: &Program,
    world: &World,
    name: Who,
    o: ObjectNo,
    e: EntryNo,
) -> Result<bool, NoMemory>
    ensures { IfOk result (λ opens. opens ≡ is_barrier_open p.now world.now name o e) }
{
    match object_of(world, o) {
        Some(object) => is_open_entry(p, world, name, object, e),
        None => Ok(false),
    }
}

// The head of the queue of an entry.
#[tactic(auto, using(crate::proofs::HeadLemmas::head_laws))]
fn head_at(queues: &List<List<CallNo>>, place: u32) -> Option<CallNo>
    ensures { result ≡ first_of (queue_at queues.now place) }
{
    Some(*queues.get(place as usize)?.front()?)
}

// Of two calls the one of higher priority, and of one priority the first.
fn better_of(world: &World, c: CallNo, other: Option<CallNo>) -> CallNo
    ensures { result ≡ better_of world.now c other }
{
    match other {
        Some(d) if priority_of(world, c) < priority_of(world, d) => d,
        _ => c,
    }
}

/// Which call is served next of the head of a queue and of the best of the queues that stand behind
/// it (D.4).
pub fn next_with(
    world: &World,
    queuing: Queuing,
    head: Option<CallNo>,
    behind: Option<CallNo>,
) -> Option<CallNo>
    ensures { result ≡ next_with queuing world.now head behind }
{
    match head {
        Some(c) => match queuing {
            Queuing::Fifo => Some(c),
            Queuing::Priority => Some(better_of(world, c, behind)),
        },
        None => behind,
    }
}

// The same where the head is that of an entry whose barrier may be closed.
fn next_or(
    p: &Program,
    world: &World,
    name: Who,
    object: &Object,
    e: EntryNo,
    behind: Option<CallNo>,
) -> Result<Option<CallNo>, NoMemory>
    ensures { IfOk result (λ chosen. chosen ≡ next_or p.now world.now name object.now e behind) }
{
    if is_open_entry(p, world, name, object, e)? {
        let head = head_at(&object.queues, place_of_entry(p, e));
        Ok(next_with(world, policies(p).queuing, head, behind))
    } else {
        Ok(behind)
    }
}

// The last entry comes first, since each stands before those behind it.
#[tactic(auto, using(crate::proofs::HeadLemmas::head_laws))]
fn next_of_entries(
    p: &Program,
    world: &World,
    name: Who,
    object: &Object,
    entries: &[EntryNo],
) -> Result<Option<CallNo>, NoMemory>
    ensures { IfOk result
        (λ chosen.
        chosen
        ≡ next_call p.now world.now (open_queues p.now world.now name object.now entries.now)) }
{
    let mut chosen = None;
    let mut place = entries.len();
    while 0 < place {
        place -= 1;
        chosen = next_or(p, world, name, object, entries[place], chosen)?;
    }
    Ok(chosen)
}

/// The call that is served next on an object: of the queues of the entries whose barriers are open,
/// in the order of the text.
///
/// Errors: memory ran out, or a number does not fit its type.
pub fn served_next(
    p: &Program,
    world: &World,
    name: Who,
    o: ObjectNo,
) -> Result<Option<CallNo>, NoMemory>
    ensures { IfOk result
        (λ chosen. chosen ≡ served_next p.now world.now name (object_of world.now o)) }
{
    match object_of(world, o) {
        Some(object) => {
            let entries = protected_unit_of(p, object.unit).entries.as_slice();
            next_of_entries(p, world, name, object, entries)
        }
        None => Ok(None),
    }
}
