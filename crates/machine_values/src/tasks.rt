//! What an expression may ask of tasks and of the queues of entries (ISO/IEC 8652:2012, 9.9, C.7.1,
//! D.2.6, D.5.1, D.14).
ghost use Rattle.std.specs.Prelude.{◌≡◌, ◌^◌, ◌≤◌, OnErr, IfOk, length, pos, option_and_then};
ghost use Rattle.std.specs.Result.{result_map_both};
ghost use Rattle.profile_machine.specs.Tasks.{number_of};
ghost use Rattle.profile_machine.specs.Values.{live_task, object_of, queue_at};
ghost use Rattle.profile_machine.specs.Values.{queues_of, own_queues, count_of_entry};

use crate::names::own_object;
use crate::seen::Seen;
use ann_base::{CallNo, Moment, NoMemory, ObjectNo, Raised, TaskNo};
use machine_frames::{object_of, task_at};
use profile_image::{Entry, EntryUnit, Value};
use profile_machine::world::{Task, World};
use trace_text::Who;
use world_tables::List;

/// The number of a task; the agent has none.
pub(crate) fn number_of(name: Who) -> Option<TaskNo>
    ensures { result ≡ number_of name }
{
    match name {
        Who::Task(task) => Some(task),
        Who::Agent => None,
    }
}

/// The task of a Task_Id.
///
/// Errors: `Program` for Null_Task_Id, `Tasking` for a task that has terminated.
pub fn live_task(world: &World, task: Option<TaskNo>) -> Result<&Task, Raised>
    ensures { result_map_both (λ t. t.now) (λ e. e) result ≡ live_task world.now task }
{
    let Some(task) = task else {
        return Err(Raised::Program);
    };
    task_at(world, Who::Task(task)).ok_or(Raised::Tasking)
}

/// A count of ticks as a moment.
///
/// Errors: it is beyond the last moment of 64 bits.
pub fn moment_at(ticks: u64) -> Result<Moment, NoMemory>
    ensures ok { IfOk result (λ moment. moment ≡ pos ticks) }
    ensures err { OnErr result (2 ^ 63 ≤ ticks) }
{
    match Moment::try_from(ticks) {
        Ok(moment) => Ok(moment),
        Err(_) => Err(NoMemory),
    }
}

#[tactic(auto, using(world_tables::proofs::ListLemmas::none_read))]
fn queue_length(queues: &List<List<CallNo>>, place: u32) -> usize
    ensures { result ≡ length (queue_at queues.now place) }
{
    match queues.get(place as usize) {
        Some(queue) => queue.len(),
        None => 0,
    }
}

// How many calls are queued on the entry at this place of its unit: of the object in whose body the
// name stands, or of the task that runs.
fn own_queue_length(q: &Seen<'_>, unit: EntryUnit, place: u32) -> usize
    ensures { result ≡ length (queue_at (own_queues q.now unit) place) }
{
    match unit {
        EntryUnit::Protected(unit) => object_queue_length(q, own_object(q, unit), place),
        EntryUnit::Task(_) => match task_at(q.world, q.who) {
            Some(task) => queue_length(&task.queues, place),
            None => 0,
        },
    }
}

fn object_queue_length(q: &Seen<'_>, number: Option<ObjectNo>, place: u32) -> usize
    ensures { result
        ≡ length (queue_at (queues_of (option_and_then (object_of q.now.world) number)) place) }
{
    let Some(number) = number else {
        return 0;
    };
    match object_of(q.world, number) {
        Some(object) => queue_length(&object.queues, place),
        None => 0,
    }
}

/// 'Count of an entry (9.9).
///
/// Errors: more calls are queued than an Integer can tell.
pub fn count_of_entry(q: &Seen<'_>, entry: &Entry) -> Result<Value, NoMemory>
    ensures ok { IfOk result (λ value. value ≡ count_of_entry q.now entry.now) }
    ensures err { OnErr result
        (2 ^ 31 ≤ length (queue_at (own_queues q.now entry.now.unit) entry.now.place)) }
{
    match i32::try_from(own_queue_length(q, entry.unit, entry.place)) {
        Ok(count) => Ok(Value::Whole(count)),
        Err(_) => Err(NoMemory),
    }
}
