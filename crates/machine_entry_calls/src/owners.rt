//! Whose entry a name names (ISO/IEC 8652:2012, 9.5.3).
ghost use Rattle.std.specs.Prelude.{◌≡◌, option_and_then};
ghost use Rattle.profile_machine.specs.EntryCalls.{owner_task, owner_by_unit};
ghost use Rattle.profile_machine.specs.EntryCalls.{owner_in_scope, own_unit, owner_of_entry};
ghost use Rattle.profile_machine.specs.Scopes.{scope_in_use};

use ann_base::{ObjectNo, Raised, TaskNo};
use machine_frames::number_of;
use machine_program::{entry_of, task_unit_of};
use machine_scopes::{home, scope_in_use};
use machine_values::{Seen, own_object, task_in, thing, thing_number};
use profile_image::{EntryNo, EntryOwner, EntryUnit, Value};
use profile_machine::world::{Owner, ScopeId, World};

fn owner_task(task: Option<TaskNo>) -> Result<Owner, Raised>
    ensures { result ≡ owner_task task }
{
    let t = task.ok_or(Raised::Program)?;
    Ok(Owner::Task(t))
}

fn owner_by_unit(unit: EntryUnit, value: Value) -> Result<Owner, Raised>
    ensures { result ≡ owner_by_unit unit value }
{
    match unit {
        EntryUnit::Task(_) => owner_task(task_in(value)),
        EntryUnit::Protected(_) => Ok(Owner::Object(ObjectNo(thing_number(value)))),
    }
}

// The task that runs a scope, if the scope is in use and a task runs it.
fn owner_in_scope(world: &World, id: Option<ScopeId>) -> Option<TaskNo>
    ensures { result ≡ owner_in_scope (option_and_then (scope_in_use world.now) id) }
{
    number_of(scope_in_use(world, id?)?.owner)
}

// An entry by its own name is that of the task, or the object, in whose body the name stands.
fn own_unit(q: &Seen<'_>, unit: EntryUnit) -> Result<Owner, Raised>
    ensures { result ≡ own_unit q.now unit }
{
    match unit {
        EntryUnit::Task(u) => {
            let scope = task_unit_of(q.program, u).scope;
            owner_task(owner_in_scope(q.world, home(q.world, scope, q.within)))
        }
        EntryUnit::Protected(u) => {
            let o = own_object(q, u).ok_or(Raised::Program)?;
            Ok(Owner::Object(o))
        }
    }
}

/// Whose entry is named.
///
/// Errors: the exception that is raised where the name denotes no task or object.
pub fn owner_of_entry(q: &Seen<'_>, e: EntryNo, owner: EntryOwner) -> Result<Owner, Raised>
    ensures { result ≡ owner_of_entry q.now e owner }
{
    let unit = entry_of(q.program, e).unit;
    match owner {
        EntryOwner::Object(d) => owner_by_unit(unit, thing(q, d)?),
        EntryOwner::Own => own_unit(q, unit),
    }
}
