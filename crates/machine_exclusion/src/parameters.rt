//! The parameters of a served call when its body has ended (ISO/IEC 8652:2012, 6.4.1, 9.5.4).
ghost use Rattle.std.specs.Prelude.{◌≡◌, ◌++◌, drop, slice_get, take, IfOk, OnOk};
ghost use Rattle.std.specs.List.{cons_option};
ghost use Rattle.profile_machine.specs.Calls.{edit_call};
ghost use Rattle.profile_machine.specs.Scopes.{cells_of, scope_in_use};
ghost use Rattle.profile_machine.specs.Serving.{with_values, keep_values};
ghost use Rattle.profile_machine.specs.Serving.{keeps_sending, end_body_of_entry};
ghost use Rattle.machine_frames.specs.Did.{Did};

use ann_base::{CallNo, NoMemory};
use machine_frames::Effect;
use machine_program::Program;
use machine_queues::{call_mut, call_of, formals_count};
use machine_scopes::scope_in_use;
use profile_image::Value;
use profile_machine::Leaving;
use profile_machine::world::{Call, ScopeId, World};
use std::alloc::Global;
use world_tables::List;

#[tactic(auto, using(crate::proofs::PlaceLemmas::front_laws))]
fn drop_front(values: &mut List<Value>, count: usize)
    ensures { values.new ≡ drop count values.old }
{
    let mut left = count;
    while 0 < left {
        values.pop_front();
        left -= 1;
    }
}

// The cell at this place, if there is one, comes before the values.
fn put_cell(values: &mut List<Value>, cells: &List<Value>, place: usize) -> Result<(), NoMemory>
    ensures { OnOk result (values.new ≡ cons_option (slice_get cells.now place) values.old) }
{
    match cells.get(place) {
        Some(cell) => {
            values.push_front(*cell)?;
            Ok(())
        }
        None => Ok(()),
    }
}

// The first cells, so many, come before the values.
#[tactic(auto, using(crate::proofs::PlaceLemmas::place_laws))]
fn put_front(values: &mut List<Value>, cells: &List<Value>, count: usize) -> Result<(), NoMemory>
    ensures { OnOk result (values.new ≡ take count cells.now ++ values.old) }
{
    let mut place = count.min(cells.len());
    while 0 < place {
        place -= 1;
        put_cell(values, cells, place)?;
    }
    Ok(())
}

/// The first values of a call become those of the first cells, so many.
///
/// Errors: memory ran out.
pub fn with_values(call: &mut Call, cells: &List<Value>, count: usize) -> Result<(), NoMemory>
    ensures { OnOk result (call.new ≡ with_values cells.now count call.old) }
{
    drop_front(&mut call.values, count);
    put_front(&mut call.values, cells, count)
}

/// A requeue is under way only where the body was left by it.
pub fn keeps_sending(call: &mut Call, leaving: Leaving)
    ensures { call.new ≡ keeps_sending leaving call.old }
{
    match leaving {
        Leaving::Return => {}
        Leaving::End
        | Leaving::Exit(_)
        | Leaving::Exception(_)
        | Leaving::Abort
        | Leaving::Terminate => call.sending = None,
    }
}

fn set_sending_by(world: &mut World, c: CallNo, leaving: Leaving)
    ensures { world.new ≡ edit_call c (keeps_sending leaving) world.old }
{
    if let Some(call) = call_mut(&mut world.calls, c) {
        keeps_sending(call, leaving);
    }
}

fn set_values(
    world: &mut World,
    c: CallNo,
    cells: &List<Value>,
    count: usize,
) -> Result<(), NoMemory>
    ensures { OnOk result (world.new ≡ edit_call c (with_values cells.now count) world.old) }
{
    if let Some(call) = call_mut(&mut world.calls, c) {
        with_values(call, cells, count)?;
    }
    Ok(())
}

#[tactic(auto, unfolding(profile_machine::specs::Serving::keep_values))]
fn keep_values(
    p: &Program,
    effect: &mut Effect,
    c: CallNo,
    cells: &List<Value>,
) -> Result<(), NoMemory>
    ensures { OnOk result (Did (keep_values p.now c cells.now) effect.old effect.new) }
{
    match call_of(&effect.world, c) {
        Some(call) => {
            let count = formals_count(p, call);
            set_values(&mut effect.world, c, cells, count)
        }
        None => Ok(()),
    }
}

/// The scope of an entry body has ended: the present values of the parameters are those of the
/// call.
#[tactic(auto, unfolding(profile_machine::specs::Serving::end_body_of_entry))]
pub fn end_body_of_entry(
    p: &Program,
    effect: &mut Effect,
    c: CallNo,
    cells: &List<Value>,
    leaving: Leaving,
) -> Result<(), NoMemory>
    ensures { OnOk result
        (Did (end_body_of_entry p.now c cells.now leaving) effect.old effect.new) }
{
    set_sending_by(&mut effect.world, c, leaving);
    keep_values(p, effect, c, cells)
}

/// A copy of the cells of a scope in use; none where it is not.
///
/// Errors: memory ran out.
pub fn copied_cells(alloc: Global, world: &World, id: ScopeId) -> Result<List<Value>, NoMemory>
    ensures { IfOk result (λ cells. cells ≡ cells_of (scope_in_use world.now id)) }
{
    match scope_in_use(world, id) {
        Some(scope) => Ok(scope.cells.clone()?),
        None => Ok(List::new(alloc)),
    }
}
