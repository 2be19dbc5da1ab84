//! Returns, and the ends of subprograms (ISO/IEC 8652:2012, 6.5, 6.4.1).
ghost use Rattle.std.specs.Prelude.{◌≡◌, OnOk};
ghost use Rattle.machine_scopes.specs.Stored.{Stores};
ghost use Rattle.profile_machine.specs.Subprograms.{result_place, result_kept, return_result};
ghost use Rattle.profile_machine.specs.Subprograms.{return_value, without_sending, drop_sending};
ghost use Rattle.profile_machine.specs.Subprograms.{return, cell_in, last_cell, copy_parameters};
ghost use Rattle.profile_machine.specs.Subprograms.{falls_through, store_result, end_subprogram};
ghost use Rattle.profile_machine.specs.Values.{seen_by};
ghost use Rattle.machine_frames.specs.Did.{Did};

use ann_base::{CallNo, NoMemory, OrMemory, Raised};
use machine_frames::{Effect, call_returned, leaves, raises, refused};
use machine_operators::checked;
use machine_program::{Program, scope_of, subprogram_of};
use machine_queues::call_mut;
use machine_scopes::{home, innermost, store, write_cell};
use machine_values::{or_raised, seen_by, value};
use profile_image::{ExprNo, SubprogramNo, Value};
use profile_machine::Leaving;
use profile_machine::world::{Call, CopyBack, Part, ResultTo, World};
use trace_text::Who;
use world_tables::List;

// The last cell of a function's scope keeps its result.
fn result_place(p: &Program, f: SubprogramNo) -> u32
    ensures { result ≡ result_place p.now f }
{
    scope_of(p, subprogram_of(p, f).scope)
        .size
        .saturating_sub(1)
}

fn result_kept(
    p: &Program,
    name: Who,
    f: SubprogramNo,
    v: Value,
    world: &mut World,
) -> Result<(), OrMemory<Raised>>
    ensures { Stores result (result_kept (seen_by p.now world.old name) f v) world.old world.new }
{
    let Some(range) = subprogram_of(p, f).result else {
        return Err(OrMemory::Fault(Raised::Program));
    };
    let x = or_raised(checked(range, v))?;
    let scope = subprogram_of(p, f).scope;
    let id = home(world, scope, innermost(world, name)).ok_or(OrMemory::Fault(Raised::Program))?;
    write_cell(world, id, result_place(p, f), x);
    Ok(())
}

// A function's result, range checked, is kept, and the marks are left to its body.
#[tactic(auto, unfolding(profile_machine::specs::Subprograms::return_result))]
fn return_result(
    p: &Program,
    effect: &mut Effect,
    name: Who,
    f: SubprogramNo,
    v: Value,
) -> Result<(), NoMemory>
    ensures { OnOk result (Did (return_result p.now name f v) effect.old effect.new) }
{
    match result_kept(p, name, f, v, &mut effect.world) {
        Ok(()) => {
            leaves(effect, name, Leaving::Return);
            Ok(())
        }
        Err(answer) => refused(effect, name, answer),
    }
}

/// A return of a function's value: it is range checked and kept, and the marks are left to the body
/// of the function.
#[tactic(auto, unfolding(profile_machine::specs::Subprograms::return_value))]
pub fn return_value(
    p: &Program,
    effect: &mut Effect,
    name: Who,
    f: SubprogramNo,
    e: ExprNo,
) -> Result<(), NoMemory>
    ensures { OnOk result (Did (return_value p.now name f e) effect.old effect.new) }
{
    match value(&seen_by(p, &effect.world, name), e) {
        Ok(v) => return_result(p, effect, name, f, v),
        Err(answer) => refused(effect, name, answer),
    }
}

// A requeue of the call is no longer under way.
fn without_sending(call: &mut Call)
    ensures { call.new ≡ without_sending call.old }
{
    call.sending = None;
}

// A return drops a requeue that an exception has replaced.
fn drop_sending(world: &mut World, c: Option<CallNo>)
    ensures { world.new ≡ drop_sending c world.old }
{
    if let Some(c) = c {
        if let Some(call) = call_mut(&mut world.calls, c) {
            without_sending(call);
        }
    }
}

/// A return without a value. It drops a requeue that an exception has replaced.
pub fn return_statement(effect: &mut Effect, name: Who)
    ensures { Did (return name) effect.old effect.new }
{
    let call = call_returned(&effect.world, name);
    drop_sending(&mut effect.world, call);
    leaves(effect, name, Leaving::Return);
}

fn cell_in(cells: &List<Value>, place: usize) -> Value
    ensures { result ≡ cell_in cells.now place }
{
    cells.get_or(place, Value::Whole(0))
}

fn last_cell(cells: &List<Value>) -> Value
    ensures { result ≡ last_cell cells.now }
{
    cell_in(cells, cells.len().saturating_sub(1))
}

// A function that falls through raises Program_Error.
fn falls_through(leaving: Leaving, to: ResultTo) -> bool
    ensures { result ≡ falls_through leaving to }
{
    match leaving {
        Leaving::End => match to {
            ResultTo::Nowhere => false,
            ResultTo::Variable(_) => true,
            ResultTo::Return(_) => true,
        },
        _ => false,
    }
}

#[tactic(auto, unfolding(profile_machine::specs::Subprograms::store_result, profile_machine::specs::Statements::becomes))]
fn store_result(
    p: &Program,
    effect: &mut Effect,
    name: Who,
    cells: &List<Value>,
    to: ResultTo,
) -> Result<(), NoMemory>
    ensures { OnOk result (Did (store_result p.now name cells.now to) effect.old effect.new) }
{
    match to {
        ResultTo::Nowhere => Ok(()),
        ResultTo::Variable(v) => match store(p, v, last_cell(cells), &mut effect.world) {
            Ok(()) => Ok(()),
            Err(answer) => refused(effect, name, answer),
        },
        ResultTo::Return(f) => return_result(p, effect, name, f, last_cell(cells)),
    }
}

// Parameters are copied back, in order up to the first that fails its range check, and then the
// result is stored.
fn copy_parameters(
    p: &Program,
    effect: &mut Effect,
    name: Who,
    cells: &List<Value>,
    back: &List<CopyBack>,
    to: ResultTo,
) -> Result<(), NoMemory>
    ensures { OnOk result
        (Did (copy_parameters p.now name cells.now back.now (store_result p.now name cells.now to))
        effect.old effect.new) }
{
    for b in back.iter() {
        let value = cell_in(cells, b.place as usize);
        match store(p, b.target, value, &mut effect.world) {
            Ok(()) => {}
            Err(answer) => return refused(effect, name, answer),
        }
    }
    store_result(p, effect, name, cells, to)
}

/// The end of a subprogram's scope: parameters are copied back in order, and then a function's
/// value is stored. The cells are those of the scope that has ended.
#[tactic(auto, unfolding(profile_machine::specs::Subprograms::end_subprogram))]
pub fn end_subprogram(
    p: &Program,
    effect: &mut Effect,
    name: Who,
    cells: &List<Value>,
    back: &List<CopyBack>,
    to: ResultTo,
    leaving: Leaving,
) -> Result<(), NoMemory>
    ensures { OnOk result
        (Did (end_subprogram p.now name cells.now back.now to leaving) effect.old effect.new) }
{
    if falls_through(leaving, to) {
        raises(effect, Part::Own, name, Raised::Program)
    } else {
        copy_parameters(p, effect, name, cells, back, to)
    }
}
