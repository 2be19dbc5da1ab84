//! The steps of an assignment of a controlled object (ISO/IEC 8652:2012, 7.6): Finalize of the
//! target, the copy of the components, and Adjust.
ghost use Rattle.std.specs.Prelude.{◌≡◌, ◌-◌, OnOk, IfOk};
ghost use Rattle.profile_machine.specs.Controlled.{leave_without_room, finalize_target_by};
ghost use Rattle.profile_machine.specs.Controlled.{adjust_by, components_at, cells_of_components};
ghost use Rattle.profile_machine.specs.Controlled.{copy_components_of, copy_object, do_step};
ghost use Rattle.profile_machine.specs.Controlled.{step_with, end_in_assign};
ghost use Rattle.machine_frames.specs.Did.{Did};

use crate::finalizing::open_finalize;
use crate::marks::set_step;
use crate::operations::{
    adjust_of, finalize_of, first_place, has_room_to_adjust, has_room_to_finalize, open_operation,
};
use crate::registration::registered_object;
use ann_base::{NoMemory, Raised, next_number};
use machine_frames::{Effect, leaves, pop, raises};
use machine_parameters::cells_from;
use machine_program::{Program, declaration_of};
use machine_scopes::{put_cells, scope_mut};
use profile_image::{CONTROLLED_CELLS, SubprogramNo};
use profile_machine::Leaving;
use profile_machine::world::{AssignMark, AssignStep, Located, Part, Registered, Variable, World};
use std::alloc::Global;
use trace_text::Who;

// Without room a Finalize or an Adjust counts as one that raised.
#[tactic(auto, unfolding(profile_machine::specs::Controlled::leave_without_room))]
fn leave_without_room(effect: &mut Effect, name: Who)
    ensures { Did (leave_without_room name) effect.old effect.new }
{
    leaves(effect, name, Leaving::Exception(Raised::Storage));
}

#[tactic(auto, unfolding(profile_machine::specs::Controlled::finalize_target_by))]
fn finalize_target_by(
    alloc: Global,
    p: &Program,
    effect: &mut Effect,
    name: Who,
    target: Registered,
    operation: Option<SubprogramNo>,
) -> Result<(), NoMemory>
    ensures { OnOk result
        (Did (finalize_target_by p.now name target operation) effect.old effect.new) }
{
    match operation {
        None => Ok(()),
        Some(f) => {
            if has_room_to_finalize(p, &effect.world, name, f) {
                open_finalize(alloc, p, effect, name, target.object, target.located, f)
            } else {
                leave_without_room(effect, name);
                Ok(())
            }
        }
    }
}

#[tactic(auto, unfolding(profile_machine::specs::Controlled::adjust_by))]
fn adjust_by(
    alloc: Global,
    p: &Program,
    effect: &mut Effect,
    name: Who,
    target: Registered,
    operation: Option<SubprogramNo>,
) -> Result<(), NoMemory>
    ensures { OnOk result (Did (adjust_by p.now name target operation) effect.old effect.new) }
{
    match operation {
        None => Ok(()),
        Some(f) => {
            if has_room_to_adjust(p, &effect.world, name, f) {
                open_operation(alloc, p, effect, name, f, target.located)
            } else {
                leave_without_room(effect, name);
                Ok(())
            }
        }
    }
}

// The first cell of an object's components, behind its own cell.
fn components_at(p: &Program, object: Located) -> Result<Variable, NoMemory>
    ensures { IfOk result (λ v. v ≡ components_at p.now object) }
{
    Ok(Variable {
        within: object.within,
        place: next_number(first_place(p, object))?,
        declared: object.declared,
    })
}

fn cells_of_components(p: &Program, object: Located) -> u32
    ensures { result ≡ cells_of_components p.now object }
{
    declaration_of(p, object.declared)
        .cells
        .saturating_sub(CONTROLLED_CELLS)
}

fn copy_components_of(
    alloc: Global,
    target: Variable,
    source: Variable,
    count: u32,
    world: &mut World,
) -> Result<(), NoMemory>
    ensures { OnOk result (world.new ≡ copy_components_of target source count world.old) }
{
    let values = cells_from(alloc, world, source, count)?;
    if let Some(scope) = scope_mut(&mut world.scopes, target.within) {
        put_cells(&mut scope.cells, target.place, &values);
    }
    Ok(())
}

// The components alone are copied.
fn copy_object(
    alloc: Global,
    p: &Program,
    target: Located,
    source: Located,
    world: &mut World,
) -> Result<(), NoMemory>
    ensures { OnOk result (world.new ≡ copy_object p.now target source world.old) }
{
    let count = cells_of_components(p, target);
    let target = components_at(p, target)?;
    let source = components_at(p, source)?;
    copy_components_of(alloc, target, source, count, world)
}

fn do_step(
    alloc: Global,
    p: &Program,
    effect: &mut Effect,
    name: Who,
    step: AssignStep,
    target: Registered,
    source: Registered,
) -> Result<(), NoMemory>
    ensures { OnOk result (Did (do_step p.now name step target source) effect.old effect.new) }
{
    match step {
        AssignStep::FinalizeTarget => {
            set_step(&mut effect.world, name, AssignStep::CopyComponents);
            let operation = finalize_of(p, target.located);
            finalize_target_by(alloc, p, effect, name, target, operation)
        }
        AssignStep::CopyComponents => {
            set_step(&mut effect.world, name, AssignStep::AdjustTarget);
            copy_object(alloc, p, target.located, source.located, &mut effect.world)
        }
        AssignStep::AdjustTarget => {
            set_step(&mut effect.world, name, AssignStep::Assigned);
            let operation = adjust_of(p, target.located);
            adjust_by(alloc, p, effect, name, target, operation)
        }
        AssignStep::Assigned => {
            pop(&mut effect.world, name);
            Ok(())
        }
    }
}

// An assignment ends where one of its objects is no longer registered.
fn step_with(
    alloc: Global,
    p: &Program,
    effect: &mut Effect,
    name: Who,
    step: AssignStep,
    target: Option<Registered>,
    source: Option<Registered>,
) -> Result<(), NoMemory>
    ensures { OnOk result (Did (step_with p.now name step target source) effect.old effect.new) }
{
    match (target, source) {
        (Some(target), Some(source)) => do_step(alloc, p, effect, name, step, target, source),
        (Some(_), None) => {
            pop(&mut effect.world, name);
            Ok(())
        }
        (None, _) => {
            pop(&mut effect.world, name);
            Ok(())
        }
    }
}

/// The next step of an assignment is done. Where its mark is being left by an exception,
/// Program_Error is raised.
#[tactic(auto, unfolding(profile_machine::specs::Controlled::end_in_assign))]
pub fn end_in_assign(
    alloc: Global,
    p: &Program,
    effect: &mut Effect,
    name: Who,
    mark: AssignMark,
    leaving: Option<Leaving>,
) -> Result<(), NoMemory>
    ensures { OnOk result (Did (end_in_assign p.now name mark leaving) effect.old effect.new) }
{
    match leaving {
        Some(Leaving::Exception(_)) => {
            pop(&mut effect.world, name);
            raises(effect, Part::Own, name, Raised::Program)
        }
        _ => {
            let target = registered_object(&effect.world, mark.target);
            let source = registered_object(&effect.world, mark.source);
            step_with(alloc, p, effect, name, mark.step, target, source)
        }
    }
}
