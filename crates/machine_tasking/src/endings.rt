//! A scope has ended, and with it a block, a body or a task (ISO/IEC 8652:2012, 5.6, 6.5, 7.6.1,
//! 9.3, 9.5.2).
ghost use Rattle.std.specs.Prelude.{◌≡◌, OnOk};
ghost use Rattle.profile_machine.specs.Tasking.{says_done, exception_in, is_environment};
ghost use Rattle.profile_machine.specs.Tasking.{end_environment, fails_by, end_task, is_normal};
ghost use Rattle.profile_machine.specs.Tasking.{behind_scope, is_dropped, raises_behind};
ghost use Rattle.profile_machine.specs.Tasking.{left_by, says_left, end_of_scope, go_on_leaving};
ghost use Rattle.profile_machine.specs.Tasking.{end_scope_mark_of, end_scope_mark};
ghost use Rattle.profile_machine.specs.Steps.{changes, when};
ghost use Rattle.machine_frames.specs.Did.{Did};

use crate::leaving::leave_region;
use ann_base::{NoMemory, Raised, RegionNo};
use machine_controlled::{finalize, next_to_finalize};
use machine_exclusion::{copied_cells, end_body_of_entry};
use machine_frames::{Effect, pass_on, pop, says, task_at};
use machine_masters::{end_activation, terminate};
use machine_program::Program;
use machine_returns::end_subprogram;
use machine_scopes::end_scope;
use profile_image::Value;
use profile_machine::Leaving;
use profile_machine::world::{Line, Part, Purpose, ScopeMark, World};
use std::alloc::Global;
use trace_text::Who;
use world_tables::List;

/// The line of a task that is done; the agent has none.
#[tactic(auto, unfolding(profile_machine::specs::Tasking::says_done))]
pub(crate) fn says_done(effect: &mut Effect, part: Part, name: Who) -> Result<(), NoMemory>
    ensures { OnOk result (Did (says_done part name) effect.old effect.new) }
{
    match name {
        Who::Task(task) => says(effect, part, Line::Done { task }),
        Who::Agent => Ok(()),
    }
}

// The exception by which a mark is left, if it is by one.
fn exception_in(leaving: Leaving) -> Option<Raised>
    ensures { result ≡ exception_in leaving }
{
    match leaving {
        Leaving::Exception(exception) => Some(exception),
        Leaving::End | Leaving::Return | Leaving::Exit(_) | Leaving::Abort | Leaving::Terminate =>
            None,
    }
}

fn is_environment(name: Who) -> bool
    ensures { result ≡ is_environment name }
{
    match name {
        Who::Task(task) => task.0 == 0,
        Who::Agent => false,
    }
}

// Whether the activation of a task counts as failed that is left so.
fn fails_by(world: &World, name: Who, leaving: Leaving) -> bool
    ensures { result ≡ fails_by world.now name leaving }
{
    let is_abnormal = match task_at(world, name) {
        Some(task) => task.abnormal,
        None => false,
    };
    exception_in(leaving).is_some() && !is_abnormal
}

fn end_environment(world: &mut World, leaving: Leaving)
    ensures { world.new ≡ end_environment leaving world.old }
{
    world.ended = Some(exception_in(leaving));
}

// The end of the environment task ends the run.
fn end_run_of(effect: &mut Effect, name: Who, leaving: Leaving)
    ensures { Did (when (is_environment name) (changes (end_environment leaving))) effect.old
        effect.new }
{
    if is_environment(name) {
        end_environment(&mut effect.world, leaving);
    }
}

// The outermost scope of a task ends the task; that of the environment task ends the run.
#[tactic(auto, unfolding(profile_machine::specs::Tasking::end_task))]
fn end_task(
    alloc: Global,
    p: &Program,
    effect: &mut Effect,
    name: Who,
    leaving: Leaving,
) -> Result<(), NoMemory>
    ensures { OnOk result (Did (end_task p.now name leaving) effect.old effect.new) }
{
    says_done(effect, Part::Own, name)?;
    let failed = fails_by(&effect.world, name, leaving);
    end_activation(p, effect, name, name, failed)?;
    terminate(alloc, p, effect, name, name)?;
    end_run_of(effect, name, leaving);
    Ok(())
}

// A body that was left by its end or by a return has ended normally.
fn is_normal(leaving: Leaving) -> bool
    ensures { result ≡ is_normal leaving }
{
    match leaving {
        Leaving::End | Leaving::Return => true,
        Leaving::Exit(_) | Leaving::Exception(_) | Leaving::Abort | Leaving::Terminate => false,
    }
}

// What is done behind a scope, by what it was the scope of. The cells are those of the scope.
#[tactic(auto, unfolding(profile_machine::specs::Tasking::behind_scope))]
fn behind_scope(
    alloc: Global,
    p: &Program,
    effect: &mut Effect,
    name: Who,
    purpose: &Purpose,
    cells: &List<Value>,
    leaving: Leaving,
) -> Result<(), NoMemory>
    ensures { OnOk result
        (Did (behind_scope p.now name purpose.now cells.now leaving) effect.old effect.new) }
{
    match purpose {
        Purpose::Block(_) => {
            pass_on(p, effect, name, leaving);
            Ok(())
        }
        Purpose::Subprogram(back, to) => {
            if is_normal(leaving) {
                end_subprogram(p, effect, name, cells, back, *to, leaving)
            } else {
                pass_on(p, effect, name, leaving);
                Ok(())
            }
        }
        Purpose::EntryBody(c) => {
            if is_normal(leaving) {
                end_body_of_entry(p, effect, *c, cells, leaving)
            } else {
                pass_on(p, effect, name, leaving);
                Ok(())
            }
        }
        Purpose::Task => end_task(alloc, p, effect, name, leaving),
    }
}

// Whether an exception of a Finalize is dropped: where the scope is left by abort or a terminate
// alternative.
fn is_dropped(leaving: Leaving) -> bool
    ensures { result ≡ is_dropped leaving }
{
    match leaving {
        Leaving::Abort | Leaving::Terminate => true,
        Leaving::End | Leaving::Return | Leaving::Exit(_) | Leaving::Exception(_) => false,
    }
}

// Program_Error where a Finalize raised.
fn raises_behind(m: &ScopeMark, leaving: Leaving) -> bool
    ensures { result ≡ raises_behind m.now leaving }
{
    m.finalize_raised && !is_dropped(leaving)
}

fn left_by(m: &ScopeMark, leaving: Leaving) -> Leaving
    ensures { result ≡ left_by m.now leaving }
{
    if raises_behind(m, leaving) {
        Leaving::Exception(Raised::Program)
    } else {
        leaving
    }
}

#[tactic(auto, unfolding(profile_machine::specs::Tasking::says_left))]
fn says_left(
    effect: &mut Effect,
    name: Who,
    m: &ScopeMark,
    leaving: Leaving,
) -> Result<(), NoMemory>
    ensures { OnOk result (Did (says_left name m.now leaving) effect.old effect.new) }
{
    if let Some(region) = m.region {
        says(effect, Part::Own, Line::Left { who: name, region })?;
    }
    if raises_behind(m, leaving) {
        let exception = Raised::Program;
        says(
            effect,
            Part::Own,
            Line::Raise {
                who: name,
                exception,
            },
        )?;
    }
    Ok(())
}

// The scope of the mark on top has ended.
fn end_of_scope(
    alloc: Global,
    p: &Program,
    effect: &mut Effect,
    name: Who,
    m: &ScopeMark,
    leaving: Leaving,
) -> Result<(), NoMemory>
    ensures { OnOk result (Did (end_of_scope p.now name m.now leaving) effect.old effect.new) }
{
    let cells = copied_cells(alloc, &effect.world, m.within)?;
    pop(&mut effect.world, name);
    end_scope(m.within, &mut effect.world);
    says_left(effect, name, m, leaving)?;
    behind_scope(
        alloc,
        p,
        effect,
        name,
        &m.purpose,
        &cells,
        left_by(m, leaving),
    )
}

// The leaving of a kept scope begins, finalizes one object, or has ended.
#[tactic(auto, unfolding(profile_machine::specs::Tasking::go_on_leaving))]
fn go_on_leaving(
    alloc: Global,
    p: &Program,
    effect: &mut Effect,
    name: Who,
    m: &ScopeMark,
    leaving: Leaving,
    region: RegionNo,
    being_left: bool,
) -> Result<(), NoMemory>
    ensures { OnOk result
        (Did (go_on_leaving p.now name m.now leaving region being_left) effect.old effect.new) }
{
    if !being_left {
        return leave_region(alloc, p, effect, name, m, leaving, region);
    }
    match next_to_finalize(&effect.world, region) {
        Some(registered) => finalize(alloc, p, effect, name, registered),
        None => end_of_scope(alloc, p, effect, name, m, leaving),
    }
}

/// The turn of a scope's mark: a scope that is not kept ends; one that is kept begins to be left,
/// finalizes one object, or ends (7.6.1, 9.3).
#[tactic(auto, unfolding(profile_machine::specs::Tasking::end_scope_mark, profile_machine::specs::Tasking::end_scope_mark_of))]
pub fn end_scope_mark(
    alloc: Global,
    p: &Program,
    effect: &mut Effect,
    name: Who,
    m: &ScopeMark,
    leaving: Leaving,
) -> Result<(), NoMemory>
    ensures { OnOk result (Did (end_scope_mark p.now name m.now leaving) effect.old effect.new) }
{
    match m.region {
        Some(region) => go_on_leaving(alloc, p, effect, name, m, leaving, region, m.being_left),
        None => end_of_scope(alloc, p, effect, name, m, leaving),
    }
}
