//! Finalize of the objects of a region that is being left (ISO/IEC 8652:2012, 7.6.1).
ghost use Rattle.std.specs.Prelude.{◌≡◌, OnOk, find, option_copied};
ghost use Rattle.std.specs.List.{list_any};
ghost use Rattle.profile_machine.specs.Cost.{of_region};
ghost use Rattle.profile_machine.specs.Controlled.{open_finalize, finalize_by, finalize_now};
ghost use Rattle.profile_machine.specs.Controlled.{assigns_to, is_assigning_to, is_being_assigned};
ghost use Rattle.profile_machine.specs.Controlled.{finalize, next_to_finalize, is_assign_mark};
ghost use Rattle.profile_machine.specs.Controlled.{is_assignment, behind_finalize, end_in_finalize};
ghost use Rattle.profile_machine.specs.Frames.{top_of};
ghost use Rattle.machine_frames.specs.Did.{Did};

use crate::marks::set_finalize_raised;
use crate::operations::{finalize_of, has_room_to_finalize, open_operation};
use crate::registration::no_longer_registered;
use ann_base::{NoMemory, RegionNo};
use machine_costs::of_region;
use machine_frames::{Effect, new_frame, pass_on, pop, push, says, top_of};
use machine_program::Program;
use profile_image::SubprogramNo;
use profile_machine::Leaving;
use profile_machine::world::{Line, Located, Mark, Part, Registered, Task, World};
use std::alloc::Global;
use trace_text::Who;
use world_tables::List;

/// Finalize of the object with this number is opened.
#[tactic(auto, unfolding(profile_machine::specs::Controlled::open_finalize))]
pub fn open_finalize(
    alloc: Global,
    p: &Program,
    effect: &mut Effect,
    name: Who,
    number: u32,
    object: Located,
    f: SubprogramNo,
) -> Result<(), NoMemory>
    ensures { OnOk result (Did (open_finalize p.now name number object f) effect.old effect.new) }
{
    let frame = new_frame(Mark::InFinalize(number), None);
    push(&mut effect.world, name, frame)?;
    open_operation(alloc, p, effect, name, f, object)
}

// Without room it counts as one that raised.
#[tactic(auto, unfolding(profile_machine::specs::Controlled::finalize_by))]
fn finalize_by(
    alloc: Global,
    p: &Program,
    effect: &mut Effect,
    name: Who,
    registered: Registered,
    operation: Option<SubprogramNo>,
) -> Result<(), NoMemory>
    ensures { OnOk result
        (Did (finalize_by p.now name registered operation) effect.old effect.new) }
{
    match operation {
        None => Ok(()),
        Some(f) => {
            if has_room_to_finalize(p, &effect.world, name, f) {
                open_finalize(
                    alloc,
                    p,
                    effect,
                    name,
                    registered.object,
                    registered.located,
                    f,
                )
            } else {
                set_finalize_raised(&mut effect.world, name);
                Ok(())
            }
        }
    }
}

// A registered object is finalized. It is registered no longer.
#[tactic(auto, unfolding(profile_machine::specs::Controlled::finalize_now))]
fn finalize_now(
    alloc: Global,
    p: &Program,
    effect: &mut Effect,
    name: Who,
    registered: Registered,
) -> Result<(), NoMemory>
    ensures { OnOk result (Did (finalize_now p.now name registered) effect.old effect.new) }
{
    let line = Line::Final {
        who: name,
        object: registered.object,
    };
    says(effect, Part::Own, line)?;
    no_longer_registered(registered.object, &mut effect.world);
    let operation = finalize_of(p, registered.located);
    finalize_by(alloc, p, effect, name, registered, operation)
}

// Whether this is the mark of an assignment to the object with this number.
fn assigns_to(number: u32, mark: &Mark) -> bool
    ensures { result ≡ assigns_to number mark.now }
{
    match mark {
        Mark::InAssign(assign) => number == assign.target,
        Mark::Scope(_)
        | Mark::Handled(_)
        | Mark::InProtected(_)
        | Mark::InAccept(_)
        | Mark::Abortable(_)
        | Mark::InInitialize(_)
        | Mark::InFinalize(_) => false,
    }
}

fn is_assigning_to(number: u32, task: &Task) -> bool
    ensures { result ≡ is_assigning_to number task.now }
{
    task.frames
        .iter()
        .any(|frame| assigns_to(number, &frame.mark))
}

fn is_some_task_assigning_to(world: &World, number: u32) -> bool
    ensures { result ≡ list_any (is_assigning_to number) world.now.tasks }
{
    world.tasks.iter().any(|task| is_assigning_to(number, task))
}

// Whether somebody's assignment to the object with this number is under way.
fn is_being_assigned(world: &World, number: u32) -> bool
    ensures { result ≡ is_being_assigned world.now number }
{
    is_some_task_assigning_to(world, number) || is_assigning_to(number, &world.agent)
}

/// A registered object is finalized, and is registered no longer; but not while an assignment to it
/// is under way.
#[tactic(auto, unfolding(profile_machine::specs::Controlled::finalize))]
pub fn finalize(
    alloc: Global,
    p: &Program,
    effect: &mut Effect,
    name: Who,
    registered: Registered,
) -> Result<(), NoMemory>
    ensures { OnOk result (Did (finalize p.now name registered) effect.old effect.new) }
{
    if is_being_assigned(&effect.world, registered.object) {
        Ok(())
    } else {
        finalize_now(alloc, p, effect, name, registered)
    }
}

fn newest_in(registered: &List<Registered>, region: RegionNo) -> Option<&Registered>
    ensures { option_copied result ≡ find (of_region region) registered.now }
{
    registered.iter().find(|r| of_region(region, **r))
}

/// The object of a region that is finalized next: the one with the greatest number.
pub fn next_to_finalize(world: &World, region: RegionNo) -> Option<Registered>
    ensures { result ≡ next_to_finalize world.now region }
{
    Some(*newest_in(&world.registered, region)?)
}

fn is_assign_mark(mark: &Mark) -> bool
    ensures { result ≡ is_assign_mark mark.now }
{
    matches!(mark, Mark::InAssign(_))
}

// Whether an assignment is on top.
fn is_assignment(world: &World, name: Who) -> bool
    ensures { result ≡ is_assignment (top_of world.now name) }
{
    match top_of(world, name) {
        Some(frame) => is_assign_mark(&frame.mark),
        None => false,
    }
}

#[tactic(auto, unfolding(profile_machine::specs::Controlled::behind_finalize))]
fn behind_finalize(
    p: &Program,
    effect: &mut Effect,
    name: Who,
    leaving: Leaving,
    of_assignment: bool,
)
    ensures { Did (behind_finalize p.now name leaving of_assignment) effect.old effect.new }
{
    match leaving {
        Leaving::Exception(exception) => {
            if of_assignment {
                pass_on(p, effect, name, Leaving::Exception(exception));
            } else {
                set_finalize_raised(&mut effect.world, name);
            }
        }
        Leaving::End | Leaving::Return | Leaving::Exit(_) | Leaving::Abort | Leaving::Terminate =>
            {}
    }
}

/// Finalize has ended. An exception of it goes on where it belongs to an assignment; else the other
/// objects of the region are finalized.
#[tactic(auto, unfolding(profile_machine::specs::Controlled::end_in_finalize))]
pub fn end_in_finalize(p: &Program, effect: &mut Effect, name: Who, leaving: Leaving)
    ensures { Did (end_in_finalize p.now name leaving) effect.old effect.new }
{
    pop(&mut effect.world, name);
    let of_assignment = is_assignment(&effect.world, name);
    behind_finalize(p, effect, name, leaving, of_assignment);
}
