//! How an abortable part is triggered, and how it ends (ISO/IEC 8652:2012, 9.7.4).
ghost use Rattle.std.specs.Prelude.{◌≡◌, OnOk};
ghost use Rattle.world_tables.specs.Lists.{rest_of};
ghost use Rattle.profile_machine.specs.CallEnds.{trigger_at, trigger_outcome, forget_trigger};
ghost use Rattle.profile_machine.specs.CallEnds.{run_triggered, is_end, is_own_abort};
ghost use Rattle.profile_machine.specs.CallEnds.{behind_abortable, end_top_abortable};
ghost use Rattle.profile_machine.specs.Frames.{frames_of};
ghost use Rattle.profile_machine.specs.Steps.{looks};
ghost use Rattle.profile_machine.specs.Unwinding.{any_struck};
ghost use Rattle.machine_frames.specs.Did.{Did};
ghost use Rattle.machine_calls.specs.Endings.{ending_by, ending_in, ended_so};

use crate::marks::{set_triggered_at, strike_at};
use crate::onward::onward_when_done;
use ann_base::{CallNo, NoMemory, TaskNo};
use machine_frames::{Effect, goes, leaves, leaving_of, pass_on, pop, raises, says, task_at};
use machine_program::Program;
use machine_queues::{call_of, forget_call};
use profile_image::StatementNo;
use profile_machine::Leaving;
use profile_machine::world::{AbortableMark, Frame, FrameStack, Line, Mark, Outcome, Part, World};
use trace_text::Who;

/// A trigger completes while its abortable part is open: `trigger`, and the part is struck.
///
/// Errors: memory ran out.
#[tactic(auto, unfolding(profile_machine::specs::CallEnds::trigger_at))]
pub fn trigger_at(effect: &mut Effect, part: Part, t: TaskNo, depth: usize) -> Result<(), NoMemory>
    ensures { OnOk result (Did (trigger_at part t depth) effect.old effect.new) }
{
    set_triggered_at(&mut effect.world, Who::Task(t), depth);
    says(effect, part, Line::Trigger { task: t })?;
    strike_at(&mut effect.world, Who::Task(t), depth);
    Ok(())
}

// The outcome of the trigger of an abortable part; a delay ends well.
fn trigger_outcome(world: &World, call: Option<CallNo>) -> Outcome
    ensures { result ≡ trigger_outcome world.now call }
{
    let Some(c) = call else {
        return Outcome::Finished;
    };
    match call_of(world, c) {
        Some(call) => call.outcome.unwrap_or(Outcome::Finished),
        None => Outcome::Finished,
    }
}

fn forget_trigger(world: &mut World, call: Option<CallNo>)
    ensures { world.new ≡ forget_trigger call world.old }
{
    match call {
        Some(c) => forget_call(world, c),
        None => {}
    }
}

// The triggering statements, or the trigger's exception in their place.
#[tactic(auto, unfolding(profile_machine::specs::CallEnds::run_triggered))]
fn run_triggered(
    p: &Program,
    effect: &mut Effect,
    part: Part,
    name: Who,
    select: StatementNo,
    outcome: Outcome,
) -> Result<(), NoMemory>
    ensures { OnOk result
        (Did (run_triggered p.now part name select outcome) effect.old effect.new) }
{
    match outcome {
        Outcome::Finished => {
            goes(effect, name, onward_when_done(p, select));
            Ok(())
        }
        Outcome::Cancelled => Ok(()),
        Outcome::ToRaise(exception) => raises(effect, part, name, exception),
        Outcome::WasRaised(exception) => {
            leaves(effect, name, Leaving::Exception(exception));
            Ok(())
        }
    }
}

#[tactic(auto, unfolding(profile_machine::specs::CallEnds::behind_abortable))]
fn behind_abortable(
    p: &Program,
    effect: &mut Effect,
    part: Part,
    name: Who,
    m: AbortableMark,
    outcome: Outcome,
) -> Result<(), NoMemory>
    ensures { OnOk result (Did (behind_abortable p.now part name m outcome) effect.old effect.new) }
{
    if m.triggered {
        run_triggered(p, effect, part, name, m.select, outcome)
    } else {
        Ok(())
    }
}

fn is_end(leaving: Leaving) -> bool
    ensures { result ≡ is_end leaving }
{
    matches!(leaving, Leaving::End)
}

// Left by the abort that its own trigger brought about, and none that struck an outer mark.
fn is_own_abort(leaving: Leaving, struck: bool, outer: bool) -> bool
    ensures { result ≡ is_own_abort leaving struck outer }
{
    matches!(leaving, Leaving::Abort) && struck && !outer
}

// Whether any construct below the top is struck.
fn any_struck_below(frames: &FrameStack) -> bool
    ensures { result ≡ any_struck (rest_of frames.now) }
{
    let mut below = frames.iter();
    below.next();
    for frame in below {
        if frame.struck {
            return true;
        }
    }
    false
}

// How an abortable part on top has ended.
#[derive(Clone, Copy)]
pub(crate) struct Ending {
    pub(crate) mark: AbortableMark,
    // By its end, or by the abort that its own trigger brought about.
    pub(crate) by_itself: bool,
    pub(crate) leaving: Leaving,
    pub(crate) outcome: Outcome,
}

fn ending_by(world: &World, frame: &Frame, outer: bool) -> Option<Ending>
    ensures { result ≡ ending_by world.now frame.now outer frame.now.mark }
{
    let Mark::Abortable(mark) = &frame.mark else {
        return None;
    };
    let leaving = leaving_of(frame);
    Some(Ending {
        mark: *mark,
        by_itself: is_end(leaving) || is_own_abort(leaving, frame.struck, outer),
        leaving,
        outcome: trigger_outcome(world, mark.call),
    })
}

// How the abortable part on top has ended, if the top is one.
fn ending_of(world: &World, name: Who) -> Option<Ending>
    ensures { result ≡ ending_in world.now (frames_of world.now name) }
{
    let frames = &task_at(world, name)?.frames;
    ending_by(world, frames.front()?, any_struck_below(frames))
}

fn ended_so(
    p: &Program,
    effect: &mut Effect,
    part: Part,
    name: Who,
    ending: Ending,
) -> Result<(), NoMemory>
    ensures { OnOk result (Did (ended_so p.now part name ending) effect.old effect.new) }
{
    pop(&mut effect.world, name);
    forget_trigger(&mut effect.world, ending.mark.call);
    if ending.by_itself {
        behind_abortable(p, effect, part, name, ending.mark, ending.outcome)
    } else {
        pass_on(p, effect, name, ending.leaving);
        Ok(())
    }
}

/// The abortable part on top, if that is one, has ended, and its trigger no longer runs.
///
/// Errors: memory ran out.
#[tactic(auto, using(crate::proofs::EndingLemmas::ending_laws))]
pub fn end_top_abortable(
    p: &Program,
    effect: &mut Effect,
    part: Part,
    name: Who,
) -> Result<(), NoMemory>
    ensures { OnOk result
        (Did (looks (λ w. end_top_abortable p.now part name (frames_of w name))) effect.old
        effect.new) }
{
    match ending_of(&effect.world, name) {
        Some(ending) => ended_so(p, effect, part, name, ending),
        None => Ok(()),
    }
}
