//! The end of the construct on top, in whichever way it is left.
ghost use Rattle.std.specs.Prelude.{◌≡◌, IfOk, OnOk};
ghost use Rattle.machine_frames.specs.Did.{Did};
ghost use Rattle.machine_run.specs.Ends.{end_top_mark};

use crate::abortable::end_in_abortable;
use crate::handlers::end_handled;
use ann_base::NoMemory;
use machine_controlled::{end_in_assign, end_in_finalize, end_in_initialize};
use machine_frames::{Effect, leaving_of, top_of};
use machine_meetings::end_in_accept;
use machine_program::Program;
use machine_protected::end_in_protected;
use machine_tasking::end_scope_mark;
use profile_machine::world::{CopyBack, Mark, Purpose, ScopeMark};
use std::alloc::Global;
use trace_text::Who;
use world_tables::List;

fn copied_back(alloc: Global, back: &List<CopyBack>) -> Result<List<CopyBack>, NoMemory>
    ensures { IfOk result (λ copy. copy ≡ back.now) }
{
    let mut copy = List::new(alloc);
    for parameter in back.iter() {
        copy.push_back(*parameter)?;
    }
    Ok(copy)
}

fn copied_purpose(alloc: Global, purpose: &Purpose) -> Result<Purpose, NoMemory>
    ensures { IfOk result (λ copy. copy ≡ purpose.now) }
{
    Ok(match purpose {
        Purpose::Block(s) => Purpose::Block(*s),
        Purpose::Subprogram(back, to) => Purpose::Subprogram(copied_back(alloc, back)?, *to),
        Purpose::EntryBody(call) => Purpose::EntryBody(*call),
        Purpose::Task => Purpose::Task,
    })
}

fn copied_scope(alloc: Global, scope: &ScopeMark) -> Result<ScopeMark, NoMemory>
    ensures { IfOk result (λ copy. copy ≡ scope.now) }
{
    Ok(ScopeMark {
        within: scope.within,
        region: scope.region,
        being_left: scope.being_left,
        handles: scope.handles,
        finalize_raised: scope.finalize_raised,
        purpose: copied_purpose(alloc, &scope.purpose)?,
    })
}

/// The construct on top has ended, in whichever way it is left; a scope that is kept is left step
/// by step.
///
/// Errors: memory ran out.
#[tactic(auto, unfolding(profile_machine::specs::Act::end_mark))]
pub fn end_top_mark(
    alloc: Global,
    p: &Program,
    effect: &mut Effect,
    name: Who,
) -> Result<(), NoMemory>
    ensures { OnOk result (Did (end_top_mark p.now name) effect.old effect.new) }
{
    let frame = match top_of(&effect.world, name) {
        Some(frame) => frame,
        None => return Ok(()),
    };
    let leaving = leaving_of(frame);
    let left_as = frame.left_as;
    match &frame.mark {
        Mark::Scope(scope) => {
            let scope = copied_scope(alloc, scope)?;
            end_scope_mark(alloc, p, effect, name, &scope, leaving)
        }
        Mark::Handled(s) => {
            let s = *s;
            end_handled(p, effect, name, s, leaving);
            Ok(())
        }
        Mark::InProtected(mark) => {
            let mark = *mark;
            end_in_protected(alloc, p, effect, name, mark, leaving)
        }
        Mark::InAccept(mark) => {
            let mark = *mark;
            end_in_accept(alloc, p, effect, name, mark, leaving)
        }
        Mark::Abortable(mark) => {
            let mark = *mark;
            end_in_abortable(p, effect, name, mark, leaving)
        }
        Mark::InInitialize(object) => {
            let object = *object;
            end_in_initialize(p, effect, name, object, leaving)
        }
        Mark::InFinalize(_) => {
            end_in_finalize(p, effect, name, leaving);
            Ok(())
        }
        Mark::InAssign(mark) => {
            let mark = *mark;
            end_in_assign(alloc, p, effect, name, mark, left_as)
        }
    }
}
