//! An assignment of a controlled object begins (ISO/IEC 8652:2012, 7.6).
ghost use Rattle.std.specs.Prelude.{◌≡◌, OnOk};
ghost use Rattle.profile_machine.specs.Controlled.{new_assign_mark, begin_assignment};
ghost use Rattle.profile_machine.specs.Controlled.{assign_registered, assign_located};
ghost use Rattle.profile_machine.specs.Controlled.{assign_controlled};
ghost use Rattle.machine_frames.specs.Did.{Did};

use crate::registration::{registered_at, same_located};
use ann_base::{NoMemory, Raised};
use machine_frames::{Effect, goes, has_room, new_frame, push, raises, says};
use machine_program::{Program, next_of};
use machine_values::{located, seen_by};
use profile_image::{DeclNo, StatementNo};
use profile_machine::world::{AssignMark, AssignStep, Line, Located, Mark, Part, Registered};
use trace_text::Who;

fn new_assign_mark(target: u32, source: u32) -> Mark
    ensures { result ≡ new_assign_mark target source }
{
    Mark::InAssign(AssignMark {
        target,
        source,
        step: AssignStep::FinalizeTarget,
    })
}

#[tactic(auto, unfolding(profile_machine::specs::Controlled::begin_assignment))]
fn begin_assignment(
    p: &Program,
    effect: &mut Effect,
    name: Who,
    s: StatementNo,
    target: u32,
    source: u32,
) -> Result<(), NoMemory>
    ensures { OnOk result
        (Did (begin_assignment p.now name s target source) effect.old effect.new) }
{
    if has_room(&effect.world, name, 1, 0) {
        goes(effect, name, next_of(p, s));
        let line = Line::Replace {
            who: name,
            object: target,
        };
        says(effect, Part::Own, line)?;
        let frame = new_frame(new_assign_mark(target, source), None);
        push(&mut effect.world, name, frame)
    } else {
        raises(effect, Part::Own, name, Raised::Storage)
    }
}

// A target or a source that is not registered raises Program_Error.
#[tactic(auto, unfolding(profile_machine::specs::Controlled::assign_registered))]
fn assign_registered(
    p: &Program,
    effect: &mut Effect,
    name: Who,
    s: StatementNo,
    target: Option<Registered>,
    source: Option<Registered>,
) -> Result<(), NoMemory>
    ensures { OnOk result
        (Did (assign_registered p.now name s target source) effect.old effect.new) }
{
    match (target, source) {
        (Some(target), Some(source)) => {
            begin_assignment(p, effect, name, s, target.object, source.object)
        }
        (Some(_), None) => raises(effect, Part::Own, name, Raised::Program),
        (None, _) => raises(effect, Part::Own, name, Raised::Program),
    }
}

// An assignment of an object to itself does nothing.
#[tactic(auto, unfolding(profile_machine::specs::Controlled::assign_located))]
fn assign_located(
    p: &Program,
    effect: &mut Effect,
    name: Who,
    s: StatementNo,
    target: Located,
    source: Located,
) -> Result<(), NoMemory>
    ensures { OnOk result (Did (assign_located p.now name s target source) effect.old effect.new) }
{
    if same_located(target, source) {
        goes(effect, name, next_of(p, s));
        Ok(())
    } else {
        let target = registered_at(&effect.world, target);
        let source = registered_at(&effect.world, source);
        assign_registered(p, effect, name, s, target, source)
    }
}

/// An object is assigned to another. Program_Error is raised where one of them is not registered.
#[tactic(auto, unfolding(profile_machine::specs::Controlled::assign_controlled))]
pub fn assign_controlled(
    p: &Program,
    effect: &mut Effect,
    name: Who,
    s: StatementNo,
    target: DeclNo,
    source: DeclNo,
) -> Result<(), NoMemory>
    ensures { OnOk result
        (Did (assign_controlled p.now name s target source) effect.old effect.new) }
{
    let q = seen_by(p, &effect.world, name);
    match (located(&q, target), located(&q, source)) {
        (Ok(target), Ok(source)) => assign_located(p, effect, name, s, target, source),
        (Ok(_), Err(e)) => raises(effect, Part::Own, name, e),
        (Err(e), _) => raises(effect, Part::Own, name, e),
    }
}
