//! Delays (ISO/IEC 8652:2012, 9.6, D.2.1). Inside a protected action Program_Error is raised.
ghost use Rattle.std.specs.Prelude.{OnOk};
ghost use Rattle.profile_machine.specs.Statements.{delay_until, sees, relative_moment};
ghost use Rattle.profile_machine.specs.Values.{moment};
ghost use Rattle.machine_frames.specs.Did.{Did};
ghost use Rattle.machine_statements.specs.Parts.{delayed};

use ann_base::{Moment, NoMemory, Raised};
use machine_dispatching::delay_to;
use machine_frames::{Effect, goes, in_protected, raises, refused};
use machine_program::{Program, next_of};
use machine_values::{moment, relative_moment, seen_by};
use profile_image::{ExprNo, StatementNo};
use profile_machine::world::Part;
use trace_text::Who;

fn delayed(
    p: &Program,
    effect: &mut Effect,
    name: Who,
    s: StatementNo,
    until: Moment,
) -> Result<(), NoMemory>
    ensures { OnOk result (Did (delayed p.now name s until) effect.old effect.new) }
{
    goes(effect, name, next_of(p, s));
    delay_to(p, effect, name, until)
}

/// A relative delay.
#[tactic(auto, unfolding(profile_machine::specs::Statements::delay_until))]
pub fn delay_statement(
    p: &Program,
    effect: &mut Effect,
    name: Who,
    s: StatementNo,
    e: ExprNo,
) -> Result<(), NoMemory>
    ensures { OnOk result
        (Did (sees p.now name (λ q. delay_until p.now name s (relative_moment q e))) effect.old
        effect.new) }
{
    if in_protected(&effect.world, name) {
        raises(effect, Part::Own, name, Raised::Program)
    } else {
        match relative_moment(&seen_by(p, &effect.world, name), e) {
            Ok(until) => delayed(p, effect, name, s, until),
            Err(answer) => refused(effect, name, answer),
        }
    }
}

/// A delay until a moment.
#[tactic(auto, unfolding(profile_machine::specs::Statements::delay_until))]
pub fn delay_until_statement(
    p: &Program,
    effect: &mut Effect,
    name: Who,
    s: StatementNo,
    e: ExprNo,
) -> Result<(), NoMemory>
    ensures { OnOk result
        (Did (sees p.now name (λ q. delay_until p.now name s (moment q e))) effect.old effect.new) }
{
    if in_protected(&effect.world, name) {
        raises(effect, Part::Own, name, Raised::Program)
    } else {
        match moment(&seen_by(p, &effect.world, name), e) {
            Ok(until) => delayed(p, effect, name, s, until),
            Err(answer) => refused(effect, name, answer),
        }
    }
}
