//! Waiting for a moment (ISO/IEC 8652:2012, 9.6, D.2.1).
ghost use Rattle.std.specs.Prelude.{◌≡◌, OnOk, int_lt, pos};
ghost use Rattle.profile_machine.specs.Statements.{wait_until, delay_to};
ghost use Rattle.machine_frames.specs.Did.{Did};

use crate::blocking::block;
use crate::placing::to_tail;
use ann_base::{Moment, NoMemory};
use machine_frames::{Effect, appoint};
use machine_program::Program;
use profile_machine::world::{Due, Part, Waiting};
use trace_text::Who;

// A task that waits for a moment blocks; where the moment is not in the future it goes to the tail.
#[tactic(auto, unfolding(profile_machine::specs::Statements::wait_until))]
fn wait_until(
    p: &Program,
    effect: &mut Effect,
    name: Who,
    until: Moment,
    future: bool,
) -> Result<(), NoMemory>
    ensures { OnOk result (Did (wait_until p.now name until future) effect.old effect.new) }
{
    match name {
        Who::Task(task) => {
            if future {
                appoint(&mut effect.world, Due::Delay(task), until)?;
                block(effect, Part::TheBlock, name, Waiting::Moment)
            } else {
                to_tail(p, effect, Part::ThePlacing, name)
            }
        }
        Who::Agent => Ok(()),
    }
}

/// Whether a moment is in the future. The present is never below 0.
pub fn is_ahead(time: u64, moment: Moment) -> bool
    ensures { result ≡ int_lt (pos time) moment }
{
    i128::from(time) < i128::from(moment)
}

/// The one with this name waits for a moment.
#[tactic(auto, unfolding(profile_machine::specs::Statements::delay_to))]
pub fn delay_to(p: &Program, effect: &mut Effect, name: Who, until: Moment) -> Result<(), NoMemory>
    ensures { OnOk result (Did (delay_to p.now name until) effect.old effect.new) }
{
    let future = is_ahead(effect.world.time, until);
    wait_until(p, effect, name, until, future)
}
