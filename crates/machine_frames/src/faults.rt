//! Evaluations that have answered no value.
ghost use Rattle.std.specs.Prelude.{OnOk};
ghost use Rattle.profile_machine.specs.declared.world.lines.Part.TheVariants.{Own};
ghost use Rattle.profile_machine.specs.Frames.{raises};
ghost use Rattle.machine_frames.specs.Did.{Did};
ghost use Rattle.machine_frames.specs.Refused.{IsFault};

use crate::effects::Effect;
use crate::frames::raises;
use ann_base::{NoMemory, OrMemory, Raised};
use profile_machine::world::Part;
use trace_text::Who;

/// The exception that an evaluation has answered in place of a value is raised (11.3).
///
/// Errors: the evaluation ran out of memory, or the step does.
pub fn refused(effect: &mut Effect, name: Who, answer: OrMemory<Raised>) -> Result<(), NoMemory>
    ensures { OnOk result (IsFault (λ e. Did (raises Own name e) effect.old effect.new) answer) }
{
    match answer {
        OrMemory::Fault(exception) => raises(effect, Part::Own, name, exception),
        OrMemory::Memory => Err(NoMemory),
    }
}
