//! The line of a call that ended (ISO/IEC 8652:2012, 9.5.2, 9.5.3).
ghost use Rattle.std.specs.Prelude.{OnOk};
ghost use Rattle.machine_frames.specs.Did.{Did};
ghost use Rattle.machine_exclusion.specs.Finished.{says_finish};

use ann_base::{CallNo, NoMemory};
use machine_frames::{Effect, says};
use profile_machine::world::{Line, MeetingEnd, Part};
use trace_text::Who;

/// The `finish` line of a call, among those of the call that ended.
pub fn says_finish(
    effect: &mut Effect,
    name: Who,
    c: CallNo,
    how: MeetingEnd,
) -> Result<(), NoMemory>
    ensures { OnOk result (Did (says_finish name c how) effect.old effect.new) }
{
    says(
        effect,
        Part::TheFinish,
        Line::Finish {
            who: name,
            call: c,
            how,
        },
    )
}
