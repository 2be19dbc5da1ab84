//! Who acts goes to the head where its active priority has fallen (ISO/IEC 8652:2012, D.2.3).
ghost use Rattle.std.specs.Prelude.{◌≡◌, OnOk};
ghost use Rattle.profile_machine.specs.declared.world.World.{World as AnyWorld};
ghost use Rattle.profile_machine.specs.Dispatching.{active_of};
ghost use Rattle.profile_machine.specs.Tasking.{fall_from};
ghost use Rattle.machine_frames.specs.Did.{Did};

use ann_base::{Level, NoMemory};
use machine_dispatching::{active_of, to_head};
use machine_frames::Effect;
use machine_program::Program;
use profile_machine::world::Part;
use trace_text::Who;

/// Who acts goes to the head where its active priority has fallen from this level, which it had in
/// a world before.
#[tactic(auto, unfolding(profile_machine::specs::Tasking::fall_from))]
pub(crate) fn fall_from(
    p: &Program,
    effect: &mut Effect,
    name: Who,
    before: Level,
) -> Result<(), NoMemory>
    ensures { OnOk result
        ((w : AnyWorld) → active_of p.now w name ≡ before
        → Did (fall_from p.now name w) effect.old effect.new) }
{
    if active_of(p, &effect.world, name) < before {
        to_head(p, effect, Part::ThePlacing, name)
    } else {
        Ok(())
    }
}
