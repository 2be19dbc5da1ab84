//! An instant: what the present moment brings about, in seven parts.
ghost use Rattle.std.specs.Prelude.{◌≡◌, [], OnOk};
ghost use Rattle.profile_machine.specs.Instant.{instant};
ghost use Rattle.machine_expiries.specs.Moved.{Moved};

use crate::effects::finish_action;
use ann_base::NoMemory;
use machine_expiries::{appointments_due, budgets_due, quantum_spent, script_items, timers_due};
use machine_frames::Effect;
use machine_program::Program;
use profile_machine::world::Line;
use std::alloc::Global;
use world_tables::List;

/// An instant of the machine: its lines stand behind those that are there.
///
/// Errors: memory ran out.
pub fn instant(
    alloc: Global,
    p: &Program,
    effect: &mut Effect,
    lines: &mut List<Line>,
) -> Result<(), NoMemory>
    requires { effect.old.said ≡ [] }
    ensures { OnOk result (Moved p.now (instant p.now) effect.old lines.old effect.new lines.new) }
{
    finish_action(alloc, p, effect, lines)?;
    script_items(alloc, p, effect, lines)?;
    appointments_due(alloc, p, true, effect, lines)?;
    appointments_due(alloc, p, false, effect, lines)?;
    timers_due(alloc, p, effect, lines)?;
    budgets_due(alloc, p, effect, lines)?;
    quantum_spent(alloc, p, effect, lines)
}
