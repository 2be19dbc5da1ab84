//! What a step keeps of several tasks while the world changes.
ghost use Rattle.std.specs.Prelude.{◌≡◌};
ghost use Rattle.machine_tasking.specs.KeptTasks.{kept_of};

use machine_frames::is_made;
use profile_image::TaskUnitNo;
use profile_machine::world::{ScopeId, Task};
use trace_text::Who;

/// What a step keeps of a task.
#[derive(Clone, Copy)]
pub(crate) struct Kept {
    pub who: Who,
    pub is_made: bool,
    pub unit: Option<TaskUnitNo>,
    pub outer: Option<ScopeId>,
}

/// What a step keeps of a task.
pub(crate) fn kept_of(task: &Task) -> Kept
    ensures { result ≡ kept_of task.now }
{
    Kept {
        who: task.who,
        is_made: is_made(task),
        unit: task.unit,
        outer: task.outer,
    }
}
