//! The call of one queue that is served next (ISO/IEC 8652:2012, 9.5.3, D.4).
ghost use Rattle.std.specs.Prelude.{◌≡◌, ◌∷◌, []};
ghost use Rattle.profile_machine.specs.Calls.{next_call};

use ann_base::CallNo;
use machine_program::Program;
use profile_machine::world::World;
use world_tables::List;

/// The call that is served next of one queue: its head.
pub fn next_of_queue(p: &Program, world: &World, queue: &List<CallNo>) -> Option<CallNo>
    ensures { result ≡ next_call p.now world.now (queue.now ∷ []) }
{
    Some(*queue.front()?)
}
