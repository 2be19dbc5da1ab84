//! Why a run stops (docs/LANGUAGE.md).
ghost use Rattle.std.specs.Prelude.{◌≡◌, ◌≢◌, ◌&&◌, None};
ghost use Rattle.ann_base.specs.Lists.{is_empty};
ghost use Rattle.profile_image.specs.declared.image.Image.{Image};
ghost use Rattle.profile_machine.specs.Run.{stop_by_end, stop};
ghost use Rattle.machine_ticks.specs.Stops.{why_ended};

use ann_base::Raised;
use profile_machine::world::World;

/// Why a run stops.
#[derive(Clone, Copy)]
pub enum Stopped {
    /// The environment task has terminated.
    Completed,
    /// The environment task was ended by this exception.
    Exception(Raised),
    /// Nobody is ready, and no appointment or item of the script is ahead.
    Stuck,
    /// The bound is reached.
    Bound,
}

fn stop_by_end(ended: Option<Option<Raised>>) -> Option<Stopped>
    ensures { (p : Image) → why_ended p result ≡ stop_by_end p ended }
{
    match ended? {
        None => Some(Stopped::Completed),
        Some(exception) => Some(Stopped::Exception(exception)),
    }
}

fn is_stuck(world: &World) -> bool
    ensures { result
        ≡ (is_empty world.now.places && is_empty world.now.appointments
        && is_empty world.now.script) }
{
    world.places.is_empty() && world.appointments.is_empty() && world.script.is_empty()
}

/// Why the run stops in this world, if it does, under a bound in ticks: by the end of the
/// environment task, since nothing is ahead, or by the bound.
pub fn stop(bound: u64, world: &World) -> Option<Stopped>
    ensures why { (p : Image) → why_ended p result ≡ stop p bound world.now }
    // A run that goes on is not at its bound.
    ensures before { result ≡ None → world.now.time ≢ bound }
{
    match stop_by_end(world.ended) {
        Some(stopped) => Some(stopped),
        None => {
            if is_stuck(world) {
                Some(Stopped::Stuck)
            } else if world.time == bound {
                Some(Stopped::Bound)
            } else {
                None
            }
        }
    }
}
