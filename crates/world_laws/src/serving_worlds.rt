//! The count down by which queued calls are served, in the runs of the profile machine: laws of its
//! definitions alone. They are the clauses of the contract of a function that does nothing.
ghost use Rattle.world_laws.specs.ServingWorlds.{ReachedServingEnds, RunsServeToTheEnd};

/// Calls that are queued at a protected object are served one after another (ISO/IEC 8652:2012,
/// 9.5.3). The machine counts the turns down, from one more than there are calls, and at the end of
/// the count it would release the object, whatever were still queued there. In every run the count
/// is enough: in each world that a run reaches, before an instant and behind it, the action of
/// whoever acts leads to the same world, and says the same, with more turns to count down; and so
/// the run has the same lines, and stops for the same reason.
#[tactic(auto, using(crate::proofs::Serving::ServingRuns::reached_serving_ends, crate::proofs::Serving::ServingRuns::runs_serve_to_the_end))]
pub fn reached_serving_ends()
    ensures actions { ReachedServingEnds }
    ensures runs { RunsServeToTheEnd }
{}
