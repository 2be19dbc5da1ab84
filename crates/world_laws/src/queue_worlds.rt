//! Entry queues in the worlds that a run reaches: laws of the profile machine's definitions alone.
//! Each is the contract of a function that does nothing.
ghost use Rattle.world_laws.specs.QueueWorlds.{ReachedQueuesAreRight, ReachedTimeoutsAreAwaited};

/// In every world that a run reaches an entry queue has calls of its own entry alone, which are
/// there and have not begun (ISO/IEC 8652:2012, 9.5.3).
#[tactic(auto, using(crate::proofs::Queues::QueueWorlds::reached_queues_are_right))]
pub fn reached_worlds_queue_rightly()
    ensures { ReachedQueuesAreRight }
{}

/// In every world that a run reaches the call of each time-out that is set stands in the queue of
/// its entry, which is still served, and may be cancelled (9.7.2).
#[tactic(auto, using(crate::proofs::Queues::QueueWorlds::reached_timeouts_are_awaited))]
pub fn reached_worlds_await_timeouts()
    ensures { ReachedTimeoutsAreAwaited }
{}
