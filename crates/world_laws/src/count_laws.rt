//! Worlds, above all those that runs reach: laws of the profile machine's definitions alone, which
//! hold of every program, script and bound. Each is the contract of a function that does nothing.
//!
//! `proofs/Counts/KeptFacts.antt` has the skeleton: a fact of worlds that the opening has and every
//! change keeps, changes told apart by whom they touch, holds of every world that a run reaches.
ghost use Rattle.world_laws.specs.MasterLaws.{MastersEnd};
ghost use Rattle.world_laws.specs.ScopeLaws.{OutwardsEnd};
ghost use Rattle.world_laws.specs.ServeLaws.{RightQueuesAreOwn, ServesEnd};
ghost use Rattle.world_laws.specs.ValueLaws.{ValuesEnd};

/// The regions on which a task depends (ISO/IEC 8652:2012, 9.3) come to an end before the machine
/// has counted as many of them as there are tasks: with more to count down they are the same.
#[tactic(auto, using(crate::proofs::Counts::MasterTrees::masters_end))]
pub fn masters_end()
    ensures { MastersEnd }
{}

/// Where each operand has a smaller number than what it stands in, the value of an expression is
/// found before the machine has counted as many turns as there are expressions: with more to count
/// down it is the same.
#[tactic(auto, using(crate::proofs::Counts::ValueCounts::values_end))]
pub fn values_end()
    ensures { ValuesEnd }
{}

/// Where each call that is queued at a protected object stands in the queue of its own entry, the
/// machine serves the next of them (ISO/IEC 8652:2012, 9.5.3) before it has counted as many turns
/// as there are calls, until the body of one opens or none is left: with more to count down the
/// same is done and said.
#[tactic(auto, using(crate::proofs::Counts::ServeCounts::serves_end))]
pub fn serves_end()
    ensures { ServesEnd }
{}

/// Where the queues of a world are right, as they are where it is well formed, each call that is
/// queued at a protected object stands in the queue of its own entry.
#[tactic(auto, using(crate::proofs::Counts::ServeCounts::right_queues_are_own))]
pub fn right_queues_are_own()
    ensures { RightQueuesAreOwn }
{}

/// Whatever is sought from a scope in use outwards (ISO/IEC 8652:2012, 8.2) is found before the
/// machine has counted as many scopes as are in use, or it is not found at all: with more to count
/// down the answer is the same.
#[tactic(auto, using(crate::proofs::Counts::ScopeCounts::outwards_end))]
pub fn outwards_end()
    ensures { OutwardsEnd }
{}
