//! Protected actions that are open in the worlds that a run reaches: laws of the profile machine's
//! definitions alone. Each is the contract of a function that does nothing.
ghost use Rattle.world_laws.specs.ActionWorlds.{ReachedActionsAreRight};

/// In every world that a run reaches the open protected actions are those of the open marks, and
/// whoever has one open is ready, with at least the ceiling as its active priority (ISO/IEC
/// 8652:2012, 9.5.1, D.3).
#[tactic(auto, using(crate::proofs::Actions::ActionWorlds::reached_actions_are_right))]
pub fn reached_worlds_hold_rightly()
    ensures { ReachedActionsAreRight }
{}
