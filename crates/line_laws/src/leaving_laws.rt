//! Regions that are left and their controlled objects: laws of the profile machine's definitions
//! alone, which hold of every program, script and bound. Each is the contract of a function that
//! does nothing.
ghost use Rattle.line_laws.specs.LeavingLaws.{RunsLeaveInTurn, RunsLeaveRightly};

/// In every run a region is left once, and has been left only when all its objects are finalized.
/// An object is initialized once, and finalized once, while its region is being left and behind
/// those that were initialized there later; one that is assigned to is initialized and not
/// finalized (7.6.1).
#[tactic(auto, using(crate::proofs::Leaving::InTurnLemmas::runs_leave_in_turn))]
pub fn runs_leave_in_turn()
    ensures { RunsLeaveInTurn }
{}

/// In every run each line keeps the law of leaving: an object is initialized in a region that is
/// not yet being left, in a region that is being left the objects are finalized from the newest to
/// the oldest, and it has been left when all are (7.6.1).
#[tactic(auto, using(crate::proofs::Leaving::InTurnLemmas::runs_leave_rightly))]
pub fn runs_leave_rightly()
    ensures { RunsLeaveRightly }
{}
