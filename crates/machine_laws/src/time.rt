//! Time: of all that the machine does only a tick takes time, and no moment that is waited for
//! passes by.
ghost use Rattle.machine_laws.specs.DueLaws.{InstantsLeaveNoneDue, NoneIsBeforeNow};
ghost use Rattle.machine_laws.specs.ItemLaws.{InstantsLeaveNoItemDue};
ghost use Rattle.machine_laws.specs.TimeLaws.{RunsBeginAtZero, InstantsTakeNoTime};
ghost use Rattle.machine_laws.specs.TimeLaws.{TocksTakeOneTick};

/// A run begins at 0.
#[tactic(auto, using(crate::proofs::TimeLemmas::opening_now))]
pub fn runs_begin_at_0()
    ensures { RunsBeginAtZero }
{}

/// No instant changes the time.
#[tactic(auto, using(crate::proofs::TimeLemmas::instants_take_no_time))]
pub fn instants_take_no_time()
    ensures { InstantsTakeNoTime }
{}

/// A tock takes one tick.
#[tactic(auto, using(crate::proofs::TimeLemmas::tocks_take_one_tick))]
pub fn tocks_take_one_tick()
    ensures { TocksTakeOneTick }
{}

/// An instant takes all appointments that are due: those that it leaves, or sets, are later than
/// now (9.6, D.15). So in no world that a run reaches one is before now.
#[tactic(auto, using(crate::proofs::DueLemmas::instants_leave_none_due, crate::proofs::DueLemmas::none_is_before_now))]
pub fn no_appointment_is_missed()
    ensures instants { InstantsLeaveNoneDue }
    ensures reached { NoneIsBeforeNow }
{}

/// An instant takes all items of the script whose moment has come, one after another: where one is
/// still ahead, the first is later than now.
#[tactic(auto, using(crate::proofs::ItemLemmas::instants_leave_no_item_due))]
pub fn no_item_is_missed()
    ensures { InstantsLeaveNoItemDue }
{}
