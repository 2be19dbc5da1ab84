//! Marks that are struck, those of a Finalize, and those that await a trigger, in the worlds that a
//! run reaches: laws of the profile machine's definitions alone. Each is the contract of a function
//! that does nothing.
ghost use Rattle.world_laws.specs.MarkWorlds.{ReachedMarksAreStruckRightly};
ghost use Rattle.world_laws.specs.MarkWorlds.{ReachedFinalizesStandRightly};
ghost use Rattle.world_laws.specs.MarkWorlds.{ReachedMarksAreRight, ReachedTriggersAreAwaited};

/// In every world that a run reaches a struck mark is the outermost one of an abnormal task, or an
/// abortable part whose trigger has completed (ISO/IEC 8652:2012, 9.7.4, 9.8).
#[tactic(auto, using(crate::proofs::Marks::MarkWorlds::reached_marks_are_struck_rightly))]
pub fn reached_marks_are_struck_for_a_cause()
    ensures { ReachedMarksAreStruckRightly }
{}

/// In every world that a run reaches a Finalize stands on the scope that is being left, whose
/// object is no longer registered, or on the assignment to its object (ISO/IEC 8652:2012, 7.6,
/// 7.6.1).
#[tactic(auto, using(crate::proofs::Marks::MarkWorlds::reached_finalizes_stand_rightly))]
pub fn reached_finalizes_stand_where_they_lead_on()
    ensures { ReachedFinalizesStandRightly }
{}

/// In every world that a run reaches the marks are right: each that is struck is so for a cause,
/// and each Finalize stands on the scope that is being left, whose object is no longer registered,
/// or on the assignment to its object, which still is (ISO/IEC 8652:2012, 7.6, 7.6.1, 9.7.4, 9.8).
#[tactic(auto, using(crate::proofs::Marks::MarkWorlds::reached_marks_are_right))]
pub fn reached_marks_are_right()
    ensures { ReachedMarksAreRight }
{}

/// In every world that a run reaches the task for which a trigger is appointed is there, and at the
/// trigger's depth stands an abortable part of no call whose trigger has not completed
/// (ISO/IEC 8652:2012, 9.7.4).
#[tactic(auto, using(crate::proofs::Marks::TriggerWorlds::reached_triggers_are_awaited))]
pub fn reached_triggers_are_awaited()
    ensures { ReachedTriggersAreAwaited }
{}
