//! Ceilings of protected objects: laws of the profile machine's definitions alone, which hold of
//! every program. Each is the contract of a function that does nothing.
ghost use Rattle.std.specs.Prelude.{◌≡◌, IsTrue, false};
ghost use Rattle.ceiling_laws.specs.CeilingLaws.{LetsInBelow, RaisesAbove, ServesAbove};
ghost use Rattle.ceiling_laws.specs.CeilingLaws.{edf_is_below_interrupts};
ghost use Rattle.ceiling_laws.specs.CeilingLaws.{InterruptsHaveNoDeadline, EntersKeepCeilings};
ghost use Rattle.ceiling_laws.specs.CeilingLaws.{TocksKeepLevels, WhoActsIsFirst};
ghost use Rattle.ceiling_laws.specs.FollowLaws.{PlacingIsFollowed, InheritanceIsFollowed};
ghost use Rattle.ceiling_laws.specs.FollowLaws.{FallIsFollowed, SettingIsFollowed, ObjectsAreTold};
ghost use Rattle.ceiling_laws.specs.Examples.{handler_by_deadline_at, keeps_ceilings_at, enters_at};

/// Who is let into a protected object is not above its ceiling: neither its active priority, nor,
/// in a source with an EDF range, its base priority (D.3). Who is above it gets Program_Error in
/// the place of the action, and nothing else comes of it; of a handler's call its release is
/// served.
#[tactic(auto, using(crate::proofs::Ceilings::CeilingLemmas::lets_in_below, crate::proofs::Ceilings::CeilingLemmas::raises_above, crate::proofs::Ceilings::CeilingLemmas::serves_above))]
pub fn lets_in_below_ceilings()
    ensures lets_in { LetsInBelow }
    ensures raises { RaisesAbove }
    ensures serves { ServesAbove }
{}

/// Where no range that is dispatched by deadlines reaches the priority of interrupts, no level from
/// there on is one.
#[tactic(auto, using(crate::proofs::Ceilings::CeilingLemmas::interrupts_have_no_deadline))]
pub fn interrupts_have_no_deadline()
    ensures { InterruptsHaveNoDeadline }
{}

/// Where lines show what the world has of somebody that is let into an object, the `enter` line
/// keeps the law of ceilings, which knows lines alone (D.3, D.2.6).
#[tactic(auto, using(crate::proofs::Ceilings::CeilingLemmas::enters_keep_ceilings))]
pub fn enters_keep_ceilings()
    ensures { EntersKeepCeilings }
{}

/// From the choice of somebody to the effect of its action nobody's priorities and deadline change,
/// no object, and no place in the ready queues; and whose action may end at an instant of a run is
/// who stands first in them.
#[tactic(auto, using(crate::proofs::Ceilings::LevelLemmas::tocks_keep_levels, crate::proofs::Ceilings::LevelLemmas::who_acts_is_first))]
pub fn levels_last_from_choice_to_effect()
    ensures levels { TocksKeepLevels }
    ensures first { WhoActsIsFirst }
{}

/// Whose active priority or deadline is changed is placed anew: the steps that make somebody ready,
/// by which who runs inherits a priority or loses some, and that set the base priority or the
/// deadline of a ready task, say `ready` last, with the level and the deadline that it then has, or
/// leave both as they were; and they change the level and deadline of nobody else (D.2.3, D.2.6,
/// D.5.1).
#[tactic(auto, using(crate::proofs::Ceilings::FollowLemmas::fall_is_followed))]
pub fn changes_are_followed()
    ensures placing { PlacingIsFollowed }
    ensures inheritance { InheritanceIsFollowed }
    ensures fall { FallIsFollowed }
    ensures setting { SettingIsFollowed }
{}

/// A protected object that is made has the number and the ceiling of its `new` line (D.3).
#[tactic(auto, using(crate::proofs::Ceilings::ObjectLemmas::objects_are_told))]
pub fn objects_are_told()
    ensures { ObjectsAreTold }
{}

/// The law of ceilings needs that no range dispatched by deadlines reaches the priority of
/// interrupts: the run of a program with a handler breaks it where one does, and keeps it where
/// none does.
#[tactic(auto, using(crate::proofs::Ceilings::ExampleLemmas::priorities_keep, crate::proofs::Ceilings::ExampleLemmas::priorities_enter, crate::proofs::Ceilings::ExampleLemmas::interrupts_break, crate::proofs::Ceilings::ExampleLemmas::priorities_below, crate::proofs::Ceilings::ExampleLemmas::interrupts_above))]
pub fn examples_are_told()
    ensures below { IsTrue (edf_is_below_interrupts (handler_by_deadline_at 30)) }
    ensures enters { IsTrue (enters_at 30) }
    ensures keeps { IsTrue (keeps_ceilings_at 30) }
    ensures above { edf_is_below_interrupts (handler_by_deadline_at 31) ≡ false }
    ensures breaks { keeps_ceilings_at 31 ≡ false }
{}
