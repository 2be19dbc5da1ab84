//! Releases of handlers: that each has its cause, and each cause its release, as laws on the
//! histories of the profile machine's runs, which hold of every program, script and bound. Each is
//! the contract of a function that does nothing.
#![tactic(auto)]

ghost use Rattle.std.specs.Prelude.{◌≡◌, ◌↔◌, IsTrue, List, false};
ghost use Rattle.profile_image.specs.declared.image.Image.{Image};
ghost use Rattle.release_laws.specs.ReleaseLaws.{Account, Passage, HistoryOk, follows_releases};
ghost use Rattle.release_laws.specs.ReleaseLaws.{OfEveryRun, ReleasesAll, ReleasesEvents};
ghost use Rattle.release_laws.specs.ReleaseLaws.{ReleasesTimers, ReleasesBudgets};
ghost use Rattle.release_laws.specs.ReleaseLaws.{ReleasesInterrupts, RunsFollow, RunsTellReleases};
ghost use Rattle.release_laws.specs.MomentLaws.{EventsCome, TimersCome};
ghost use Rattle.release_laws.specs.MomentLaws.{BudgetsCome, InterruptsCome};
ghost use Rattle.release_laws.specs.ChargeLaws.{TocksCharge};
ghost use Rattle.release_laws.specs.Examples.{rightly, without_timers, without_budgets};
ghost use Rattle.release_laws.specs.Examples.{events_at_once, events_late, without_script};
ghost use Rattle.release_laws.specs.Examples.{forgets_at_ticks, forgets_at_null, another_handler};

/// At each instant of every run the events whose moment has come are released, one behind the
/// other: those that effects have set for later moments, and neither set again nor cancelled since
/// (D.15).
#[tactic(auto, using(crate::proofs::CauseLemmas::runs_release_events))]
pub fn events_are_released()
    ensures account { OfEveryRun ReleasesEvents }
    ensures come { EventsCome }
{}

/// At each instant of every run the timers whose values the clocks of their tasks have reached are
/// released, one behind the other: those that effects have set to later values, and neither set
/// again nor cancelled since (D.14.1).
#[tactic(auto, using(crate::proofs::CauseLemmas::runs_release_timers))]
pub fn timers_are_released()
    ensures account { OfEveryRun ReleasesTimers }
    ensures come { TimersCome }
{}

/// At each instant of every run the handler of a budget that the tick before brought to zero is
/// released, if it has one then (D.14.2).
#[tactic(auto, using(crate::proofs::CauseLemmas::runs_release_budgets))]
pub fn budgets_are_released()
    ensures account { OfEveryRun ReleasesBudgets }
    ensures come { BudgetsCome }
{}

/// At each instant of every run the handlers of attached interrupts are released that the script
/// has come to unmasked, and those that it unmasks when they have come (C.3).
#[tactic(auto, using(crate::proofs::CauseLemmas::runs_release_interrupts))]
pub fn interrupts_are_released()
    ensures account { OfEveryRun ReleasesInterrupts }
    ensures come { InterruptsCome }
{}

/// At each instant of every run just these handlers are released, and before them that of a setting
/// that was due at once: each release has its cause, and each cause its release, in the order of
/// the steps of an instant. So the test computes to true on the history of every run.
#[tactic(auto, using(crate::proofs::RunReleases::runs_release, crate::proofs::CauseLemmas::runs_follow))]
pub fn releases_have_causes()
    ensures law { OfEveryRun ReleasesAll }
    ensures test { RunsFollow }
{}

/// The `release` lines of every run, with their ticks and the handlers that they name, are those
/// that its history owes: none is missing, and no other stands there.
#[tactic(auto, using(crate::proofs::LineReleases::runs_tell_releases))]
pub fn lines_tell_releases()
    ensures { RunsTellReleases }
{}

/// From any world, a tock lets the clock of the task that runs rise by one, and takes one from the
/// budget of its group where it is positive; no other clock and no other budget changes (D.14).
#[tactic(auto, using(crate::proofs::ChargeLemmas::tocks_charge))]
pub fn ticks_are_charged()
    ensures { TocksCharge }
{}

/// Where the test of a history computes to true the law holds of it, and nowhere else.
#[tactic(auto, using(crate::proofs::TestLemmas::releases_told))]
pub fn tests_tell()
    ensures { (p : Image) (a : Account) (passages : List Passage)
        → (IsTrue (follows_releases p a passages) ↔ HistoryOk p a passages) }
{}

/// A program with a handler of each cause keeps the law on the profile machine. It breaks it on a
/// machine that never fires a timer, drops a budget, releases an event at once or a tick late,
/// drops the script, forgets events at a tick or at a `null`, or releases another handler.
#[tactic(auto, using(crate::proofs::ExampleLemmas::kept_rightly, crate::proofs::ExampleLemmas::broken_without_timers, crate::proofs::ExampleLemmas::broken_without_budgets, crate::proofs::ExampleLemmas::broken_at_once, crate::proofs::ExampleLemmas::broken_late, crate::proofs::ExampleLemmas::broken_without_script, crate::proofs::ExampleLemmas::broken_at_ticks, crate::proofs::ExampleLemmas::broken_at_null, crate::proofs::ExampleLemmas::broken_by_another))]
pub fn examples_are_told()
    ensures rightly { IsTrue rightly }
    ensures without_timers { without_timers ≡ false }
    ensures without_budgets { without_budgets ≡ false }
    ensures events_at_once { events_at_once ≡ false }
    ensures events_late { events_late ≡ false }
    ensures without_script { without_script ≡ false }
    ensures forgets_at_ticks { forgets_at_ticks ≡ false }
    ensures forgets_at_null { forgets_at_null ≡ false }
    ensures another_handler { another_handler ≡ false }
{}
