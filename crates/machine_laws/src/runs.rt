//! Runs: they stay within their bound, and end.
ghost use Rattle.machine_laws.specs.BusyLaws.{BusyStretches};
ghost use Rattle.machine_laws.specs.IdleLaws.{IdleStretches};
ghost use Rattle.machine_laws.specs.RunLaws.{WorldsStayWithin, LinesStayWithin};
ghost use Rattle.machine_laws.specs.RunLaws.{TicksNeverFall, RunsEnd};

/// The time of a world that a run reaches is never past the bound, and no line stands at a later
/// tick.
#[tactic(auto, using(crate::proofs::RunLemmas::worlds_stay_within, crate::proofs::RunLemmas::lines_stay_within))]
pub fn runs_stay_within()
    ensures worlds { WorldsStayWithin }
    ensures lines { LinesStayWithin }
{}

/// From line to line the tick does not fall.
#[tactic(auto, using(crate::proofs::RunLemmas::ticks_never_fall))]
pub fn ticks_never_fall()
    ensures { TicksNeverFall }
{}

/// The last line of a run says why it stopped, and no line before it does; where the bound is why,
/// it stands at the bound.
#[tactic(auto, using(crate::proofs::RunLemmas::runs_end))]
pub fn runs_end()
    ensures { RunsEnd }
{}

/// While nobody is ready and nothing is due, nothing is said and only the time goes on.
#[tactic(auto, using(crate::proofs::IdleLemmas::idle_stretches))]
pub fn idle_stretches_say_nothing()
    ensures { IdleStretches }
{}

/// While an action of several ticks goes on and nothing is due, nothing is said, and only its ticks
/// pass.
#[tactic(auto, using(crate::proofs::BusyLemmas::busy_stretches))]
pub fn busy_stretches_say_nothing()
    ensures { BusyStretches }
{}
