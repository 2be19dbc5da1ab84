//! The lines of ticks, which say who runs and which release is taken up: laws of the profile
//! machine's definitions alone, which hold of every program, script and bound. Each is the contract
//! of a function that does nothing.
//!
//! `proofs/Ticks/LineByLine.antt` has the skeleton of a law of lines: what the opening, an instant
//! and a tock keep of what lines show, every run keeps.
ghost use Rattle.std.specs.Prelude.{◌≡◌, ◌↔◌, IsTrue, List, false};
ghost use Rattle.trace_text.specs.Queue.{TraceLine};
ghost use Rattle.line_laws.specs.TickLaws.{SwitchesOk, ReleasesInOrder, StuckOk, follows_switches};
ghost use Rattle.line_laws.specs.TickLaws.{follows_releases, follows_tick_order, follows_stuck};
ghost use Rattle.line_laws.specs.TickLaws.{RunsSwitch, RunsReleaseInOrder, RunsAreInTickOrder};
ghost use Rattle.line_laws.specs.TickLaws.{RunsAreRightlyStuck};
ghost use Rattle.line_laws.specs.Examples.{kept_lines, told_twice, passed_over};
ghost use Rattle.line_laws.specs.Examples.{served_early, chosen_early, not_stuck};

/// In every run each `run` line names another than who ran before it, an `idle` line stands only
/// where somebody ran, and a `serve` line only where the agent runs. So the `run` lines of a run
/// count its switches.
#[tactic(auto, using(crate::proofs::Ticks::SwitchLemmas::runs_switch))]
pub fn runs_switch()
    ensures { RunsSwitch }
{}

/// In every run the `release` lines bear 1, 2, 3 and so on, and so do the `serve` lines, none of
/// which stands before the `release` line of its number: releases are taken up in the order in
/// which they came, and none is passed over.
#[tactic(auto, using(crate::proofs::Ticks::ReleaseLemmas::runs_release_in_order))]
pub fn runs_release_in_order()
    ensures { RunsReleaseInOrder }
{}

/// In every run the lines of effects of a tick stand first, then at most one `run` or `idle`, then
/// at most one `serve`; or those of effects, and the `end` line.
#[tactic(auto, using(crate::proofs::Ticks::OrderLemmas::runs_are_in_tick_order))]
pub fn runs_are_in_tick_order()
    ensures { RunsAreInTickOrder }
{}

/// A run is said to be stuck only where nobody is in the ready queues: where a task could go on, no
/// run ends for want of one.
#[tactic(auto, using(crate::proofs::Ticks::StuckLemmas::runs_are_rightly_stuck))]
pub fn runs_are_rightly_stuck()
    ensures { RunsAreRightlyStuck }
{}

/// Where the test of lines computes to true the law holds of them, and nowhere else.
#[tactic(auto, using(crate::proofs::Ticks::TestLemmas::switches_told, crate::proofs::Ticks::TestLemmas::releases_told, crate::proofs::Ticks::TestLemmas::stuck_told))]
pub fn tests_tell()
    ensures switches { (lines : List TraceLine)
        → (IsTrue (follows_switches lines) ↔ SwitchesOk lines) }
    ensures releases { (lines : List TraceLine)
        → (IsTrue (follows_releases lines) ↔ ReleasesInOrder lines) }
    ensures stuck { (lines : List TraceLine) → (IsTrue (follows_stuck lines) ↔ StuckOk lines) }
{}

/// A few lines keep the laws, and some break one each.
#[tactic(auto, unfolding(crate::specs::Examples::kept_lines, crate::specs::Examples::told_twice, crate::specs::Examples::passed_over, crate::specs::Examples::served_early, crate::specs::Examples::chosen_early, crate::specs::Examples::not_stuck))]
pub fn examples_are_told()
    ensures switches { IsTrue (follows_switches kept_lines) }
    ensures releases { IsTrue (follows_releases kept_lines) }
    ensures order { IsTrue (follows_tick_order kept_lines) }
    ensures stuck { IsTrue (follows_stuck kept_lines) }
    ensures told_twice { follows_switches told_twice ≡ false }
    ensures passed_over { follows_releases passed_over ≡ false }
    ensures served_early { follows_releases served_early ≡ false }
    ensures chosen_early { follows_tick_order chosen_early ≡ false }
    ensures not_stuck { follows_stuck not_stuck ≡ false }
{}
