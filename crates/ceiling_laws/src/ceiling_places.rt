//! At which level the lines of effects and of runs show somebody: laws of the profile machine's
//! definitions alone. Each is the contract of a function that does nothing.
ghost use Rattle.ceiling_laws.specs.Acting.{ReadyLeavesLow, PlacingLeavesLow};
ghost use Rattle.ceiling_laws.specs.Acting.{BlockLeavesLow, InheritanceLeavesLow};
ghost use Rattle.ceiling_laws.specs.Acting.{LossLeavesLow, BaseLeavesLow, EndLeavesLow};
ghost use Rattle.ceiling_laws.specs.PlaceLaws.{EffectsPlaceByTheLast, ReadyPlaces, TailPlaces};
ghost use Rattle.ceiling_laws.specs.PlaceLaws.{HeadPlaces, BlockTakesOut, OthersKeepPlaces};
ghost use Rattle.ceiling_laws.specs.PlaceLaws.{TocksKeepPlaces, OthersKeepWaitersOut};
ghost use Rattle.ceiling_laws.specs.PlaceLaws.{TocksKeepWaitersOut, RunsPlaceAtMostActive};
ghost use Rattle.ceiling_laws.specs.PlaceLaws.{RunsShowWhoIsReady, RunsKeepCeilings};

/// The lines of an effect are put in order by their parts. Then they show everybody where that line
/// leaves it that comes last by its part, and of those of one part the one that was said last;
/// where no line speaks of its place, as before (D.2.1).
#[tactic(auto, using(crate::proofs::Places::QueueLemmas::effects_place_by_the_last))]
pub fn effects_place_by_the_last_line()
    ensures { EffectsPlaceByTheLast }
{}

/// Who becomes ready, and who goes to the tail or the head of its level, is placed at the active
/// priority that it has behind that step; who blocks is taken out (D.2.1).
#[tactic(auto, using(crate::proofs::Places::StepLemmas::ready_places, crate::proofs::Places::StepLemmas::tail_places, crate::proofs::Places::StepLemmas::head_places, crate::proofs::Places::StepLemmas::block_takes_out))]
pub fn steps_place_at_the_active_priority()
    ensures ready { ReadyPlaces }
    ensures tail { TailPlaces }
    ensures head { HeadPlaces }
    ensures block { BlockTakesOut }
{}

/// Where lines show nobody above its active priority, so do they behind all that comes about in an
/// instant beside the effect of who acts, and behind a tock: in any world (D.1, D.2.1).
#[tactic(auto, using(crate::proofs::Places::BesideLemmas::others_keep_places, crate::proofs::Places::TockPlaces::tocks_keep_places))]
pub fn nothing_beside_an_effect_places_above()
    ensures others { OthersKeepPlaces }
    ensures tocks { TocksKeepPlaces }
{}

/// Where lines show nobody in the queue who waits, so do they behind all that comes about in an
/// instant beside the effect of who acts, and behind a tock: in any world (D.2.1).
#[tactic(auto, using(crate::proofs::Places::WaitLemmas::tocks_keep_waiters_out))]
pub fn nothing_beside_an_effect_shows_who_waits()
    ensures others { OthersKeepWaitersOut }
    ensures tocks { TocksKeepWaitersOut }
{}

/// While an effect goes on: where its lines so far, in their order, show nobody above its active
/// priority, so do they behind a step by which somebody becomes ready, goes to the tail or the head
/// of its level, or gets another base priority while it is ready, in a part whose line no later one
/// hides; by which somebody blocks or ends; and by which who acts inherits a priority or loses one
/// (D.1, D.2.3, D.5.1).
pub fn steps_of_effects_place_nobody_above()
    ensures ready { ReadyLeavesLow }
    ensures placing { PlacingLeavesLow }
    ensures block { BlockLeavesLow }
    ensures inheritance { InheritanceLeavesLow }
    ensures loss { LossLeavesLow }
    ensures base { BaseLeavesLow }
    ensures end { EndLeavesLow }
{}

/// Before each instant of every run everybody who stands in the queue that the lines show stands at
/// or below its active priority (D.1, D.2.1).
#[tactic(auto, using(crate::proofs::Places::StandingRuns::runs_place_at_most_active))]
pub fn runs_place_nobody_above()
    ensures { RunsPlaceAtMostActive }
{}

/// Before each instant of every run nobody stands there who waits or has only been made, and whose
/// action has ended is ready (D.2.1).
#[tactic(auto, using(crate::proofs::Places::StandingRuns::runs_show_who_is_ready))]
pub fn runs_show_who_is_ready()
    ensures { RunsShowWhoIsReady }
{}

/// Every run of a source whose interrupts have no deadlines keeps the law of ceilings, whatever its
/// script and its bound (D.3).
#[tactic(auto, using(crate::proofs::Places::StandingRuns::runs_keep_ceilings))]
pub fn runs_keep_the_law_of_ceilings()
    ensures { RunsKeepCeilings }
{}
