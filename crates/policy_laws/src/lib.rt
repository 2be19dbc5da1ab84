//! Policies of sources that break no rule of legality: laws of the definitions alone. Each is the
//! contract of a function that does nothing.
//!
//! `proofs/NothingFound` says that where no fault is told none is found, and `Faultless` what such
//! a source has: pragmas of the profile, and ranges dispatched by deadlines that lie in Priority.
//! `Ranges` goes from there to the ranges of its image, and `Policies` puts both together.
#![tactic(auto)]

ghost use Rattle.policy_laws.specs.PolicyLaws.{DeadlinesAreBelowInterrupts};

/// In the image of a source that breaks no rule of legality no range that is dispatched by
/// deadlines reaches the priority of interrupts (D.2.6).
#[tactic(auto, using(crate::proofs::Policies::deadlines_are_below_interrupts))]
pub fn deadlines_are_below_interrupts()
    ensures { DeadlinesAreBelowInterrupts }
{}
