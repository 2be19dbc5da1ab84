//! Lines: which come from instants, and which from tocks.
ghost use Rattle.machine_laws.specs.LineKinds.{InstantsSayEffects, TocksSayTicks};

/// An instant says neither who runs nor that nobody does, no release that is taken up, and no end
/// of the run.
#[tactic(auto, using(crate::proofs::LineLemmas::instants_say_effects))]
pub fn instants_say_effects()
    ensures { InstantsSayEffects }
{}

/// A tock says who runs or that nobody does, and which release the agent takes up, and nothing
/// else.
#[tactic(auto, using(crate::proofs::LineLemmas::tocks_say_ticks))]
pub fn tocks_say_ticks()
    ensures { TocksSayTicks }
{}
