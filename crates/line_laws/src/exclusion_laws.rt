//! Exclusion of protected actions: a law of the profile machine's definitions alone, which holds of
//! every program, script and bound. It is the contract of a function that does nothing.
ghost use Rattle.line_laws.specs.ExclusionLaws.{RunsExclude};

/// In every run a protected action that writes begins only where no other is open on its object,
/// and one that reads only where none that writes is; an object is found held only where another
/// has such an action open (9.5.1).
#[tactic(auto, using(crate::proofs::Exclusion::ExclusionLemmas::runs_exclude))]
pub fn runs_exclude()
    ensures { RunsExclude }
{}
