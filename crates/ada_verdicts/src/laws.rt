//! What holds of every source.
ghost use Rattle.ada_verdicts.specs.Accepted.{LongSourcesAreRefused};

/// A source of more than `MAX_SOURCE` bytes is refused for its length at its first byte, whatever
/// stands in it, and is not accepted as any image.
#[tactic(auto, using(crate::proofs::LongSources::long_sources_are_refused))]
pub fn long_sources_are_refused()
    ensures { LongSourcesAreRefused }
{}
