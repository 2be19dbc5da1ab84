//! Sequences with handlers in the worlds that a run reaches: laws of the profile machine's
//! definitions alone. Each is the contract of a function that does nothing.
ghost use Rattle.world_laws.specs.SequenceWorlds.{ReachedSequencesAreOpen};

/// In every world that a run reaches, who is ready has opened the sequence with handlers to which
/// it has come, so none is an action of its own (ISO/IEC 8652:2012, 11.2). This holds of images
/// where such a sequence is not the first statement of another, of an abortable part, or of a task
/// that is created. No source is known with another image.
#[tactic(auto, using(crate::proofs::Sequences::SequenceWorlds::reached_sequences_are_open))]
pub fn reached_worlds_have_opened_sequences()
    ensures { ReachedSequencesAreOpen }
{}
