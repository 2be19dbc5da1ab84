//! The labels of sequences of statements (ISO/IEC 8652:2012, 5.1).
use crate::labels::TellLabels;
use ada_regions::Occurrences;
use ada_tree::{Sequence, SequenceParts};
use ann_base::NoMemory;

/// What is a sequence of statements: it declares the labels of its statements and handlers.
pub trait LabelledSequence {
    ghost use Rattle.std.specs.Prelude.{◌≡◌, ◌++◌, OnOk};
    ghost use Rattle.ada_regions.specs.Occurrences.{SequenceNames};

    ghost names_in: { Self → SequenceNames };

    /// Declares them in the order of the text, or answers that memory ran out.
    fn tell_sequence_labels<'t>(&'t self, occurrences: &mut Occurrences<'t>) -> Result<(), NoMemory>
        ensures { OnOk result
            (occurrences.new ≡ occurrences.old ++ (names_in self.now).labels) };
}

impl<Q: LabelledSequence> LabelledSequence for SequenceParts<Q> {
    ghost use Rattle.ada_regions.specs.NamesInUnits.{names_in_parts};

    ghost names_in = { names_in_parts Q.names_in };

    fn tell_sequence_labels<'t>(
        &'t self,
        occurrences: &mut Occurrences<'t>,
    ) -> Result<(), NoMemory> {
        self.statements.tell_labels(occurrences)?;
        self.handlers.tell_labels(occurrences)
    }
}

impl LabelledSequence for Sequence {
    ghost use Rattle.ada_regions.specs.NamesInUnits.{names_in_sequence};

    ghost names_in = { names_in_sequence };

    #[cycle(labels)]
    #[tactic(auto, using(ada_regions::proofs::SequenceFolds::sequence_tells))]
    fn tell_sequence_labels<'t>(
        &'t self,
        occurrences: &mut Occurrences<'t>,
    ) -> Result<(), NoMemory> {
        self.parts.get().tell_sequence_labels(occurrences)
    }
}
