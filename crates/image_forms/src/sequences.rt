//! Sequences of statements with what may stand around them (ISO/IEC 8652:2012, 3.11, 11.2).
use crate::bodies::declarations_built;
use crate::branches::handlers_built;
use crate::forms::SequenceHasForm;
use crate::statements::statements_built;
use ada_regions::Names;
use ada_tree::{Sequence, SequenceParts};

impl<Q: SequenceHasForm> SequenceHasForm for SequenceParts<Q> {
    ghost use Rattle.ada_image.specs.BuiltSequences.{parts_built};

    ghost built = { parts_built Q.built };

    fn is_built(&self, names: &Names<'_>) -> bool {
        declarations_built(self.declarations.as_slice(), names)
            && (statements_built(&self.statements, names)
                && handlers_built(self.handlers.as_slice(), names))
    }
}

impl SequenceHasForm for Sequence {
    ghost use Rattle.ada_image.specs.BuiltSequences.{sequence_built};

    ghost built = { sequence_built };

    #[tactic(auto, using(ada_image::proofs::BuiltSequenceFolds::sequence_by_parts))]
    fn is_built(&self, names: &Names<'_>) -> bool {
        self.parts.get().is_built(names)
    }
}
