//! What makes actions of a sequence of statements.
use ada_image::{Lists, SequencePlace, Within};
use ann_base::NoMemory;
use profile_image::StatementNo;
use std::alloc::Global;

/// What is a sequence of statements (ISO/IEC 8652:2012, 5.1, 3.11). A crate that makes sequences
/// names itself by a type `W` of its own.
pub trait MakeSequence<W> {
    ghost use Rattle.ada_image.specs.Made.{Made};
    ghost use Rattle.ada_image.specs.ImageOfStatements.{SequenceMaking};

    ghost making: { Self → SequenceMaking };

    /// Makes what it is where it stands there, leading to what comes next.
    fn sequence_put(
        &self,
        alloc: Global,
        lists: &mut Lists,
        place: SequencePlace,
        within: &Within<'_, '_>,
        next: Option<StatementNo>,
    ) -> Result<Option<StatementNo>, NoMemory>
        ensures { Made (making self.now place within.now next) lists.old lists.new result };
}
