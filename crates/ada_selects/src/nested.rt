//! What nests in a statement.
ghost use Rattle.ada_grammar.specs.ReadingSequences.{sequence_of};

use ada_tree::Sequence;

/// What nests in a statement. The productions know of it how it is read, and nothing of what it
/// holds, so that the proof of each is spared the whole tree.
pub trait Nested: Drop {
    ghost use Rattle.std.specs.Prelude.{ℕ};
    ghost use Rattle.ada_tree.specs.declared.statements.SequenceRole.{SequenceRole};
    ghost use Rattle.ada_grammar.specs.Reading.{Parser};

    /// What reading gives in a role, where so many levels may still be opened.
    ghost reading: { ℕ → SequenceRole → Parser Self };
}

impl Nested for Sequence {
    ghost reading = { sequence_of };
}
