//! Sequences, bodies and declarations, each read with the sequences in them (ISO/IEC 8652:2012,
//! 3.11, 11.2).
ghost use Rattle.std.specs.Prelude.{◌≡◌, map};
ghost use Rattle.std.specs.Char.{to_ascii_lowercase};
ghost use Rattle.ada_grammar.specs.Reads.{Reads};
ghost use Rattle.ada_grammar.specs.ReadingBodies.{body_of};
ghost use Rattle.ada_grammar.specs.ReadingSequences.{inside_of, sequence_of};
ghost use Rattle.ada_grammar.specs.ReadingUnits.{declarations_at};

use crate::sequences::SequenceReader;
use ada_grammar::{Cursor, Stuck};
use ada_tree::{Body, Declaration, Identifier, Sequence, SequenceRole};
use ann_base::OrMemory;
use sqlite_items::Items;
use std::alloc::Global;

/// A sequence, where `left` levels may still be opened.
pub fn sequence(
    alloc: Global,
    cursor: &mut Cursor<'_>,
    left: usize,
    role: SequenceRole,
) -> Result<Sequence, OrMemory<Stuck>>
    ensures { Reads result cursor.new (sequence_of left role cursor.old) }
{
    SequenceReader {
        alloc,
        left,
        read: sequence,
    }
    .parts(cursor, role)
}

/// `{DECLARATION}`, where `left` levels may still be opened (3.11).
pub fn declarations(
    alloc: Global,
    cursor: &mut Cursor<'_>,
    left: usize,
) -> Result<Items<Declaration<Sequence>>, OrMemory<Stuck>>
    ensures { Reads result cursor.new (declarations_at left cursor.old) }
{
    SequenceReader {
        alloc,
        left,
        read: sequence,
    }
    .declarations(cursor)
}

/// `is BODY end [NAME];` of a unit of this name, where `left` levels may still be opened (6.3).
pub fn body(
    alloc: Global,
    cursor: &mut Cursor<'_>,
    left: usize,
    name: &Identifier,
) -> Result<Body<Sequence>, OrMemory<Stuck>>
    requires lower { map to_ascii_lowercase name.now.text ≡ name.now.text }
    ensures { Reads result cursor.new (body_of left (inside_of left) name.now.text cursor.old) }
{
    SequenceReader {
        alloc,
        left,
        read: sequence,
    }
    .body(cursor, name)
}
