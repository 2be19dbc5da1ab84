//! Names (ISO/IEC 8652:2012, 4.1).
ghost use Rattle.ada_lex.specs.DelimiterLetters.{delimiter_letters};
ghost use Rattle.ada_grammar.specs.Reading.{identifiers_of, name_of, names_of};
ghost use Rattle.ada_grammar.specs.Reads.{Reads};

use crate::lists::separated;
use ada_grammar::{Cursor, Stuck};
use ada_lex::Delimiter;
use ada_tree::{Identifier, Name, OneOrMore};
use ann_base::OrMemory;
use std::alloc::Global;

/// Identifiers with commas between them (3.3.1).
#[tactic(auto, unfolding(ada_grammar::specs::Reading::identifiers_of))]
pub fn identifiers(
    alloc: Global,
    cursor: &mut Cursor<'_>,
) -> Result<OneOrMore<Identifier>, OrMemory<Stuck>>
    ensures { Reads result cursor.new (identifiers_of cursor.old) }
{
    separated(
        alloc,
        cursor,
        Delimiter::Comma,
        |cursor| cursor.identifier(alloc),
    )
}

/// A direct name or an expanded name (4.1, 4.1.3).
#[tactic(auto, unfolding(ada_grammar::specs::Reading::name_of))]
pub fn name(alloc: Global, cursor: &mut Cursor<'_>) -> Result<Name, OrMemory<Stuck>>
    ensures { Reads result cursor.new (name_of cursor.old) }
{
    let parts = separated(
        alloc,
        cursor,
        Delimiter::Point,
        |cursor| cursor.identifier(alloc),
    )?;
    Ok(Name { parts })
}

/// Names with this delimiter between them.
#[tactic(auto, unfolding(ada_grammar::specs::Reading::names_of))]
pub fn name_list(
    alloc: Global,
    cursor: &mut Cursor<'_>,
    delimiter: Delimiter,
) -> Result<OneOrMore<Name>, OrMemory<Stuck>>
    ensures { Reads result cursor.new (names_of (delimiter_letters delimiter) cursor.old) }
{
    separated(alloc, cursor, delimiter, |cursor| name(alloc, cursor))
}
