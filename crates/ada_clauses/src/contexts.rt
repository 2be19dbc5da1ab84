//! The context clauses of library units (ISO/IEC 8652:2012, 8.4, 10.1.2).
ghost use Rattle.std.specs.Prelude.{◌≡◌};
ghost use Rattle.ada_grammar.specs.ReadingUnits.{begins_clause, clause_of};
ghost use Rattle.ada_grammar.specs.ReadingUnits.{context_of, use_clause_of, with_of};
ghost use Rattle.ada_grammar.specs.Reads.{Reads};

use ada_expressions::{items, name_list};
use ada_grammar::{Cursor, Stuck};
use ada_lex::{Delimiter, Reserved};
use ada_tree::ContextClause;
use ann_base::OrMemory;
use sqlite_items::Items;
use std::alloc::Global;

/// A with clause (10.1.2).
#[tactic(auto, unfolding(ada_grammar::specs::ReadingUnits::with_of))]
fn with_clause(alloc: Global, cursor: &mut Cursor<'_>) -> Result<ContextClause, OrMemory<Stuck>>
    ensures { Reads result cursor.new (with_of cursor.old) }
{
    let place = cursor.word(Reserved::With)?;
    let names = name_list(alloc, cursor, Delimiter::Comma)?;
    cursor.delimiter(Delimiter::Semicolon)?;
    Ok(ContextClause {
        place,
        is_use: false,
        names,
    })
}

/// A use clause in a context (8.4).
#[tactic(auto, unfolding(ada_grammar::specs::ReadingUnits::use_clause_of))]
fn use_clause(alloc: Global, cursor: &mut Cursor<'_>) -> Result<ContextClause, OrMemory<Stuck>>
    ensures { Reads result cursor.new (use_clause_of cursor.old) }
{
    let place = cursor.word(Reserved::Use)?;
    let names = name_list(alloc, cursor, Delimiter::Comma)?;
    cursor.delimiter(Delimiter::Semicolon)?;
    Ok(ContextClause {
        place,
        is_use: true,
        names,
    })
}

/// Whether a context clause begins here (10.1.2).
fn begins_clause(cursor: &Cursor<'_>) -> bool
    ensures { result ≡ begins_clause cursor.now }
{
    cursor.is_word(Reserved::With) || cursor.is_word(Reserved::Use)
}

/// A context clause (10.1.2).
#[tactic(auto, unfolding(ada_grammar::specs::ReadingUnits::clause_of))]
fn clause(alloc: Global, cursor: &mut Cursor<'_>) -> Result<ContextClause, OrMemory<Stuck>>
    ensures { Reads result cursor.new (clause_of cursor.old) }
{
    if cursor.is_word(Reserved::Use) {
        use_clause(alloc, cursor)
    } else {
        with_clause(alloc, cursor)
    }
}

/// The context of a library unit: its with and use clauses (10.1.2).
#[tactic(auto, unfolding(ada_grammar::specs::ReadingUnits::context_of))]
pub fn context_clauses(
    alloc: Global,
    cursor: &mut Cursor<'_>,
) -> Result<Items<ContextClause>, OrMemory<Stuck>>
    ensures { Reads result cursor.new (context_of cursor.old) }
{
    items(alloc, cursor, begins_clause, |cursor| clause(alloc, cursor))
}
