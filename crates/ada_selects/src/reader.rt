//! The sequences inside an accept or a select statement, and the optional parts that other
//! statements have too.
ghost use Rattle.std.specs.Prelude.{suc};
ghost use Rattle.ada_grammar.specs.Reads.{Reads};
ghost use Rattle.ada_selects.specs.Inside.{ReadsInside};
ghost use Rattle.ada_grammar.specs.ReadingStatements.{else_of, optional_statements_of};

use crate::beginnings::begins_statement;
use crate::nested::Nested;
use ada_grammar::{Cursor, Stuck};
use ada_lex::Reserved;
use ada_tree::SequenceRole;
use ann_base::OrMemory;
use std::alloc::Global;

/// How accept and select statements are read where `left` levels may still be opened inside them.
#[derive(Clone, Copy)]
pub struct SelectReader<F> {
    /// Where memory comes from.
    pub alloc: Global,
    /// How many levels may still be opened inside.
    pub left: usize,
    /// Reads a sequence where so many levels are left.
    pub read: F,
}

impl<
    Q: Nested,
    F: Fn(Global, &mut Cursor<'_>, usize, SequenceRole) -> Result<Q, OrMemory<Stuck>> + Copy,
> SelectReader<F> {
    /// The sequence inside a statement.
    pub(crate) fn sequence(
        &self,
        cursor: &mut Cursor<'_>,
        role: SequenceRole,
    ) -> Result<Q, OrMemory<Stuck>>
        requires reads { ReadsInside Q.reading (suc self.now.left) (F.pre self.now.read)
            (F.post self.now.read) }
        ensures { Reads result cursor.new (Q.reading self.now.left role cursor.old) }
    {
        (self.read)(self.alloc, cursor, self.left, role)
    }

    /// `[else STATEMENTS]` (5.3, 9.7.1)
    #[tactic(auto, unfolding(ada_grammar::specs::ReadingStatements::else_of))]
    pub fn otherwise(&self, cursor: &mut Cursor<'_>) -> Result<Option<Q>, OrMemory<Stuck>>
        requires reads { ReadsInside Q.reading (suc self.now.left) (F.pre self.now.read)
            (F.post self.now.read) }
        ensures { Reads result cursor.new
            (else_of self.now.left (Q.reading self.now.left) cursor.old) }
    {
        if cursor.is_word(Reserved::Else) {
            cursor.word(Reserved::Else)?;
            let statements = self.sequence(cursor, SequenceRole::Statements)?;
            Ok(Some(statements))
        } else {
            Ok(None)
        }
    }

    /// Statements, where some stand there.
    #[tactic(auto, unfolding(ada_grammar::specs::ReadingStatements::optional_statements_of))]
    pub(crate) fn optional_statements(
        &self,
        cursor: &mut Cursor<'_>,
    ) -> Result<Option<Q>, OrMemory<Stuck>>
        requires reads { ReadsInside Q.reading (suc self.now.left) (F.pre self.now.read)
            (F.post self.now.read) }
        ensures { Reads result cursor.new
            (optional_statements_of self.now.left (Q.reading self.now.left) cursor.old) }
    {
        if begins_statement(cursor) {
            let statements = self.sequence(cursor, SequenceRole::Statements)?;
            Ok(Some(statements))
        } else {
            Ok(None)
        }
    }
}
