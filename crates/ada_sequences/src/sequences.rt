//! Sequences: statements, their handlers, and the declarations before them (ISO/IEC 8652:2012,
//! 11.2, 3.11).
ghost use Rattle.std.specs.Prelude.{◌≡◌, [], IfOk};
ghost use Rattle.ada_grammar.specs.Reading.{below};
ghost use Rattle.ada_grammar.specs.Reads.{Reads};
ghost use Rattle.ada_selects.specs.Inside.{ReadsInside};
ghost use Rattle.ada_grammar.specs.ReadingBodies.{begins_declaration};
ghost use Rattle.ada_grammar.specs.ReadingStatements.{begins_statement};
ghost use Rattle.ada_grammar.specs.ReadingSequences.{declarations_of, given_handlers_of};
ghost use Rattle.ada_grammar.specs.ReadingSequences.{handled_behind_of, handler_of};
ghost use Rattle.ada_grammar.specs.ReadingSequences.{handlers_of, inside_of, made, parts_of};
ghost use Rattle.ada_grammar.specs.ReadingSequences.{plain_of, sequence_of, statement_of};
ghost use Rattle.ada_grammar.specs.ReadingSequences.{statements_of, whole_body_of};

use crate::bodies::begins_declaration;
use ada_expressions::{first_before, items};
use ada_grammar::{Cursor, Stuck};
use ada_lex::{Delimiter, Reserved};
use ada_selects::begins_statement;
use ada_simple_statements::handled_exceptions;
use ada_statements::StatementReader;
use ada_tree::{Declaration, Handler, OneOrMore, Sequence, SequenceParts, SequenceRole, Statement};
use ann_base::{NoMemory, OrMemory};
use sqlite_items::{Boxed, Items};
use std::alloc::Global;

/// How sequences are read where `left` levels may still be opened. The productions take the reader
/// of the sequences further in as a parameter, so that each is proved by itself.
#[derive(Clone, Copy)]
pub struct SequenceReader<F> {
    /// Where memory comes from.
    pub alloc: Global,
    /// How many levels may still be opened.
    pub left: usize,
    /// Reads a sequence where so many levels are left.
    pub read: F,
}

/// The sequence of these parts.
fn made(
    alloc: Global,
    declarations: Items<Declaration<Sequence>>,
    statements: OneOrMore<Statement<Sequence>>,
    handlers: Items<Handler<Sequence>>,
) -> Result<Sequence, NoMemory>
    ensures { IfOk result (λ sequence. sequence ≡ made declarations statements handlers) }
{
    Ok(Sequence {
        parts: Boxed::new(
            alloc,
            SequenceParts {
                declarations,
                statements,
                handlers,
            },
        )?,
    })
}

/// The sequence of statements alone.
fn made_plain(
    alloc: Global,
    statements: OneOrMore<Statement<Sequence>>,
) -> Result<Sequence, NoMemory>
    ensures { IfOk result (λ sequence. sequence ≡ made [] statements []) }
{
    made(alloc, Items::new(alloc), statements, Items::new(alloc))
}

impl<
    F: Fn(Global, &mut Cursor<'_>, usize, SequenceRole) -> Result<Sequence, OrMemory<Stuck>> + Copy,
> SequenceReader<F> {
    /// A sequence one level further in.
    pub fn inner(
        &self,
        cursor: &mut Cursor<'_>,
        role: SequenceRole,
    ) -> Result<Sequence, OrMemory<Stuck>>
        requires reads { ReadsInside sequence_of self.now.left (F.pre self.now.read)
            (F.post self.now.read) }
        ensures { Reads result cursor.new (inside_of self.now.left role cursor.old) }
    {
        match self.left {
            0 => Err(cursor.stuck()),
            left => (self.read)(self.alloc, cursor, left - 1, role),
        }
    }

    /// A statement, which takes a level (5.1).
    #[tactic(auto, unfolding(ada_grammar::specs::ReadingSequences::statement_of))]
    fn statement(&self, cursor: &mut Cursor<'_>) -> Result<Statement<Sequence>, OrMemory<Stuck>>
        requires reads { ReadsInside sequence_of self.now.left (F.pre self.now.read)
            (F.post self.now.read) }
        ensures { Reads result cursor.new
            (statement_of self.now.left (inside_of self.now.left) (inside_of (below self.now.left))
            cursor.old) }
    {
        match self.left {
            0 => {
                if begins_statement(cursor) {
                    Err(cursor.too_deep())
                } else {
                    Err(cursor.stuck())
                }
            }
            left => StatementReader {
                alloc: self.alloc,
                left: left - 1,
                read: self.read,
            }
            .statement(cursor),
        }
    }

    /// `STATEMENT {STATEMENT}` (5.1)
    #[tactic(auto, unfolding(ada_grammar::specs::ReadingSequences::statements_of))]
    fn statements(
        &self,
        cursor: &mut Cursor<'_>,
    ) -> Result<OneOrMore<Statement<Sequence>>, OrMemory<Stuck>>
        requires reads { ReadsInside sequence_of self.now.left (F.pre self.now.read)
            (F.post self.now.read) }
        ensures { Reads result cursor.new
            (statements_of self.now.left (inside_of self.now.left) (inside_of (below self.now.left))
            cursor.old) }
    {
        let first = self.statement(cursor)?;
        let others = items(
            self.alloc,
            cursor,
            |cursor| begins_statement(cursor),
            |cursor| self.statement(cursor),
        )?;
        Ok(OneOrMore { first, others })
    }

    /// Statements alone (5.1).
    #[tactic(auto, unfolding(ada_grammar::specs::ReadingSequences::plain_of))]
    fn plain(&self, cursor: &mut Cursor<'_>) -> Result<Sequence, OrMemory<Stuck>>
        requires reads { ReadsInside sequence_of self.now.left (F.pre self.now.read)
            (F.post self.now.read) }
        ensures { Reads result cursor.new
            (plain_of self.now.left (inside_of self.now.left) (inside_of (below self.now.left))
            cursor.old) }
    {
        let statements = self.statements(cursor)?;
        Ok(made_plain(self.alloc, statements)?)
    }

    /// A handler (11.2).
    #[tactic(auto, unfolding(ada_grammar::specs::ReadingSequences::handler_of))]
    fn handler(&self, cursor: &mut Cursor<'_>) -> Result<Handler<Sequence>, OrMemory<Stuck>>
        requires reads { ReadsInside sequence_of self.now.left (F.pre self.now.read)
            (F.post self.now.read) }
        ensures { Reads result cursor.new
            (handler_of self.now.left (inside_of self.now.left) (inside_of (below self.now.left))
            cursor.old) }
    {
        let place = cursor.word(Reserved::When)?;
        let exceptions = handled_exceptions(self.alloc, cursor)?;
        cursor.delimiter(Delimiter::Arrow)?;
        let statements = self.statements(cursor)?;
        Ok(Handler {
            place,
            exceptions,
            statements: made_plain(self.alloc, statements)?,
        })
    }

    /// `exception HANDLER {HANDLER}` (11.2)
    #[tactic(auto, unfolding(ada_grammar::specs::ReadingSequences::given_handlers_of))]
    fn given_handlers(
        &self,
        cursor: &mut Cursor<'_>,
    ) -> Result<Items<Handler<Sequence>>, OrMemory<Stuck>>
        requires reads { ReadsInside sequence_of self.now.left (F.pre self.now.read)
            (F.post self.now.read) }
        ensures { Reads result cursor.new
            (given_handlers_of self.now.left (inside_of self.now.left)
            (inside_of (below self.now.left)) cursor.old) }
    {
        cursor.word(Reserved::Exception)?;
        let first = self.handler(cursor)?;
        let others = items(
            self.alloc,
            cursor,
            |cursor| cursor.is_word(Reserved::When),
            |cursor| self.handler(cursor),
        )?;
        Ok(first_before(self.alloc, first, others)?)
    }

    /// `[exception HANDLER {HANDLER}]` (11.2)
    #[tactic(auto, unfolding(ada_grammar::specs::ReadingSequences::handlers_of))]
    fn handlers(&self, cursor: &mut Cursor<'_>) -> Result<Items<Handler<Sequence>>, OrMemory<Stuck>>
        requires reads { ReadsInside sequence_of self.now.left (F.pre self.now.read)
            (F.post self.now.read) }
        ensures { Reads result cursor.new
            (handlers_of self.now.left (inside_of self.now.left) (inside_of (below self.now.left))
            cursor.old) }
    {
        if cursor.is_word(Reserved::Exception) {
            self.given_handlers(cursor)
        } else {
            Ok(Items::new(self.alloc))
        }
    }

    /// `{DECLARATION}` (3.11)
    #[tactic(auto, unfolding(ada_grammar::specs::ReadingSequences::declarations_of))]
    pub fn declarations(
        &self,
        cursor: &mut Cursor<'_>,
    ) -> Result<Items<Declaration<Sequence>>, OrMemory<Stuck>>
        requires reads { ReadsInside sequence_of self.now.left (F.pre self.now.read)
            (F.post self.now.read) }
        ensures { Reads result cursor.new
            (declarations_of self.now.left (inside_of self.now.left)
            (inside_of (below self.now.left)) cursor.old) }
    {
        items(
            self.alloc,
            cursor,
            begins_declaration,
            |cursor| self.declaration(cursor),
        )
    }

    /// Statements and their handlers, behind these declarations (11.2).
    #[tactic(auto, unfolding(ada_grammar::specs::ReadingSequences::handled_behind_of))]
    fn handled_behind(
        &self,
        cursor: &mut Cursor<'_>,
        declarations: Items<Declaration<Sequence>>,
    ) -> Result<Sequence, OrMemory<Stuck>>
        requires reads { ReadsInside sequence_of self.now.left (F.pre self.now.read)
            (F.post self.now.read) }
        ensures { Reads result cursor.new
            (handled_behind_of self.now.left (inside_of self.now.left)
            (inside_of (below self.now.left)) declarations cursor.old) }
    {
        let statements = self.statements(cursor)?;
        let handlers = self.handlers(cursor)?;
        Ok(made(self.alloc, declarations, statements, handlers)?)
    }

    /// Declarations, statements and handlers (3.11).
    #[tactic(auto, unfolding(ada_grammar::specs::ReadingSequences::whole_body_of))]
    fn whole_body(&self, cursor: &mut Cursor<'_>) -> Result<Sequence, OrMemory<Stuck>>
        requires reads { ReadsInside sequence_of self.now.left (F.pre self.now.read)
            (F.post self.now.read) }
        ensures { Reads result cursor.new
            (whole_body_of self.now.left (inside_of self.now.left) (inside_of (below self.now.left))
            cursor.old) }
    {
        let declarations = self.declarations(cursor)?;
        cursor.word(Reserved::Begin)?;
        self.handled_behind(cursor, declarations)
    }

    /// What may stand in a sequence of this role.
    pub fn parts(
        &self,
        cursor: &mut Cursor<'_>,
        role: SequenceRole,
    ) -> Result<Sequence, OrMemory<Stuck>>
        requires reads { ReadsInside sequence_of self.now.left (F.pre self.now.read)
            (F.post self.now.read) }
        ensures { Reads result cursor.new
            (parts_of self.now.left (inside_of self.now.left) (inside_of (below self.now.left)) role
            cursor.old) }
    {
        match role {
            SequenceRole::Statements => self.plain(cursor),
            SequenceRole::Handled => self.handled_behind(cursor, Items::new(self.alloc)),
            SequenceRole::Body => self.whole_body(cursor),
        }
    }
}
