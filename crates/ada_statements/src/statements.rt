//! Statements that hold others (ISO/IEC 8652:2012, clause 5). The productions take the reader of
//! the sequences in them as a parameter, so that each is proved by itself.
ghost use Rattle.std.specs.Prelude.{◌≡◌, suc, IfSome, None, Some, map};
ghost use Rattle.std.specs.Char.{to_ascii_lowercase};
ghost use Rattle.ada_grammar.specs.Reads.{Reads};
ghost use Rattle.ada_selects.specs.Inside.{ReadsInside};
ghost use Rattle.ada_grammar.specs.ReadingSequences.{further_in};
ghost use Rattle.ada_grammar.specs.ReadingStatements.{begin_of, block_end_of, block_of};
ghost use Rattle.ada_grammar.specs.ReadingStatements.{case_alternative_of};
ghost use Rattle.ada_grammar.specs.ReadingStatements.{case_alternatives_of, case_of};
ghost use Rattle.ada_grammar.specs.ReadingStatements.{compound_of, declare_of, elsif_of, if_of};
ghost use Rattle.ada_grammar.specs.ReadingStatements.{labelled_of, loop_of, named_statement_of};
ghost use Rattle.ada_grammar.specs.ReadingStatements.{simple_statement_of, statement_inside_of};

use ada_expressions::{expression, items, separated};
use ada_grammar::{Cursor, Stuck};
use ada_lex::{Delimiter, Reserved};
use ada_selects::{Nested, SelectReader, begins_block, begins_compound, begins_loop};
use ada_simple_statements::{
    abort_statement, choice, delay, exit_statement, iteration, label_end, null_statement,
    raise_statement, requeue_statement, return_statement, simple_statement,
};
use ada_tree::{
    Block, Case, CaseAlternative, Elsif, Identifier, If, Loop, OneOrMore, SequenceRole, Statement,
};
use ann_base::{OrMemory, Place};
use std::alloc::Global;

/// How statements are read where `left` levels may still be opened inside them.
#[derive(Clone, Copy)]
pub struct StatementReader<F> {
    /// Where memory comes from.
    pub alloc: Global,
    /// How many levels may still be opened inside.
    pub left: usize,
    /// Reads a sequence where so many levels are left.
    pub read: F,
}

impl<
    Q: Nested,
    F: Fn(Global, &mut Cursor<'_>, usize, SequenceRole) -> Result<Q, OrMemory<Stuck>> + Copy,
> StatementReader<F> {
    /// The sequence inside a statement.
    fn sequence(&self, cursor: &mut Cursor<'_>, role: SequenceRole) -> Result<Q, OrMemory<Stuck>>
        requires reads { ReadsInside Q.reading (suc self.now.left) (F.pre self.now.read)
            (F.post self.now.read) }
        ensures { Reads result cursor.new (Q.reading self.now.left role cursor.old) }
    {
        (self.read)(self.alloc, cursor, self.left, role)
    }

    /// How the accept and select statements here are read.
    fn selects(&self) -> SelectReader<F>
        ensures left { result.left ≡ self.now.left }
        ensures read { result.read ≡ self.now.read }
    {
        SelectReader {
            alloc: self.alloc,
            left: self.left,
            read: self.read,
        }
    }

    /// `elsif EXPRESSION then STATEMENTS` (5.3)
    #[tactic(auto, unfolding(ada_grammar::specs::ReadingStatements::elsif_of))]
    fn elsif(&self, cursor: &mut Cursor<'_>) -> Result<Elsif<Q>, OrMemory<Stuck>>
        requires reads { ReadsInside Q.reading (suc self.now.left) (F.pre self.now.read)
            (F.post self.now.read) }
        ensures { Reads result cursor.new
            (elsif_of self.now.left (Q.reading self.now.left) cursor.old) }
    {
        let place = cursor.word(Reserved::Elsif)?;
        let condition = expression(self.alloc, cursor, self.left)?;
        cursor.word(Reserved::Then)?;
        let statements = self.sequence(cursor, SequenceRole::Statements)?;
        Ok(Elsif {
            place,
            condition,
            statements,
        })
    }

    /// An if statement (5.3).
    #[tactic(auto, unfolding(ada_grammar::specs::ReadingStatements::if_of))]
    fn if_statement(&self, cursor: &mut Cursor<'_>) -> Result<Statement<Q>, OrMemory<Stuck>>
        requires reads { ReadsInside Q.reading (suc self.now.left) (F.pre self.now.read)
            (F.post self.now.read) }
        ensures { Reads result cursor.new
            (if_of self.now.left (Q.reading self.now.left) cursor.old) }
    {
        let place = cursor.word(Reserved::If)?;
        let condition = expression(self.alloc, cursor, self.left)?;
        cursor.word(Reserved::Then)?;
        let statements = self.sequence(cursor, SequenceRole::Statements)?;
        let elsifs = items(
            self.alloc,
            cursor,
            |cursor| cursor.is_word(Reserved::Elsif),
            |cursor| self.elsif(cursor),
        )?;
        let otherwise = self.selects().otherwise(cursor)?;
        cursor.word(Reserved::End)?;
        cursor.word(Reserved::If)?;
        cursor.delimiter(Delimiter::Semicolon)?;
        Ok(Statement::If(If {
            place,
            condition,
            statements,
            elsifs,
            otherwise,
        }))
    }

    /// `when CHOICE {| CHOICE} => STATEMENTS` (5.4)
    #[tactic(auto, unfolding(ada_grammar::specs::ReadingStatements::case_alternative_of))]
    fn case_alternative(
        &self,
        cursor: &mut Cursor<'_>,
    ) -> Result<CaseAlternative<Q>, OrMemory<Stuck>>
        requires reads { ReadsInside Q.reading (suc self.now.left) (F.pre self.now.read)
            (F.post self.now.read) }
        ensures { Reads result cursor.new
            (case_alternative_of self.now.left (Q.reading self.now.left) cursor.old) }
    {
        let place = cursor.word(Reserved::When)?;
        let choices = separated(self.alloc, cursor, Delimiter::Bar, |cursor| {
            choice(self.alloc, cursor, self.left)
        })?;
        cursor.delimiter(Delimiter::Arrow)?;
        let statements = self.sequence(cursor, SequenceRole::Statements)?;
        Ok(CaseAlternative {
            place,
            choices,
            statements,
        })
    }

    /// The alternatives of a case statement (5.4).
    #[tactic(auto, unfolding(ada_grammar::specs::ReadingStatements::case_alternatives_of))]
    fn case_alternatives(
        &self,
        cursor: &mut Cursor<'_>,
    ) -> Result<OneOrMore<CaseAlternative<Q>>, OrMemory<Stuck>>
        requires reads { ReadsInside Q.reading (suc self.now.left) (F.pre self.now.read)
            (F.post self.now.read) }
        ensures { Reads result cursor.new
            (case_alternatives_of self.now.left (Q.reading self.now.left) cursor.old) }
    {
        let first = self.case_alternative(cursor)?;
        let others = items(
            self.alloc,
            cursor,
            |cursor| cursor.is_word(Reserved::When),
            |cursor| self.case_alternative(cursor),
        )?;
        Ok(OneOrMore { first, others })
    }

    /// A case statement (5.4).
    #[tactic(auto, unfolding(ada_grammar::specs::ReadingStatements::case_of))]
    fn case_statement(&self, cursor: &mut Cursor<'_>) -> Result<Statement<Q>, OrMemory<Stuck>>
        requires reads { ReadsInside Q.reading (suc self.now.left) (F.pre self.now.read)
            (F.post self.now.read) }
        ensures { Reads result cursor.new
            (case_of self.now.left (Q.reading self.now.left) cursor.old) }
    {
        let place = cursor.word(Reserved::Case)?;
        let selector = expression(self.alloc, cursor, self.left)?;
        cursor.word(Reserved::Is)?;
        let alternatives = self.case_alternatives(cursor)?;
        cursor.word(Reserved::End)?;
        cursor.word(Reserved::Case)?;
        cursor.delimiter(Delimiter::Semicolon)?;
        Ok(Statement::Case(Case {
            place,
            selector,
            alternatives,
        }))
    }

    /// A loop, behind its name (5.5).
    #[tactic(auto, unfolding(ada_grammar::specs::ReadingStatements::loop_of))]
    fn loop_statement(
        &self,
        cursor: &mut Cursor<'_>,
        name: Option<Identifier>,
    ) -> Result<Statement<Q>, OrMemory<Stuck>>
        requires reads { ReadsInside Q.reading (suc self.now.left) (F.pre self.now.read)
            (F.post self.now.read) }
        requires lower { IfSome name (λ name. map to_ascii_lowercase name.text ≡ name.text) }
        ensures { Reads result cursor.new
            (loop_of self.now.left (Q.reading self.now.left) name cursor.old) }
    {
        let iteration = iteration(self.alloc, cursor, self.left)?;
        let place = cursor.word(Reserved::Loop)?;
        let statements = self.sequence(cursor, SequenceRole::Statements)?;
        cursor.word(Reserved::End)?;
        cursor.word(Reserved::Loop)?;
        let label = label_end(cursor, name)?;
        cursor.delimiter(Delimiter::Semicolon)?;
        Ok(Statement::Loop(Loop {
            label,
            iteration,
            place,
            statements,
        }))
    }

    /// The end of a block with these parts (5.6).
    #[tactic(auto, unfolding(ada_grammar::specs::ReadingStatements::block_end_of))]
    fn block_end(
        &self,
        cursor: &mut Cursor<'_>,
        name: Option<Identifier>,
        place: Place,
        declare: bool,
        sequence: Q,
    ) -> Result<Statement<Q>, OrMemory<Stuck>>
        requires lower { IfSome name (λ name. map to_ascii_lowercase name.text ≡ name.text) }
        ensures { Reads result cursor.new
            (block_end_of self.now.left (Q.reading self.now.left) name place declare sequence
            cursor.old) }
    {
        cursor.word(Reserved::End)?;
        let label = label_end(cursor, name)?;
        cursor.delimiter(Delimiter::Semicolon)?;
        Ok(Statement::Block(Block {
            label,
            place,
            declare,
            sequence,
        }))
    }

    /// A block with declarations, behind its name (5.6).
    #[tactic(auto, unfolding(ada_grammar::specs::ReadingStatements::declare_of))]
    fn declare_block(
        &self,
        cursor: &mut Cursor<'_>,
        name: Option<Identifier>,
    ) -> Result<Statement<Q>, OrMemory<Stuck>>
        requires reads { ReadsInside Q.reading (suc self.now.left) (F.pre self.now.read)
            (F.post self.now.read) }
        requires lower { IfSome name (λ name. map to_ascii_lowercase name.text ≡ name.text) }
        ensures { Reads result cursor.new
            (declare_of self.now.left (Q.reading self.now.left) name cursor.old) }
    {
        let place = cursor.word(Reserved::Declare)?;
        let sequence = self.sequence(cursor, SequenceRole::Body)?;
        self.block_end(cursor, name, place, true, sequence)
    }

    /// A block without declarations, behind its name (5.6).
    #[tactic(auto, unfolding(ada_grammar::specs::ReadingStatements::begin_of))]
    fn begin_block(
        &self,
        cursor: &mut Cursor<'_>,
        name: Option<Identifier>,
    ) -> Result<Statement<Q>, OrMemory<Stuck>>
        requires reads { ReadsInside Q.reading (suc self.now.left) (F.pre self.now.read)
            (F.post self.now.read) }
        requires lower { IfSome name (λ name. map to_ascii_lowercase name.text ≡ name.text) }
        ensures { Reads result cursor.new
            (begin_of self.now.left (Q.reading self.now.left) name cursor.old) }
    {
        let place = cursor.word(Reserved::Begin)?;
        let sequence = self.sequence(cursor, SequenceRole::Handled)?;
        self.block_end(cursor, name, place, false, sequence)
    }

    /// A block, behind its name (5.6).
    #[tactic(auto, unfolding(ada_grammar::specs::ReadingStatements::block_of))]
    fn block(
        &self,
        cursor: &mut Cursor<'_>,
        name: Option<Identifier>,
    ) -> Result<Statement<Q>, OrMemory<Stuck>>
        requires reads { ReadsInside Q.reading (suc self.now.left) (F.pre self.now.read)
            (F.post self.now.read) }
        requires lower { IfSome name (λ name. map to_ascii_lowercase name.text ≡ name.text) }
        ensures { Reads result cursor.new
            (block_of self.now.left (Q.reading self.now.left) name cursor.old) }
    {
        if cursor.is_word(Reserved::Declare) {
            self.declare_block(cursor, name)
        } else {
            self.begin_block(cursor, name)
        }
    }

    /// A loop or a block with a name (5.5, 5.6).
    #[tactic(auto, unfolding(ada_grammar::specs::ReadingStatements::labelled_of))]
    fn labelled(&self, cursor: &mut Cursor<'_>) -> Result<Statement<Q>, OrMemory<Stuck>>
        requires reads { ReadsInside Q.reading (suc self.now.left) (F.pre self.now.read)
            (F.post self.now.read) }
        ensures { Reads result cursor.new
            (labelled_of self.now.left (Q.reading self.now.left) cursor.old) }
    {
        let name = cursor.identifier(self.alloc)?;
        cursor.delimiter(Delimiter::Colon)?;
        if begins_block(cursor) {
            self.block(cursor, Some(name))
        } else {
            self.loop_statement(cursor, Some(name))
        }
    }

    /// A statement that begins with a name.
    #[tactic(auto, unfolding(ada_grammar::specs::ReadingStatements::named_statement_of))]
    fn named_statement(&self, cursor: &mut Cursor<'_>) -> Result<Statement<Q>, OrMemory<Stuck>>
        requires reads { ReadsInside Q.reading (suc self.now.left) (F.pre self.now.read)
            (F.post self.now.read) }
        ensures { Reads result cursor.new
            (named_statement_of self.now.left (Q.reading self.now.left)
            (further_in Q.reading self.now.left) cursor.old) }
    {
        if cursor.is_identifier_before(Delimiter::Colon) {
            self.labelled(cursor)
        } else {
            simple_statement(self.alloc, cursor, self.left)
        }
    }

    /// A statement that holds others, and has no name (5.1).
    #[tactic(auto, unfolding(ada_grammar::specs::ReadingStatements::compound_of))]
    fn compound(&self, cursor: &mut Cursor<'_>) -> Result<Statement<Q>, OrMemory<Stuck>>
        requires reads { ReadsInside Q.reading (suc self.now.left) (F.pre self.now.read)
            (F.post self.now.read) }
        ensures { Reads result cursor.new
            (compound_of self.now.left (Q.reading self.now.left)
            (further_in Q.reading self.now.left) cursor.old) }
    {
        if cursor.is_word(Reserved::If) {
            self.if_statement(cursor)
        } else if cursor.is_word(Reserved::Case) {
            self.case_statement(cursor)
        } else if begins_loop(cursor) {
            self.loop_statement(cursor, None)
        } else if begins_block(cursor) {
            self.block(cursor, None)
        } else if cursor.is_word(Reserved::Accept) {
            let accept = self.selects().accept(cursor)?;
            Ok(Statement::Accept(accept))
        } else {
            self.selects().select(cursor)
        }
    }

    /// Another statement, or one with a name (5.1).
    #[tactic(auto, unfolding(ada_grammar::specs::ReadingStatements::simple_statement_of))]
    fn simple(&self, cursor: &mut Cursor<'_>) -> Result<Statement<Q>, OrMemory<Stuck>>
        requires reads { ReadsInside Q.reading (suc self.now.left) (F.pre self.now.read)
            (F.post self.now.read) }
        ensures { Reads result cursor.new
            (simple_statement_of self.now.left (Q.reading self.now.left)
            (further_in Q.reading self.now.left) cursor.old) }
    {
        if cursor.is_word(Reserved::Null) {
            null_statement(cursor)
        } else if cursor.is_word(Reserved::Delay) {
            let delay = delay(self.alloc, cursor, self.left)?;
            Ok(Statement::Delay(delay))
        } else if cursor.is_word(Reserved::Exit) {
            exit_statement(self.alloc, cursor, self.left)
        } else if cursor.is_word(Reserved::Return) {
            return_statement(self.alloc, cursor, self.left)
        } else if cursor.is_word(Reserved::Raise) {
            raise_statement(self.alloc, cursor)
        } else if cursor.is_word(Reserved::Abort) {
            abort_statement(self.alloc, cursor)
        } else if cursor.is_word(Reserved::Requeue) {
            requeue_statement(self.alloc, cursor)
        } else {
            self.named_statement(cursor)
        }
    }

    /// A statement (5.1).
    #[tactic(auto, unfolding(ada_grammar::specs::ReadingStatements::statement_inside_of))]
    pub fn statement(&self, cursor: &mut Cursor<'_>) -> Result<Statement<Q>, OrMemory<Stuck>>
        requires reads { ReadsInside Q.reading (suc self.now.left) (F.pre self.now.read)
            (F.post self.now.read) }
        ensures { Reads result cursor.new
            (statement_inside_of self.now.left (Q.reading self.now.left)
            (further_in Q.reading self.now.left) cursor.old) }
    {
        if begins_compound(cursor) {
            self.compound(cursor)
        } else {
            self.simple(cursor)
        }
    }
}
