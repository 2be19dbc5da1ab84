//! Select statements, as they are read (ISO/IEC 8652:2012, 9.7).
ghost use Rattle.std.specs.Prelude.{suc};
ghost use Rattle.ada_grammar.specs.Reads.{Reads};
ghost use Rattle.ada_selects.specs.Inside.{ReadsInside};
ghost use Rattle.ada_grammar.specs.ReadingSequences.{further_in};
ghost use Rattle.ada_grammar.specs.ReadingStatements.{accept_alternative_of, accept_opened_of};
ghost use Rattle.ada_grammar.specs.ReadingStatements.{alternative_of, asynchronous_of};
ghost use Rattle.ada_grammar.specs.ReadingStatements.{behind_call_of, call_opened_of};
ghost use Rattle.ada_grammar.specs.ReadingStatements.{call_select_of, conditional_of};
ghost use Rattle.ada_grammar.specs.ReadingStatements.{delay_alternative_of, delay_opened_of};
ghost use Rattle.ada_grammar.specs.ReadingStatements.{delay_select_of, guard_of};
ghost use Rattle.ada_grammar.specs.ReadingStatements.{next_alternative_of, select_alternative_of};
ghost use Rattle.ada_grammar.specs.ReadingStatements.{select_form_of, select_of, selective_of};
ghost use Rattle.ada_grammar.specs.ReadingStatements.{terminate_of, timed_of};

use crate::nested::Nested;
use crate::reader::SelectReader;
use ada_expressions::{expression, items};
use ada_grammar::{Cursor, Stuck};
use ada_lex::{Delimiter, Reserved};
use ada_simple_statements::{call, delay};
use ada_tree::{
    Accept, Alternative, AsynchronousSelect, Call, ConditionalEntryCall, Delay, Guard, OneOrMore,
    SelectAlternative, SelectForm, SelectStatement, SelectiveAccept, SequenceRole, Statement,
    TimedEntryCall, Trigger,
};
use ann_base::OrMemory;
use std::alloc::Global;

impl<
    Q: Nested,
    F: Fn(Global, &mut Cursor<'_>, usize, SequenceRole) -> Result<Q, OrMemory<Stuck>> + Copy,
> SelectReader<F> {
    /// An entry call in a select statement, which takes a level.
    #[tactic(auto, unfolding(ada_grammar::specs::ReadingStatements::call_opened_of))]
    fn opened_call(&self, cursor: &mut Cursor<'_>) -> Result<Call, OrMemory<Stuck>>
        ensures { Reads result cursor.new (call_opened_of self.now.left cursor.old) }
    {
        match self.left {
            0 => {
                if cursor.is_identifier() {
                    Err(cursor.too_deep())
                } else {
                    Err(cursor.stuck())
                }
            }
            left => call(self.alloc, cursor, left - 1),
        }
    }

    /// A delay statement in a select statement, which takes a level.
    #[tactic(auto, unfolding(ada_grammar::specs::ReadingStatements::delay_opened_of))]
    fn opened_delay(&self, cursor: &mut Cursor<'_>) -> Result<Delay, OrMemory<Stuck>>
        ensures { Reads result cursor.new (delay_opened_of self.now.left cursor.old) }
    {
        match self.left {
            0 => {
                if cursor.is_word(Reserved::Delay) {
                    Err(cursor.too_deep())
                } else {
                    Err(cursor.stuck())
                }
            }
            left => delay(self.alloc, cursor, left - 1),
        }
    }

    /// An accept statement in a select statement, which takes a level.
    fn opened_accept(&self, cursor: &mut Cursor<'_>) -> Result<Accept<Q>, OrMemory<Stuck>>
        requires reads { ReadsInside Q.reading (suc self.now.left) (F.pre self.now.read)
            (F.post self.now.read) }
        ensures { Reads result cursor.new
            (accept_opened_of self.now.left (further_in Q.reading self.now.left) cursor.old) }
    {
        match self.left {
            0 => {
                if cursor.is_word(Reserved::Accept) {
                    Err(cursor.too_deep())
                } else {
                    Err(cursor.stuck())
                }
            }
            left => SelectReader {
                alloc: self.alloc,
                left: left - 1,
                read: self.read,
            }
            .accept(cursor),
        }
    }

    /// An accept alternative (9.7.1).
    #[tactic(auto, unfolding(ada_grammar::specs::ReadingStatements::accept_alternative_of))]
    fn accept_alternative(&self, cursor: &mut Cursor<'_>) -> Result<Alternative<Q>, OrMemory<Stuck>>
        requires reads { ReadsInside Q.reading (suc self.now.left) (F.pre self.now.read)
            (F.post self.now.read) }
        ensures { Reads result cursor.new
            (accept_alternative_of self.now.left (Q.reading self.now.left)
            (further_in Q.reading self.now.left) cursor.old) }
    {
        let accept = self.opened_accept(cursor)?;
        let statements = self.optional_statements(cursor)?;
        Ok(Alternative::Accept { accept, statements })
    }

    /// A delay alternative (9.7.1).
    #[tactic(auto, unfolding(ada_grammar::specs::ReadingStatements::delay_alternative_of))]
    fn delay_alternative(&self, cursor: &mut Cursor<'_>) -> Result<Alternative<Q>, OrMemory<Stuck>>
        requires reads { ReadsInside Q.reading (suc self.now.left) (F.pre self.now.read)
            (F.post self.now.read) }
        ensures { Reads result cursor.new
            (delay_alternative_of self.now.left (Q.reading self.now.left)
            (further_in Q.reading self.now.left) cursor.old) }
    {
        let delay = self.opened_delay(cursor)?;
        let statements = self.optional_statements(cursor)?;
        Ok(Alternative::Delay { delay, statements })
    }

    /// `terminate;` (9.7.1)
    #[tactic(auto, unfolding(ada_grammar::specs::ReadingStatements::terminate_of))]
    fn terminate_alternative(
        &self,
        cursor: &mut Cursor<'_>,
    ) -> Result<Alternative<Q>, OrMemory<Stuck>>
        ensures { Reads result cursor.new
            (terminate_of self.now.left (Q.reading self.now.left)
            (further_in Q.reading self.now.left) cursor.old) }
    {
        let place = cursor.word(Reserved::Terminate)?;
        cursor.delimiter(Delimiter::Semicolon)?;
        Ok(Alternative::Terminate { place })
    }

    /// What an alternative waits for (9.7.1).
    #[tactic(auto, unfolding(ada_grammar::specs::ReadingStatements::alternative_of))]
    fn alternative(&self, cursor: &mut Cursor<'_>) -> Result<Alternative<Q>, OrMemory<Stuck>>
        requires reads { ReadsInside Q.reading (suc self.now.left) (F.pre self.now.read)
            (F.post self.now.read) }
        ensures { Reads result cursor.new
            (alternative_of self.now.left (Q.reading self.now.left)
            (further_in Q.reading self.now.left) cursor.old) }
    {
        if cursor.is_word(Reserved::Accept) {
            self.accept_alternative(cursor)
        } else if cursor.is_word(Reserved::Delay) {
            self.delay_alternative(cursor)
        } else {
            self.terminate_alternative(cursor)
        }
    }

    /// `[when EXPRESSION =>]` (9.7.1)
    #[tactic(auto, unfolding(ada_grammar::specs::ReadingStatements::guard_of))]
    fn guard(&self, cursor: &mut Cursor<'_>) -> Result<Option<Guard>, OrMemory<Stuck>>
        ensures { Reads result cursor.new
            (guard_of self.now.left (Q.reading self.now.left) (further_in Q.reading self.now.left)
            cursor.old) }
    {
        if cursor.is_word(Reserved::When) {
            let place = cursor.word(Reserved::When)?;
            let condition = expression(self.alloc, cursor, self.left)?;
            cursor.delimiter(Delimiter::Arrow)?;
            Ok(Some(Guard { place, condition }))
        } else {
            Ok(None)
        }
    }

    /// An alternative with its guard (9.7.1).
    #[tactic(auto, unfolding(ada_grammar::specs::ReadingStatements::select_alternative_of))]
    fn select_alternative(
        &self,
        cursor: &mut Cursor<'_>,
    ) -> Result<SelectAlternative<Q>, OrMemory<Stuck>>
        requires reads { ReadsInside Q.reading (suc self.now.left) (F.pre self.now.read)
            (F.post self.now.read) }
        ensures { Reads result cursor.new
            (select_alternative_of self.now.left (Q.reading self.now.left)
            (further_in Q.reading self.now.left) cursor.old) }
    {
        let guard = self.guard(cursor)?;
        let alternative = self.alternative(cursor)?;
        Ok(SelectAlternative { guard, alternative })
    }

    /// An alternative behind `or` (9.7.1).
    #[tactic(auto, unfolding(ada_grammar::specs::ReadingStatements::next_alternative_of))]
    fn next_alternative(
        &self,
        cursor: &mut Cursor<'_>,
    ) -> Result<SelectAlternative<Q>, OrMemory<Stuck>>
        requires reads { ReadsInside Q.reading (suc self.now.left) (F.pre self.now.read)
            (F.post self.now.read) }
        ensures { Reads result cursor.new
            (next_alternative_of self.now.left (Q.reading self.now.left)
            (further_in Q.reading self.now.left) cursor.old) }
    {
        cursor.word(Reserved::Or)?;
        self.select_alternative(cursor)
    }

    /// A selective accept, behind its first alternative (9.7.1).
    #[tactic(auto, unfolding(ada_grammar::specs::ReadingStatements::selective_of))]
    fn selective_accept(
        &self,
        cursor: &mut Cursor<'_>,
        first: SelectAlternative<Q>,
    ) -> Result<SelectForm<Q>, OrMemory<Stuck>>
        requires reads { ReadsInside Q.reading (suc self.now.left) (F.pre self.now.read)
            (F.post self.now.read) }
        ensures { Reads result cursor.new
            (selective_of self.now.left (Q.reading self.now.left)
            (further_in Q.reading self.now.left) first cursor.old) }
    {
        let others = items(
            self.alloc,
            cursor,
            |cursor| cursor.is_word(Reserved::Or),
            |cursor| self.next_alternative(cursor),
        )?;
        let otherwise = self.otherwise(cursor)?;
        Ok(SelectForm::SelectiveAccept(SelectiveAccept {
            alternatives: OneOrMore { first, others },
            otherwise,
        }))
    }

    /// An asynchronous select, behind its triggering statement and those that follow it (9.7.4).
    #[tactic(auto, unfolding(ada_grammar::specs::ReadingStatements::asynchronous_of))]
    fn asynchronous_select(
        &self,
        cursor: &mut Cursor<'_>,
        trigger: Trigger,
        statements: Option<Q>,
    ) -> Result<SelectForm<Q>, OrMemory<Stuck>>
        requires reads { ReadsInside Q.reading (suc self.now.left) (F.pre self.now.read)
            (F.post self.now.read) }
        ensures { Reads result cursor.new
            (asynchronous_of self.now.left (Q.reading self.now.left)
            (further_in Q.reading self.now.left) trigger statements cursor.old) }
    {
        cursor.word(Reserved::Then)?;
        cursor.word(Reserved::Abort)?;
        let abortable = self.sequence(cursor, SequenceRole::Statements)?;
        Ok(SelectForm::AsynchronousSelect(AsynchronousSelect {
            trigger,
            statements,
            abortable,
        }))
    }

    /// A timed entry call, behind the call and the statements that follow it (9.7.2).
    #[tactic(auto, unfolding(ada_grammar::specs::ReadingStatements::timed_of))]
    fn timed_entry_call(
        &self,
        cursor: &mut Cursor<'_>,
        call: Call,
        statements: Option<Q>,
    ) -> Result<SelectForm<Q>, OrMemory<Stuck>>
        requires reads { ReadsInside Q.reading (suc self.now.left) (F.pre self.now.read)
            (F.post self.now.read) }
        ensures { Reads result cursor.new
            (timed_of self.now.left (Q.reading self.now.left) (further_in Q.reading self.now.left)
            call statements cursor.old) }
    {
        cursor.word(Reserved::Or)?;
        let delay = self.opened_delay(cursor)?;
        let delay_statements = self.optional_statements(cursor)?;
        Ok(SelectForm::TimedEntryCall(TimedEntryCall {
            call,
            statements,
            delay,
            delay_statements,
        }))
    }

    /// A conditional entry call, behind the call and the statements that follow it (9.7.3).
    #[tactic(auto, unfolding(ada_grammar::specs::ReadingStatements::conditional_of))]
    fn conditional_entry_call(
        &self,
        cursor: &mut Cursor<'_>,
        call: Call,
        statements: Option<Q>,
    ) -> Result<SelectForm<Q>, OrMemory<Stuck>>
        requires reads { ReadsInside Q.reading (suc self.now.left) (F.pre self.now.read)
            (F.post self.now.read) }
        ensures { Reads result cursor.new
            (conditional_of self.now.left (Q.reading self.now.left)
            (further_in Q.reading self.now.left) call statements cursor.old) }
    {
        cursor.word(Reserved::Else)?;
        let otherwise = self.sequence(cursor, SequenceRole::Statements)?;
        Ok(SelectForm::ConditionalEntryCall(ConditionalEntryCall {
            call,
            statements,
            otherwise,
        }))
    }

    /// A select statement that begins with a call, behind the call and the statements that follow
    /// it.
    #[tactic(auto, unfolding(ada_grammar::specs::ReadingStatements::behind_call_of))]
    fn behind_call(
        &self,
        cursor: &mut Cursor<'_>,
        call: Call,
        statements: Option<Q>,
    ) -> Result<SelectForm<Q>, OrMemory<Stuck>>
        requires reads { ReadsInside Q.reading (suc self.now.left) (F.pre self.now.read)
            (F.post self.now.read) }
        ensures { Reads result cursor.new
            (behind_call_of self.now.left (Q.reading self.now.left)
            (further_in Q.reading self.now.left) call statements cursor.old) }
    {
        if cursor.is_word(Reserved::Or) {
            self.timed_entry_call(cursor, call, statements)
        } else if cursor.is_word(Reserved::Else) {
            self.conditional_entry_call(cursor, call, statements)
        } else {
            self.asynchronous_select(cursor, Trigger::Call(call), statements)
        }
    }

    /// A select statement that begins with a call.
    #[tactic(auto, unfolding(ada_grammar::specs::ReadingStatements::call_select_of))]
    fn call_select(&self, cursor: &mut Cursor<'_>) -> Result<SelectForm<Q>, OrMemory<Stuck>>
        requires reads { ReadsInside Q.reading (suc self.now.left) (F.pre self.now.read)
            (F.post self.now.read) }
        ensures { Reads result cursor.new
            (call_select_of self.now.left (Q.reading self.now.left)
            (further_in Q.reading self.now.left) cursor.old) }
    {
        let call = self.opened_call(cursor)?;
        let statements = self.optional_statements(cursor)?;
        self.behind_call(cursor, call, statements)
    }

    /// A select statement that begins with a delay.
    #[tactic(auto, unfolding(ada_grammar::specs::ReadingStatements::delay_select_of))]
    fn delay_select(&self, cursor: &mut Cursor<'_>) -> Result<SelectForm<Q>, OrMemory<Stuck>>
        requires reads { ReadsInside Q.reading (suc self.now.left) (F.pre self.now.read)
            (F.post self.now.read) }
        ensures { Reads result cursor.new
            (delay_select_of self.now.left (Q.reading self.now.left)
            (further_in Q.reading self.now.left) cursor.old) }
    {
        let delay = self.opened_delay(cursor)?;
        let statements = self.optional_statements(cursor)?;
        if cursor.is_word(Reserved::Then) {
            self.asynchronous_select(cursor, Trigger::Delay(delay), statements)
        } else {
            let first = SelectAlternative {
                guard: None,
                alternative: Alternative::Delay { delay, statements },
            };
            self.selective_accept(cursor, first)
        }
    }

    /// What stands between `select` and its `end`.
    #[tactic(auto, unfolding(ada_grammar::specs::ReadingStatements::select_form_of))]
    fn select_form(&self, cursor: &mut Cursor<'_>) -> Result<SelectForm<Q>, OrMemory<Stuck>>
        requires reads { ReadsInside Q.reading (suc self.now.left) (F.pre self.now.read)
            (F.post self.now.read) }
        ensures { Reads result cursor.new
            (select_form_of self.now.left (Q.reading self.now.left)
            (further_in Q.reading self.now.left) cursor.old) }
    {
        if cursor.is_identifier() {
            self.call_select(cursor)
        } else if cursor.is_word(Reserved::Delay) {
            self.delay_select(cursor)
        } else {
            let first = self.select_alternative(cursor)?;
            self.selective_accept(cursor, first)
        }
    }

    /// A select statement.
    #[tactic(auto, unfolding(ada_grammar::specs::ReadingStatements::select_of))]
    pub fn select(&self, cursor: &mut Cursor<'_>) -> Result<Statement<Q>, OrMemory<Stuck>>
        requires reads { ReadsInside Q.reading (suc self.now.left) (F.pre self.now.read)
            (F.post self.now.read) }
        ensures { Reads result cursor.new
            (select_of self.now.left (Q.reading self.now.left) (further_in Q.reading self.now.left)
            cursor.old) }
    {
        let place = cursor.word(Reserved::Select)?;
        let form = self.select_form(cursor)?;
        cursor.word(Reserved::End)?;
        cursor.word(Reserved::Select)?;
        cursor.delimiter(Delimiter::Semicolon)?;
        Ok(Statement::Select(SelectStatement { place, form }))
    }
}
