//! Statements without others in them, and their parts (ISO/IEC 8652:2012, clauses 5, 6, 9 and 11).
ghost use Rattle.std.specs.Prelude.{◌≡◌, IfSome, map};
ghost use Rattle.std.specs.Char.{to_ascii_lowercase};
ghost use Rattle.ada_grammar.specs.ReadingSimple.{abort_of, assignment_behind_of, call_behind_of};
ghost use Rattle.ada_grammar.specs.ReadingSimple.{call_of, choice_of, delay_of, exception_name_of};
ghost use Rattle.ada_grammar.specs.ReadingSimple.{exceptions_of, exit_of, for_of, index_of};
ghost use Rattle.ada_grammar.specs.ReadingSimple.{iteration_of, label_end_of, loop_name_of};
ghost use Rattle.ada_grammar.specs.ReadingSimple.{null_of, raise_of, requeue_of, result_value_of};
ghost use Rattle.ada_grammar.specs.ReadingSimple.{return_of, simple_of, value_choice_of, when_of};
ghost use Rattle.ada_grammar.specs.ReadingSimple.{while_of, with_abort_of};
ghost use Rattle.ada_grammar.specs.Reads.{Reads};

use ada_expressions::{arguments, bounds, expression, name, name_list};
use ada_grammar::{Cursor, Stuck};
use ada_lex::{Delimiter, Reserved};
use ada_tree::{
    Argument, Assignment, Call, Choice, Delay, Exit, Expression, HandledExceptions, Identifier,
    Iteration, Label, Name, Statement,
};
use ann_base::OrMemory;
use sqlite_items::Items;
use std::alloc::Global;

/// The index of an array's element: at most one, without a name (4.1.1).
fn index(
    cursor: &Cursor<'_>,
    mut arguments: Items<Argument<Expression>>,
) -> Result<Option<Expression>, OrMemory<Stuck>>
    ensures { Reads result cursor.now (index_of arguments cursor.now) }
{
    match arguments.pop() {
        None => Ok(None),
        Some(
            Argument {
                formal: None,
                value,
            },
        ) if arguments.is_empty() => Ok(Some(value)),
        Some(_) => Err(cursor.stuck()),
    }
}

/// `:= EXPRESSION;`, behind the target of an assignment (5.2)
#[tactic(auto, unfolding(ada_grammar::specs::ReadingSimple::assignment_behind_of))]
fn assignment_behind<Q>(
    alloc: Global,
    cursor: &mut Cursor<'_>,
    left: usize,
    target: Name,
    arguments: Items<Argument<Expression>>,
) -> Result<Statement<Q>, OrMemory<Stuck>>
    ensures { Reads result cursor.new (assignment_behind_of left target arguments cursor.old) }
{
    let index = index(cursor, arguments)?;
    cursor.delimiter(Delimiter::Becomes)?;
    let value = expression(alloc, cursor, left)?;
    cursor.delimiter(Delimiter::Semicolon)?;
    Ok(Statement::Assignment(Assignment {
        target,
        index,
        value,
    }))
}

/// `;`, behind the arguments of a call (6.4)
#[tactic(auto, unfolding(ada_grammar::specs::ReadingSimple::call_behind_of))]
fn call_behind<Q>(
    cursor: &mut Cursor<'_>,
    name: Name,
    arguments: Items<Argument<Expression>>,
) -> Result<Statement<Q>, OrMemory<Stuck>>
    ensures { Reads result cursor.new (call_behind_of name arguments cursor.old) }
{
    cursor.delimiter(Delimiter::Semicolon)?;
    Ok(Statement::Call(Call { name, arguments }))
}

/// An assignment, or a call of a procedure or an entry (5.2, 6.4, 9.5.3).
#[tactic(auto, unfolding(ada_grammar::specs::ReadingSimple::simple_of))]
pub fn simple_statement<Q>(
    alloc: Global,
    cursor: &mut Cursor<'_>,
    left: usize,
) -> Result<Statement<Q>, OrMemory<Stuck>>
    ensures { Reads result cursor.new (simple_of left cursor.old) }
{
    let name = name(alloc, cursor)?;
    let arguments = arguments(alloc, cursor, left)?;
    if cursor.is_delimiter(Delimiter::Becomes) {
        assignment_behind(alloc, cursor, left, name, arguments)
    } else {
        call_behind(cursor, name, arguments)
    }
}

/// `NAME [(ARGUMENT {, ARGUMENT})];` (6.4, 9.5.3)
#[tactic(auto, unfolding(ada_grammar::specs::ReadingSimple::call_of))]
pub fn call(alloc: Global, cursor: &mut Cursor<'_>, left: usize) -> Result<Call, OrMemory<Stuck>>
    ensures { Reads result cursor.new (call_of left cursor.old) }
{
    let name = name(alloc, cursor)?;
    let arguments = arguments(alloc, cursor, left)?;
    cursor.delimiter(Delimiter::Semicolon)?;
    Ok(Call { name, arguments })
}

/// `delay [until] EXPRESSION;` (9.6)
#[tactic(auto, unfolding(ada_grammar::specs::ReadingSimple::delay_of))]
pub fn delay(alloc: Global, cursor: &mut Cursor<'_>, left: usize) -> Result<Delay, OrMemory<Stuck>>
    ensures { Reads result cursor.new (delay_of left cursor.old) }
{
    let place = cursor.word(Reserved::Delay)?;
    let until = cursor.flag(Reserved::Until)?;
    let value = expression(alloc, cursor, left)?;
    cursor.delimiter(Delimiter::Semicolon)?;
    Ok(Delay {
        place,
        until,
        value,
    })
}

/// `EXPRESSION [.. EXPRESSION]` (3.8.1)
#[tactic(auto, unfolding(ada_grammar::specs::ReadingSimple::value_choice_of))]
fn value_choice(
    alloc: Global,
    cursor: &mut Cursor<'_>,
    left: usize,
) -> Result<Choice, OrMemory<Stuck>>
    ensures { Reads result cursor.new (value_choice_of left cursor.old) }
{
    let low = expression(alloc, cursor, left)?;
    if cursor.is_delimiter(Delimiter::Dots) {
        cursor.delimiter(Delimiter::Dots)?;
        let high = expression(alloc, cursor, left)?;
        Ok(Choice::Range { low, high })
    } else {
        Ok(Choice::Value(low))
    }
}

/// A discrete choice (3.8.1).
#[tactic(auto, unfolding(ada_grammar::specs::ReadingSimple::choice_of))]
pub fn choice(
    alloc: Global,
    cursor: &mut Cursor<'_>,
    left: usize,
) -> Result<Choice, OrMemory<Stuck>>
    ensures { Reads result cursor.new (choice_of left cursor.old) }
{
    if cursor.is_word(Reserved::Others) {
        let place = cursor.word(Reserved::Others)?;
        Ok(Choice::Others { place })
    } else {
        value_choice(alloc, cursor, left)
    }
}

/// `while EXPRESSION` (5.5)
#[tactic(auto, unfolding(ada_grammar::specs::ReadingSimple::while_of))]
fn while_iteration(
    alloc: Global,
    cursor: &mut Cursor<'_>,
    left: usize,
) -> Result<Iteration, OrMemory<Stuck>>
    ensures { Reads result cursor.new (while_of left cursor.old) }
{
    let place = cursor.word(Reserved::While)?;
    let condition = expression(alloc, cursor, left)?;
    Ok(Iteration::While { place, condition })
}

/// `for NAME in [reverse] LOW .. HIGH` (5.5)
#[tactic(auto, unfolding(ada_grammar::specs::ReadingSimple::for_of))]
fn for_iteration(
    alloc: Global,
    cursor: &mut Cursor<'_>,
    left: usize,
) -> Result<Iteration, OrMemory<Stuck>>
    ensures { Reads result cursor.new (for_of left cursor.old) }
{
    let place = cursor.word(Reserved::For)?;
    let parameter = cursor.identifier(alloc)?;
    cursor.word(Reserved::In)?;
    let reverse = cursor.flag(Reserved::Reverse)?;
    let (low, high) = bounds(alloc, cursor, left)?;
    Ok(Iteration::For {
        place,
        parameter,
        reverse,
        low,
        high,
    })
}

/// How a loop goes on (5.5).
#[tactic(auto, unfolding(ada_grammar::specs::ReadingSimple::iteration_of))]
pub fn iteration(
    alloc: Global,
    cursor: &mut Cursor<'_>,
    left: usize,
) -> Result<Iteration, OrMemory<Stuck>>
    ensures { Reads result cursor.new (iteration_of left cursor.old) }
{
    if cursor.is_word(Reserved::While) {
        while_iteration(alloc, cursor, left)
    } else if cursor.is_word(Reserved::For) {
        for_iteration(alloc, cursor, left)
    } else {
        Ok(Iteration::Forever)
    }
}

/// `[NAME]`, behind the `end` of a loop or a block that has this name (5.5, 5.6).
pub fn label_end(
    cursor: &mut Cursor<'_>,
    label: Option<Identifier>,
) -> Result<Option<Label>, OrMemory<Stuck>>
    requires lower { IfSome label (λ name. map to_ascii_lowercase name.text ≡ name.text) }
    ensures { Reads result cursor.new (label_end_of label cursor.old) }
{
    match label {
        None => Ok(None),
        Some(name) => {
            let named_at_end = cursor.end_name(name.text.as_slice())?;
            Ok(Some(Label { name, named_at_end }))
        }
    }
}

/// `[NAME]`, the loop that is left (5.7)
#[tactic(auto, unfolding(ada_grammar::specs::ReadingSimple::loop_name_of))]
fn loop_name(alloc: Global, cursor: &mut Cursor<'_>) -> Result<Option<Identifier>, OrMemory<Stuck>>
    ensures { Reads result cursor.new (loop_name_of cursor.old) }
{
    if cursor.is_identifier() {
        Ok(Some(cursor.identifier(alloc)?))
    } else {
        Ok(None)
    }
}

/// `[when EXPRESSION]` (5.7)
#[tactic(auto, unfolding(ada_grammar::specs::ReadingSimple::when_of))]
fn exit_condition(
    alloc: Global,
    cursor: &mut Cursor<'_>,
    left: usize,
) -> Result<Option<Expression>, OrMemory<Stuck>>
    ensures { Reads result cursor.new (when_of left cursor.old) }
{
    if cursor.is_word(Reserved::When) {
        cursor.word(Reserved::When)?;
        Ok(Some(expression(alloc, cursor, left)?))
    } else {
        Ok(None)
    }
}

/// `exit [NAME] [when EXPRESSION];` (5.7)
#[tactic(auto, unfolding(ada_grammar::specs::ReadingSimple::exit_of))]
pub fn exit_statement<Q>(
    alloc: Global,
    cursor: &mut Cursor<'_>,
    left: usize,
) -> Result<Statement<Q>, OrMemory<Stuck>>
    ensures { Reads result cursor.new (exit_of left cursor.old) }
{
    let place = cursor.word(Reserved::Exit)?;
    let loop_name = loop_name(alloc, cursor)?;
    let condition = exit_condition(alloc, cursor, left)?;
    cursor.delimiter(Delimiter::Semicolon)?;
    Ok(Statement::Exit(Exit {
        place,
        loop_name,
        condition,
    }))
}

/// `null;` (5.1)
#[tactic(auto, unfolding(ada_grammar::specs::ReadingSimple::null_of))]
pub fn null_statement<Q>(cursor: &mut Cursor<'_>) -> Result<Statement<Q>, OrMemory<Stuck>>
    ensures { Reads result cursor.new (null_of cursor.old) }
{
    let place = cursor.word(Reserved::Null)?;
    cursor.delimiter(Delimiter::Semicolon)?;
    Ok(Statement::Null { place })
}

/// `[EXPRESSION]`, a function's result (6.5)
#[tactic(auto, unfolding(ada_grammar::specs::ReadingSimple::result_value_of))]
fn result_value(
    alloc: Global,
    cursor: &mut Cursor<'_>,
    left: usize,
) -> Result<Option<Expression>, OrMemory<Stuck>>
    ensures { Reads result cursor.new (result_value_of left cursor.old) }
{
    if cursor.is_delimiter(Delimiter::Semicolon) {
        Ok(None)
    } else {
        Ok(Some(expression(alloc, cursor, left)?))
    }
}

/// `return [EXPRESSION];` (6.5)
#[tactic(auto, unfolding(ada_grammar::specs::ReadingSimple::return_of))]
pub fn return_statement<Q>(
    alloc: Global,
    cursor: &mut Cursor<'_>,
    left: usize,
) -> Result<Statement<Q>, OrMemory<Stuck>>
    ensures { Reads result cursor.new (return_of left cursor.old) }
{
    let place = cursor.word(Reserved::Return)?;
    let value = result_value(alloc, cursor, left)?;
    cursor.delimiter(Delimiter::Semicolon)?;
    Ok(Statement::Return { place, value })
}

/// `[NAME]`, the exception that is raised (11.3)
#[tactic(auto, unfolding(ada_grammar::specs::ReadingSimple::exception_name_of))]
fn exception_name(alloc: Global, cursor: &mut Cursor<'_>) -> Result<Option<Name>, OrMemory<Stuck>>
    ensures { Reads result cursor.new (exception_name_of cursor.old) }
{
    if cursor.is_identifier() {
        Ok(Some(name(alloc, cursor)?))
    } else {
        Ok(None)
    }
}

/// `raise [NAME];` (11.3)
#[tactic(auto, unfolding(ada_grammar::specs::ReadingSimple::raise_of))]
pub fn raise_statement<Q>(
    alloc: Global,
    cursor: &mut Cursor<'_>,
) -> Result<Statement<Q>, OrMemory<Stuck>>
    ensures { Reads result cursor.new (raise_of cursor.old) }
{
    let place = cursor.word(Reserved::Raise)?;
    let exception = exception_name(alloc, cursor)?;
    cursor.delimiter(Delimiter::Semicolon)?;
    Ok(Statement::Raise { place, exception })
}

/// `abort NAME {, NAME};` (9.8)
#[tactic(auto, unfolding(ada_grammar::specs::ReadingSimple::abort_of))]
pub fn abort_statement<Q>(
    alloc: Global,
    cursor: &mut Cursor<'_>,
) -> Result<Statement<Q>, OrMemory<Stuck>>
    ensures { Reads result cursor.new (abort_of cursor.old) }
{
    let place = cursor.word(Reserved::Abort)?;
    let tasks = name_list(alloc, cursor, Delimiter::Comma)?;
    cursor.delimiter(Delimiter::Semicolon)?;
    Ok(Statement::Abort { place, tasks })
}

/// `[with abort]` (9.5.4)
#[tactic(auto, unfolding(ada_grammar::specs::ReadingSimple::with_abort_of))]
fn with_abort(cursor: &mut Cursor<'_>) -> Result<bool, OrMemory<Stuck>>
    ensures { Reads result cursor.new (with_abort_of cursor.old) }
{
    if cursor.is_word(Reserved::With) {
        cursor.word(Reserved::With)?;
        cursor.word(Reserved::Abort)?;
        Ok(true)
    } else {
        Ok(false)
    }
}

/// `requeue NAME [with abort];` (9.5.4)
#[tactic(auto, unfolding(ada_grammar::specs::ReadingSimple::requeue_of))]
pub fn requeue_statement<Q>(
    alloc: Global,
    cursor: &mut Cursor<'_>,
) -> Result<Statement<Q>, OrMemory<Stuck>>
    ensures { Reads result cursor.new (requeue_of cursor.old) }
{
    let place = cursor.word(Reserved::Requeue)?;
    let entry = name(alloc, cursor)?;
    let with_abort = with_abort(cursor)?;
    cursor.delimiter(Delimiter::Semicolon)?;
    Ok(Statement::Requeue {
        place,
        entry,
        with_abort,
    })
}

/// What a handler handles (11.2).
#[tactic(auto, unfolding(ada_grammar::specs::ReadingSimple::exceptions_of))]
pub fn handled_exceptions(
    alloc: Global,
    cursor: &mut Cursor<'_>,
) -> Result<HandledExceptions, OrMemory<Stuck>>
    ensures { Reads result cursor.new (exceptions_of cursor.old) }
{
    if cursor.is_word(Reserved::Others) {
        let place = cursor.word(Reserved::Others)?;
        Ok(HandledExceptions::Others { place })
    } else {
        Ok(HandledExceptions::Named(name_list(alloc, cursor, Delimiter::Bar)?))
    }
}
