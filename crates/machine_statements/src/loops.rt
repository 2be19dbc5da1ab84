//! Loops and exits (ISO/IEC 8652:2012, 5.5, 5.7). A for loop keeps its parameter in a cell, and the
//! last value in the cell behind it.
ghost use Rattle.std.specs.Prelude.{◌≡◌, IfOk, OnOk};
ghost use Rattle.ann_base.specs.Answers.{Answers};
ghost use Rattle.machine_scopes.specs.Stored.{Stores};
ghost use Rattle.profile_image.specs.declared.values.Value.TheVariants.{Literal};
ghost use Rattle.profile_machine.specs.Statements.{while_turn, loop_cell, put, first_bound};
ghost use Rattle.profile_machine.specs.Statements.{last_bound, bounds_set, for_bounds};
ghost use Rattle.profile_machine.specs.Statements.{is_past, first_turn, stepped, advance};
ghost use Rattle.profile_machine.specs.Statements.{later_turn, exit_where, exit_statement};
ghost use Rattle.profile_machine.specs.Values.{seen_by};
ghost use Rattle.machine_frames.specs.Did.{Did};
ghost use Rattle.machine_statements.specs.Parts.{finds_empty, is_at_last};

use crate::choices::branch;
use ann_base::{NoMemory, OrMemory, Raised};
use machine_frames::{Effect, exit_loop, goes, refused};
use machine_operators::{is_less, same_value};
use machine_program::{Program, declaration_of, next_of};
use machine_scopes::write_cell;
use machine_values::{Seen, condition, home_of, or_raised, read, seen_by, value};
use profile_image::{DeclNo, ExprNo, StatementNo, Value};
use profile_machine::world::{Variable, World};
use trace_text::Who;

/// A turn of a while loop: into the body, or past the loop.
#[tactic(auto, unfolding(profile_machine::specs::Statements::while_turn))]
pub fn while_turn(
    p: &Program,
    effect: &mut Effect,
    name: Who,
    s: StatementNo,
    e: ExprNo,
    body: StatementNo,
) -> Result<(), NoMemory>
    ensures { OnOk result (Did (while_turn p.now name s e body) effect.old effect.new) }
{
    match condition(&seen_by(p, &effect.world, name), e) {
        Ok(holds) => {
            goes(effect, name, branch(holds, body, next_of(p, s)));
            Ok(())
        }
        Err(answer) => refused(effect, name, answer),
    }
}

// The cell of a loop's parameter, or so many cells behind it.
fn loop_cell(q: &Seen<'_>, d: DeclNo, by: u32) -> Result<Variable, OrMemory<Raised>>
    ensures { Answers result (loop_cell q.now d by) }
{
    let id = or_raised(home_of(q, d))?;
    let place = declaration_of(q.program, d)
        .place
        .checked_add(by)
        .ok_or(OrMemory::Memory)?;
    Ok(Variable {
        within: id,
        place,
        declared: d,
    })
}

fn put(world: &mut World, v: Variable, value: Value)
    ensures { world.new ≡ put v value world.old }
{
    write_cell(world, v.within, v.place, value);
}

fn first_bound(reverse: bool, low: Value, high: Value) -> Value
    ensures { result ≡ first_bound reverse low high }
{
    if reverse { high } else { low }
}

fn last_bound(reverse: bool, low: Value, high: Value) -> Value
    ensures { result ≡ last_bound reverse low high }
{
    if reverse { low } else { high }
}

fn bounds_set(
    p: &Program,
    name: Who,
    d: DeclNo,
    reverse: bool,
    low: ExprNo,
    high: ExprNo,
    world: &mut World,
) -> Result<(), OrMemory<Raised>>
    ensures { Stores result (bounds_set (seen_by p.now world.old name) d reverse low high)
        world.old world.new }
{
    let q = seen_by(p, world, name);
    let low = value(&q, low)?;
    let high = value(&q, high)?;
    let parameter = loop_cell(&q, d, 0)?;
    let last = loop_cell(&q, d, 1)?;
    put(world, parameter, first_bound(reverse, low, high));
    put(world, last, last_bound(reverse, low, high));
    Ok(())
}

/// A for loop at its bounds.
#[tactic(auto, unfolding(profile_machine::specs::Statements::for_bounds))]
pub fn for_bounds(
    p: &Program,
    effect: &mut Effect,
    name: Who,
    d: DeclNo,
    reverse: bool,
    low: ExprNo,
    high: ExprNo,
    turn: StatementNo,
) -> Result<(), NoMemory>
    ensures { OnOk result
        (Did (for_bounds p.now name d reverse low high turn) effect.old effect.new) }
{
    match bounds_set(p, name, d, reverse, low, high, &mut effect.world) {
        Ok(()) => {
            goes(effect, name, Some(turn));
            Ok(())
        }
        Err(answer) => refused(effect, name, answer),
    }
}

fn is_past(reverse: bool, x: Value, last: Value) -> Result<bool, Raised>
    ensures { result ≡ is_past reverse x last }
{
    if reverse {
        is_less(x, last)
    } else {
        is_less(last, x)
    }
}

fn finds_empty(q: &Seen<'_>, d: DeclNo, reverse: bool) -> Result<bool, OrMemory<Raised>>
    ensures { Answers result (finds_empty q.now d reverse) }
{
    let parameter = loop_cell(q, d, 0)?;
    let last = loop_cell(q, d, 1)?;
    or_raised(is_past(reverse, read(q.world, parameter), read(q.world, last)))
}

/// The first turn of a for loop: past the loop where the range is empty.
#[tactic(auto, unfolding(profile_machine::specs::Statements::first_turn))]
pub fn first_turn(
    p: &Program,
    effect: &mut Effect,
    name: Who,
    s: StatementNo,
    d: DeclNo,
    reverse: bool,
    body: StatementNo,
) -> Result<(), NoMemory>
    ensures { OnOk result (Did (first_turn p.now name s d reverse body) effect.old effect.new) }
{
    match finds_empty(&seen_by(p, &effect.world, name), d, reverse) {
        Ok(past) => {
            goes(effect, name, branch(!past, body, next_of(p, s)));
            Ok(())
        }
        Err(answer) => refused(effect, name, answer),
    }
}

// The next value in the direction of the loop. Behind the ends of its type there is none, and no
// loop steps there.
fn stepped(reverse: bool, value: Value) -> Result<Value, NoMemory>
    ensures { IfOk result (λ next. next ≡ stepped reverse value) }
{
    match value {
        Value::Whole(n) => {
            let next = n.checked_add(if reverse { -1 } else { 1 }).ok_or(NoMemory)?;
            Ok(Value::Whole(next))
        }
        Value::Truth(b) => Ok(Value::Truth(!b)),
        Value::Literal(n) => stepped_literal(reverse, n),
        Value::Ticks(_) | Value::Task(_) | Value::Thing(_) => Ok(value),
    }
}

fn stepped_literal(reverse: bool, n: u32) -> Result<Value, NoMemory>
    ensures { IfOk result (λ next. next ≡ stepped reverse (Literal n)) }
{
    if reverse {
        Ok(Value::Literal(n.saturating_sub(1)))
    } else {
        let next = n.checked_add(1).ok_or(NoMemory)?;
        Ok(Value::Literal(next))
    }
}

#[tactic(auto, unfolding(profile_machine::specs::Statements::advance))]
fn advance(
    effect: &mut Effect,
    name: Who,
    x: Variable,
    reverse: bool,
    value: Value,
    body: StatementNo,
    past: Option<StatementNo>,
    is_last: bool,
) -> Result<(), NoMemory>
    ensures { OnOk result
        (Did (advance name x reverse value body past is_last) effect.old effect.new) }
{
    if is_last {
        goes(effect, name, past);
    } else {
        put(&mut effect.world, x, stepped(reverse, value)?);
        goes(effect, name, Some(body));
    }
    Ok(())
}

fn is_at_last(q: &Seen<'_>, d: DeclNo, x: Variable) -> Result<bool, OrMemory<Raised>>
    ensures { Answers result (is_at_last q.now d x) }
{
    let last = loop_cell(q, d, 1)?;
    or_raised(same_value(read(q.world, x), read(q.world, last)))
}

/// A later turn of a for loop: past the loop at the last value, else on to the next one.
#[tactic(auto, unfolding(profile_machine::specs::Statements::later_turn))]
pub fn later_turn(
    p: &Program,
    effect: &mut Effect,
    name: Who,
    s: StatementNo,
    d: DeclNo,
    reverse: bool,
    body: StatementNo,
) -> Result<(), NoMemory>
    ensures { OnOk result (Did (later_turn p.now name s d reverse body) effect.old effect.new) }
{
    let q = seen_by(p, &effect.world, name);
    match loop_cell(&q, d, 0) {
        Ok(x) => {
            let value = read(q.world, x);
            match is_at_last(&q, d, x) {
                Ok(is_last) => advance(
                    effect,
                    name,
                    x,
                    reverse,
                    value,
                    body,
                    next_of(p, s),
                    is_last,
                ),
                Err(answer) => refused(effect, name, answer),
            }
        }
        Err(answer) => refused(effect, name, answer),
    }
}

#[tactic(auto, unfolding(profile_machine::specs::Statements::exit_where))]
fn exit_where(
    p: &Program,
    effect: &mut Effect,
    name: Who,
    s: StatementNo,
    of_loop: StatementNo,
    holds: bool,
)
    ensures { Did (exit_where p.now name s of_loop holds) effect.old effect.new }
{
    if holds {
        exit_loop(p, effect, name, of_loop);
    } else {
        goes(effect, name, next_of(p, s));
    }
}

/// An exit of the loop with this statement.
#[tactic(auto, unfolding(profile_machine::specs::Statements::exit_statement))]
pub fn exit_statement(
    p: &Program,
    effect: &mut Effect,
    name: Who,
    s: StatementNo,
    of_loop: StatementNo,
    e: Option<ExprNo>,
) -> Result<(), NoMemory>
    ensures { OnOk result (Did (exit_statement p.now name s of_loop e) effect.old effect.new) }
{
    let Some(e) = e else {
        exit_loop(p, effect, name, of_loop);
        return Ok(());
    };
    match condition(&seen_by(p, &effect.world, name), e) {
        Ok(holds) => {
            exit_where(p, effect, name, s, of_loop, holds);
            Ok(())
        }
        Err(answer) => refused(effect, name, answer),
    }
}
