//! Subtype indications and parameters (ISO/IEC 8652:2012, 3.2.2, 6.1).
ghost use Rattle.std.specs.Prelude.{◌≡◌, ◌∷◌, IfOk};
ghost use Rattle.ada_grammar.specs.ReadingSimple.{access_of, bounds_of, constraint_of};
ghost use Rattle.ada_grammar.specs.ReadingSimple.{given_parameters_of, parameter_of};
ghost use Rattle.ada_grammar.specs.ReadingSimple.{parameters_of, range_of, subtype_indication_of};
ghost use Rattle.ada_grammar.specs.Reading.{below};
ghost use Rattle.ada_grammar.specs.Reads.{Reads};

use crate::{expression, identifiers, items_behind, name};
use ada_grammar::{Cursor, Stuck};
use ada_lex::{Delimiter, Reserved};
use ada_tree::{Constraint, Expression, Parameter, SubtypeIndication};
use ann_base::OrMemory;
use sqlite_items::Items;
use std::alloc::{AllocError, Global};

/// The levels that are left behind an opening bracket.
pub fn below(left: usize) -> usize
    ensures { result ≡ below left }
{
    left.saturating_sub(1)
}

/// These items, this one before them.
pub fn first_before<T: Drop>(
    alloc: Global,
    first: T,
    others: Items<T>,
) -> Result<Items<T>, AllocError>
    ensures { IfOk result (λ items. items ≡ first ∷ others) }
{
    let mut items = Items::new(alloc);
    items.push(first)?;
    items.append(others)?;
    Ok(items)
}

/// `(NAME'Access)`, the discriminant of a timer (D.14.1)
#[tactic(auto, unfolding(ada_grammar::specs::ReadingSimple::access_of))]
fn access(
    alloc: Global,
    cursor: &mut Cursor<'_>,
    left: usize,
) -> Result<Option<Constraint>, OrMemory<Stuck>>
    ensures { Reads result cursor.new (access_of left cursor.old) }
{
    cursor.open(left)?;
    let name = name(alloc, cursor)?;
    cursor.delimiter(Delimiter::Apostrophe)?;
    cursor.word(Reserved::Access)?;
    cursor.delimiter(Delimiter::CloseBracket)?;
    Ok(Some(Constraint::Access(name)))
}

/// `LOW .. HIGH` (3.5)
#[tactic(auto, unfolding(ada_grammar::specs::ReadingSimple::bounds_of))]
pub fn bounds(
    alloc: Global,
    cursor: &mut Cursor<'_>,
    left: usize,
) -> Result<(Expression, Expression), OrMemory<Stuck>>
    ensures { Reads result cursor.new (bounds_of left cursor.old) }
{
    let low = expression(alloc, cursor, left)?;
    cursor.delimiter(Delimiter::Dots)?;
    let high = expression(alloc, cursor, left)?;
    Ok((low, high))
}

/// `range LOW .. HIGH` (3.5)
#[tactic(auto, unfolding(ada_grammar::specs::ReadingSimple::range_of))]
fn range(
    alloc: Global,
    cursor: &mut Cursor<'_>,
    left: usize,
) -> Result<Option<Constraint>, OrMemory<Stuck>>
    ensures { Reads result cursor.new (range_of left cursor.old) }
{
    cursor.word(Reserved::Range)?;
    let (low, high) = bounds(alloc, cursor, left)?;
    Ok(Some(Constraint::Range { low, high }))
}

/// `[(NAME'Access) | range LOW .. HIGH]` (3.2.2)
#[tactic(auto, unfolding(ada_grammar::specs::ReadingSimple::constraint_of))]
fn constraint(
    alloc: Global,
    cursor: &mut Cursor<'_>,
    left: usize,
) -> Result<Option<Constraint>, OrMemory<Stuck>>
    ensures { Reads result cursor.new (constraint_of left cursor.old) }
{
    if cursor.is_delimiter(Delimiter::OpenBracket) {
        access(alloc, cursor, left)
    } else if cursor.is_word(Reserved::Range) {
        range(alloc, cursor, left)
    } else {
        Ok(None)
    }
}

/// A subtype indication: a subtype mark and what restricts it (3.2.2, 3.6.1).
#[tactic(auto, unfolding(ada_grammar::specs::ReadingSimple::subtype_indication_of))]
pub fn subtype_indication(
    alloc: Global,
    cursor: &mut Cursor<'_>,
    left: usize,
) -> Result<SubtypeIndication, OrMemory<Stuck>>
    ensures { Reads result cursor.new (subtype_indication_of left cursor.old) }
{
    let name = name(alloc, cursor)?;
    let constraint = constraint(alloc, cursor, left)?;
    Ok(SubtypeIndication { name, constraint })
}

/// `NAME {, NAME} : [in] [out] SUBTYPE` (6.1)
#[tactic(auto, unfolding(ada_grammar::specs::ReadingSimple::parameter_of))]
fn parameter(
    alloc: Global,
    cursor: &mut Cursor<'_>,
    left: usize,
) -> Result<Parameter, OrMemory<Stuck>>
    ensures { Reads result cursor.new (parameter_of left cursor.old) }
{
    let names = identifiers(alloc, cursor)?;
    cursor.delimiter(Delimiter::Colon)?;
    let is_in = cursor.flag(Reserved::In)?;
    let is_out = cursor.flag(Reserved::Out)?;
    let subtype = subtype_indication(alloc, cursor, left)?;
    Ok(Parameter {
        names,
        is_in,
        is_out,
        subtype,
    })
}

/// `(PARAMETER {; PARAMETER})` (6.1)
#[tactic(auto, unfolding(ada_grammar::specs::ReadingSimple::given_parameters_of))]
fn given_parameters(
    alloc: Global,
    cursor: &mut Cursor<'_>,
    left: usize,
) -> Result<Items<Parameter>, OrMemory<Stuck>>
    ensures { Reads result cursor.new (given_parameters_of left cursor.old) }
{
    cursor.open(left)?;
    let first = parameter(alloc, cursor, below(left))?;
    let others = items_behind(alloc, cursor, Delimiter::Semicolon, |cursor| {
        parameter(alloc, cursor, below(left))
    })?;
    cursor.delimiter(Delimiter::CloseBracket)?;
    Ok(first_before(alloc, first, others)?)
}

/// `[(PARAMETER {; PARAMETER})]`, empty where no bracket stands (6.1).
#[tactic(auto, unfolding(ada_grammar::specs::ReadingSimple::parameters_of))]
pub fn parameters(
    alloc: Global,
    cursor: &mut Cursor<'_>,
    left: usize,
) -> Result<Items<Parameter>, OrMemory<Stuck>>
    ensures { Reads result cursor.new (parameters_of left cursor.old) }
{
    if cursor.is_delimiter(Delimiter::OpenBracket) {
        given_parameters(alloc, cursor, left)
    } else {
        Ok(Items::new(alloc))
    }
}
