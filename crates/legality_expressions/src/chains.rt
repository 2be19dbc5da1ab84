//! Operators of one level are judged, from left to right (ISO/IEC 8652:2012, 4.5).
ghost use Rattle.ada_legality.specs.Findings.{Reads};
ghost use Rattle.ada_legality.specs.ReadExpressions.{operands_read, addends_read, factors_read};
ghost use Rattle.ada_legality.specs.ReadExpressions.{logical_expression, relational_expression};
ghost use Rattle.ada_legality.specs.ReadExpressions.{adding_expression, multiplying_expression};

use crate::readable::{Readable, operand_read};
use ada_legality::{Finding, Known, Read};
use ada_tree::{Addend, LogicalOperator, Multiplied, OneOrMore, Operand, RelationalOperator};
use ann_base::{NoMemory, Place};
use image_layout::{logical_operator, multiplying_operator, relational_operator};
use legality_reads::{
    compared_read, first_relation, first_term, operation_judged, plain_read, sum_judged,
    with_factor, with_relation, with_term,
};
use std::alloc::Global;
use world_tables::List;

/// Relations behind the left operand.
#[tactic(auto, unfolding(ada_legality::specs::ReadExpressions::operands_read))]
fn operands_read<E: Readable>(
    alloc: Global,
    found: &mut List<Finding>,
    known: &Known<'_, '_>,
    operator: LogicalOperator,
    first: Read,
    operands: &[Operand<E>],
) -> Result<Read, NoMemory>
    ensures { Reads (operands_read E.reading operator first operands.now known.now) found.old
        found.new result }
{
    let mut left = first;
    for operand in operands {
        let right = operand_read(alloc, found, known, &operand.relation)?;
        operation_judged(
            found,
            operand.place,
            logical_operator(operator),
            left.typed,
            right.typed,
        )?;
        left = with_relation(operator, left, right);
    }
    Ok(left)
}

/// Terms behind the left operand.
#[tactic(auto, unfolding(ada_legality::specs::ReadExpressions::addends_read))]
fn addends_read<E: Readable>(
    alloc: Global,
    found: &mut List<Finding>,
    known: &Known<'_, '_>,
    first: Read,
    addends: &[Addend<E>],
) -> Result<Read, NoMemory>
    ensures { Reads (addends_read E.reading first addends.now known.now) found.old found.new
        result }
{
    let mut left = first;
    for addend in addends {
        let right = operand_read(alloc, found, known, &addend.term)?;
        sum_judged(
            found,
            addend.place,
            addend.operator,
            left.typed,
            right.typed,
        )?;
        left = with_term(addend.operator, left, right);
    }
    Ok(left)
}

/// Factors behind the left operand.
#[tactic(auto, unfolding(ada_legality::specs::ReadExpressions::factors_read))]
fn factors_read<E: Readable>(
    alloc: Global,
    found: &mut List<Finding>,
    known: &Known<'_, '_>,
    first: Read,
    factors: &[Multiplied<E>],
) -> Result<Read, NoMemory>
    ensures { Reads (factors_read E.reading first factors.now known.now) found.old found.new
        result }
{
    let mut left = first;
    for factor in factors {
        let right = operand_read(alloc, found, known, &factor.factor)?;
        operation_judged(
            found,
            factor.place,
            multiplying_operator(factor.operator),
            left.typed,
            right.typed,
        )?;
        left = with_factor(factor.operator, left, right);
    }
    Ok(left)
}

/// Relations with a logical operator between them (4.5.1).
#[tactic(auto, unfolding(ada_legality::specs::ReadExpressions::logical_expression, ada_legality::specs::ReadExpressions::operands_read))]
pub(crate) fn logical_expression<E: Readable>(
    alloc: Global,
    found: &mut List<Finding>,
    known: &Known<'_, '_>,
    operator: LogicalOperator,
    first: &E,
    others: &OneOrMore<Operand<E>>,
) -> Result<Read, NoMemory>
    ensures { Reads (logical_expression E.reading operator first.now others.now known.now) found.old
        found.new result }
{
    let left = first_relation(operator, operand_read(alloc, found, known, first)?);
    let right = operand_read(alloc, found, known, &others.first.relation)?;
    operation_judged(
        found,
        others.first.place,
        logical_operator(operator),
        left.typed,
        right.typed,
    )?;
    let left = with_relation(operator, left, right);
    operands_read(
        alloc,
        found,
        known,
        operator,
        left,
        others.others.as_slice(),
    )
}

/// Two sums that are compared (4.5.2).
#[tactic(auto, unfolding(ada_legality::specs::ReadExpressions::relational_expression))]
pub(crate) fn relational_expression<E: Readable>(
    alloc: Global,
    found: &mut List<Finding>,
    known: &Known<'_, '_>,
    first: &E,
    place: Place,
    operator: RelationalOperator,
    second: &E,
) -> Result<Read, NoMemory>
    ensures { Reads (relational_expression E.reading first.now place operator second.now known.now)
        found.old found.new result }
{
    let left = operand_read(alloc, found, known, first)?;
    let right = operand_read(alloc, found, known, second)?;
    operation_judged(
        found,
        place,
        relational_operator(operator),
        left.typed,
        right.typed,
    )?;
    Ok(compared_read(operator, left, right))
}

/// Terms with adding operators between them (4.5.3).
#[tactic(auto, unfolding(ada_legality::specs::ReadExpressions::adding_expression, ada_legality::specs::ReadExpressions::addends_read))]
pub(crate) fn adding_expression<E: Readable>(
    alloc: Global,
    found: &mut List<Finding>,
    known: &Known<'_, '_>,
    first: &E,
    others: &OneOrMore<Addend<E>>,
) -> Result<Read, NoMemory>
    ensures { Reads (adding_expression E.reading first.now others.now known.now) found.old found.new
        result }
{
    let left = first_term(operand_read(alloc, found, known, first)?);
    let operator = others.first.operator;
    let right = operand_read(alloc, found, known, &others.first.term)?;
    sum_judged(found, others.first.place, operator, left.typed, right.typed)?;
    let left = with_term(operator, left, right);
    addends_read(alloc, found, known, left, others.others.as_slice())
}

/// Factors with multiplying operators between them (4.5.5).
#[tactic(auto, unfolding(ada_legality::specs::ReadExpressions::multiplying_expression, ada_legality::specs::ReadExpressions::factors_read))]
pub(crate) fn multiplying_expression<E: Readable>(
    alloc: Global,
    found: &mut List<Finding>,
    known: &Known<'_, '_>,
    first: &E,
    others: &OneOrMore<Multiplied<E>>,
) -> Result<Read, NoMemory>
    ensures { Reads (multiplying_expression E.reading first.now others.now known.now) found.old
        found.new result }
{
    let read = operand_read(alloc, found, known, first)?;
    let left = plain_read(read.place, read.typed);
    let operator = others.first.operator;
    let right = operand_read(alloc, found, known, &others.first.factor)?;
    operation_judged(
        found,
        others.first.place,
        multiplying_operator(operator),
        left.typed,
        right.typed,
    )?;
    let left = with_factor(operator, left, right);
    factors_read(alloc, found, known, left, others.others.as_slice())
}
