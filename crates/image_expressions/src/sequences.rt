//! Operators of one level are made, from left to right (ISO/IEC 8652:2012, 4.5).
ghost use Rattle.ada_image.specs.Made.{Made};
ghost use Rattle.ada_image.specs.ImageOfExpressions.{operands_made, addends_made, factors_made};
ghost use Rattle.ada_image.specs.ImageOfExpressions.{logical_made, relational_made};
ghost use Rattle.ada_image.specs.ImageOfExpressions.{adding_made, multiplying_made};

use crate::images::Imaged;
use crate::values::binary_put;
use ada_image::{Lists, Within};
use ada_tree::{Addend, LogicalOperator, Multiplied, OneOrMore, Operand, RelationalOperator};
use ann_base::NoMemory;
use image_layout::{adding_operator, logical_operator, multiplying_operator, relational_operator};
use profile_image::{BinaryOperator, ExprNo};

/// Relations behind the left operand.
#[tactic(auto, unfolding(ada_image::specs::ImageOfExpressions::operands_made))]
fn operands_made<E: Imaged>(
    lists: &mut Lists,
    operator: BinaryOperator,
    first: ExprNo,
    operands: &[Operand<E>],
    within: &Within<'_, '_>,
) -> Result<ExprNo, NoMemory>
    ensures { Made (operands_made E.image operator first operands.now within.now) lists.old
        lists.new result }
{
    let mut left = first;
    for operand in operands {
        left = binary_put(lists, operator, left, &operand.relation, within)?;
    }
    Ok(left)
}

/// Terms behind the left operand.
#[tactic(auto, unfolding(ada_image::specs::ImageOfExpressions::addends_made))]
fn addends_made<E: Imaged>(
    lists: &mut Lists,
    first: ExprNo,
    addends: &[Addend<E>],
    within: &Within<'_, '_>,
) -> Result<ExprNo, NoMemory>
    ensures { Made (addends_made E.image first addends.now within.now) lists.old lists.new result }
{
    let mut left = first;
    for addend in addends {
        let operator = adding_operator(addend.operator);
        left = binary_put(lists, operator, left, &addend.term, within)?;
    }
    Ok(left)
}

/// Factors behind the left operand.
#[tactic(auto, unfolding(ada_image::specs::ImageOfExpressions::factors_made))]
fn factors_made<E: Imaged>(
    lists: &mut Lists,
    first: ExprNo,
    factors: &[Multiplied<E>],
    within: &Within<'_, '_>,
) -> Result<ExprNo, NoMemory>
    ensures { Made (factors_made E.image first factors.now within.now) lists.old lists.new result }
{
    let mut left = first;
    for factor in factors {
        let operator = multiplying_operator(factor.operator);
        left = binary_put(lists, operator, left, &factor.factor, within)?;
    }
    Ok(left)
}

/// Relations with one logical operator between them (4.5.1).
#[tactic(auto, unfolding(ada_image::specs::ImageOfExpressions::logical_made, ada_image::specs::ImageOfExpressions::operands_made))]
pub(crate) fn logical_made<E: Imaged>(
    lists: &mut Lists,
    operator: LogicalOperator,
    first: &E,
    others: &OneOrMore<Operand<E>>,
    within: &Within<'_, '_>,
) -> Result<ExprNo, NoMemory>
    ensures { Made (logical_made E.image operator first.now others.now within.now) lists.old
        lists.new result }
{
    let operator = logical_operator(operator);
    let left = first.made(lists, within)?;
    let left = binary_put(lists, operator, left, &others.first.relation, within)?;
    operands_made(lists, operator, left, others.others.as_slice(), within)
}

/// Two sums that are compared (4.5.2).
#[tactic(auto, unfolding(ada_image::specs::ImageOfExpressions::relational_made))]
pub(crate) fn relational_made<E: Imaged>(
    lists: &mut Lists,
    first: &E,
    operator: RelationalOperator,
    second: &E,
    within: &Within<'_, '_>,
) -> Result<ExprNo, NoMemory>
    ensures { Made (relational_made E.image first.now operator second.now within.now) lists.old
        lists.new result }
{
    let left = first.made(lists, within)?;
    binary_put(lists, relational_operator(operator), left, second, within)
}

/// Terms that are added, subtracted or joined (4.5.3).
#[tactic(auto, unfolding(ada_image::specs::ImageOfExpressions::adding_made, ada_image::specs::ImageOfExpressions::addends_made))]
pub(crate) fn adding_made<E: Imaged>(
    lists: &mut Lists,
    first: &E,
    others: &OneOrMore<Addend<E>>,
    within: &Within<'_, '_>,
) -> Result<ExprNo, NoMemory>
    ensures { Made (adding_made E.image first.now others.now within.now) lists.old lists.new
        result }
{
    let left = first.made(lists, within)?;
    let operator = adding_operator(others.first.operator);
    let left = binary_put(lists, operator, left, &others.first.term, within)?;
    addends_made(lists, left, others.others.as_slice(), within)
}

/// Factors that are multiplied or divided (4.5.5).
#[tactic(auto, unfolding(ada_image::specs::ImageOfExpressions::multiplying_made, ada_image::specs::ImageOfExpressions::factors_made))]
pub(crate) fn multiplying_made<E: Imaged>(
    lists: &mut Lists,
    first: &E,
    others: &OneOrMore<Multiplied<E>>,
    within: &Within<'_, '_>,
) -> Result<ExprNo, NoMemory>
    ensures { Made (multiplying_made E.image first.now others.now within.now) lists.old lists.new
        result }
{
    let left = first.made(lists, within)?;
    let operator = multiplying_operator(others.first.operator);
    let left = binary_put(lists, operator, left, &others.first.factor, within)?;
    factors_made(lists, left, others.others.as_slice(), within)
}
