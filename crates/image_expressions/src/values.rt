//! Operators with one operand or two (ISO/IEC 8652:2012, 4.5).
ghost use Rattle.ada_tree.specs.declared.operators.Sign.TheVariants as sign;
ghost use Rattle.ada_image.specs.Made.{Made};
ghost use Rattle.ada_image.specs.ImageOfExpressions.{unary_made, binary_put, signed_made};

use crate::images::Imaged;
use crate::literals::negative_value;
use ada_image::{Lists, Within};
use ada_tree::Sign;
use ann_base::NoMemory;
use image_layout::value_put;
use image_names::known;
use profile_image::{BinaryOperator, ExprNo, Expression, UnaryOperator};

/// An operator before its operand.
#[tactic(auto, unfolding(ada_image::specs::ImageOfExpressions::unary_made))]
pub(crate) fn unary_made<E: Imaged>(
    lists: &mut Lists,
    operator: UnaryOperator,
    operand: &E,
    within: &Within<'_, '_>,
) -> Result<ExprNo, NoMemory>
    ensures { Made (unary_made operator ((E.image operand.now).made within.now)) lists.old lists.new
        result }
{
    let operand = operand.made(lists, within)?;
    value_put(lists, Expression::Unary { operator, operand })
}

/// An operator between its left operand, which is made, and its right one.
#[tactic(auto, unfolding(ada_image::specs::ImageOfExpressions::binary_put))]
pub(crate) fn binary_put<E: Imaged>(
    lists: &mut Lists,
    operator: BinaryOperator,
    left: ExprNo,
    right: &E,
    within: &Within<'_, '_>,
) -> Result<ExprNo, NoMemory>
    ensures { Made (binary_put operator left ((E.image right.now).made within.now)) lists.old
        lists.new result }
{
    let right = right.made(lists, within)?;
    value_put(
        lists,
        Expression::Binary {
            operator,
            left,
            right,
        },
    )
}

/// An operand behind a minus; a literal behind it is one value.
#[tactic(auto, unfolding(ada_image::specs::ImageOfExpressions::signed_made))]
fn minus_made<E: Imaged>(
    lists: &mut Lists,
    operand: &E,
    within: &Within<'_, '_>,
) -> Result<ExprNo, NoMemory>
    ensures { Made
        (signed_made sign.Minus (E.image operand.now).literal
        ((E.image operand.now).made within.now)) lists.old lists.new result }
{
    match operand.literal() {
        None => unary_made(lists, UnaryOperator::Minus, operand, within),
        Some(literal) => {
            let value = negative_value(literal)?;
            known(lists, value)
        }
    }
}

/// An operand behind a sign (4.5.4).
#[tactic(auto, unfolding(ada_image::specs::ImageOfExpressions::signed_made))]
pub(crate) fn signed_made<E: Imaged>(
    lists: &mut Lists,
    sign: Sign,
    operand: &E,
    within: &Within<'_, '_>,
) -> Result<ExprNo, NoMemory>
    ensures { Made
        (signed_made sign (E.image operand.now).literal ((E.image operand.now).made within.now))
        lists.old lists.new result }
{
    match sign {
        Sign::Plus => unary_made(lists, UnaryOperator::Plus, operand, within),
        Sign::Minus => minus_made(lists, operand, within),
    }
}
