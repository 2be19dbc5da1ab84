//! The signs in the forms of expressions (ISO/IEC 8652:2012, 4.4, 4.5). A minus before a literal is
//! part of its value.
ghost use Rattle.std.specs.Prelude.{◌≡◌, IfOk};
ghost use Rattle.ada_image.specs.ImageOfExpressions.{signs_in, signs_if};

use crate::counted::Counted;
use crate::sums::{
    one_and_both, one_more, sign_counts, signs_in_addends, signs_in_factors, signs_in_named,
    signs_in_operands,
};
use ada_image::Within;
use ada_regions::Names;
use ada_tree::{Expression, ExpressionForm};
use ann_base::NoMemory;
use image_layout::added;

impl<E: Counted> Counted for ExpressionForm<E> {
    ghost use Rattle.ada_image.specs.ImageOfExpressions.{form_image};

    ghost image = { form_image E.image };

    #[tactic(auto, unfolding(ada_image::specs::ImageOfExpressions::signs_in_operands, ada_image::specs::ImageOfExpressions::signs_in_addends, ada_image::specs::ImageOfExpressions::signs_in_factors))]
    fn signs(&self, names: &Names<'_>) -> Result<u32, NoMemory> {
        match self {
            ExpressionForm::Logical { first, others, .. } => {
                let first = first.signs(names)?;
                let signs = one_and_both(first, others.first.relation.signs(names)?)?;
                signs_in_operands(signs, others.others.as_slice(), names)
            }
            ExpressionForm::Relational { left, right, .. } => {
                one_and_both(left.signs(names)?, right.signs(names)?)
            }
            ExpressionForm::Adding { first, others } => {
                let first = first.signs(names)?;
                let signs = one_and_both(first, others.first.term.signs(names)?)?;
                signs_in_addends(signs, others.others.as_slice(), names)
            }
            ExpressionForm::Signed { sign, operand, .. } => {
                added(sign_counts(*sign, operand.literal()), operand.signs(names)?)
            }
            ExpressionForm::Multiplying { first, others } => {
                let first = first.signs(names)?;
                let signs = one_and_both(first, others.first.factor.signs(names)?)?;
                signs_in_factors(signs, others.others.as_slice(), names)
            }
            ExpressionForm::Highest { operand, .. } => one_more(operand.signs(names)?),
            ExpressionForm::Number { .. } => Ok(0),
            ExpressionForm::Text { .. } => Ok(0),
            ExpressionForm::Null { .. } => Ok(0),
            ExpressionForm::Bracketed { inner, .. } => inner.signs(names),
            ExpressionForm::Named {
                name,
                attribute,
                arguments,
            } => signs_in_named(name, attribute, arguments.as_slice(), names),
        }
    }

    fn literal(&self) -> Option<&[u8]> {
        match self {
            ExpressionForm::Number { literal, .. } => Some(literal.as_slice()),
            _ => None,
        }
    }
}

impl Counted for Expression {
    ghost use Rattle.ada_image.specs.ImageOfExpressions.{expression_image};

    ghost image = { expression_image };

    #[cycle(expression)]
    #[tactic(auto, using(ada_image::proofs::ExpressionFolds::expression_counts))]
    fn signs(&self, names: &Names<'_>) -> Result<u32, NoMemory> {
        self.form.get().signs(names)
    }

    #[cycle(expression)]
    #[tactic(auto, using(ada_image::proofs::ExpressionFolds::expression_has_literal))]
    fn literal(&self) -> Option<&[u8]> {
        self.form.get().literal()
    }
}

/// The number of the operator signs and calls of predefined functions in an expression.
#[tactic(auto, unfolding(ada_image::specs::ImageOfExpressions::signs_in))]
pub fn signs_in(within: &Within<'_, '_>, expression: &Expression) -> Result<u32, NoMemory>
    ensures { IfOk result (λ n. n ≡ signs_in within.now expression.now) }
{
    expression.signs(within.names.get())
}

/// The same where the expression may be missing.
#[tactic(auto, unfolding(ada_image::specs::ImageOfExpressions::signs_if))]
pub fn signs_if(within: &Within<'_, '_>, expression: &Option<Expression>) -> Result<u32, NoMemory>
    ensures { IfOk result (λ n. n ≡ signs_if within.now expression.now) }
{
    match expression {
        None => Ok(0),
        Some(expression) => signs_in(within, expression),
    }
}
