//! The number of the operator signs and calls of predefined functions in expressions (this
//! profile's costs). One of more than 32 bits is answered as want of memory.
ghost use Rattle.std.specs.Prelude.{◌≡◌, ◌+◌, suc, IfOk, option_copied, option_map};
ghost use Rattle.ada_regions.specs.Names.{denoted_by};
ghost use Rattle.ada_regions.specs.Statics.{literal_value};
ghost use Rattle.ada_image.specs.ImageOfExpressions.{sign_counts, call_counts};
ghost use Rattle.ada_image.specs.ImageOfExpressions.{signs_in_arguments, signs_in_operands};
ghost use Rattle.ada_image.specs.ImageOfExpressions.{signs_in_addends, signs_in_factors};

use crate::counted::Counted;
use ada_entities::denoted_by;
use ada_regions::Names;
use ada_tree::{Addend, Argument, AttributeDesignator, Multiplied, Name, Operand, Sign};
use ann_base::NoMemory;
use image_layout::added;
use image_names::called_counts;

/// One more than two numbers of signs together.
pub(crate) fn one_and_both(first: u32, second: u32) -> Result<u32, NoMemory>
    ensures { IfOk result (λ n. n ≡ suc (first + second)) }
{
    added(added(first, second)?, 1)
}

/// One more sign.
pub(crate) fn one_more(signs: u32) -> Result<u32, NoMemory>
    ensures { IfOk result (λ n. n ≡ suc signs) }
{
    added(signs, 1)
}

/// What a sign counts before what is a numeric literal or not (4.5.4): a minus is part of a
/// literal's value.
pub(crate) fn sign_counts(sign: Sign, literal: Option<&[u8]>) -> u32
    ensures { result ≡ sign_counts sign (option_map literal_value (option_copied literal.entry)) }
{
    match sign {
        Sign::Plus => 1,
        Sign::Minus => match literal {
            None => 1,
            Some(_) => 0,
        },
    }
}

/// Those of arguments.
#[tactic(auto, unfolding(ada_image::specs::ImageOfExpressions::signs_in_arguments))]
pub(crate) fn signs_in_arguments<E: Counted>(
    arguments: &[Argument<E>],
    names: &Names<'_>,
) -> Result<u32, NoMemory>
    ensures { IfOk result (λ n. n ≡ signs_in_arguments E.image arguments.now names.now) }
{
    let mut signs = 0;
    for argument in arguments {
        signs = added(signs, argument.value.signs(names)?)?;
    }
    Ok(signs)
}

/// Those of a name with its arguments; an attribute counts none itself.
#[tactic(auto, unfolding(ada_image::specs::ImageOfExpressions::call_counts))]
pub(crate) fn signs_in_named<E: Counted>(
    name: &Name,
    attribute: &Option<AttributeDesignator>,
    arguments: &[Argument<E>],
    names: &Names<'_>,
) -> Result<u32, NoMemory>
    ensures { IfOk result
        (λ n.
        n
        ≡ call_counts E.image attribute.now (denoted_by names.now name.now)
        + signs_in_arguments E.image arguments.now names.now) }
{
    match attribute {
        None => added(
            called_counts(denoted_by(names, name)),
            signs_in_arguments(arguments, names)?,
        ),
        Some(_) => signs_in_arguments(arguments, names),
    }
}

/// Those of relations with their operators (4.5.1).
#[tactic(auto, unfolding(ada_image::specs::ImageOfExpressions::signs_in_operands))]
pub(crate) fn signs_in_operands<E: Counted>(
    first: u32,
    operands: &[Operand<E>],
    names: &Names<'_>,
) -> Result<u32, NoMemory>
    ensures { IfOk result (λ n. n ≡ first + signs_in_operands E.image operands.now names.now) }
{
    let mut signs = first;
    for operand in operands {
        signs = one_and_both(signs, operand.relation.signs(names)?)?;
    }
    Ok(signs)
}

/// Those of terms with their operators (4.5.3).
#[tactic(auto, unfolding(ada_image::specs::ImageOfExpressions::signs_in_addends))]
pub(crate) fn signs_in_addends<E: Counted>(
    first: u32,
    addends: &[Addend<E>],
    names: &Names<'_>,
) -> Result<u32, NoMemory>
    ensures { IfOk result (λ n. n ≡ first + signs_in_addends E.image addends.now names.now) }
{
    let mut signs = first;
    for addend in addends {
        signs = one_and_both(signs, addend.term.signs(names)?)?;
    }
    Ok(signs)
}

/// Those of factors with their operators (4.5.5).
#[tactic(auto, unfolding(ada_image::specs::ImageOfExpressions::signs_in_factors))]
pub(crate) fn signs_in_factors<E: Counted>(
    first: u32,
    factors: &[Multiplied<E>],
    names: &Names<'_>,
) -> Result<u32, NoMemory>
    ensures { IfOk result (λ n. n ≡ first + signs_in_factors E.image factors.now names.now) }
{
    let mut signs = first;
    for factor in factors {
        signs = one_and_both(signs, factor.factor.signs(names)?)?;
    }
    Ok(signs)
}
