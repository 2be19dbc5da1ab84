//! Static expressions as numbers (ISO/IEC 8652:2012, 4.9).
ghost use Rattle.std.specs.Prelude.{◌≡◌, neg_ℤ, option_map, IfOk};
ghost use Rattle.ada_regions.specs.Words.{and_then};
ghost use Rattle.ada_tree.specs.declared.expressions.Expression.TheViews.{out-Expression};
ghost use Rattle.ada_regions.specs.Statics.{literal_of};
ghost use Rattle.ada_legality.specs.Words.{number_of_value, number_of_literal, literal_number};
ghost use Rattle.ada_legality.specs.Words.{number_of_expression, static_number};

use crate::literals::{number_of_literal, number_of_negative};
use crate::numbers::number_of_value;
use ada_legality::{Known, Number, Typed};
use ada_regions::AdaType;
use ada_subtypes::{literal_of, static_value};
use ada_tree::{Expression, ExpressionForm, Sign};
use ann_base::NoMemory;
use legality_types::{fits, has_type};
use profile_image::Value;

/// The number of minus a literal.
fn negative_literal(operand: &Expression) -> Result<Option<Number>, NoMemory>
    ensures { IfOk result
        (λ n.
        n
        ≡ option_map (λ l. neg_ℤ (number_of_literal l))
        (literal_of (out-Expression operand.now).form)) }
{
    match literal_of(operand) {
        None => Ok(None),
        Some(literal) => Ok(Some(number_of_negative(literal)?)),
    }
}

/// The number of a literal, or of minus a literal.
#[tactic(auto, unfolding(ada_legality::specs::Words::literal_number))]
fn literal_number(expression: &Expression) -> Result<Option<Number>, NoMemory>
    ensures { IfOk result (λ n. n ≡ literal_number (out-Expression expression.now).form) }
{
    match expression.form.get() {
        ExpressionForm::Signed { sign, operand, .. } => match sign {
            Sign::Minus => negative_literal(operand),
            Sign::Plus => Ok(None),
        },
        ExpressionForm::Number { literal, .. } => {
            Ok(Some(number_of_literal(literal.as_slice())?))
        }
        _ => Ok(None),
    }
}

/// The number of a value that is known.
fn number_of_static(value: Option<Value>) -> Option<Number>
    ensures { result ≡ and_then value number_of_value }
{
    let value = value?;
    number_of_value(value)
}

/// The number of an expression that has one: a literal outside its type has no value. Only a
/// literal of more than 128 bits, which no token is, is answered by `NoMemory`.
#[tactic(auto, unfolding(ada_legality::specs::Words::number_of_expression))]
pub fn number_of_expression(
    known: &Known<'_, '_>,
    expression: &Expression,
) -> Result<Option<Number>, NoMemory>
    ensures { IfOk result (λ n. n ≡ number_of_expression known.now expression.now) }
{
    match literal_number(expression)? {
        Some(number) => Ok(Some(number)),
        None => Ok(number_of_static(static_value(known.names.get(), expression))),
    }
}

/// The number of a static expression, which is of this type.
#[tactic(auto, unfolding(ada_legality::specs::Words::static_number))]
pub fn static_number(
    known: &Known<'_, '_>,
    t: AdaType,
    expression: &Expression,
    typed: Typed,
) -> Result<Option<Number>, NoMemory>
    ensures { IfOk result (λ n. n ≡ static_number known.now t expression.now typed) }
{
    if fits(typed, t) && has_type(typed) {
        number_of_expression(known, expression)
    } else {
        Ok(None)
    }
}
