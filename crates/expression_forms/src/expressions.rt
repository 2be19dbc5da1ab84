//! Expressions (ISO/IEC 8652:2012, 4.1, 4.4, 4.5): each operand of an operator has a form in an
//! image, and each name denotes what has a value.
ghost use Rattle.std.specs.Prelude.{◌≡◌, ◌∷◌};
ghost use Rattle.ada_image.specs.BuiltExpressions.{item_built, denoted_built, named_built};
ghost use Rattle.ada_image.specs.BuiltExpressions.{operands_built, addends_built};
ghost use Rattle.ada_image.specs.BuiltExpressions.{factors_built, expression_built};

use crate::forms::HasForm;
use crate::functions::{is_built_if_there, operation_built};
use crate::names::{attribute_built, entity_built, is_given};
use ada_entities::{denoted_by, kind_at};
use ada_regions::{Denoted, Names, Predefined};
use ada_tree::{
    Addend, Argument, AttributeDesignator, Expression, ExpressionForm, Multiplied, Name, OneOrMore,
    Operand,
};
use image_layout::first_argument;

/// What a predefined unit declares, as a value.
fn item_built<E: HasForm>(item: Predefined, arguments: &[Argument<E>], names: &Names<'_>) -> bool
    ensures { result ≡ item_built E.built item arguments.now names.now }
{
    match item {
        Predefined::Mark(_) => false,
        Predefined::Constant { value, .. } => is_given(value),
        Predefined::Truth(_) => true,
        Predefined::Exception(_) => false,
        Predefined::Operation(operation) => operation_built(operation, arguments, names),
    }
}

/// A name with its arguments, by what it denotes.
fn denoted_built<E: HasForm>(
    arguments: &[Argument<E>],
    denoted: Option<Denoted>,
    names: &Names<'_>,
) -> bool
    ensures { result ≡ denoted_built E.built arguments.now denoted names.now }
{
    match denoted {
        None => false,
        Some(Denoted::Entity(entity)) => match kind_at(names, entity) {
            None => false,
            Some(kind) => {
                let index = is_built_if_there(first_argument(arguments), names);
                entity_built(kind, index)
            }
        },
        Some(Denoted::Unit(_)) => false,
        Some(Denoted::Item { item, .. }) => item_built(item, arguments, names),
    }
}

/// A name with its arguments, or an attribute of it.
fn named_built<E: HasForm>(
    name: &Name,
    attribute: &Option<AttributeDesignator>,
    arguments: &[Argument<E>],
    names: &Names<'_>,
) -> bool
    ensures { result ≡ named_built E.built name.now attribute.now arguments.now names.now }
{
    match attribute {
        None => denoted_built(arguments, denoted_by(names, name), names),
        Some(designator) => attribute_built(names, name, designator.attribute),
    }
}

/// Relations behind a logical operator (4.5.1).
fn operands_built<E: HasForm>(operands: &[Operand<E>], names: &Names<'_>) -> bool
    ensures { result ≡ operands_built E.built operands.now names.now }
{
    operands
        .iter()
        .all(|operand| operand.relation.is_built(names))
}

/// All behind the first one.
fn other_operands_built<E: HasForm>(others: &OneOrMore<Operand<E>>, names: &Names<'_>) -> bool
    ensures { result ≡ operands_built E.built (others.now.first ∷ others.now.others) names.now }
{
    others.first.relation.is_built(names) && operands_built(others.others.as_slice(), names)
}

/// Terms behind an adding operator (4.5.3).
fn addends_built<E: HasForm>(addends: &[Addend<E>], names: &Names<'_>) -> bool
    ensures { result ≡ addends_built E.built addends.now names.now }
{
    addends.iter().all(|addend| addend.term.is_built(names))
}

/// All behind the first one.
fn other_addends_built<E: HasForm>(others: &OneOrMore<Addend<E>>, names: &Names<'_>) -> bool
    ensures { result ≡ addends_built E.built (others.now.first ∷ others.now.others) names.now }
{
    others.first.term.is_built(names) && addends_built(others.others.as_slice(), names)
}

/// Factors behind a multiplying operator (4.5.5).
fn factors_built<E: HasForm>(factors: &[Multiplied<E>], names: &Names<'_>) -> bool
    ensures { result ≡ factors_built E.built factors.now names.now }
{
    factors.iter().all(|factor| factor.factor.is_built(names))
}

/// All behind the first one.
fn other_factors_built<E: HasForm>(others: &OneOrMore<Multiplied<E>>, names: &Names<'_>) -> bool
    ensures { result ≡ factors_built E.built (others.now.first ∷ others.now.others) names.now }
{
    others.first.factor.is_built(names) && factors_built(others.others.as_slice(), names)
}

impl<E: HasForm> HasForm for ExpressionForm<E> {
    ghost use Rattle.ada_image.specs.BuiltExpressions.{form_built};

    ghost built = { form_built E.built };

    fn is_built(&self, names: &Names<'_>) -> bool {
        match self {
            ExpressionForm::Logical { first, others, .. } => {
                first.is_built(names) && other_operands_built(others, names)
            }
            ExpressionForm::Relational { left, right, .. } => {
                left.is_built(names) && right.is_built(names)
            }
            ExpressionForm::Adding { first, others } => {
                first.is_built(names) && other_addends_built(others, names)
            }
            ExpressionForm::Signed { operand, .. } => operand.is_built(names),
            ExpressionForm::Multiplying { first, others } => {
                first.is_built(names) && other_factors_built(others, names)
            }
            ExpressionForm::Highest { operand, .. } => operand.is_built(names),
            ExpressionForm::Number { .. } => true,
            ExpressionForm::Text { .. } => false,
            ExpressionForm::Null { .. } => false,
            ExpressionForm::Bracketed { inner, .. } => inner.is_built(names),
            ExpressionForm::Named {
                name,
                attribute,
                arguments,
            } => named_built(name, attribute, arguments.as_slice(), names),
        }
    }
}

impl HasForm for Expression {
    ghost use Rattle.ada_image.specs.BuiltExpressions.{expression_built};

    ghost built = { expression_built };

    #[tactic(auto, using(ada_image::proofs::BuiltExpressionFolds::expression_by_form))]
    fn is_built(&self, names: &Names<'_>) -> bool {
        self.form.get().is_built(names)
    }
}

/// An expression.
pub fn expression_built(expression: &Expression, names: &Names<'_>) -> bool
    ensures { result ≡ expression_built expression.now names.now }
{
    expression.is_built(names)
}
