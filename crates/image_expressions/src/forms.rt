//! The forms of expressions (ISO/IEC 8652:2012, 4.1, 4.4, 4.5). Brackets leave no trace, and a
//! minus before a literal is part of its value.
ghost use Rattle.std.specs.Prelude.{◌≡◌, option_copied};
ghost use Rattle.ada_image.specs.Made.{Made};
ghost use Rattle.ada_image.specs.ImageOfExpressions.{expression_image, expression_made};
ghost use Rattle.ada_image.specs.ImageOfExpressions.{optional_value, item_made};
ghost use Rattle.ada_image.specs.ImageOfExpressions.{denoted_made, named_made};

use crate::functions::function_made;
use crate::images::Imaged;
use crate::literals::literal_value;
use crate::primaries::entity_made;
use crate::sequences::{adding_made, logical_made, multiplying_made, relational_made};
use crate::values::{signed_made, unary_made};
use ada_entities::{denoted_by, kind_at};
use ada_image::{Lists, Within};
use ada_regions::{Denoted, Predefined};
use ada_tree::{Argument, AttributeDesignator, Expression, ExpressionForm, Name};
use ann_base::NoMemory;
use image_layout::{first_argument, highest_operator};
use image_names::{attribute_made, known, no_value};
use profile_image::{ExprNo, Value};

/// What a predefined unit declares, as a value.
#[tactic(auto, unfolding(ada_image::specs::ImageOfExpressions::item_made))]
fn item_made<E: Imaged>(
    lists: &mut Lists,
    item: Predefined,
    arguments: &[Argument<E>],
    within: &Within<'_, '_>,
) -> Result<ExprNo, NoMemory>
    ensures { Made (item_made E.image item arguments.now within.now) lists.old lists.new result }
{
    match item {
        Predefined::Mark(_) => no_value(lists),
        Predefined::Constant { value, .. } => known(lists, value),
        Predefined::Truth(truth) => known(lists, Value::Truth(truth)),
        Predefined::Exception(_) => no_value(lists),
        Predefined::Operation(operation) => function_made(lists, operation, arguments, within),
    }
}

/// What a name denotes, as a value. An element's index is its one argument (4.1.1).
#[tactic(auto, unfolding(ada_image::specs::ImageOfExpressions::denoted_made))]
fn denoted_made<E: Imaged>(
    lists: &mut Lists,
    name: &Name,
    arguments: &[Argument<E>],
    within: &Within<'_, '_>,
    denoted: Option<Denoted>,
) -> Result<ExprNo, NoMemory>
    ensures { Made (denoted_made E.image name.now arguments.now within.now denoted) lists.old
        lists.new result }
{
    match denoted {
        None => no_value(lists),
        Some(Denoted::Entity(entity)) => match kind_at(within.names.get(), entity) {
            Some(kind) => entity_made(lists, within, name, first_argument(arguments), kind),
            None => no_value(lists),
        },
        Some(Denoted::Unit(_)) => no_value(lists),
        Some(Denoted::Item { item, .. }) => item_made(lists, item, arguments, within),
    }
}

/// A name, an attribute of it, an element of it or a call of it, as a value.
#[tactic(auto, unfolding(ada_image::specs::ImageOfExpressions::named_made))]
fn named_made<E: Imaged>(
    lists: &mut Lists,
    name: &Name,
    attribute: &Option<AttributeDesignator>,
    arguments: &[Argument<E>],
    within: &Within<'_, '_>,
) -> Result<ExprNo, NoMemory>
    ensures { Made (named_made E.image name.now attribute.now arguments.now within.now) lists.old
        lists.new result }
{
    match attribute {
        None => {
            let denoted = denoted_by(within.names.get(), name);
            denoted_made(lists, name, arguments, within, denoted)
        }
        Some(designator) => attribute_made(lists, within, name, designator.attribute),
    }
}

impl<E: Imaged> Imaged for ExpressionForm<E> {
    ghost use Rattle.ada_image.specs.ImageOfExpressions.{form_image};

    ghost image = { form_image E.image };

    fn made(&self, lists: &mut Lists, within: &Within<'_, '_>) -> Result<ExprNo, NoMemory> {
        match self {
            ExpressionForm::Logical {
                operator,
                first,
                others,
            } => logical_made(lists, *operator, first, others, within),
            ExpressionForm::Relational {
                left,
                operator,
                right,
                ..
            } => relational_made(lists, left, *operator, right, within),
            ExpressionForm::Adding { first, others } => adding_made(lists, first, others, within),
            ExpressionForm::Signed { sign, operand, .. } => {
                signed_made(lists, *sign, operand, within)
            }
            ExpressionForm::Multiplying { first, others } => {
                multiplying_made(lists, first, others, within)
            }
            ExpressionForm::Highest {
                operator,
                operand,
                ..
            } => unary_made(lists, highest_operator(*operator), operand, within),
            ExpressionForm::Number { literal, .. } => {
                let value = literal_value(literal.as_slice())?;
                known(lists, value)
            }
            ExpressionForm::Text { .. } => no_value(lists),
            ExpressionForm::Null { .. } => no_value(lists),
            ExpressionForm::Bracketed { inner, .. } => inner.made(lists, within),
            ExpressionForm::Named {
                name,
                attribute,
                arguments,
            } => named_made(lists, name, attribute, arguments.as_slice(), within),
        }
    }

    fn literal(&self) -> Option<&[u8]> {
        match self {
            ExpressionForm::Number { literal, .. } => Some(literal.as_slice()),
            _ => None,
        }
    }

    fn name(&self) -> Option<&Name> {
        match self {
            ExpressionForm::Bracketed { inner, .. } => inner.name(),
            ExpressionForm::Named { name, .. } => Some(name),
            _ => None,
        }
    }
}

impl Imaged for Expression {
    ghost use Rattle.ada_image.specs.ImageOfExpressions.{expression_image};

    ghost image = { expression_image };

    #[cycle(expression)]
    #[tactic(auto, using(ada_image::proofs::ExpressionFolds::expression_makes))]
    fn made(&self, lists: &mut Lists, within: &Within<'_, '_>) -> Result<ExprNo, NoMemory> {
        self.form.get().made(lists, within)
    }

    #[cycle(expression)]
    #[tactic(auto, using(ada_image::proofs::ExpressionFolds::expression_has_literal))]
    fn literal(&self) -> Option<&[u8]> {
        self.form.get().literal()
    }

    #[cycle(expression)]
    #[tactic(auto, using(ada_image::proofs::ExpressionFolds::expression_has_name))]
    fn name(&self) -> Option<&Name> {
        self.form.get().name()
    }
}

/// The expressions that an expression is are made.
#[tactic(auto, unfolding(ada_image::specs::ImageOfExpressions::expression_made))]
pub fn expression_made(
    lists: &mut Lists,
    expression: &Expression,
    within: &Within<'_, '_>,
) -> Result<ExprNo, NoMemory>
    ensures { Made (expression_made expression.now within.now) lists.old lists.new result }
{
    expression.made(lists, within)
}

/// The value of an expression that may be missing.
#[tactic(auto, unfolding(ada_image::specs::ImageOfExpressions::optional_value))]
pub fn optional_value(
    lists: &mut Lists,
    within: &Within<'_, '_>,
    expression: Option<&Expression>,
) -> Result<Option<ExprNo>, NoMemory>
    ensures { Made (optional_value within.now (option_copied expression.entry)) lists.old lists.new
        result }
{
    match expression {
        None => Ok(None),
        Some(expression) => Ok(Some(expression_made(lists, expression, within)?)),
    }
}

/// The name that an expression is, if it is one, in brackets or without.
pub fn named(expression: &Expression) -> Option<&Name>
    ensures { option_copied result ≡ (expression_image expression.now).name }
{
    expression.name()
}
