//! The type of an expression, from its parts alone: no name is overloaded (ISO/IEC 8652:2012,
//! clause 4).
ghost use Rattle.std.specs.Prelude.{◌≡◌, Some, cond, slice_get};
ghost use Rattle.ada_lex.specs.Meaning.{decimals_of};
ghost use Rattle.ada_regions.specs.Words.{all_of};
ghost use Rattle.ann_base.specs.Lists.{is_empty};
ghost use Rattle.ada_regions.specs.declared.types.AdaType.TheVariants as types;
ghost use Rattle.ada_image.specs.TypesOfExpressions.{type_of_subtype, indexed, type_of_result};
ghost use Rattle.ada_image.specs.TypesOfExpressions.{type_of_kind, type_denoted, type_of_addends};
ghost use Rattle.ada_image.specs.TypesOfExpressions.{type_of_factors, type_of_named, is_span};

use crate::operators::{
    type_behind_operator, type_of_attribute, type_of_item, type_of_product, type_of_sum,
};
use ada_entities::{denoted_by, kind_at};
use ada_lex::decimals;
use ada_regions::{AdaType, Denoted, EntityKind, Names, Subtype, is_span_type};
use ada_tree::{
    Addend, Argument, AttributeDesignator, Expression, ExpressionForm, Multiplied, Name, OneOrMore,
};
use image_layout::array_of;
use profile_image::SubprogramNo;

fn type_of_subtype(subtype: Option<Subtype>) -> Option<AdaType>
    ensures { result ≡ type_of_subtype subtype }
{
    let subtype = subtype?;
    Some(subtype.of_type)
}

/// The type of an object, or of its element where an index stands behind it (4.1.1).
#[tactic(auto, unfolding(ada_image::specs::TypesOfExpressions::indexed))]
fn indexed(names: &Names<'_>, has_index: bool, subtype: Option<Subtype>) -> Option<AdaType>
    ensures { result ≡ indexed names.now has_index subtype }
{
    if has_index {
        type_of_subtype(array_of(names, subtype?.of_type)?.component)
    } else {
        type_of_subtype(subtype)
    }
}

/// The type of the result of the subprogram with this number, if it is a function.
#[tactic(auto, unfolding(ada_image::specs::TypesOfExpressions::type_of_result))]
fn type_of_result(names: &Names<'_>, number: SubprogramNo) -> Option<AdaType>
    ensures { result ≡ type_of_result (slice_get names.now.subprograms number.0) }
{
    let subprogram = names.subprograms.get(number.0 as usize)?;
    type_of_subtype(subprogram.result?)
}

/// The type of what an entity is, or of its element.
#[tactic(auto, unfolding(ada_image::specs::TypesOfExpressions::type_of_kind))]
fn type_of_kind(names: &Names<'_>, has_index: bool, kind: &EntityKind) -> Option<AdaType>
    ensures { result ≡ type_of_kind names.now has_index kind.now }
{
    match kind {
        EntityKind::Literal { enumeration, .. } => Some(AdaType::Enumeration(*enumeration)),
        EntityKind::Object { subtype, .. } => indexed(names, has_index, *subtype),
        EntityKind::Parameter { subtype, .. } => indexed(names, has_index, *subtype),
        EntityKind::LoopParameter(_) => Some(AdaType::Integer),
        EntityKind::Component { subtype, .. } => indexed(names, has_index, *subtype),
        EntityKind::Subprogram { number, .. } => type_of_result(names, *number),
        _ => None,
    }
}

/// The type of what is denoted, or of its element.
#[tactic(auto, unfolding(ada_image::specs::TypesOfExpressions::type_denoted))]
fn type_denoted(names: &Names<'_>, has_index: bool, denoted: Denoted) -> Option<AdaType>
    ensures { result ≡ type_denoted names.now has_index denoted }
{
    match denoted {
        Denoted::Entity(entity) => type_of_kind(names, has_index, kind_at(names, entity)?),
        Denoted::Unit(_) => None,
        Denoted::Item { item, .. } => type_of_item(item),
    }
}

/// What has a type.
trait Typed {
    ghost use Rattle.std.specs.Prelude.{◌≡◌};
    ghost use Rattle.ada_image.specs.TypesOfExpressions.{Typing};

    ghost typing: { Self → Typing };

    /// Its type, if it has one.
    fn type_of(&self, names: &Names<'_>) -> Option<AdaType>
        ensures { result ≡ typing self.now names.now };
}

/// The type of terms from left to right, where that of those before is given (4.5.3).
#[tactic(auto, unfolding(ada_image::specs::TypesOfExpressions::type_of_addends))]
fn type_of_addends<E: Typed>(
    names: &Names<'_>,
    left: Option<AdaType>,
    addends: &[Addend<E>],
) -> Option<AdaType>
    ensures { result ≡ type_of_addends E.typing left addends.now names.now }
{
    let mut sum = left;
    for addend in addends {
        sum = type_of_sum(sum, addend.operator, addend.term.type_of(names));
    }
    sum
}

#[tactic(auto, unfolding(ada_image::specs::TypesOfExpressions::type_of_addends))]
fn type_of_all_addends<E: Typed>(
    names: &Names<'_>,
    left: Option<AdaType>,
    addends: &OneOrMore<Addend<E>>,
) -> Option<AdaType>
    ensures { result ≡ type_of_addends E.typing left (all_of addends.now) names.now }
{
    let first = type_of_sum(
        left,
        addends.first.operator,
        addends.first.term.type_of(names),
    );
    type_of_addends(names, first, addends.others.as_slice())
}

/// The type of factors from left to right, where that of those before is given (4.5.5).
#[tactic(auto, unfolding(ada_image::specs::TypesOfExpressions::type_of_factors))]
fn type_of_factors<E: Typed>(
    names: &Names<'_>,
    left: Option<AdaType>,
    factors: &[Multiplied<E>],
) -> Option<AdaType>
    ensures { result ≡ type_of_factors E.typing left factors.now names.now }
{
    let mut product = left;
    for factor in factors {
        product = type_of_product(product, factor.factor.type_of(names));
    }
    product
}

#[tactic(auto, unfolding(ada_image::specs::TypesOfExpressions::type_of_factors))]
fn type_of_all_factors<E: Typed>(
    names: &Names<'_>,
    left: Option<AdaType>,
    factors: &OneOrMore<Multiplied<E>>,
) -> Option<AdaType>
    ensures { result ≡ type_of_factors E.typing left (all_of factors.now) names.now }
{
    let first = type_of_product(left, factors.first.factor.type_of(names));
    type_of_factors(names, first, factors.others.as_slice())
}

/// The type of a name, an attribute, an element or a call (4.1).
#[tactic(auto, unfolding(ada_image::specs::TypesOfExpressions::type_of_named))]
fn type_of_named<E: Typed>(
    names: &Names<'_>,
    name: &Name,
    attribute: &Option<AttributeDesignator>,
    arguments: &[Argument<E>],
) -> Option<AdaType>
    ensures { result ≡ type_of_named E.typing name.now attribute.now arguments.now names.now }
{
    match attribute {
        None => type_denoted(names, !arguments.is_empty(), denoted_by(names, name)?),
        Some(designator) => type_of_attribute(designator.attribute),
    }
}

/// The type of a numeric literal (2.4): one with a point is a Duration.
fn type_of_number(literal: &[u8]) -> AdaType
    ensures { Some result
        ≡ cond (is_empty (decimals_of literal.now)) (Some types.Integer)
        (Some types.Duration) }
{
    if decimals(literal).is_empty() {
        AdaType::Integer
    } else {
        AdaType::Duration
    }
}

impl<E: Typed> Typed for ExpressionForm<E> {
    ghost use Rattle.ada_image.specs.TypesOfExpressions.{type_of_form};

    ghost typing = { type_of_form E.typing };

    fn type_of(&self, names: &Names<'_>) -> Option<AdaType> {
        match self {
            ExpressionForm::Logical { .. } => Some(AdaType::Boolean),
            ExpressionForm::Relational { .. } => Some(AdaType::Boolean),
            ExpressionForm::Adding { first, others } => {
                let left = first.type_of(names);
                type_of_all_addends(names, left, others)
            }
            ExpressionForm::Signed { operand, .. } => operand.type_of(names),
            ExpressionForm::Multiplying { first, others } => {
                let left = first.type_of(names);
                type_of_all_factors(names, left, others)
            }
            ExpressionForm::Highest {
                operator,
                operand,
                ..
            } => type_behind_operator(*operator, operand.type_of(names)),
            ExpressionForm::Number { literal, .. } => Some(type_of_number(literal.as_slice())),
            ExpressionForm::Text { .. } => None,
            ExpressionForm::Null { .. } => None,
            ExpressionForm::Bracketed { inner, .. } => inner.type_of(names),
            ExpressionForm::Named {
                name,
                attribute,
                arguments,
            } => type_of_named(names, name, attribute, arguments.as_slice()),
        }
    }
}

impl Typed for Expression {
    ghost use Rattle.ada_image.specs.TypesOfExpressions.{type_of_expression};

    ghost typing = { type_of_expression };

    #[tactic(auto, using(crate::proofs::TypeFolds::expression_typed))]
    fn type_of(&self, names: &Names<'_>) -> Option<AdaType> {
        self.form.get().type_of(names)
    }
}

/// Whether an expression is of type Time_Span (D.8).
#[tactic(auto, unfolding(ada_image::specs::TypesOfExpressions::is_span))]
pub fn is_span(names: &Names<'_>, expression: &Expression) -> bool
    ensures { result ≡ is_span names.now expression.now }
{
    match expression.type_of(names) {
        None => false,
        Some(of_type) => is_span_type(of_type),
    }
}
