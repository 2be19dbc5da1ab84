//! Static expressions (ISO/IEC 8652:2012, 4.9): literals, minus a literal, constants of these,
//! enumeration literals, First and Last.
ghost use Rattle.std.specs.Prelude.{◌≡◌, option_copied};
ghost use Rattle.ada_tree.specs.declared.expressions.Expression.TheViews.{out-Expression};
ghost use Rattle.ada_regions.specs.Words.{and_then};
ghost use Rattle.ada_regions.specs.Statics.{value_of_kind, value_of_item, value_denoted};
ghost use Rattle.ada_regions.specs.Statics.{subtype_of_item, subtype_denoted, subtype_of_name};
ghost use Rattle.ada_regions.specs.Statics.{low_of, high_of, range_named, attribute_value};
ghost use Rattle.ada_regions.specs.Statics.{static_name, literal_of, signed_literal, static_value};

use crate::literals::{static_literal, static_negative};
use crate::ranges::{high_of, low_of, range_named};
use ada_entities::{denoted_by, kind_at};
use ada_regions::{Denoted, EntityKind, Names, Predefined, Subtype, subtype_of_kind};
use ada_tree::{Attribute, AttributeDesignator, Expression, ExpressionForm, Name, Sign};
use profile_image::Value;

fn value_of_kind(kind: &EntityKind) -> Option<Value>
    ensures { result ≡ value_of_kind kind.now }
{
    match kind {
        EntityKind::Literal { position, .. } => Some(Value::Literal(*position)),
        EntityKind::Object { value, .. } => *value,
        _ => None,
    }
}

fn value_of_item(item: Predefined) -> Option<Value>
    ensures { result ≡ value_of_item item }
{
    match item {
        Predefined::Mark(_) => None,
        Predefined::Constant { value, .. } => Some(value),
        Predefined::Truth(truth) => Some(Value::Truth(truth)),
        Predefined::Exception(_) => None,
        Predefined::Operation(_) => None,
    }
}

/// The static value of what is denoted, if it has one.
#[tactic(auto, unfolding(ada_regions::specs::Statics::value_denoted))]
pub fn value_denoted(names: &Names<'_>, denoted: Denoted) -> Option<Value>
    ensures { result ≡ value_denoted names.now denoted }
{
    match denoted {
        Denoted::Entity(entity) => value_of_kind(kind_at(names, entity)?),
        Denoted::Unit(_) => None,
        Denoted::Item { item, .. } => value_of_item(item),
    }
}

/// The subtype that a predefined name denotes, if it denotes one.
pub fn subtype_of_item(item: Predefined) -> Option<Subtype>
    ensures { result ≡ subtype_of_item item }
{
    match item {
        Predefined::Mark(subtype) => Some(subtype),
        _ => None,
    }
}

/// The subtype of what is denoted, if it has one.
#[tactic(auto, unfolding(ada_regions::specs::Statics::subtype_denoted))]
pub fn subtype_denoted(names: &Names<'_>, denoted: Denoted) -> Option<Subtype>
    ensures { result ≡ subtype_denoted names.now denoted }
{
    match denoted {
        Denoted::Entity(entity) => subtype_of_kind(kind_at(names, entity)?),
        Denoted::Unit(_) => None,
        Denoted::Item { item, .. } => subtype_of_item(item),
    }
}

/// The subtype of what a name denotes, if it has one.
pub fn subtype_of_name(names: &Names<'_>, name: &Name) -> Option<Subtype>
    ensures { result ≡ subtype_of_name names.now name.now }
{
    let denoted = denoted_by(names, name)?;
    subtype_denoted(names, denoted)
}

fn low_end(names: &Names<'_>, subtype: Option<Subtype>) -> Option<Value>
    ensures { result ≡ and_then subtype (λ s. low_of (range_named names.now s)) }
{
    let subtype = subtype?;
    low_of(range_named(names, subtype))
}

fn high_end(names: &Names<'_>, subtype: Option<Subtype>) -> Option<Value>
    ensures { result ≡ and_then subtype (λ s. high_of (range_named names.now s)) }
{
    let subtype = subtype?;
    high_of(range_named(names, subtype))
}

/// The static value of an attribute of a name, if it has one.
#[tactic(auto, unfolding(ada_regions::specs::Statics::attribute_value))]
pub fn attribute_value(names: &Names<'_>, name: &Name, attribute: Attribute) -> Option<Value>
    ensures { result ≡ attribute_value names.now name.now attribute }
{
    match attribute {
        Attribute::First => low_end(names, subtype_of_name(names, name)),
        Attribute::Last => high_end(names, subtype_of_name(names, name)),
        _ => None,
    }
}

#[tactic(auto, unfolding(ada_regions::specs::Statics::static_name))]
fn static_name(
    names: &Names<'_>,
    name: &Name,
    attribute: &Option<AttributeDesignator>,
) -> Option<Value>
    ensures { result ≡ static_name names.now name.now attribute.now }
{
    match attribute {
        None => value_denoted(names, denoted_by(names, name)?),
        Some(designator) => attribute_value(names, name, designator.attribute),
    }
}

/// The literal of an expression that is one.
pub fn literal_of(expression: &Expression) -> Option<&[u8]>
    ensures { option_copied result ≡ literal_of (out-Expression expression.now).form }
{
    match expression.form.get() {
        ExpressionForm::Number { literal, .. } => Some(literal.as_slice()),
        _ => None,
    }
}

fn signed_literal(sign: Sign, operand: &Expression) -> Option<Value>
    ensures { result ≡ signed_literal sign (literal_of (out-Expression operand.now).form) }
{
    match sign {
        Sign::Plus => None,
        Sign::Minus => static_negative(literal_of(operand)?),
    }
}

/// The value of an expression that is static, given what its names denote.
#[tactic(auto, unfolding(ada_regions::specs::Statics::static_value))]
pub fn static_value(names: &Names<'_>, expression: &Expression) -> Option<Value>
    ensures { result ≡ static_value names.now expression.now }
{
    match expression.form.get() {
        ExpressionForm::Signed { sign, operand, .. } => signed_literal(*sign, operand),
        ExpressionForm::Number { literal, .. } => static_literal(literal.as_slice()),
        ExpressionForm::Named {
            name,
            attribute,
            arguments,
        } => {
            if arguments.as_slice().is_empty() {
                static_name(names, name, attribute)
            } else {
                None
            }
        }
        _ => None,
    }
}
