//! Arguments of pragmas: a word, or a number. Names in pragmas are words, and no names of the
//! source.
ghost use Rattle.std.specs.Prelude.{◌≡◌, option_copied, unwrap_or, IfOk};
ghost use Rattle.ada_regions.specs.declared.predefined.TheConstants.{LAST_PRIORITY};
ghost use Rattle.ada_regions.specs.declared.predefined.PredefinedUnit.TheVariants as units;
ghost use Rattle.ada_regions.specs.Names.{last_part};
ghost use Rattle.ada_regions.specs.PredefinedUnits.{item_in};
ghost use Rattle.ada_regions.specs.Statics.{high_of, literal_value, low_of, subtype_of_item};
ghost use Rattle.ada_regions.specs.Words.{and_then};
ghost use Rattle.ada_image.specs.PoliciesOfImage.{bound_of, number_in_form, number_of};
ghost use Rattle.ada_image.specs.PoliciesOfImage.{number_of_name, word_in_form};
ghost use Rattle.ada_image.specs.PoliciesOfImage.{word_of, word_of_name};
ghost use Rattle.ada_image.specs.UnitsOfImage.{level_of};

use crate::levels::level_of;
use ada_entities::last_part;
use ada_lex::{decimals, whole_value};
use ada_predefined::item_in;
use ada_regions::{LAST_PRIORITY, Predefined, PredefinedUnit};
use ada_subtypes::{high_of, low_of, subtype_of_item};
use ada_tree::{Argument, Attribute, AttributeDesignator, Expression, ExpressionForm, Name};
use ann_base::NoMemory;
use profile_image::Value;

/// The word that a name is.
fn word_of_name<'t>(name: &'t Name, attribute: &Option<AttributeDesignator>) -> Option<&'t [u8]>
    ensures { option_copied result ≡ word_of_name name.now attribute.now }
{
    match attribute {
        None => Some(name.parts.first.text.as_slice()),
        Some(_) => None,
    }
}

/// The word that an expression is.
#[tactic(auto, unfolding(ada_image::specs::PoliciesOfImage::word_in_form))]
fn word_in_form(form: &ExpressionForm<Expression>) -> Option<&[u8]>
    ensures { option_copied result ≡ word_in_form form.now }
{
    match form {
        ExpressionForm::Named {
            name,
            attribute,
            ..
        } => word_of_name(name, attribute),
        _ => None,
    }
}

/// The word that an argument is, if it is one.
#[tactic(auto, unfolding(ada_image::specs::PoliciesOfImage::word_of))]
pub(crate) fn word_of(argument: &Argument<Expression>) -> Option<&[u8]>
    ensures { option_copied result ≡ word_of argument.now }
{
    word_in_form(argument.value.form.get())
}

fn low_of_item(item: Predefined) -> Option<Value>
    ensures { result ≡ and_then (subtype_of_item item) (λ s. low_of s.range) }
{
    let subtype = subtype_of_item(item)?;
    low_of(subtype.range)
}

fn high_of_item(item: Predefined) -> Option<Value>
    ensures { result ≡ and_then (subtype_of_item item) (λ s. high_of s.range) }
{
    let subtype = subtype_of_item(item)?;
    high_of(subtype.range)
}

/// What package Standard declares under the last part of a name, where the range of priorities is
/// the plain one.
fn item_of_standard(name: &Name) -> Option<Predefined>
    ensures { result ≡ item_in LAST_PRIORITY units.Standard (last_part name.now).text }
{
    item_in(
        LAST_PRIORITY,
        PredefinedUnit::Standard,
        last_part(name).text.as_slice(),
    )
}

/// First or Last of a type of package Standard.
#[tactic(auto, unfolding(ada_image::specs::PoliciesOfImage::bound_of))]
fn bound_of(attribute: Attribute, name: &Name) -> Option<Value>
    ensures { result ≡ bound_of attribute name.now }
{
    match attribute {
        Attribute::First => low_of_item(item_of_standard(name)?),
        Attribute::Last => high_of_item(item_of_standard(name)?),
        _ => None,
    }
}

fn number_of_name(name: &Name, attribute: &Option<AttributeDesignator>) -> Option<Value>
    ensures { result ≡ number_of_name name.now attribute.now }
{
    let designator = attribute.as_ref()?;
    bound_of(designator.attribute, name)
}

/// The number that a value is, or 0.
fn number_or_zero(value: Option<Value>) -> u32
    ensures { result ≡ unwrap_or (and_then value level_of) 0 }
{
    match value {
        None => 0,
        Some(value) => level_of(value).unwrap_or(0),
    }
}

/// The number that a literal is (2.4); one with a point is none, and stands for 0.
#[tactic(auto, unfolding(ada_regions::specs::Statics::literal_value, ada_image::specs::UnitsOfImage::level_of))]
fn number_of_literal(literal: &[u8]) -> Result<u32, NoMemory>
    ensures { IfOk result (λ number. number ≡ unwrap_or (level_of (literal_value literal.now)) 0) }
{
    if decimals(literal).is_empty() {
        let number = whole_value(literal).ok_or(NoMemory)?;
        match u32::try_from(number) {
            Ok(number) => Ok(number),
            Err(_) => Err(NoMemory),
        }
    } else {
        Ok(0)
    }
}

/// The number that an expression is, or 0.
#[tactic(auto, unfolding(ada_image::specs::PoliciesOfImage::number_in_form))]
fn number_in_form(form: &ExpressionForm<Expression>) -> Result<u32, NoMemory>
    ensures { IfOk result
        (λ number. number ≡ unwrap_or (and_then (number_in_form form.now) level_of) 0) }
{
    match form {
        ExpressionForm::Number { literal, .. } => number_of_literal(literal.as_slice()),
        ExpressionForm::Named {
            name,
            attribute,
            ..
        } => Ok(number_or_zero(number_of_name(name, attribute))),
        _ => Ok(0),
    }
}

/// The number that an argument is, or 0.
#[tactic(auto, unfolding(ada_image::specs::PoliciesOfImage::number_of))]
pub(crate) fn number_of(argument: &Argument<Expression>) -> Result<u32, NoMemory>
    ensures { IfOk result (λ number. number ≡ number_of argument.now) }
{
    number_in_form(argument.value.form.get())
}
