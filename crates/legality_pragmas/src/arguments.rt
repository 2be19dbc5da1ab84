//! Arguments of pragmas: a word, or a static number (ISO/IEC 8652:2012, 2.8).
ghost use Rattle.std.specs.Prelude.{◌≡◌, None, Some, cond, neg_ℤ};
ghost use Rattle.std.specs.Prelude.{option_copied, option_map, pos, IfOk};
ghost use Rattle.std.specs.List.{list_any};
ghost use Rattle.std.specs.Str.{bytes_eq};
ghost use Rattle.ada_lex.specs.Meaning.{decimals_of, whole_of};
ghost use Rattle.ann_base.specs.Lists.{is_empty};
ghost use Rattle.ada_tree.specs.declared.expressions.Expression.TheViews.{out-Expression};
ghost use Rattle.ada_tree.specs.declared.expressions.ExpressionForm.TheVariants as form;
ghost use Rattle.legality_pragmas.specs.Arguments.{signed_number};
ghost use Rattle.ada_legality.specs.Pragmas.{end_of_range, integer_behind, integer_named};
ghost use Rattle.ada_legality.specs.Pragmas.{integer_names, lone_word, number_in};
ghost use Rattle.ada_legality.specs.Pragmas.{number_of_form, plain_word, whole_literal, word_in};

use ada_legality::Number;
use ada_lex::decimals;
use ada_predefined::item_in;
use ada_regions::{LAST_PRIORITY, PredefinedUnit, Subtype};
use ada_subtypes::subtype_of_item;
use ada_tree::{
    Argument, Attribute, AttributeDesignator, Expression, ExpressionForm, Identifier, Name, Sign,
};
use ann_base::NoMemory;
use legality_choices::{ends_of, number_of_literal, number_of_negative};
use profile_image::Constraint;

/// The word that a name without a point is.
fn lone_word(name: &Name) -> Option<&[u8]>
    ensures { option_copied result ≡ lone_word name.now }
{
    match name.parts.others.as_slice() {
        [] => Some(name.parts.first.text.as_slice()),
        _ => None,
    }
}

/// The word that a name is, where neither an attribute nor arguments stand behind it.
#[tactic(auto, unfolding(ada_legality::specs::Pragmas::plain_word))]
fn plain_name<'t>(
    name: &'t Name,
    attribute: &Option<AttributeDesignator>,
    arguments: &[Argument<Expression>],
) -> Option<&'t [u8]>
    ensures { option_copied result ≡ plain_word (form.Named name.now attribute.now arguments.now) }
{
    match attribute {
        None => match arguments {
            [] => lone_word(name),
            _ => None,
        },
        Some(_) => None,
    }
}

/// The word that a form alone is.
#[tactic(auto, unfolding(ada_legality::specs::Pragmas::plain_word))]
fn plain_word(form: &ExpressionForm<Expression>) -> Option<&[u8]>
    ensures { option_copied result ≡ plain_word form.now }
{
    match form {
        ExpressionForm::Named {
            name,
            attribute,
            arguments,
        } => plain_name(name, attribute, arguments.as_slice()),
        _ => None,
    }
}

/// The word that an argument without a formal's name is.
#[tactic(auto, unfolding(ada_legality::specs::Pragmas::word_in))]
pub(crate) fn word_in(argument: &Argument<Expression>) -> Option<&[u8]>
    ensures { option_copied result ≡ word_in argument.now }
{
    match &argument.formal {
        Some(_) => None,
        None => plain_word(argument.value.form.get()),
    }
}

/// The number that a literal without a point is.
#[tactic(auto, unfolding(ada_legality::specs::Words::number_of_literal))]
fn whole_number(literal: &[u8]) -> Result<Option<Number>, NoMemory>
    ensures { IfOk result
        (λ n.
        n
        ≡ cond (is_empty (decimals_of literal.now)) (Some (pos (whole_of literal.now))) None) }
{
    if decimals(literal).is_empty() {
        Ok(Some(number_of_literal(literal)?))
    } else {
        Ok(None)
    }
}

/// The number that minus such a literal is.
#[tactic(auto, unfolding(ada_legality::specs::Words::number_of_literal))]
fn minus_whole(literal: &[u8]) -> Result<Option<Number>, NoMemory>
    ensures { IfOk result
        (λ n.
        n
        ≡ option_map neg_ℤ
        (cond (is_empty (decimals_of literal.now)) (Some (pos (whole_of literal.now))) None)) }
{
    if decimals(literal).is_empty() {
        Ok(Some(number_of_negative(literal)?))
    } else {
        Ok(None)
    }
}

/// Whether it is the name of a subtype of Integer that package Standard declares (A.1).
fn is_integer_name(word: &[u8]) -> bool
    ensures { result ≡ list_any (bytes_eq word.now) integer_names }
{
    word == b"integer".as_slice()
        || (word == b"natural".as_slice() || word == b"positive".as_slice())
}

/// Integer, Natural or Positive.
#[tactic(auto, unfolding(ada_legality::specs::Pragmas::integer_named))]
fn integer_named(word: &[u8]) -> Option<Subtype>
    ensures { result ≡ integer_named word.now }
{
    if is_integer_name(word) {
        subtype_of_item(item_in(LAST_PRIORITY, PredefinedUnit::Standard, word)?)
    } else {
        None
    }
}

/// The same, perhaps behind Standard.
fn integer_behind(first: &Identifier, others: &[Identifier]) -> Option<Subtype>
    ensures { result ≡ integer_behind first.now others.now }
{
    match others {
        [] => integer_named(first.text.as_slice()),
        [second] => {
            if first.text.as_slice() == b"standard".as_slice() {
                integer_named(second.text.as_slice())
            } else {
                None
            }
        }
        _ => None,
    }
}

/// The end of a range that the attribute asks for.
#[tactic(auto, unfolding(ada_legality::specs::Pragmas::end_of_range))]
fn end_of_range(attribute: Attribute, range: Constraint) -> Option<Number>
    ensures { result ≡ end_of_range attribute range }
{
    match attribute {
        Attribute::First => Some(ends_of(range)?.low),
        Attribute::Last => Some(ends_of(range)?.high),
        _ => None,
    }
}

/// The number of minus a literal.
#[tactic(auto, unfolding(ada_legality::specs::Pragmas::whole_literal))]
fn negative_number(operand: &Expression) -> Result<Option<Number>, NoMemory>
    ensures { IfOk result
        (λ n. n ≡ option_map neg_ℤ (whole_literal (out-Expression operand.now).form)) }
{
    match operand.form.get() {
        ExpressionForm::Number { literal, .. } => minus_whole(literal.as_slice()),
        _ => Ok(None),
    }
}

/// First or Last of Integer, Natural or Positive.
#[tactic(auto, unfolding(ada_legality::specs::Pragmas::number_of_form))]
fn number_of_name(
    name: &Name,
    attribute: &Option<AttributeDesignator>,
    arguments: &[Argument<Expression>],
) -> Option<Number>
    ensures { result ≡ number_of_form (form.Named name.now attribute.now arguments.now) }
{
    let designator = attribute.as_ref()?;
    match arguments {
        [] => {
            let subtype = integer_behind(&name.parts.first, name.parts.others.as_slice())?;
            end_of_range(designator.attribute, subtype.range)
        }
        _ => None,
    }
}

/// The number of a literal behind a sign: that of minus a literal alone is known.
fn signed_number(sign: Sign, operand: &Expression) -> Result<Option<Number>, NoMemory>
    ensures { IfOk result (λ n. n ≡ signed_number sign operand.now) }
{
    match sign {
        Sign::Plus => Ok(None),
        Sign::Minus => negative_number(operand),
    }
}

/// The number of a literal, of minus a literal, or of First or Last.
#[tactic(auto, unfolding(ada_legality::specs::Pragmas::number_of_form, ada_legality::specs::Pragmas::whole_literal))]
fn number_of_form(form: &ExpressionForm<Expression>) -> Result<Option<Number>, NoMemory>
    ensures { IfOk result (λ n. n ≡ number_of_form form.now) }
{
    match form {
        ExpressionForm::Signed { sign, operand, .. } => signed_number(*sign, operand),
        ExpressionForm::Number { literal, .. } => whole_number(literal.as_slice()),
        ExpressionForm::Named {
            name,
            attribute,
            arguments,
        } => Ok(number_of_name(name, attribute, arguments.as_slice())),
        _ => Ok(None),
    }
}

/// The number of an argument.
pub(crate) fn number_in(argument: &Argument<Expression>) -> Result<Option<Number>, NoMemory>
    ensures { IfOk result (λ n. n ≡ number_in argument.now) }
{
    number_of_form(argument.value.form.get())
}
