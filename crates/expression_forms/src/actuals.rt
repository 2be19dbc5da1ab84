//! Actuals, and calls of functions of the source (ISO/IEC 8652:2012, 6.4, 6.4.1).
ghost use Rattle.std.specs.Prelude.{◌≡◌, option_copied};
ghost use Rattle.ada_tree.specs.declared.expressions.ExpressionForm.TheVariants as form;
ghost use Rattle.ada_image.specs.ImageOfCalls.{call_of_kind};
ghost use Rattle.ada_image.specs.BuiltStatements.{value_there, value_if_there};
ghost use Rattle.ada_image.specs.BuiltStatements.{variable_built, variable_there, mode_built};
ghost use Rattle.ada_image.specs.BuiltStatements.{actual_built, arguments_built};
ghost use Rattle.ada_image.specs.BuiltStatements.{call_of_form, call_in, call_or_value_built};
ghost use Rattle.ada_image.specs.BuiltStatements.{source_built, source_if_there};
ghost use Rattle.ada_image.specs.BuiltSequences.{call_if_built, initial_built};

use crate::expressions::expression_built;
use crate::names::kind_of;
use ada_regions::{EntityKind, Formal, Mode, Names};
use ada_tree::{Argument, AttributeDesignator, Expression, ExpressionForm, Name};
use image_layout::{argument_from, first_argument, subtype_is_thing};

/// A value that has to be there.
pub(crate) fn value_there(expression: Option<&Expression>, names: &Names<'_>) -> bool
    ensures { result ≡ value_there (option_copied expression.entry) names.now }
{
    match expression {
        None => false,
        Some(expression) => expression_built(expression, names),
    }
}

/// A value that may be missing.
pub fn value_if_there(expression: Option<&Expression>, names: &Names<'_>) -> bool
    ensures { result ≡ value_if_there (option_copied expression.entry) names.now }
{
    match expression {
        None => true,
        Some(expression) => expression_built(expression, names),
    }
}

/// A variable: a name, whose index is built.
pub(crate) fn variable_built(expression: &Expression, names: &Names<'_>) -> bool
    ensures { result ≡ variable_built expression.now names.now }
{
    match expression.form.get() {
        ExpressionForm::Named { arguments, .. } => {
            value_if_there(first_argument(arguments.as_slice()), names)
        }
        _ => false,
    }
}

/// A variable that has to be there.
pub(crate) fn variable_there(expression: Option<&Expression>, names: &Names<'_>) -> bool
    ensures { result ≡ variable_there (option_copied expression.entry) names.now }
{
    match expression {
        None => false,
        Some(expression) => variable_built(expression, names),
    }
}

/// An actual of this mode (6.4.1).
fn mode_built(mode: Mode, actual: &Expression, names: &Names<'_>) -> bool
    ensures { result ≡ mode_built mode actual.now names.now }
{
    match mode {
        Mode::In => expression_built(actual, names),
        Mode::Out => variable_built(actual, names),
        Mode::InOut => variable_built(actual, names),
    }
}

/// The actual for a formal; one that stands for itself is named.
fn actual_built(formal: &Formal, actual: Option<&Expression>, names: &Names<'_>) -> bool
    ensures { result ≡ actual_built formal.now (option_copied actual.entry) names.now }
{
    match actual {
        None => false,
        Some(actual) => {
            if subtype_is_thing(formal.subtype) {
                true
            } else {
                mode_built(formal.mode, actual, names)
            }
        }
    }
}

/// The actuals of a call: one for each formal.
#[tactic(auto, using(crate::proofs::ActualLemmas::actuals_more), unfolding(ada_image::specs::ImageOfExpressions::actuals_for))]
pub(crate) fn arguments_built(
    formals: &[Formal],
    arguments: &[Argument<Expression>],
    names: &Names<'_>,
) -> bool
    ensures { result ≡ arguments_built formals.now arguments.now names.now }
{
    for (place, formal) in formals.iter().enumerate() {
        let argument = argument_from(place, formal.name.as_slice(), arguments);
        if !actual_built(formal, argument, names) {
            return false;
        }
    }
    true
}

/// The value that an expression is, or the call of a subprogram of the source that it is.
#[tactic(auto, unfolding(ada_image::specs::ImageOfCalls::call_of_kind))]
fn kind_or_value_built(
    expression: &Expression,
    name: &Name,
    arguments: &[Argument<Expression>],
    kind: &EntityKind,
    names: &Names<'_>,
) -> bool
    ensures { result
        ≡ call_or_value_built expression.now (call_of_kind name.now arguments.now kind.now)
        names.now }
{
    match kind {
        EntityKind::Subprogram { formals, .. } => {
            arguments_built(formals.as_slice(), arguments, names)
        }
        _ => expression_built(expression, names),
    }
}

/// The same of a name with its arguments or an attribute.
fn name_or_value_built(
    expression: &Expression,
    name: &Name,
    attribute: &Option<AttributeDesignator>,
    arguments: &[Argument<Expression>],
    names: &Names<'_>,
) -> bool
    ensures { result
        ≡ call_or_value_built expression.now
        (call_of_form (form.Named name.now attribute.now arguments.now) names.now) names.now }
{
    match attribute {
        None => match kind_of(names, name) {
            None => expression_built(expression, names),
            Some(kind) => kind_or_value_built(expression, name, arguments, kind, names),
        },
        Some(_) => expression_built(expression, names),
    }
}

/// A value, or the call of a function of the source that stands alone (this profile's rule).
pub fn source_built(expression: &Expression, names: &Names<'_>) -> bool
    ensures { result ≡ source_built expression.now names.now }
{
    match expression.form.get() {
        ExpressionForm::Named {
            name,
            attribute,
            arguments,
        } => name_or_value_built(expression, name, attribute, arguments.as_slice(), names),
        _ => expression_built(expression, names),
    }
}

/// The value that a function returns, or none (6.5).
pub fn source_if_there(expression: &Option<Expression>, names: &Names<'_>) -> bool
    ensures { result ≡ source_if_there expression.now names.now }
{
    match expression {
        None => true,
        Some(expression) => source_built(expression, names),
    }
}

/// The call of a subprogram of the source, where a name with arguments is one.
#[tactic(auto, unfolding(ada_image::specs::ImageOfCalls::call_of_kind))]
fn kind_if_built(
    name: &Name,
    arguments: &[Argument<Expression>],
    kind: &EntityKind,
    names: &Names<'_>,
) -> bool
    ensures { result ≡ call_if_built (call_of_kind name.now arguments.now kind.now) names.now }
{
    match kind {
        EntityKind::Subprogram { formals, .. } => {
            arguments_built(formals.as_slice(), arguments, names)
        }
        _ => true,
    }
}

/// The same of a name with its arguments or an attribute.
fn name_if_built(
    name: &Name,
    attribute: &Option<AttributeDesignator>,
    arguments: &[Argument<Expression>],
    names: &Names<'_>,
) -> bool
    ensures { result
        ≡ call_if_built (call_of_form (form.Named name.now attribute.now arguments.now) names.now)
        names.now }
{
    match attribute {
        None => match kind_of(names, name) {
            None => true,
            Some(kind) => kind_if_built(name, arguments, kind, names),
        },
        Some(_) => true,
    }
}

/// The call that an expression is, where it is one.
fn call_if_built(expression: &Expression, names: &Names<'_>) -> bool
    ensures { result ≡ call_if_built (call_in expression.now names.now) names.now }
{
    match expression.form.get() {
        ExpressionForm::Named {
            name,
            attribute,
            arguments,
        } => name_if_built(name, attribute, arguments.as_slice(), names),
        _ => true,
    }
}

/// The initial value of an object, where it is the call of a function (3.3.1).
pub fn initial_built(initial: &Option<Expression>, names: &Names<'_>) -> bool
    ensures { result ≡ initial_built initial.now names.now }
{
    match initial {
        None => true,
        Some(initial) => call_if_built(initial, names),
    }
}
