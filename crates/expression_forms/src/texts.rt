//! The text of Put_Line (ISO/IEC 8652:2012, A.10.7): a text, an Image, or several joined.
ghost use Rattle.std.specs.Prelude.{◌≡◌, ◌∷◌, option_copied};
ghost use Rattle.ada_tree.specs.declared.expressions.Expression.TheViews.{out-Expression};
ghost use Rattle.ada_image.specs.BuiltStatements.{piece_built, pieces_built};
ghost use Rattle.ada_image.specs.BuiltStatements.{text_form_built, text_built};

use crate::actuals::value_there;
use ada_regions::Names;
use ada_tree::{Addend, Expression, ExpressionForm, OneOrMore};
use image_layout::first_argument;

/// What is joined with others.
fn piece_built(expression: &Expression, names: &Names<'_>) -> bool
    ensures { result ≡ piece_built expression.now names.now }
{
    match expression.form.get() {
        ExpressionForm::Text { .. } => true,
        ExpressionForm::Named { arguments, .. } => {
            value_there(first_argument(arguments.as_slice()), names)
        }
        _ => false,
    }
}

/// Those behind an operator.
fn pieces_built(addends: &[Addend<Expression>], names: &Names<'_>) -> bool
    ensures { result ≡ pieces_built addends.now names.now }
{
    addends
        .iter()
        .all(|addend| piece_built(&addend.term, names))
}

/// All behind the first one.
fn other_pieces_built(others: &OneOrMore<Addend<Expression>>, names: &Names<'_>) -> bool
    ensures { result ≡ pieces_built (others.now.first ∷ others.now.others) names.now }
{
    piece_built(&others.first.term, names) && pieces_built(others.others.as_slice(), names)
}

/// A text that is there.
fn whole_text_built(expression: &Expression, names: &Names<'_>) -> bool
    ensures { result ≡ text_form_built (out-Expression expression.now).form names.now }
{
    match expression.form.get() {
        ExpressionForm::Adding { first, others } => {
            piece_built(first, names) && other_pieces_built(others, names)
        }
        ExpressionForm::Text { .. } => true,
        ExpressionForm::Named { arguments, .. } => {
            value_there(first_argument(arguments.as_slice()), names)
        }
        _ => false,
    }
}

/// The text of Put_Line.
pub(crate) fn text_built(expression: Option<&Expression>, names: &Names<'_>) -> bool
    ensures { result ≡ text_built (option_copied expression.entry) names.now }
{
    match expression {
        None => false,
        Some(expression) => whole_text_built(expression, names),
    }
}
