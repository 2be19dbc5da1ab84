//! The pieces of the text of Put_Line (ISO/IEC 8652:2012, A.10.7): a text, an Image, or several
//! joined.
ghost use Rattle.std.specs.Prelude.{◌≡◌, ◌++◌, ◌∷◌, [], OnOk, option_copied};
ghost use Rattle.profile_image.specs.declared.statements.Piece.TheVariants as piece;
ghost use Rattle.ada_tree.specs.declared.expressions.Expression.TheViews.{out-Expression};
ghost use Rattle.ada_image.specs.Made.{Made};
ghost use Rattle.ada_image.specs.ImageOfCalls.{piece_of_type, image_piece, value_or_none};
ghost use Rattle.ada_image.specs.ImageOfCalls.{image_made, piece_made, joined_made, all_joined};
ghost use Rattle.ada_image.specs.ImageOfCalls.{pieces_in_form, pieces_made, put_line_put};
ghost use Rattle.image_actuals.specs.Added.{Added};

use ada_entities::copy;
use ada_image::{Lists, Within};
use ada_regions::{AdaType, Subtype};
use ada_subtypes::subtype_of_name;
use ada_tree::{Addend, Argument, Expression, ExpressionForm, Name, OneOrMore};
use ann_base::NoMemory;
use image_expressions::expression_made;
use image_layout::{action_put, first_argument};
use image_names::no_value;
use profile_image::{ExprNo, ImageList, Piece, StatementForm, StatementNo};
use std::alloc::Global;

/// The Image of a value of a type (3.5).
#[tactic(auto, unfolding(ada_image::specs::ImageOfCalls::piece_of_type))]
fn piece_of_type(value: ExprNo, of_type: AdaType) -> Piece
    ensures { result ≡ piece_of_type value of_type }
{
    match of_type {
        AdaType::Boolean => Piece::Truth(value),
        AdaType::Enumeration(enumeration) => Piece::Literal { value, enumeration },
        _ => Piece::Whole(value),
    }
}

/// The Image of a value of the subtype before the attribute.
#[tactic(auto, unfolding(ada_image::specs::ImageOfCalls::image_piece))]
fn image_piece(value: ExprNo, subtype: Option<Subtype>) -> Piece
    ensures { result ≡ image_piece value subtype }
{
    match subtype {
        None => Piece::Whole(value),
        Some(subtype) => piece_of_type(value, subtype.of_type),
    }
}

/// The value of an actual; where it is missing, what no accepted source has there.
#[tactic(auto, unfolding(ada_image::specs::ImageOfCalls::value_or_none))]
pub fn value_or_none(
    lists: &mut Lists,
    within: &Within<'_, '_>,
    expression: Option<&Expression>,
) -> Result<ExprNo, NoMemory>
    ensures { Made (value_or_none within.now (option_copied expression.entry)) lists.old lists.new
        result }
{
    match expression {
        None => no_value(lists),
        Some(expression) => expression_made(lists, expression, within),
    }
}

/// Adds an Image.
#[tactic(auto, unfolding(ada_image::specs::ImageOfCalls::image_made))]
fn push_image(
    lists: &mut Lists,
    pieces: &mut ImageList<Piece>,
    within: &Within<'_, '_>,
    name: &Name,
    arguments: &[Argument<Expression>],
) -> Result<(), NoMemory>
    ensures { OnOk result
        (Added (image_made within.now name.now arguments.now) lists.old lists.new pieces.old
        pieces.new) }
{
    let value = value_or_none(lists, within, first_argument(arguments))?;
    pieces.push(image_piece(value, subtype_of_name(within.names.get(), name)))?;
    Ok(())
}

/// Adds a text.
fn push_text(alloc: Global, pieces: &mut ImageList<Piece>, text: &[u8]) -> Result<(), NoMemory>
    ensures { OnOk result (pieces.new ≡ pieces.old ++ piece.Text text.now ∷ []) }
{
    pieces.push(Piece::Text(copy(alloc, text)?))?;
    Ok(())
}

/// Adds what is joined with others.
#[tactic(auto, unfolding(ada_image::specs::ImageOfCalls::piece_made, ada_image::specs::ImageOfCalls::piece_in_form))]
fn push_piece(
    alloc: Global,
    lists: &mut Lists,
    pieces: &mut ImageList<Piece>,
    within: &Within<'_, '_>,
    expression: &Expression,
) -> Result<(), NoMemory>
    ensures { OnOk result
        (Added (piece_made within.now expression.now) lists.old lists.new pieces.old pieces.new) }
{
    match expression.form.get() {
        ExpressionForm::Text { text, .. } => push_text(alloc, pieces, text.as_slice()),
        ExpressionForm::Named {
            name,
            arguments,
            ..
        } => push_image(lists, pieces, within, name, arguments.as_slice()),
        _ => Ok(()),
    }
}

/// Adds those behind an operator.
#[tactic(auto, unfolding(ada_image::specs::ImageOfCalls::joined_made))]
fn push_joined(
    alloc: Global,
    lists: &mut Lists,
    pieces: &mut ImageList<Piece>,
    within: &Within<'_, '_>,
    addends: &[Addend<Expression>],
) -> Result<(), NoMemory>
    ensures { OnOk result
        (Added (joined_made within.now addends.now) lists.old lists.new pieces.old pieces.new) }
{
    for addend in addends {
        push_piece(alloc, lists, pieces, within, &addend.term)?;
    }
    Ok(())
}

/// Adds all that are joined.
#[tactic(auto, unfolding(ada_image::specs::ImageOfCalls::all_joined, ada_image::specs::ImageOfCalls::joined_made))]
fn push_all_joined(
    alloc: Global,
    lists: &mut Lists,
    pieces: &mut ImageList<Piece>,
    within: &Within<'_, '_>,
    first: &Expression,
    others: &OneOrMore<Addend<Expression>>,
) -> Result<(), NoMemory>
    ensures { OnOk result
        (Added (all_joined within.now first.now (others.now.first ∷ others.now.others)) lists.old
        lists.new pieces.old pieces.new) }
{
    push_piece(alloc, lists, pieces, within, first)?;
    push_piece(alloc, lists, pieces, within, &others.first.term)?;
    push_joined(alloc, lists, pieces, within, others.others.as_slice())
}

/// Adds the pieces of a text.
#[tactic(auto, unfolding(ada_image::specs::ImageOfCalls::pieces_in_form))]
fn push_pieces(
    alloc: Global,
    lists: &mut Lists,
    pieces: &mut ImageList<Piece>,
    within: &Within<'_, '_>,
    expression: &Expression,
) -> Result<(), NoMemory>
    ensures { OnOk result
        (Added (pieces_in_form within.now (out-Expression expression.now).form) lists.old lists.new
        pieces.old pieces.new) }
{
    match expression.form.get() {
        ExpressionForm::Adding { first, others } => {
            push_all_joined(alloc, lists, pieces, within, first, others)
        }
        ExpressionForm::Text { text, .. } => push_text(alloc, pieces, text.as_slice()),
        ExpressionForm::Named {
            name,
            arguments,
            ..
        } => push_image(lists, pieces, within, name, arguments.as_slice()),
        _ => Ok(()),
    }
}

/// The pieces of the text of Put_Line.
#[tactic(auto, using(crate::proofs::PieceLemmas::both_parts), unfolding(ada_image::specs::ImageOfCalls::pieces_made))]
fn pieces_made(
    alloc: Global,
    lists: &mut Lists,
    within: &Within<'_, '_>,
    expression: Option<&Expression>,
) -> Result<ImageList<Piece>, NoMemory>
    ensures { Made (pieces_made within.now (option_copied expression.entry)) lists.old lists.new
        result }
{
    let mut pieces = ImageList::new(alloc);
    match expression {
        None => Ok(pieces),
        Some(expression) => {
            push_pieces(alloc, lists, &mut pieces, within, expression)?;
            Ok(pieces)
        }
    }
}

/// A call of Put_Line, given its actual.
#[tactic(auto, unfolding(ada_image::specs::ImageOfCalls::put_line_put))]
pub fn put_line_put(
    alloc: Global,
    lists: &mut Lists,
    within: &Within<'_, '_>,
    text: Option<&Expression>,
    signs: u32,
    next: Option<StatementNo>,
) -> Result<Option<StatementNo>, NoMemory>
    ensures { Made (put_line_put within.now (option_copied text.entry ∷ []) signs next) lists.old
        lists.new result }
{
    let pieces = pieces_made(alloc, lists, within, text)?;
    action_put(lists, StatementForm::PutLine(pieces), signs, next)
}
