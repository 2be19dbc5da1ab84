//! What expressions are read as (ISO/IEC 8652:2012, 4.4, 4.5).
ghost use Rattle.std.specs.Prelude.{◌≡◌, cond, option_map};
ghost use Rattle.ada_lex.specs.Meaning.{decimals_of};
ghost use Rattle.ann_base.specs.Lists.{is_empty};
ghost use Rattle.ada_legality.specs.declared.reading.Typed.TheVariants as typing;
ghost use Rattle.ada_legality.specs.Types.{operation_type_of_one, typed_if};
ghost use Rattle.ada_legality.specs.Reading.{with_minus, plain_read, is_number, number_read};
ghost use Rattle.ada_legality.specs.Reading.{text_read, bracketed_read, signed_read};
ghost use Rattle.ada_legality.specs.Reading.{is_barrier_operator, is_not, typed_operation};
ghost use Rattle.ada_legality.specs.Reading.{typed_join, typed_sum, first_relation};
ghost use Rattle.ada_legality.specs.Reading.{with_relation, compared_read, first_term};
ghost use Rattle.ada_legality.specs.Reading.{with_term, with_factor, highest_read};

use crate::lengths::{both_lengths, length_if_joined, short_length};
use crate::literals::{literal_at, with_minus};
use ada_legality::{Literal, Read, Shape, Typed};
use ada_lex::decimals;
use ada_tree::{
    AddingOperator, HighestOperator, LogicalOperator, MultiplyingOperator, RelationalOperator, Sign,
};
use ann_base::Place;
use image_layout::{highest_operator, logical_operator, multiplying_operator, relational_operator};
use legality_types::{operation_type, operation_type_of_one, typed_if};
use profile_image::{BinaryOperator, UnaryOperator};

/// An expression of this type, and nothing more.
pub fn plain_read(place: Place, typed: Typed) -> Read
    ensures { result ≡ plain_read place typed }
{
    Read {
        place,
        literal: None,
        shape: Shape::Other,
        typed,
        piece: None,
        line: None,
        built_as_barrier: false,
    }
}

/// A number alone.
pub(crate) fn is_number(shape: Shape) -> bool
    ensures { result ≡ is_number shape }
{
    match shape {
        Shape::Number => true,
        _ => false,
    }
}

/// The type of a number.
fn type_of_number(text: &[u8]) -> Typed
    ensures { result
        ≡ cond (is_empty (decimals_of text.now)) typing.OfWholeNumber typing.OfPointedNumber }
{
    if decimals(text).is_empty() {
        Typed::OfWholeNumber
    } else {
        Typed::OfPointedNumber
    }
}

/// A number.
#[tactic(auto, unfolding(ada_legality::specs::Reading::number_read))]
pub fn number_read(place: Place, text: &[u8]) -> Read
    ensures { result ≡ number_read place text.now }
{
    let mut read = plain_read(place, type_of_number(text));
    read.literal = Some(literal_at(place, text));
    read.shape = Shape::Number;
    read.built_as_barrier = true;
    read
}

/// A text.
#[tactic(auto, unfolding(ada_legality::specs::Reading::text_read))]
pub fn text_read(place: Place, text: &[u8]) -> Read
    ensures { result ≡ text_read place text.now }
{
    let length = short_length(text.len());
    let mut read = plain_read(place, Typed::OfText);
    read.piece = length;
    read.line = length;
    read
}

/// An expression in brackets.
#[tactic(auto, unfolding(ada_legality::specs::Reading::bracketed_read))]
pub fn bracketed_read(place: Place, inner: Read) -> Read
    ensures { result ≡ bracketed_read place inner }
{
    let mut read = plain_read(place, inner.typed);
    read.literal = inner.literal;
    read.built_as_barrier = inner.built_as_barrier;
    read
}

/// The type behind an operator of one operand.
fn typed_operation_of_one(operator: UnaryOperator, typed: Typed) -> Typed
    ensures { result ≡ typed_if (operation_type_of_one operator typed) }
{
    typed_if(operation_type_of_one(operator, typed))
}

/// The literal with a minus before it.
fn negative_literal(place: Place, literal: Option<Literal>) -> Option<Literal>
    ensures { result ≡ option_map (with_minus place) literal }
{
    let literal = literal?;
    Some(with_minus(place, literal))
}

/// Minus a number.
fn negative_read(place: Place, operand: Read) -> Read
    ensures { result
        ≡ record (plain_read place operand.typed)
        { literal = option_map (with_minus place) operand.literal } }
{
    let mut read = plain_read(place, operand.typed);
    read.literal = negative_literal(place, operand.literal);
    read
}

/// A sign before an operand: minus a literal is a literal.
#[tactic(auto, unfolding(ada_legality::specs::Reading::signed_read))]
pub fn signed_read(place: Place, sign: Sign, operand: Read) -> Read
    ensures { result ≡ signed_read place sign operand }
{
    match sign {
        Sign::Plus => plain_read(
            place,
            typed_operation_of_one(UnaryOperator::Plus, operand.typed),
        ),
        Sign::Minus => {
            if is_number(operand.shape) {
                negative_read(place, operand)
            } else {
                plain_read(
                    place,
                    typed_operation_of_one(UnaryOperator::Minus, operand.typed),
                )
            }
        }
    }
}

/// `and`, `or` and `xor`.
fn is_barrier_operator(operator: LogicalOperator) -> bool
    ensures { result ≡ is_barrier_operator operator }
{
    match operator {
        LogicalOperator::And => true,
        LogicalOperator::Or => true,
        LogicalOperator::Xor => true,
        LogicalOperator::AndThen => false,
        LogicalOperator::OrElse => false,
    }
}

fn is_not(operator: HighestOperator) -> bool
    ensures { result ≡ is_not operator }
{
    match operator {
        HighestOperator::Not => true,
        HighestOperator::Absolute => false,
    }
}

/// The type of an operation.
fn typed_operation(operator: BinaryOperator, a: Typed, b: Typed) -> Typed
    ensures { result ≡ typed_operation operator a b }
{
    typed_if(operation_type(operator, a, b))
}

/// The type of what `&` joins.
fn typed_join(a: Typed, b: Typed) -> Typed
    ensures { result ≡ typed_join a b }
{
    match (a, b) {
        (Typed::OfText, Typed::OfText) => Typed::OfText,
        _ => Typed::WithoutType,
    }
}

/// The type of a sum, a difference or a join.
#[tactic(auto, unfolding(ada_legality::specs::Reading::typed_sum))]
fn typed_sum(operator: AddingOperator, a: Typed, b: Typed) -> Typed
    ensures { result ≡ typed_sum operator a b }
{
    match operator {
        AddingOperator::Plus => typed_operation(BinaryOperator::Plus, a, b),
        AddingOperator::Minus => typed_operation(BinaryOperator::Minus, a, b),
        AddingOperator::Concatenation => typed_join(a, b),
    }
}

/// The first operand of logical operators.
#[tactic(auto, unfolding(ada_legality::specs::Reading::first_relation))]
pub fn first_relation(operator: LogicalOperator, first: Read) -> Read
    ensures { result ≡ first_relation operator first }
{
    let mut read = plain_read(first.place, first.typed);
    read.built_as_barrier = is_barrier_operator(operator) && first.built_as_barrier;
    read
}

/// One more operand of a logical operator.
#[tactic(auto, unfolding(ada_legality::specs::Reading::with_relation))]
pub fn with_relation(operator: LogicalOperator, left: Read, right: Read) -> Read
    ensures { result ≡ with_relation operator left right }
{
    let mut read = left;
    read.typed = typed_operation(logical_operator(operator), left.typed, right.typed);
    read.built_as_barrier = left.built_as_barrier && right.built_as_barrier;
    read
}

/// Two sums that are compared.
#[tactic(auto, unfolding(ada_legality::specs::Reading::compared_read))]
pub fn compared_read(operator: RelationalOperator, left: Read, right: Read) -> Read
    ensures { result ≡ compared_read operator left right }
{
    let typed = typed_operation(relational_operator(operator), left.typed, right.typed);
    let mut read = plain_read(left.place, typed);
    read.built_as_barrier = left.built_as_barrier && right.built_as_barrier;
    read
}

/// The first term of a sum.
#[tactic(auto, unfolding(ada_legality::specs::Reading::first_term))]
pub fn first_term(first: Read) -> Read
    ensures { result ≡ first_term first }
{
    let mut read = plain_read(first.place, first.typed);
    read.line = first.piece;
    read
}

/// One more term.
#[tactic(auto, unfolding(ada_legality::specs::Reading::with_term))]
pub fn with_term(operator: AddingOperator, left: Read, right: Read) -> Read
    ensures { result ≡ with_term operator left right }
{
    let mut read = left;
    read.typed = typed_sum(operator, left.typed, right.typed);
    read.line = both_lengths(left.line, length_if_joined(operator, right.piece));
    read
}

/// One more factor.
#[tactic(auto, unfolding(ada_legality::specs::Reading::with_factor))]
pub fn with_factor(operator: MultiplyingOperator, left: Read, right: Read) -> Read
    ensures { result ≡ with_factor operator left right }
{
    let mut read = left;
    read.typed = typed_operation(multiplying_operator(operator), left.typed, right.typed);
    read
}

/// `abs` and `not`.
#[tactic(auto, unfolding(ada_legality::specs::Reading::highest_read))]
pub fn highest_read(place: Place, operator: HighestOperator, operand: Read) -> Read
    ensures { result ≡ highest_read place operator operand }
{
    let typed = typed_operation_of_one(highest_operator(operator), operand.typed);
    let mut read = plain_read(place, typed);
    read.built_as_barrier = is_not(operator) && operand.built_as_barrier;
    read
}
