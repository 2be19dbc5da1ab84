//! Operators and attributes (ISO/IEC 8652:2012, 4.5, 4.1.4).
ghost use Rattle.std.specs.Prelude.{◌≡◌, codes};
ghost use Rattle.ada_tree.specs.SpellingExpressions.{highest_text, sign_text};
ghost use Rattle.ada_grammar.specs.Reading.{sees_word, the_delimiter, the_word};
ghost use Rattle.ada_grammar.specs.ReadingExpressions.{addition_of, adds, again_of};
ghost use Rattle.ada_grammar.specs.ReadingExpressions.{attribute_word_of, both_words_of};
ghost use Rattle.ada_grammar.specs.ReadingExpressions.{compares, comparison_of, conjunction_of};
ghost use Rattle.ada_grammar.specs.ReadingExpressions.{designator_of, disjunction_of, joins};
ghost use Rattle.ada_grammar.specs.ReadingExpressions.{logical_operator_of, logical_text};
ghost use Rattle.ada_grammar.specs.ReadingExpressions.{multiplication_of, multiplies};
ghost use Rattle.ada_grammar.specs.Reads.{Reads};

use ada_grammar::{Cursor, Stuck};
use ada_lex::{Delimiter, Reserved};
use ada_tree::{
    AddingOperator, Attribute, AttributeDesignator, HighestOperator, LogicalOperator,
    MultiplyingOperator, RelationalOperator, Sign,
};
use ann_base::{OrMemory, Place};

/// Whether a relational operator comes next (4.5.2).
pub fn compares(cursor: &Cursor<'_>) -> bool
    ensures { result ≡ compares cursor.now }
{
    cursor.is_delimiter(Delimiter::Equal)
        || cursor.is_delimiter(Delimiter::NotEqual)
        || cursor.is_delimiter(Delimiter::Less)
        || cursor.is_delimiter(Delimiter::AtMost)
        || cursor.is_delimiter(Delimiter::Greater)
        || cursor.is_delimiter(Delimiter::AtLeast)
}

/// A relational operator, with its place (4.5.2).
#[tactic(auto, unfolding(ada_grammar::specs::ReadingExpressions::comparison_of, ada_grammar::specs::ReadingExpressions::relational_of))]
pub fn comparison(cursor: &mut Cursor<'_>) -> Result<(Place, RelationalOperator), OrMemory<Stuck>>
    ensures { Reads result cursor.new (comparison_of cursor.old) }
{
    if cursor.is_delimiter(Delimiter::Equal) {
        Ok((
            cursor.delimiter(Delimiter::Equal)?,
            RelationalOperator::Equal,
        ))
    } else if cursor.is_delimiter(Delimiter::NotEqual) {
        Ok((
            cursor.delimiter(Delimiter::NotEqual)?,
            RelationalOperator::NotEqual,
        ))
    } else if cursor.is_delimiter(Delimiter::Less) {
        Ok((cursor.delimiter(Delimiter::Less)?, RelationalOperator::Less))
    } else if cursor.is_delimiter(Delimiter::AtMost) {
        Ok((
            cursor.delimiter(Delimiter::AtMost)?,
            RelationalOperator::LessOrEqual,
        ))
    } else if cursor.is_delimiter(Delimiter::Greater) {
        Ok((
            cursor.delimiter(Delimiter::Greater)?,
            RelationalOperator::Greater,
        ))
    } else {
        Ok((
            cursor.delimiter(Delimiter::AtLeast)?,
            RelationalOperator::GreaterOrEqual,
        ))
    }
}

/// Whether a binary adding operator comes next (4.5.3).
pub fn adds(cursor: &Cursor<'_>) -> bool
    ensures { result ≡ adds cursor.now }
{
    cursor.is_delimiter(Delimiter::Plus)
        || cursor.is_delimiter(Delimiter::Minus)
        || cursor.is_delimiter(Delimiter::Ampersand)
}

/// A binary adding operator, with its place (4.5.3).
#[tactic(auto, unfolding(ada_grammar::specs::ReadingExpressions::addition_of, ada_grammar::specs::ReadingExpressions::adding_of))]
pub fn addition(cursor: &mut Cursor<'_>) -> Result<(Place, AddingOperator), OrMemory<Stuck>>
    ensures { Reads result cursor.new (addition_of cursor.old) }
{
    if cursor.is_delimiter(Delimiter::Plus) {
        Ok((cursor.delimiter(Delimiter::Plus)?, AddingOperator::Plus))
    } else if cursor.is_delimiter(Delimiter::Minus) {
        Ok((cursor.delimiter(Delimiter::Minus)?, AddingOperator::Minus))
    } else {
        Ok((
            cursor.delimiter(Delimiter::Ampersand)?,
            AddingOperator::Concatenation,
        ))
    }
}

/// A sign, and answers its place (4.5.4).
pub fn sign_place(cursor: &mut Cursor<'_>, sign: Sign) -> Result<Place, OrMemory<Stuck>>
    ensures { Reads result cursor.new (the_delimiter (sign_text sign) cursor.old) }
{
    match sign {
        Sign::Plus => cursor.delimiter(Delimiter::Plus),
        Sign::Minus => cursor.delimiter(Delimiter::Minus),
    }
}

/// Whether a multiplying operator comes next (4.5.5).
pub fn multiplies(cursor: &Cursor<'_>) -> bool
    ensures { result ≡ multiplies cursor.now }
{
    cursor.is_delimiter(Delimiter::Asterisk)
        || cursor.is_delimiter(Delimiter::Solidus)
        || cursor.is_word(Reserved::Mod)
        || cursor.is_word(Reserved::Rem)
}

/// A multiplying operator, with its place (4.5.5).
#[tactic(auto, unfolding(ada_grammar::specs::ReadingExpressions::multiplication_of, ada_grammar::specs::ReadingExpressions::multiplying_delimiter_of, ada_grammar::specs::ReadingExpressions::multiplying_word_of))]
pub fn multiplication(
    cursor: &mut Cursor<'_>,
) -> Result<(Place, MultiplyingOperator), OrMemory<Stuck>>
    ensures { Reads result cursor.new (multiplication_of cursor.old) }
{
    if cursor.is_delimiter(Delimiter::Asterisk) {
        Ok((
            cursor.delimiter(Delimiter::Asterisk)?,
            MultiplyingOperator::Times,
        ))
    } else if cursor.is_delimiter(Delimiter::Solidus) {
        Ok((
            cursor.delimiter(Delimiter::Solidus)?,
            MultiplyingOperator::Divide,
        ))
    } else if cursor.is_word(Reserved::Mod) {
        Ok((cursor.word(Reserved::Mod)?, MultiplyingOperator::Modulus))
    } else {
        Ok((cursor.word(Reserved::Rem)?, MultiplyingOperator::Remainder))
    }
}

/// A highest precedence operator of one operand, and answers its place (4.5.6).
pub fn highest_place(
    cursor: &mut Cursor<'_>,
    operator: HighestOperator,
) -> Result<Place, OrMemory<Stuck>>
    ensures { Reads result cursor.new (the_word (highest_text operator) cursor.old) }
{
    match operator {
        HighestOperator::Absolute => cursor.word(Reserved::Abs),
        HighestOperator::Not => cursor.word(Reserved::Not),
    }
}

/// Whether a logical operator comes next (4.5.1).
pub fn joins(cursor: &Cursor<'_>) -> bool
    ensures { result ≡ joins cursor.now }
{
    cursor.is_word(Reserved::And) || cursor.is_word(Reserved::Or) || cursor.is_word(Reserved::Xor)
}

/// `and` or `and then`, with its place (4.5.1).
#[tactic(auto, unfolding(ada_grammar::specs::ReadingExpressions::conjunction_of))]
fn conjunction(cursor: &mut Cursor<'_>) -> Result<(Place, LogicalOperator), OrMemory<Stuck>>
    ensures { Reads result cursor.new (conjunction_of cursor.old) }
{
    let place = cursor.word(Reserved::And)?;
    if cursor.is_word(Reserved::Then) {
        cursor.word(Reserved::Then)?;
        Ok((place, LogicalOperator::AndThen))
    } else {
        Ok((place, LogicalOperator::And))
    }
}

/// `or` or `or else`, with its place (4.5.1).
#[tactic(auto, unfolding(ada_grammar::specs::ReadingExpressions::disjunction_of))]
fn disjunction(cursor: &mut Cursor<'_>) -> Result<(Place, LogicalOperator), OrMemory<Stuck>>
    ensures { Reads result cursor.new (disjunction_of cursor.old) }
{
    let place = cursor.word(Reserved::Or)?;
    if cursor.is_word(Reserved::Else) {
        cursor.word(Reserved::Else)?;
        Ok((place, LogicalOperator::OrElse))
    } else {
        Ok((place, LogicalOperator::Or))
    }
}

/// A logical operator, with its place (4.5.1).
#[tactic(auto, unfolding(ada_grammar::specs::ReadingExpressions::logical_operator_of, ada_grammar::specs::ReadingExpressions::exclusive_of))]
pub fn logical_operator(
    cursor: &mut Cursor<'_>,
) -> Result<(Place, LogicalOperator), OrMemory<Stuck>>
    ensures { Reads result cursor.new (logical_operator_of cursor.old) }
{
    if cursor.is_word(Reserved::And) {
        conjunction(cursor)
    } else if cursor.is_word(Reserved::Or) {
        disjunction(cursor)
    } else {
        Ok((cursor.word(Reserved::Xor)?, LogicalOperator::Xor))
    }
}

/// Whether the first word of this logical operator comes next (4.5.1).
pub fn joins_again(cursor: &Cursor<'_>, operator: LogicalOperator) -> bool
    ensures { result ≡ sees_word (logical_text operator) cursor.now }
{
    match operator {
        LogicalOperator::And | LogicalOperator::AndThen => cursor.is_word(Reserved::And),
        LogicalOperator::Or | LogicalOperator::OrElse => cursor.is_word(Reserved::Or),
        LogicalOperator::Xor => cursor.is_word(Reserved::Xor),
    }
}

/// `and then`, and answers its place (4.5.1).
#[tactic(auto, unfolding(ada_grammar::specs::ReadingExpressions::both_words_of))]
fn and_then(cursor: &mut Cursor<'_>) -> Result<Place, OrMemory<Stuck>>
    ensures { Reads result cursor.new (both_words_of (codes "and") (codes "then") cursor.old) }
{
    let place = cursor.word(Reserved::And)?;
    cursor.word(Reserved::Then)?;
    Ok(place)
}

/// `or else`, and answers its place (4.5.1).
#[tactic(auto, unfolding(ada_grammar::specs::ReadingExpressions::both_words_of))]
fn or_else(cursor: &mut Cursor<'_>) -> Result<Place, OrMemory<Stuck>>
    ensures { Reads result cursor.new (both_words_of (codes "or") (codes "else") cursor.old) }
{
    let place = cursor.word(Reserved::Or)?;
    cursor.word(Reserved::Else)?;
    Ok(place)
}

/// This logical operator, and answers its place (4.5.1).
pub fn again(cursor: &mut Cursor<'_>, operator: LogicalOperator) -> Result<Place, OrMemory<Stuck>>
    ensures { Reads result cursor.new (again_of operator cursor.old) }
{
    match operator {
        LogicalOperator::And => cursor.word(Reserved::And),
        LogicalOperator::Or => cursor.word(Reserved::Or),
        LogicalOperator::Xor => cursor.word(Reserved::Xor),
        LogicalOperator::AndThen => and_then(cursor),
        LogicalOperator::OrElse => or_else(cursor),
    }
}

/// The word of an attribute, and answers the attribute with its place (4.1.4).
#[tactic(auto, unfolding(ada_grammar::specs::ReadingExpressions::attribute_word_of, ada_grammar::specs::ReadingExpressions::this_attribute_of))]
fn attribute_word(cursor: &mut Cursor<'_>) -> Result<AttributeDesignator, OrMemory<Stuck>>
    ensures { Reads result cursor.new (attribute_word_of cursor.old) }
{
    if cursor.is_spelt(b"first") {
        Ok(AttributeDesignator {
            place: cursor.spelt(b"first")?,
            attribute: Attribute::First,
        })
    } else if cursor.is_spelt(b"last") {
        Ok(AttributeDesignator {
            place: cursor.spelt(b"last")?,
            attribute: Attribute::Last,
        })
    } else if cursor.is_spelt(b"image") {
        Ok(AttributeDesignator {
            place: cursor.spelt(b"image")?,
            attribute: Attribute::Image,
        })
    } else if cursor.is_spelt(b"count") {
        Ok(AttributeDesignator {
            place: cursor.spelt(b"count")?,
            attribute: Attribute::Count,
        })
    } else if cursor.is_spelt(b"identity") {
        Ok(AttributeDesignator {
            place: cursor.spelt(b"identity")?,
            attribute: Attribute::Identity,
        })
    } else {
        Ok(AttributeDesignator {
            place: cursor.word(Reserved::Access)?,
            attribute: Attribute::Access,
        })
    }
}

/// A tick and an attribute, where a tick comes next (4.1.4).
#[tactic(auto, unfolding(ada_grammar::specs::ReadingExpressions::designator_of))]
pub fn designator(cursor: &mut Cursor<'_>) -> Result<Option<AttributeDesignator>, OrMemory<Stuck>>
    ensures { Reads result cursor.new (designator_of cursor.old) }
{
    if cursor.is_delimiter(Delimiter::Apostrophe) {
        cursor.delimiter(Delimiter::Apostrophe)?;
        Ok(Some(attribute_word(cursor)?))
    } else {
        Ok(None)
    }
}
