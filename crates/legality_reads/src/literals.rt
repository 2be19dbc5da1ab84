//! Numeric literals (ISO/IEC 8652:2012, 2.4, 3.5.4, 9.6).
ghost use Rattle.std.specs.Prelude.{◌≡◌, ◌++◌, ◌<◌, ◌^◌, leb, OnOk};
ghost use Rattle.ada_regions.specs.Numbered.{no_place};
ghost use Rattle.ada_lex.specs.Meaning.{whole_of};
ghost use Rattle.ada_legality.specs.Reading.{no_literal, literal_in, lies_in_duration};
ghost use Rattle.ada_legality.specs.Reading.{literal_at, with_minus, integer_literal};
ghost use Rattle.ada_legality.specs.Reading.{duration_literal, other_pointed_literal};

use ada_legality::{Finding, Literal, Read, Rule};
use ada_lex::{decimals, whole_value};
use ada_regions::{LAST_DURATION, LAST_INTEGER};
use ada_subtypes::micros_of;
use ann_base::{NoMemory, Place};
use legality_types::{broken_if, broken_unless};
use world_tables::List;

fn no_literal() -> Literal
    ensures { result ≡ no_literal }
{
    let no_place = Place { line: 0, column: 0 };
    Literal {
        place: no_place,
        number_place: no_place,
        is_integer: false,
        is_negative_integer: false,
        is_duration: false,
    }
}

/// The literal of an expression that is one.
pub fn literal_in(read: &Read) -> Literal
    ensures { result ≡ literal_in read.now }
{
    match read.literal {
        None => no_literal(),
        Some(literal) => literal,
    }
}

/// Whether a number has at most six decimals and is a value of Duration.
fn lies_in_duration(text: &[u8]) -> bool
    ensures { result ≡ lies_in_duration text.now }
{
    decimals(text).len() <= 6
        && match micros_of(text) {
            None => false,
            Some(ticks) => ticks <= LAST_DURATION,
        }
}

/// Whether a number is no greater than this, which is less than 2 to the power of 127.
fn is_at_most(text: &[u8], last: u128) -> bool
    requires { last < 2 ^ 127 }
    ensures { result ≡ leb (whole_of text.now) last }
{
    match whole_value(text) {
        None => false,
        Some(number) => number <= last,
    }
}

/// A number as it stands in the tree.
#[tactic(auto, unfolding(ada_legality::specs::Reading::literal_at))]
pub(crate) fn literal_at(place: Place, text: &[u8]) -> Literal
    ensures { result ≡ literal_at place text.now }
{
    Literal {
        place,
        number_place: place,
        is_integer: is_at_most(text, LAST_INTEGER),
        is_negative_integer: is_at_most(text, LAST_INTEGER + 1),
        is_duration: lies_in_duration(text),
    }
}

/// The same with a minus before it.
pub(crate) fn with_minus(place: Place, literal: Literal) -> Literal
    ensures { result ≡ with_minus place literal }
{
    Literal {
        place,
        number_place: literal.number_place,
        is_integer: literal.is_negative_integer,
        is_negative_integer: literal.is_negative_integer,
        is_duration: literal.is_duration,
    }
}

/// A literal that stands for a value of Integer.
pub fn integer_literal(found: &mut List<Finding>, literal: Literal) -> Result<(), NoMemory>
    ensures { OnOk result (found.new ≡ found.old ++ integer_literal literal) }
{
    broken_unless(
        found,
        Rule::IntegerLiteral,
        literal.is_integer,
        literal.place,
    )
}

/// A literal that stands for a value of Duration.
pub(crate) fn duration_literal(found: &mut List<Finding>, literal: Literal) -> Result<(), NoMemory>
    ensures { OnOk result (found.new ≡ found.old ++ duration_literal literal) }
{
    broken_unless(
        found,
        Rule::DurationLiteral,
        literal.is_duration,
        literal.number_place,
    )
}

/// A number with a point that stands for something else.
pub fn other_pointed_literal(found: &mut List<Finding>, literal: Literal) -> Result<(), NoMemory>
    ensures { OnOk result (found.new ≡ found.old ++ other_pointed_literal literal) }
{
    broken_if(found, Rule::DurationLiteral, true, literal.number_place)
}
