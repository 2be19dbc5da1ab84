//! The values of numeric literals (ISO/IEC 8652:2012, 2.4).
ghost use Rattle.std.specs.Prelude.{◌≡◌, ◌+◌, ◌*◌, ◌<◌, ◌≤◌, ◌^◌};
ghost use Rattle.std.specs.Option.{SomeIff};
ghost use Rattle.ada_lex.specs.Meaning.{whole_of};
ghost use Rattle.ada_regions.specs.Statics.{digit_at, six_digits, micros_of, in_integer};
ghost use Rattle.ada_regions.specs.Statics.{in_duration, negative_in_integer};
ghost use Rattle.ada_regions.specs.Statics.{negative_in_duration, static_literal, static_negative};

use ada_lex::{decimals, whole_value};
use ada_regions::{LAST_DURATION, LAST_INTEGER};
use ann_base::Moment;
use profile_image::Value;

/// The digit at a place behind the point; 0 where none stands there.
fn digit_at(digits: &[u8], place: usize) -> u64
    ensures digit { result ≡ digit_at digits.now place }
    ensures bound { result ≤ 255 }
{
    match digits.get(place) {
        Some(digit) => u64::from(digit.saturating_sub(b'0')),
        None => 0,
    }
}

/// Six decimals as one number.
fn six_digits(digits: &[u8]) -> u64
    ensures number { result ≡ six_digits digits.now }
{
    let one = digit_at(digits, 0);
    let two = one * 10 + digit_at(digits, 1);
    let three = two * 10 + digit_at(digits, 2);
    let four = three * 10 + digit_at(digits, 3);
    let five = four * 10 + digit_at(digits, 4);
    five * 10 + digit_at(digits, 5)
}

/// Some whole number of seconds with six decimals, in ticks.
fn ticks(seconds: u128, decimals: u64) -> Option<u128>
    ensures { SomeIff result (seconds * 1000000 + decimals < 2 ^ 128)
        (seconds * 1000000 + decimals) }
{
    let ticks = seconds.checked_mul(1_000_000)?;
    ticks.checked_add(u128::from(decimals))
}

/// A literal in ticks of a microsecond, where 128 bits hold it.
#[tactic(auto, unfolding(ada_regions::specs::Statics::micros_of))]
pub fn micros_of(literal: &[u8]) -> Option<u128>
    ensures { SomeIff result (micros_of literal.now < 2 ^ 128) (micros_of literal.now) }
{
    let seconds = whole_value(literal)?;
    ticks(seconds, six_digits(decimals(literal)))
}

fn in_integer(literal: &[u8]) -> Option<Value>
    ensures { result ≡ in_integer (whole_of literal.now) }
{
    match whole_value(literal) {
        Some(value) if value <= LAST_INTEGER => Some(Value::Whole(value as i32)),
        _ => None,
    }
}

fn in_duration(literal: &[u8]) -> Option<Value>
    ensures { result ≡ in_duration (micros_of literal.now) }
{
    match micros_of(literal) {
        Some(ticks) if ticks <= LAST_DURATION => Some(Value::Ticks(ticks as Moment)),
        _ => None,
    }
}

fn negative_in_integer(literal: &[u8]) -> Option<Value>
    ensures { result ≡ negative_in_integer (whole_of literal.now) }
{
    match whole_value(literal) {
        Some(value) if value <= LAST_INTEGER + 1 => Some(Value::Whole((-(value as i64)) as i32)),
        _ => None,
    }
}

fn negative_in_duration(literal: &[u8]) -> Option<Value>
    ensures { result ≡ negative_in_duration (micros_of literal.now) }
{
    match micros_of(literal) {
        Some(ticks) if ticks <= LAST_DURATION + 1 => Some(Value::Ticks(-(ticks as Moment))),
        _ => None,
    }
}

/// The value of a numeric literal that lies in its type: one with a point in Duration, any other
/// one in Integer.
#[tactic(auto, unfolding(ada_regions::specs::Statics::static_literal))]
pub fn static_literal(literal: &[u8]) -> Option<Value>
    ensures { result ≡ static_literal literal.now }
{
    if decimals(literal).is_empty() {
        in_integer(literal)
    } else {
        in_duration(literal)
    }
}

/// The value of a numeric literal behind a minus that lies in its type.
#[tactic(auto, unfolding(ada_regions::specs::Statics::static_negative))]
pub fn static_negative(literal: &[u8]) -> Option<Value>
    ensures { result ≡ static_negative literal.now }
{
    if decimals(literal).is_empty() {
        negative_in_integer(literal)
    } else {
        negative_in_duration(literal)
    }
}
