//! Numeric literals as numbers (ISO/IEC 8652:2012, 2.4).
ghost use Rattle.std.specs.Prelude.{◌≡◌, ◌<◌, ◌≤◌, ◌^◌, neg_ℤ, IfOk, IsOk};
ghost use Rattle.ada_lex.specs.Meaning.{whole_of};
ghost use Rattle.ada_regions.specs.Statics.{digit_at, six_digits};
ghost use Rattle.ada_legality.specs.Words.{number_of_literal};

use ada_legality::Number;
use ada_lex::{decimals, whole_value};
use ann_base::NoMemory;

/// The digit at a place behind the point; 0 where none stands there.
fn digit_at(digits: &[u8], place: usize) -> u64
    ensures digit { result ≡ digit_at digits.now place }
    ensures bound { result ≤ 255 }
{
    match digits.get(place) {
        Some(digit) => u64::from(digit.saturating_sub(b'0')),
        None => 0,
    }
}

/// Six decimals as one number.
fn six_digits(digits: &[u8]) -> u64
    ensures { result ≡ six_digits digits.now }
{
    let one = digit_at(digits, 0);
    let two = one * 10 + digit_at(digits, 1);
    let three = two * 10 + digit_at(digits, 2);
    let four = three * 10 + digit_at(digits, 3);
    let five = four * 10 + digit_at(digits, 4);
    five * 10 + digit_at(digits, 5)
}

/// The number of a literal by its text, which may lie outside its type: one with a point counts
/// microseconds. No token has a whole part of more than 128 bits, and only a literal that has one
/// is answered by `NoMemory`.
#[tactic(auto, unfolding(ada_legality::specs::Words::number_of_literal, ada_regions::specs::Statics::micros_of))]
pub fn number_of_literal(literal: &[u8]) -> Result<Number, NoMemory>
    ensures number { IfOk result (λ n. n ≡ number_of_literal literal.now) }
    ensures held { whole_of literal.now < 2 ^ 128 → IsOk result }
{
    let decimals = decimals(literal);
    match whole_value(literal) {
        None => Err(NoMemory),
        Some(whole) => {
            if decimals.is_empty() {
                Ok(Number::of_whole(whole))
            } else {
                Ok(Number::of_seconds(whole, six_digits(decimals)))
            }
        }
    }
}

/// The number of minus a literal. It is answered as that of the literal is.
#[tactic(auto, unfolding(ada_legality::specs::Words::number_of_literal, ada_regions::specs::Statics::micros_of))]
pub fn number_of_negative(literal: &[u8]) -> Result<Number, NoMemory>
    ensures number { IfOk result (λ n. n ≡ neg_ℤ (number_of_literal literal.now)) }
    ensures held { whole_of literal.now < 2 ^ 128 → IsOk result }
{
    let decimals = decimals(literal);
    match whole_value(literal) {
        None => Err(NoMemory),
        Some(whole) => {
            if decimals.is_empty() {
                Ok(Number::minus_whole(whole))
            } else {
                Ok(Number::minus_seconds(whole, six_digits(decimals)))
            }
        }
    }
}
