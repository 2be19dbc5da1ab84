//! Values as numbers (ISO/IEC 8652:2012, 3.5).
ghost use Rattle.std.specs.Prelude.{◌≡◌};
ghost use Rattle.profile_image.specs.Words.{same_number};
ghost use Rattle.ada_legality.specs.Words.{truth_number, number_of_value, lies_between};

use ada_legality::Number;
use profile_image::Value;

/// The place of a truth in the order of Boolean.
pub(crate) fn truth_number(truth: bool) -> Number
    ensures { result ≡ truth_number truth }
{
    Number::of(if truth { 1 } else { 0 })
}

/// The place of a value in the order of its type; a Task_Id has none.
pub fn number_of_value(value: Value) -> Option<Number>
    ensures { result ≡ number_of_value value }
{
    match value {
        Value::Whole(number) => Some(Number::of(i64::from(number))),
        Value::Truth(truth) => Some(truth_number(truth)),
        Value::Literal(number) => Some(Number::of(i64::from(number))),
        Value::Ticks(number) => Some(Number::of(number)),
        Value::Task(_) => None,
        Value::Thing(number) => Some(Number::of(i64::from(number))),
    }
}

/// Whether whole numbers are equal.
pub fn same_number(a: Number, b: Number) -> bool
    ensures { result ≡ same_number a b }
{
    a.is_at_most(b) && b.is_at_most(a)
}

/// Whether a number that is known lies in a range.
pub fn lies_between(low: i64, high: i64, number: Option<Number>) -> bool
    ensures { result ≡ lies_between low high number }
{
    match number {
        None => false,
        Some(number) => {
            Number::of(low).is_at_most(number) && number.is_at_most(Number::of(high))
        }
    }
}
