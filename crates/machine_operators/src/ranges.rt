//! Ends of the numbers, and ranges (ISO/IEC 8652:2012, 3.5).
ghost use Rattle.std.specs.Prelude.{◌≡◌, ◌+ℤ◌, pos, Ok, Err};
ghost use Rattle.profile_image.specs.declared.values.Value.TheVariants.{Whole};
ghost use Rattle.profile_machine.specs.Operators.{whole, ticks, held_moment, is_in};
ghost use Rattle.profile_machine.specs.Operators.{checked, place_in, component_place};

use ann_base::{Moment, Raised};
use profile_image::{Constraint, TIME_FIRST, TIME_LAST, Value};

/// The Integer of this value, where it has 32 bits (3.5.4).
pub fn whole(n: i64) -> Result<Value, Raised>
    ensures { result ≡ whole n }
{
    match i32::try_from(n) {
        Ok(n) => Ok(Value::Whole(n)),
        Err(_) => Err(Raised::Constraint),
    }
}

/// The time or span of this many ticks, where it lies between the ends of all times.
pub fn ticks(n: Moment) -> Result<Value, Raised>
    ensures { result ≡ ticks n }
{
    if TIME_FIRST <= n && n <= TIME_LAST {
        Ok(Value::Ticks(n))
    } else {
        Err(Raised::Constraint)
    }
}

/// A moment that would be set beyond an end is that end.
pub fn held_moment(n: Moment) -> Moment
    ensures { result ≡ held_moment n }
{
    if n < TIME_FIRST {
        TIME_FIRST
    } else if TIME_LAST < n {
        TIME_LAST
    } else {
        n
    }
}

// A number of ticks that would be beyond an end of all times is that end.
fn held(n: i128) -> Moment
    ensures { result ≡ held_moment n }
{
    n.clamp(i128::from(TIME_FIRST), i128::from(TIME_LAST)) as Moment
}

/// A span behind a moment from the start of the run, held between the ends of all times.
pub fn held_behind(base: u64, span: Moment) -> Moment
    ensures { result ≡ held_moment (pos base +ℤ span) }
{
    held(i128::from(base) + i128::from(span))
}

/// A sum of spans, held between the ends of all times.
pub fn held_sum(a: Moment, b: Moment) -> Moment
    ensures { result ≡ held_moment (a +ℤ b) }
{
    held(i128::from(a) + i128::from(b))
}

/// Whether the value lies in the range.
pub fn is_in(constraint: Constraint, value: Value) -> bool
    ensures { result ≡ is_in constraint value }
{
    match (constraint, value) {
        (Constraint::Free, _) => true,
        (Constraint::Whole { low, high }, Value::Whole(n)) => low <= n && n <= high,
        (Constraint::Truth { low, high }, Value::Truth(b)) => low <= b && b <= high,
        (Constraint::Literal { low, high }, Value::Literal(n)) => low <= n && n <= high,
        (Constraint::Ticks { low, high }, Value::Ticks(n)) => low <= n && n <= high,
        _ => false,
    }
}

/// A range check (4.6).
pub fn checked(constraint: Constraint, value: Value) -> Result<Value, Raised>
    ensures { result ≡ checked constraint value }
{
    if is_in(constraint, value) {
        Ok(value)
    } else {
        Err(Raised::Constraint)
    }
}

/// The place of a component in its array, by the value of the index (4.1.1).
pub fn place_in(index: Constraint, value: Value) -> u32
    ensures { result ≡ place_in index value }
{
    match (index, value) {
        (Constraint::Whole { low, .. }, Value::Whole(n)) => n.abs_diff(low),
        (Constraint::Truth { low, .. }, Value::Truth(b)) => u32::from(b).abs_diff(u32::from(low)),
        (Constraint::Literal { low, .. }, Value::Literal(n)) => n.abs_diff(low),
        _ => 0,
    }
}

/// The same, where the value lies in the range of the index.
pub fn component_place(index: Constraint, value: Value) -> Result<u32, Raised>
    ensures { result ≡ component_place index value }
{
    if is_in(index, value) {
        Ok(place_in(index, value))
    } else {
        Err(Raised::Constraint)
    }
}
