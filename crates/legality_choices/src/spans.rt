//! The values from one to another, as numbers (ISO/IEC 8652:2012, 3.5).
ghost use Rattle.std.specs.Prelude.{◌≡◌};
ghost use Rattle.ada_legality.specs.Choices.{ends_of, meet, meet_in, span};

use crate::numbers::truth_number;
use ada_legality::{Number, Span};
use profile_image::Constraint;

/// Whether two ranges have a value in common.
fn meet_in(a: Span, b: Span) -> bool
    ensures { result ≡ meet_in a b }
{
    (a.low.is_at_most(a.high) && b.low.is_at_most(b.high))
        && (a.low.is_at_most(b.high) && b.low.is_at_most(a.high))
}

/// Whether two ranges that are known have a value in common.
#[tactic(auto, unfolding(ada_legality::specs::Choices::meet))]
pub fn meet(a: Option<Span>, b: Option<Span>) -> bool
    ensures { result ≡ meet a b }
{
    match a {
        None => false,
        Some(a) => match b {
            None => false,
            Some(b) => meet_in(a, b),
        },
    }
}

/// The values from one to another.
pub fn span(low: Number, high: Number) -> Span
    ensures { result ≡ span low high }
{
    Span { low, high }
}

/// The values from one number of 64 bits to another.
pub(crate) fn span_of(low: i64, high: i64) -> Span
    ensures { result ≡ span low high }
{
    span(Number::of(low), Number::of(high))
}

/// The ends of a range, as numbers.
#[tactic(auto, unfolding(ada_legality::specs::Choices::ends_of))]
pub fn ends_of(range: Constraint) -> Option<Span>
    ensures { result ≡ ends_of range }
{
    match range {
        Constraint::Free => None,
        Constraint::Whole { low, high } => Some(span_of(i64::from(low), i64::from(high))),
        Constraint::Truth { low, high } => Some(span(truth_number(low), truth_number(high))),
        Constraint::Literal { low, high } => Some(span_of(i64::from(low), i64::from(high))),
        Constraint::Ticks { low, high } => Some(span_of(low, high)),
    }
}
