//! The values of subtypes, as numbers (ISO/IEC 8652:2012, 3.5, 5.4).
ghost use Rattle.std.specs.Prelude.{◌≡◌, ◌-◌, [], length, slice_get, unwrap_or};
ghost use Rattle.ada_legality.specs.Choices.{whole_range_of, range_typed};

use crate::spans::span_of;
use crate::{ends_of, span};
use ada_legality::{Number, Span, Typed};
use ada_regions::{AdaType, Names};
use profile_image::{INTEGER_FIRST, INTEGER_LAST};

/// The last position of an enumeration type.
fn last_literal(names: &Names<'_>, enumeration: usize) -> usize
    ensures { result
        ≡ length (unwrap_or (slice_get names.now.enumerations enumeration) []) - 1 }
{
    match names.enumerations.get(enumeration) {
        None => 0,
        Some(literals) => literals.as_slice().len().saturating_sub(1),
    }
}

/// The values of a type.
#[tactic(auto, unfolding(ada_legality::specs::Choices::whole_range_of))]
pub fn whole_range_of(names: &Names<'_>, t: AdaType) -> Span
    ensures { result ≡ whole_range_of names.now t }
{
    match t {
        AdaType::Integer => span_of(i64::from(INTEGER_FIRST), i64::from(INTEGER_LAST)),
        AdaType::Boolean => span_of(0, 1),
        AdaType::Enumeration(enumeration) => {
            let last = last_literal(names, enumeration.0 as usize);
            span(Number::of(0), Number::of_count(last))
        }
        _ => span_of(0, 0),
    }
}

/// The values that the choices have to cover.
#[tactic(auto, unfolding(ada_legality::specs::Choices::range_typed))]
pub fn range_typed(names: &Names<'_>, is_name: bool, typed: Typed, t: AdaType) -> Span
    ensures { result ≡ range_typed names.now is_name typed t }
{
    match (is_name, typed) {
        (true, Typed::OfSubtype(subtype)) => match ends_of(subtype.range) {
            None => whole_range_of(names, t),
            Some(ends) => ends,
        },
        _ => whole_range_of(names, t),
    }
}
