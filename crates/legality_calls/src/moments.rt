//! The moment of a Set_Handler (ISO/IEC 8652:2012, D.14.1, D.15): told by its name, else by the
//! second actual's type.
ghost use Rattle.std.specs.Prelude.{◌≡◌};
ghost use Rattle.ada_legality.specs.Calls.{gives_name, moment_name, has_named};
ghost use Rattle.ada_legality.specs.Calls.{positional, second_positional, has_span_first};
ghost use Rattle.ada_legality.specs.Calls.{span_if_typed, span_by, moment_is_span};

use ada_legality::{ActualPart, Typed};
use ada_regions::{Operation, is_span_type};
use legality_types::is_of_time;

/// The name of the moment: for a span, or for a moment.
pub(crate) fn moment_name(is_span: bool) -> &'static [u8]
    ensures { result.now ≡ moment_name is_span }
{
    if is_span { b"in_time" } else { b"at_time" }
}

/// An actual is given by this name.
pub(crate) fn gives_name(name: &[u8], actual: &ActualPart) -> bool
    ensures { result ≡ gives_name name.now actual.now }
{
    match &actual.formal {
        None => false,
        Some(formal) => name == formal.as_slice(),
    }
}

/// Some actual is given by this name.
#[tactic(auto, unfolding(ada_legality::specs::Calls::has_named))]
fn has_named(name: &[u8], actuals: &[ActualPart]) -> bool
    ensures { result ≡ has_named name.now actuals.now }
{
    actuals.iter().any(|actual| gives_name(name, actual))
}

/// The type of an actual without a name.
fn positional(actual: &ActualPart) -> Option<Typed>
    ensures { result ≡ positional actual.now }
{
    match &actual.formal {
        Some(_) => None,
        None => Some(actual.read.typed),
    }
}

/// The type of the second actual, where it has no name.
fn second_positional(actuals: &[ActualPart]) -> Option<Typed>
    ensures { result ≡ second_positional actuals.now }
{
    let actual = actuals.get(1)?;
    positional(actual)
}

fn has_span_first(operation: Operation) -> bool
    ensures { result ≡ has_span_first operation }
{
    match operation {
        Operation::SetTimer => true,
        _ => false,
    }
}

fn span_if_typed(first: bool, typed: Typed) -> bool
    ensures { result ≡ span_if_typed first typed }
{
    match typed {
        Typed::OfSubtype(subtype) => {
            if is_span_type(subtype.of_type) {
                true
            } else if is_of_time(subtype.of_type) {
                false
            } else {
                first
            }
        }
        _ => first,
    }
}

fn span_by(first: bool, in_time: bool, at_time: bool, second: Option<Typed>) -> bool
    ensures { result ≡ span_by first in_time at_time second }
{
    if in_time {
        true
    } else if at_time {
        false
    } else {
        match second {
            None => first,
            Some(typed) => span_if_typed(first, typed),
        }
    }
}

/// The moment of a Set_Handler is a span.
#[tactic(auto, unfolding(ada_legality::specs::Calls::moment_is_span))]
pub(crate) fn moment_is_span(operation: Operation, actuals: &[ActualPart]) -> bool
    ensures { result ≡ moment_is_span operation actuals.now }
{
    span_by(
        has_span_first(operation),
        has_named(moment_name(true), actuals),
        has_named(moment_name(false), actuals),
        second_positional(actuals),
    )
}
