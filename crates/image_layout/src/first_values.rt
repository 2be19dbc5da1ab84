//! What a cell holds at first (ISO/IEC 8652:2012, 3.3.1; the first value is this profile's).
ghost use Rattle.std.specs.Prelude.{◌≡◌};
ghost use Rattle.ada_image.specs.Layout.{nearest, first_of_free, first_in, first_value};

use crate::subtypes::cell_subtype;
use ada_regions::{AdaType, Names, Subtype};
use ann_base::Moment;
use profile_image::{Constraint, Value};

/// The whole number of a range that is nearest to zero.
fn nearest_whole(low: i32, high: i32) -> i32
    ensures { result ≡ nearest low high }
{
    if 0 < low {
        low
    } else if high < 0 {
        high
    } else {
        0
    }
}

/// The ticks of a range that are nearest to zero.
fn nearest_ticks(low: Moment, high: Moment) -> Moment
    ensures { result ≡ nearest low high }
{
    if 0 < low {
        low
    } else if high < 0 {
        high
    } else {
        0
    }
}

/// The first value of a type without a range.
fn first_of_free(of_type: AdaType) -> Value
    ensures { result ≡ first_of_free of_type }
{
    match of_type {
        AdaType::Boolean => Value::Truth(false),
        AdaType::Duration => Value::Ticks(0),
        AdaType::Enumeration(_) => Value::Literal(0),
        AdaType::Time => Value::Ticks(0),
        AdaType::TimeSpan => Value::Ticks(0),
        AdaType::CpuTime => Value::Ticks(0),
        AdaType::TaskId => Value::Task(None),
        _ => Value::Whole(0),
    }
}

/// The first value in a range.
#[tactic(auto, unfolding(ada_image::specs::Layout::first_in))]
fn first_in(range: Constraint, of_type: AdaType) -> Value
    ensures { result ≡ first_in range of_type }
{
    match range {
        Constraint::Free => first_of_free(of_type),
        Constraint::Whole { low, high } => Value::Whole(nearest_whole(low, high)),
        Constraint::Truth { low, .. } => Value::Truth(low),
        Constraint::Literal { low, .. } => Value::Literal(low),
        Constraint::Ticks { low, high } => Value::Ticks(nearest_ticks(low, high)),
    }
}

/// What a cell of an object of this subtype holds at first.
#[tactic(auto, unfolding(ada_image::specs::Layout::first_value))]
pub fn first_value(names: &Names<'_>, subtype: Option<Subtype>) -> Value
    ensures { result ≡ first_value names.now subtype }
{
    match subtype {
        None => Value::Whole(0),
        Some(subtype) => match cell_subtype(names, subtype) {
            None => Value::Whole(0),
            Some(cell) => first_in(cell.range, cell.of_type),
        },
    }
}
