//! The ends of ranges (ISO/IEC 8652:2012, 3.5).
ghost use Rattle.std.specs.Prelude.{◌≡◌, slice_get};
ghost use Rattle.ada_regions.specs.Statics.{low_of, high_of, index_or_free};
ghost use Rattle.ada_regions.specs.Statics.{range_of_type, range_named};
ghost use Rattle.ada_regions.specs.Subtypes.{whole_range, truth_range, literal_range};
ghost use Rattle.ada_regions.specs.Subtypes.{ticks_range, range_between};

use ada_regions::{AdaType, Names, Subtype};
use ann_base::Moment;
use profile_image::{Constraint, Value};

/// The low end of a range.
pub fn low_of(range: Constraint) -> Option<Value>
    ensures { result ≡ low_of range }
{
    match range {
        Constraint::Free => None,
        Constraint::Whole { low, .. } => Some(Value::Whole(low)),
        Constraint::Truth { low, .. } => Some(Value::Truth(low)),
        Constraint::Literal { low, .. } => Some(Value::Literal(low)),
        Constraint::Ticks { low, .. } => Some(Value::Ticks(low)),
    }
}

/// The high end of a range.
pub fn high_of(range: Constraint) -> Option<Value>
    ensures { result ≡ high_of range }
{
    match range {
        Constraint::Free => None,
        Constraint::Whole { high, .. } => Some(Value::Whole(high)),
        Constraint::Truth { high, .. } => Some(Value::Truth(high)),
        Constraint::Literal { high, .. } => Some(Value::Literal(high)),
        Constraint::Ticks { high, .. } => Some(Value::Ticks(high)),
    }
}

/// The range of the index of an array type.
fn index_of(names: &Names<'_>, array: u32) -> Constraint
    ensures { result ≡ index_or_free (slice_get names.now.arrays array) }
{
    match names.arrays.get(array as usize) {
        Some(array) => array.index,
        None => Constraint::Free,
    }
}

/// The range of an array's index, and of any other subtype.
#[tactic(auto, unfolding(ada_regions::specs::Statics::range_of_type))]
pub fn range_named(names: &Names<'_>, subtype: Subtype) -> Constraint
    ensures { result ≡ range_named names.now subtype }
{
    match subtype.of_type {
        AdaType::Integer => subtype.range,
        AdaType::Boolean => subtype.range,
        AdaType::Duration => subtype.range,
        AdaType::Enumeration(_) => subtype.range,
        AdaType::Array(array) => index_of(names, array),
        _ => Constraint::Free,
    }
}

fn whole_range(low: i32, high: Option<Value>, range: Constraint) -> Constraint
    ensures { result ≡ whole_range low high range }
{
    match high {
        Some(Value::Whole(high)) => Constraint::Whole { low, high },
        _ => range,
    }
}

fn truth_range(low: bool, high: Option<Value>, range: Constraint) -> Constraint
    ensures { result ≡ truth_range low high range }
{
    match high {
        Some(Value::Truth(high)) => Constraint::Truth { low, high },
        _ => range,
    }
}

fn literal_range(low: u32, high: Option<Value>, range: Constraint) -> Constraint
    ensures { result ≡ literal_range low high range }
{
    match high {
        Some(Value::Literal(high)) => Constraint::Literal { low, high },
        _ => range,
    }
}

fn ticks_range(low: Moment, high: Option<Value>, range: Constraint) -> Constraint
    ensures { result ≡ ticks_range low high range }
{
    match high {
        Some(Value::Ticks(high)) => Constraint::Ticks { low, high },
        _ => range,
    }
}

/// The range from one value to another, where both are static and of one type; else the one that is
/// given.
#[tactic(auto, unfolding(ada_regions::specs::Subtypes::range_between))]
pub fn range_between(low: Option<Value>, high: Option<Value>, range: Constraint) -> Constraint
    ensures { result ≡ range_between low high range }
{
    match low {
        None => range,
        Some(Value::Whole(low)) => whole_range(low, high, range),
        Some(Value::Truth(low)) => truth_range(low, high, range),
        Some(Value::Literal(low)) => literal_range(low, high, range),
        Some(Value::Ticks(low)) => ticks_range(low, high, range),
        Some(Value::Task(_)) => range,
        Some(Value::Thing(_)) => range,
    }
}
