//! What a source with an EDF range keeps (D.2.6; this profile's own).
ghost use Rattle.std.specs.Prelude.{◌≡◌, ◌++◌, OnOk};
ghost use Rattle.std.specs.List.{flat_map};
ghost use Rattle.ada_legality.specs.WholeSource.{lies_in_range, is_lowest, has_attached_if};
ghost use Rattle.ada_legality.specs.WholeSource.{ceiling_of, in_deadline_range, range_judged};

use crate::attached::has_attached;
use ada_legality::{Ceiling, DeadlineRange, Finding, Number, Rule};
use ann_base::NoMemory;
use legality_choices::same_number;
use legality_types::{broken_if, broken_unless};
use world_tables::List;

/// Whether a priority lies in a range.
fn lies_in_range(range: &DeadlineRange, number: Number) -> bool
    ensures { result ≡ lies_in_range range.now number }
{
    Number::of(i64::from(range.low)).is_at_most(number)
        && number.is_at_most(Number::of(i64::from(range.high)))
}

/// Whether a priority is a range's lowest.
fn is_lowest(range: &DeadlineRange, number: Number) -> bool
    ensures { result ≡ is_lowest range.now number }
{
    same_number(number, Number::of(i64::from(range.low)))
}

fn has_attached_if(found: &[Finding], unit: Option<u32>) -> bool
    ensures { result ≡ has_attached_if found.now unit }
{
    match unit {
        None => false,
        Some(unit) => has_attached(found, unit),
    }
}

/// The ceiling of a protected unit, by its aspect or by default (D.3).
#[tactic(auto, unfolding(ada_legality::specs::WholeSource::ceiling_of))]
fn ceiling_of(last: u8, found: &[Finding], ceiling: &Ceiling) -> Number
    ensures { result ≡ ceiling_of last found.now ceiling.now }
{
    match ceiling.stated {
        Some(stated) => stated,
        None => {
            if has_attached_if(found, ceiling.unit) {
                Number::of(i64::from(last) + 1)
            } else {
                Number::of(i64::from(last))
            }
        }
    }
}

/// A priority or a ceiling that may not lie in a range: that of the main procedure not at all, a
/// task's base priority and a protected object's ceiling not at its lowest.
#[tactic(auto, unfolding(ada_legality::specs::WholeSource::in_deadline_range))]
fn in_deadline_range(
    judged: &mut List<Finding>,
    last: u8,
    found: &[Finding],
    range: &DeadlineRange,
    finding: &Finding,
) -> Result<(), NoMemory>
    ensures { OnOk result
        (judged.new ≡ judged.old ++ in_deadline_range last found.now range.now finding.now) }
{
    match finding {
        Finding::MainPriority { number, place } => broken_if(
            judged,
            Rule::DeadlineScheduling,
            lies_in_range(range, *number),
            *place,
        ),
        Finding::TaskPriority { number, place } => broken_if(
            judged,
            Rule::DeadlineScheduling,
            is_lowest(range, *number),
            *place,
        ),
        Finding::Ceiling(ceiling) => broken_if(
            judged,
            Rule::DeadlineScheduling,
            is_lowest(range, ceiling_of(last, found, ceiling)),
            ceiling.place,
        ),
        _ => Ok(()),
    }
}

fn all_in_range(
    judged: &mut List<Finding>,
    last: u8,
    found: &[Finding],
    range: &DeadlineRange,
) -> Result<(), NoMemory>
    ensures { OnOk result
        (judged.new
        ≡ judged.old ++ flat_map (in_deadline_range last found.now range.now) found.now) }
{
    for finding in found {
        in_deadline_range(judged, last, found, range, finding)?;
    }
    Ok(())
}

/// A range lies in Priority, and no such priority in it.
#[tactic(auto, unfolding(ada_legality::specs::WholeSource::range_judged))]
fn range_judged(
    judged: &mut List<Finding>,
    last: u8,
    found: &[Finding],
    range: &DeadlineRange,
) -> Result<(), NoMemory>
    ensures { OnOk result (judged.new ≡ judged.old ++ range_judged last found.now range.now) }
{
    broken_unless(
        judged,
        Rule::DeadlineScheduling,
        range.high <= last as u32,
        range.place,
    )?;
    all_in_range(judged, last, found, range)
}

/// All ranges.
pub(crate) fn ranges_judged(
    judged: &mut List<Finding>,
    last: u8,
    found: &[Finding],
    ranges: &[DeadlineRange],
) -> Result<(), NoMemory>
    ensures { OnOk result
        (judged.new ≡ judged.old ++ flat_map (range_judged last found.now) ranges.now) }
{
    for range in ranges {
        range_judged(judged, last, found, range)?;
    }
    Ok(())
}
