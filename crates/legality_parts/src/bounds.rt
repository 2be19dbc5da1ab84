//! Bounds (ISO/IEC 8652:2012, 3.5).
ghost use Rattle.std.specs.Prelude.{◌≡◌, ◌++◌, [], OnOk, cond};
ghost use Rattle.ada_legality.specs.Types.{has_ranges};
ghost use Rattle.ada_legality.specs.CallStatements.{is_above, pair_judged, bounds_judged};
ghost use Rattle.ada_legality.specs.CallStatements.{bounds_found, bounds_if};

use ada_legality::{Asked, Finding, Known, Number, Read, Rule};
use ada_regions::AdaType;
use ada_tree::Expression;
use ann_base::NoMemory;
use legality_choices::static_number;
use legality_conditions::{not_static, value_found};
use legality_expressions::Readable;
use legality_reads::expected;
use legality_types::{broken_if, has_ranges};
use std::alloc::Global;
use world_tables::List;

/// The first number is above the second.
fn is_above(low: Option<Number>, high: Option<Number>) -> bool
    ensures { result ≡ is_above low high }
{
    match (low, high) {
        (Some(low), Some(high)) => !low.is_at_most(high),
        _ => false,
    }
}

/// A pair of bounds of this type: each is static, and the low one is not above the high one.
#[tactic(auto, unfolding(ada_legality::specs::CallStatements::pair_judged))]
fn pair_judged(
    found: &mut List<Finding>,
    known: &Known<'_, '_>,
    t: AdaType,
    low: &Expression,
    low_read: &Read,
    high: &Expression,
    high_read: &Read,
) -> Result<(), NoMemory>
    ensures { OnOk result
        (found.new
        ≡ found.old ++ pair_judged known.now t low.now low_read.now high.now high_read.now) }
{
    not_static(found, Rule::StaticBounds, known, low, low_read.place)?;
    not_static(found, Rule::StaticBounds, known, high, high_read.place)?;
    let first = static_number(known, t, low, low_read.typed)?;
    let last = static_number(known, t, high, high_read.typed)?;
    broken_if(
        found,
        Rule::StaticBounds,
        is_above(first, last),
        low_read.place,
    )
}

/// Bounds of this type, which are read.
#[tactic(auto, unfolding(ada_legality::specs::CallStatements::bounds_judged))]
pub fn bounds_judged(
    found: &mut List<Finding>,
    known: &Known<'_, '_>,
    t: AdaType,
    low: &Expression,
    low_read: &Read,
    high: &Expression,
    high_read: &Read,
) -> Result<(), NoMemory>
    ensures { OnOk result
        (found.new
        ≡ found.old ++ bounds_judged known.now t low.now low_read.now high.now high_read.now) }
{
    pair_judged(found, known, t, low, low_read, high, high_read)?;
    expected(found, Asked::ForValue, Some(t), low_read)?;
    expected(found, Asked::ForValue, Some(t), high_read)
}

/// Bounds of this type.
#[tactic(auto, unfolding(ada_legality::specs::CallStatements::bounds_found))]
fn bounds_found(
    alloc: Global,
    found: &mut List<Finding>,
    known: &Known<'_, '_>,
    t: AdaType,
    low: &Expression,
    high: &Expression,
) -> Result<(), NoMemory>
    ensures { OnOk result (found.new ≡ found.old ++ bounds_found t low.now high.now known.now) }
{
    let low_read = low.read(alloc, found, known)?;
    let high_read = high.read(alloc, found, known)?;
    bounds_judged(found, known, t, low, &low_read, high, &high_read)
}

/// Bounds of a type that has ranges.
fn bounds_with_ranges(
    alloc: Global,
    found: &mut List<Finding>,
    known: &Known<'_, '_>,
    t: AdaType,
    low: &Expression,
    high: &Expression,
) -> Result<(), NoMemory>
    ensures { OnOk result
        (found.new
        ≡ found.old ++ cond (has_ranges t) (bounds_found t low.now high.now known.now) []) }
{
    if has_ranges(t) {
        bounds_found(alloc, found, known, t, low, high)
    } else {
        Ok(())
    }
}

/// Bounds, where the type has ranges.
#[tactic(auto, unfolding(ada_legality::specs::CallStatements::bounds_if))]
pub fn bounds_if(
    alloc: Global,
    found: &mut List<Finding>,
    known: &Known<'_, '_>,
    t: Option<AdaType>,
    low: &Expression,
    high: &Expression,
) -> Result<(), NoMemory>
    ensures { OnOk result (found.new ≡ found.old ++ bounds_if t low.now high.now known.now) }
{
    match t {
        None => {
            value_found(alloc, found, known, None, low)?;
            value_found(alloc, found, known, None, high)
        }
        Some(t) => bounds_with_ranges(alloc, found, known, t, low, high),
    }
}
