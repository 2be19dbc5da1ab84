//! The ranges of priorities that are dispatched by deadlines (ISO/IEC 8652:2012, D.2.6; this
//! profile's own).
ghost use Rattle.std.specs.Prelude.{◌≡◌, ◌++◌, IfOk, OnOk};
ghost use Rattle.std.specs.List.{flat_map};
ghost use Rattle.ada_image.specs.PoliciesOfImage.{ranges_of_pragma};
ghost use Rattle.ada_legality.specs.InForce.{deadline_ranges_of, is_by_deadline};
ghost use Rattle.legality_pragmas.specs.Deadlines.{deadlines_of, told};

use crate::profile::is_pragma_of_profile;
use ada_legality::DeadlineRange;
use ada_predefined::last_priority_of;
use ada_tree::Pragma;
use ann_base::{NoMemory, Place};
use image_policies::policies_of;
use profile_image::{Dispatching, DispatchingRange, ImageList};
use std::alloc::Global;

/// EDF_Across_Priorities (D.2.6).
fn is_by_deadline(policy: Dispatching) -> bool
    ensures { result ≡ is_by_deadline policy }
{
    match policy {
        Dispatching::EdfAcrossPriorities => true,
        Dispatching::FifoWithinPriorities => false,
        Dispatching::RoundRobinWithinPriorities => false,
    }
}

/// A range with the place of its pragma, where it is dispatched by deadlines.
fn put_range(
    ranges: &mut ImageList<DeadlineRange>,
    place: Place,
    range: &DispatchingRange,
) -> Result<(), NoMemory>
    ensures { OnOk result (ranges.new ≡ ranges.old ++ told place range.now) }
{
    if is_by_deadline(range.policy) {
        ranges.push(DeadlineRange {
            place,
            low: u32::from(range.first),
            high: u32::from(range.last),
        })?;
        Ok(())
    } else {
        Ok(())
    }
}

fn put_ranges(
    ranges: &mut ImageList<DeadlineRange>,
    place: Place,
    given: &[DispatchingRange],
) -> Result<(), NoMemory>
    ensures { OnOk result (ranges.new ≡ ranges.old ++ flat_map (told place) given.now) }
{
    for range in given {
        put_range(ranges, place, range)?;
    }
    Ok(())
}

/// The EDF ranges of a pragma, by the policies that it gives alone.
#[tactic(auto, using(crate::proofs::Alone::alone_dispatching))]
fn put_given(
    alloc: Global,
    ranges: &mut ImageList<DeadlineRange>,
    last: u8,
    pragma: &Pragma,
) -> Result<(), NoMemory>
    ensures { OnOk result
        (ranges.new
        ≡ ranges.old ++ flat_map (told pragma.now.place) (ranges_of_pragma last pragma.now)) }
{
    let policies = policies_of(alloc, last, std::slice::from_ref(pragma))?;
    put_ranges(ranges, pragma.place, policies.dispatching.as_slice())
}

/// The EDF ranges of a pragma of the profile.
fn put_pragma(
    alloc: Global,
    ranges: &mut ImageList<DeadlineRange>,
    last: u8,
    pragma: &Pragma,
) -> Result<(), NoMemory>
    ensures { OnOk result (ranges.new ≡ ranges.old ++ deadlines_of last pragma.now) }
{
    if is_pragma_of_profile(last, pragma)? {
        put_given(alloc, ranges, last, pragma)
    } else {
        Ok(())
    }
}

/// The EDF ranges of all pragmas of the profile, where the last Priority is given.
fn ranges_under(
    alloc: Global,
    last: u8,
    pragmas: &[Pragma],
) -> Result<ImageList<DeadlineRange>, NoMemory>
    ensures { IfOk result (λ ranges. ranges ≡ flat_map (deadlines_of last) pragmas.now) }
{
    let mut ranges = ImageList::new(alloc);
    for pragma in pragmas {
        put_pragma(alloc, &mut ranges, last, pragma)?;
    }
    Ok(ranges)
}

/// The ranges of priorities that the pragmas of the profile have dispatched by deadlines, in their
/// order.
#[tactic(auto, using(crate::proofs::Alone::ranges_are))]
pub fn deadline_ranges_of(
    alloc: Global,
    pragmas: &[Pragma],
) -> Result<ImageList<DeadlineRange>, NoMemory>
    ensures { IfOk result (λ ranges. ranges ≡ deadline_ranges_of pragmas.now) }
{
    ranges_under(alloc, last_priority_of(pragmas), pragmas)
}
