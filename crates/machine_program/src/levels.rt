//! The policies of priorities (ISO/IEC 8652:2012, D.2.2).
ghost use Rattle.std.specs.Prelude.{◌≡◌};
ghost use Rattle.profile_image.specs.Program.{is_in_range, range_of, policy_of, is_edf_policy};
ghost use Rattle.profile_image.specs.Program.{is_robin_policy, is_edf_level, is_robin_level};
ghost use Rattle.profile_image.specs.Program.{edf_low, has_edf_range, has_edf, interrupt_priority};

use crate::items::{Program, policies};
use ann_base::Level;
use profile_image::{Dispatching, DispatchingRange};

fn is_in_range(level: Level, range: DispatchingRange) -> bool
    ensures { result ≡ is_in_range level range }
{
    range.first <= level && level <= range.last
}

/// The first of the ranges in which the level lies.
pub fn range_of(ranges: &[DispatchingRange], level: Level) -> Option<DispatchingRange>
    ensures { result ≡ range_of ranges.now level }
{
    for range in ranges {
        if is_in_range(level, *range) {
            return Some(*range);
        }
    }
    None
}

/// The policy of a level.
pub fn policy_of(p: &Program, level: Level) -> Dispatching
    ensures { result ≡ policy_of p.now level }
{
    match range_of(policies(p).dispatching.as_slice(), level) {
        Some(range) => range.policy,
        None => Dispatching::FifoWithinPriorities,
    }
}

/// Whether a policy is EDF_Across_Priorities (D.2.6).
pub fn is_edf_policy(policy: Dispatching) -> bool
    ensures { result ≡ is_edf_policy policy }
{
    matches!(policy, Dispatching::EdfAcrossPriorities)
}

/// Whether a policy is Round_Robin_Within_Priorities (D.2.5).
pub fn is_robin_policy(policy: Dispatching) -> bool
    ensures { result ≡ is_robin_policy policy }
{
    matches!(policy, Dispatching::RoundRobinWithinPriorities)
}

/// Whether deadlines order a level.
pub fn is_edf_level(p: &Program, level: Level) -> bool
    ensures { result ≡ is_edf_level p.now level }
{
    is_edf_policy(policy_of(p, level))
}

/// Whether the tasks of a level have quanta.
pub fn is_robin_level(p: &Program, level: Level) -> bool
    ensures { result ≡ is_robin_level p.now level }
{
    is_robin_policy(policy_of(p, level))
}

/// The first priority of the EDF range in which a level lies.
pub fn edf_low(p: &Program, level: Level) -> Option<Level>
    ensures { result ≡ edf_low p.now level }
{
    match range_of(policies(p).dispatching.as_slice(), level) {
        Some(range) if is_edf_policy(range.policy) => Some(range.first),
        _ => None,
    }
}

fn has_edf_range(ranges: &[DispatchingRange]) -> bool
    ensures { result ≡ has_edf_range ranges.now }
{
    ranges.iter().any(|range| is_edf_policy(range.policy))
}

/// Whether any level is ordered by deadlines.
pub fn has_edf(p: &Program) -> bool
    ensures { result ≡ has_edf p.now }
{
    has_edf_range(policies(p).dispatching.as_slice())
}

/// The priority of interrupts, the last of all.
pub fn interrupt_priority(p: &Program) -> u32
    ensures { result ≡ interrupt_priority p.now }
{
    u32::from(policies(p).last_priority) + 1
}
