//! The order in which the entries of the ready queue are chosen.
ghost use Rattle.std.specs.Prelude.{◌≡◌};
ghost use Rattle.std.proofs.Common.{rules};
ghost use Rattle.std.specs.Cmp.{partial_order_from_own_ties};
ghost use Rattle.std.specs.Cmp.Rules.{comparing};
ghost use Rattle.std.specs.Ordering.{nat_cmp, int_cmp, bool_cmp, on};
ghost use Rattle.std.specs.Ordering.{flip_args, then_cmp, as_partial_cmp};
ghost use Rattle.trace_lines.specs.Places.{rank_of};

use ann_base::{Level, Moment};
use std::cmp::Ordering;
use trace_text::Entry;

/// Where an entry stands among those that are chosen: the least rank is chosen first. A higher
/// level goes before a lower one, on a level an earlier deadline before a later one and that before
/// none, and then a smaller place (D.2.1, D.2.6).
#[derive(Clone, Copy, PartialEq, Eq)]
pub struct Rank {
    pub level: Level,
    pub is_undated: bool,
    /// 0 where there is none.
    pub deadline: Moment,
    pub place: u64,
}

impl Ord for Rank {
    ghost cmp = { then_cmp (flip_args (on (λ r. r.level) nat_cmp))
        (then_cmp (on (λ r. r.is_undated) bool_cmp)
        (then_cmp (on (λ r. r.deadline) int_cmp) (on (λ r. r.place) nat_cmp))) };

    ghost total = { Prim.search (comparing, rules) depth 9 };

    ghost matches_partial_cmp = { Prim.search (comparing, rules) depth 9 };

    ghost matches_eq = { Prim.search (comparing, rules) depth 9 };

    fn cmp(&self, other: &Rank) -> Ordering {
        other
            .level
            .cmp(&self.level)
            .then(self.is_undated.cmp(&other.is_undated))
            .then(self.deadline.cmp(&other.deadline))
            .then(self.place.cmp(&other.place))
    }
}

impl PartialOrd for Rank {
    ghost partial_cmp = { as_partial_cmp
        (then_cmp (flip_args (on (λ r. r.level) nat_cmp))
        (then_cmp (on (λ r. r.is_undated) bool_cmp)
        (then_cmp (on (λ r. r.deadline) int_cmp) (on (λ r. r.place) nat_cmp)))) };

    ghost laws = { partial_order_from_own_ties
        (Prim.search (comparing, rules) depth 9)
        (Prim.search (comparing, rules) depth 9) };

    fn partial_cmp(&self, other: &Rank) -> Option<Ordering> {
        Some(self.cmp(other))
    }
}

/// The rank of an entry at a place.
pub fn rank_of(place: u64, entry: Entry) -> Rank
    ensures { result ≡ rank_of place entry }
{
    Rank {
        level: entry.level,
        is_undated: entry.deadline.is_none(),
        deadline: entry.deadline.unwrap_or(0),
        place,
    }
}
