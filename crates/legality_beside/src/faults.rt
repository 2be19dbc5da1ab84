//! The first of the faults among what is found, in the order of the text (1.1.5).
ghost use Rattle.std.specs.Prelude.{◌≡◌};
ghost use Rattle.world_tables.specs.Lists.{first_of};
ghost use Rattle.ada_legality.specs.Faults.{number_of_rule, comes_before};
ghost use Rattle.ada_legality.specs.Faults.{same_fault, in_order_of_text, faults_in};
ghost use Rattle.legality_beside.specs.Ordered.{earlier, first_with};

use ada_entities::{same_place, stands_before};
use ada_legality::{Fault, Finding, number_of_rule};

fn comes_before(a: Fault, b: Fault) -> bool
    ensures { result ≡ comes_before a b }
{
    stands_before(a.place, b.place)
        || (same_place(a.place, b.place) && number_of_rule(a.rule) < number_of_rule(b.rule))
}

fn same_fault(a: Fault, b: Fault) -> bool
    ensures { result ≡ same_fault a b }
{
    same_place(a.place, b.place) && number_of_rule(a.rule) == number_of_rule(b.rule)
}

/// The first of a fault and those behind it, of which this is the first.
fn earlier(fault: Fault, first: Option<Fault>) -> Fault
    ensures { result ≡ earlier fault first }
{
    match first {
        None => fault,
        Some(other) => {
            if same_fault(fault, other) {
                other
            } else if comes_before(fault, other) {
                fault
            } else {
                other
            }
        }
    }
}

/// The first of the faults from a finding on.
fn first_with(finding: &Finding, first: Option<Fault>) -> Option<Fault>
    ensures { result ≡ first_with finding.now first }
{
    match finding {
        Finding::Broken(fault) => Some(earlier(*fault, first)),
        _ => first,
    }
}

/// The first of the faults among what is found, in the order of the text, at one place by the
/// number of its rule.
#[tactic(auto, using(crate::proofs::Ordering::none_left))]
pub fn first_fault_in(found: &[Finding]) -> Option<Fault>
    ensures { result ≡ first_of (in_order_of_text (faults_in found.now)) }
{
    let mut first = None;
    let mut at = found.len();
    while 0 < at {
        at -= 1;
        first = first_with(&found[at], first);
    }
    first
}
