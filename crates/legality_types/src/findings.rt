//! What is found.
ghost use Rattle.std.specs.Prelude.{◌≡◌, ◌++◌, ◌∷◌, [], OnOk};
ghost use Rattle.ada_legality.specs.Findings.{broken_if, broken_unless};

use ada_legality::{Fault, Finding, Rule, add_finding};
use ann_base::{NoMemory, Place};
use world_tables::List;

/// One more finding.
pub fn note(found: &mut List<Finding>, finding: Finding) -> Result<(), NoMemory>
    ensures { OnOk result (found.new ≡ found.old ++ finding ∷ []) }
{
    add_finding(found, finding)
}

/// A rule is broken here, where something holds.
pub fn broken_if(
    found: &mut List<Finding>,
    rule: Rule,
    holds: bool,
    place: Place,
) -> Result<(), NoMemory>
    ensures { OnOk result (found.new ≡ found.old ++ broken_if rule holds place) }
{
    if holds {
        note(found, Finding::Broken(Fault { place, rule }))
    } else {
        Ok(())
    }
}

/// A rule is broken here, where what it asks is not kept.
pub fn broken_unless(
    found: &mut List<Finding>,
    rule: Rule,
    kept: bool,
    place: Place,
) -> Result<(), NoMemory>
    ensures { OnOk result (found.new ≡ found.old ++ broken_unless rule kept place) }
{
    broken_if(found, rule, !kept, place)
}
