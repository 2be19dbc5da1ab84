//! The unit in a name (ISO/IEC 8652:2012, 4.1.3, 10.1.6): its last part that denotes one.
ghost use Rattle.std.specs.Prelude.{◌≡◌, ◌++◌, OnOk, option_map, unwrap_or, true};
ghost use Rattle.ada_regions.specs.Words.{all_of};
ghost use Rattle.std.specs.Option.{option_or};
ghost use Rattle.ada_legality.specs.UnitsUsed.{is_usable_unit, unit_if, unit_in_parts, unit_unseen};
ghost use Rattle.legality_units.specs.Parts.{unit_along};

use crate::units::is_usable_unit;
use ada_entities::{denoted_at, is_used_package};
use ada_legality::{Finding, Rule};
use ada_regions::{Denoted, Names};
use ada_tree::{Identifier, Name};
use ann_base::{NoMemory, Place};
use legality_types::broken_unless;
use world_tables::List;

/// What is denoted, where it is a unit.
fn unit_if(names: &Names<'_>, denoted: Option<Denoted>) -> Option<Denoted>
    ensures { result ≡ unit_if names.now denoted }
{
    let denoted = denoted?;
    if is_used_package(names, denoted) {
        Some(denoted)
    } else {
        None
    }
}

/// The later of two units that were met, where it is there.
fn later(unit: Option<Denoted>, before: Option<Denoted>) -> Option<Denoted>
    ensures { result ≡ option_or unit before }
{
    match unit {
        None => before,
        Some(unit) => Some(unit),
    }
}

/// The last unit among parts of a name, behind one that was met before.
fn unit_along(names: &Names<'_>, parts: &[Identifier], before: Option<Denoted>) -> Option<Denoted>
    ensures { result ≡ unit_along names.now parts.now before }
{
    let mut unit = before;
    for part in parts {
        unit = later(unit_if(names, denoted_at(names, part.place)), unit);
    }
    unit
}

/// The last part of a name that denotes a unit.
#[tactic(auto, using(crate::proofs::Parts::parts_are))]
fn unit_in_name(names: &Names<'_>, name: &Name) -> Option<Denoted>
    ensures { result ≡ unit_in_parts names.now (all_of name.now.parts) }
{
    let first = unit_if(names, denoted_at(names, name.parts.first.place));
    unit_along(names, name.parts.others.as_slice(), later(first, None))
}

/// The unit of a name may be used, where it has one.
fn is_usable(names: &Names<'_>, unit: Option<Denoted>) -> bool
    ensures { result ≡ unwrap_or (option_map (is_usable_unit names.now) unit) true }
{
    match unit {
        None => true,
        Some(unit) => is_usable_unit(names, unit),
    }
}

/// Where a name begins.
fn place_of(name: &Name) -> Place
    ensures { result ≡ name.now.parts.first.place }
{
    name.parts.first.place
}

/// A name whose unit may not be used there.
#[tactic(auto, unfolding(ada_legality::specs::UnitsUsed::unit_unseen))]
pub(crate) fn unit_unseen(
    found: &mut List<Finding>,
    names: &Names<'_>,
    name: &Name,
) -> Result<(), NoMemory>
    ensures { OnOk result (found.new ≡ found.old ++ unit_unseen names.now name.now) }
{
    let kept = is_usable(names, unit_in_name(names, name));
    broken_unless(found, Rule::LibraryUnits, kept, place_of(name))
}
