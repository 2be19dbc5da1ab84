//! Use clauses (ISO/IEC 8652:2012, 8.4).
ghost use Rattle.std.specs.Prelude.{◌≡◌, ◌++◌, OnOk};
ghost use Rattle.ada_regions.specs.Regions.{is_used_package};
ghost use Rattle.ada_legality.specs.Values.{is_denoted};
ghost use Rattle.ada_legality.specs.Declarations.{use_found};

use ada_entities::{denoted_by, is_used_package};
use ada_legality::{Finding, Known, Rule};
use ada_tree::Name;
use ann_base::NoMemory;
use legality_types::broken_unless;
use legality_values::place_of;
use world_tables::List;

/// A name is that of a unit.
fn names_unit(known: &Known<'_, '_>, name: &Name) -> bool
    ensures { result ≡ is_denoted (is_used_package known.now.names) known.now name.now }
{
    match denoted_by(known.names.get(), name) {
        None => false,
        Some(denoted) => is_used_package(known.names.get(), denoted),
    }
}

/// A use clause names a package.
#[tactic(auto, unfolding(ada_legality::specs::Declarations::use_found))]
pub fn use_found(
    found: &mut List<Finding>,
    known: &Known<'_, '_>,
    name: &Name,
) -> Result<(), NoMemory>
    ensures { OnOk result (found.new ≡ found.old ++ use_found name.now known.now) }
{
    let kept = names_unit(known, name);
    broken_unless(found, Rule::KindOfName, kept, place_of(name))
}
