//! With and use clauses (ISO/IEC 8652:2012, 8.4, 10.1.2).
ghost use Rattle.std.specs.Prelude.{◌≡◌, ◌++◌, ◌∷◌, [], OnOk, option_map};
ghost use Rattle.ada_regions.specs.Words.{and_then};
ghost use Rattle.ada_regions.specs.Names.{region_here};
ghost use Rattle.ada_regions.specs.Regions.{package_named, unit_behind, unit_named};
ghost use Rattle.ada_regions.specs.Regions.{unit_to_with, package_to_with, library_unit};
ghost use Rattle.ada_regions.specs.Regions.{withed, is_used_package, used_if, used};

use crate::packages::package_named;
use ada_entities::{denoted_by, is_used_package, last_part, noted, region_here};
use ada_predefined::{child_unit, root_unit, same_unit};
use ada_regions::{Denoted, Names, PredefinedUnit, UseClause};
use ada_tree::{Identifier, Name};
use ada_visibility::name_resolved;
use ann_base::NoMemory;
use std::alloc::Global;

/// The child of a unit, if there is one.
fn child_of(unit: Option<PredefinedUnit>, name: &Identifier) -> Option<PredefinedUnit>
    ensures { result ≡ unit_behind unit (name.now ∷ []) }
{
    let unit = unit?;
    child_unit(unit, name.text.as_slice())
}

/// The predefined unit behind these parts of a name.
fn unit_behind(unit: Option<PredefinedUnit>, parts: &[Identifier]) -> Option<PredefinedUnit>
    ensures { result ≡ unit_behind unit parts.now }
{
    let mut found = unit;
    for part in parts {
        found = child_of(found, part);
    }
    found
}

/// The predefined unit with this full name.
#[tactic(auto, unfolding(ada_regions::specs::Regions::unit_named))]
fn unit_named(name: &Name) -> Option<PredefinedUnit>
    ensures { result ≡ unit_named name.now }
{
    let first = root_unit(name.parts.first.text.as_slice());
    unit_behind(first, name.parts.others.as_slice())
}

/// Ada alone is no library unit of this profile.
fn unit_to_with(unit: PredefinedUnit) -> Option<Denoted>
    ensures { result ≡ unit_to_with unit }
{
    if same_unit(unit, PredefinedUnit::Ada) {
        None
    } else {
        Some(Denoted::Unit(unit))
    }
}

fn package_denoted(names: &Names<'_>, name: &[u8]) -> Option<Denoted>
    ensures { result ≡ option_map Denoted.Entity (package_named names.now name.now) }
{
    let package = package_named(names, name)?;
    Some(Denoted::Entity(package))
}

fn package_to_with(names: &Names<'_>, name: &Name) -> Option<Denoted>
    ensures { result ≡ package_to_with names.now name.now name.now.parts.others }
{
    match name.parts.others.as_slice() {
        [] => package_denoted(names, name.parts.first.text.as_slice()),
        [_, ..] => None,
    }
}

/// The predefined unit that a with clause names.
fn predefined_to_with(name: &Name) -> Option<Denoted>
    ensures { result ≡ and_then (unit_named name.now) unit_to_with }
{
    let unit = unit_named(name)?;
    unit_to_with(unit)
}

/// The library unit that a with clause names: a predefined one, or an earlier package.
#[tactic(auto, unfolding(ada_regions::specs::Regions::library_unit))]
pub(crate) fn library_unit(names: &Names<'_>, name: &Name) -> Option<Denoted>
    ensures { result ≡ library_unit names.now name.now }
{
    match predefined_to_with(name) {
        Some(unit) => Some(unit),
        None => package_to_with(names, name),
    }
}

/// A with clause names a unit.
#[tactic(auto, unfolding(ada_regions::specs::Regions::withed))]
pub(crate) fn withed(
    alloc: Global,
    names: &mut Names<'_>,
    name: &Name,
    unit: Option<Denoted>,
) -> Result<(), NoMemory>
    ensures { OnOk result (names.new ≡ withed name.now unit names.old) }
{
    match unit {
        None => Ok(()),
        Some(unit) => {
            names.withs.push_front(unit)?;
            noted(alloc, names, last_part(name).place, unit)
        }
    }
}

/// A use clause for this package stands in the region.
fn with_use(names: &mut Names<'_>, denoted: Denoted) -> Result<(), NoMemory>
    ensures { OnOk result
        (names.new
        ≡ record names.old {
          uses = names.old.uses ++ record { region = region_here names.old; used = denoted }
              ∷ [];
        }) }
{
    let region = region_here(names);
    names.uses.push_back(UseClause {
        region,
        used: denoted,
    })?;
    Ok(())
}

fn used_if(names: &mut Names<'_>, denoted: Option<Denoted>) -> Result<(), NoMemory>
    ensures { OnOk result (names.new ≡ used_if denoted names.old) }
{
    match denoted {
        None => Ok(()),
        Some(denoted) => {
            if is_used_package(names, denoted) {
                with_use(names, denoted)
            } else {
                Ok(())
            }
        }
    }
}

/// A use clause names a package.
#[tactic(auto, unfolding(ada_regions::specs::Regions::used))]
pub(crate) fn used(alloc: Global, names: &mut Names<'_>, name: &Name) -> Result<(), NoMemory>
    ensures { OnOk result (names.new ≡ used name.now names.old) }
{
    name_resolved(alloc, names, name)?;
    let denoted = denoted_by(names, name);
    used_if(names, denoted)
}
