//! The way through the names of a source.
ghost use Rattle.std.specs.Prelude.{◌≡◌, ◌++◌, OnOk, map};
ghost use Rattle.ada_regions.specs.Shown.{occurrence_shown};
ghost use Rattle.ada_regions.specs.Numbered.{last_priority_of, nothing_known};
ghost use Rattle.ada_legality.specs.UnitsUsed.{found_before, found_behind, found_from, long_name};
ghost use Rattle.legality_units.specs.Along.{found_along};

use crate::names::unit_unseen;
use ada_entities::expanded;
use ada_legality::{Finding, LONGEST_NAME, Rule};
use ada_naming::{behind, nothing_known};
use ada_predefined::last_priority_of;
use ada_regions::{Names, Occurrence, Occurrences};
use ada_tree::{Identifier, Pragma};
use ann_base::NoMemory;
use legality_types::broken_if;
use std::alloc::Global;
use world_tables::List;

/// A declaration whose expanded name is longer than it may be (this profile's own).
#[tactic(auto, unfolding(ada_legality::specs::UnitsUsed::long_name))]
fn long_name(
    alloc: Global,
    found: &mut List<Finding>,
    names: &Names<'_>,
    name: &Identifier,
) -> Result<(), NoMemory>
    ensures { OnOk result (found.new ≡ found.old ++ long_name names.now name.now) }
{
    let text = expanded(alloc, &names.frames, name.text.as_slice())?;
    let is_long = LONGEST_NAME < text.as_slice().len();
    broken_if(found, Rule::Limit, is_long, name.place)
}

/// Before an occurrence: a declaration whose expanded name is too long.
#[tactic(auto, unfolding(ada_legality::specs::UnitsUsed::found_before))]
fn found_before(
    alloc: Global,
    found: &mut List<Finding>,
    names: &Names<'_>,
    occurrence: Occurrence<'_>,
) -> Result<(), NoMemory>
    ensures { OnOk result
        (found.new ≡ found.old ++ found_before names.now (occurrence_shown occurrence.entry)) }
{
    match occurrence {
        Occurrence::Complete { name, .. } => long_name(alloc, found, names, name),
        Occurrence::DeclareObject { name, .. } => long_name(alloc, found, names, name),
        Occurrence::DeclareComponent { name, .. } => long_name(alloc, found, names, name),
        Occurrence::DeclareParameter { name, .. } => long_name(alloc, found, names, name),
        Occurrence::DeclareLoopParameter { name } => long_name(alloc, found, names, name),
        Occurrence::DeclareEnumeration { name, .. } => long_name(alloc, found, names, name),
        Occurrence::DeclareLiteral { name } => long_name(alloc, found, names, name),
        Occurrence::DeclareArray { name, .. } => long_name(alloc, found, names, name),
        Occurrence::DeclareDerivedType { name, .. } => long_name(alloc, found, names, name),
        Occurrence::DeclareSubtype { name, .. } => long_name(alloc, found, names, name),
        Occurrence::DeclareException { name } => long_name(alloc, found, names, name),
        Occurrence::DeclareLabel { name } => long_name(alloc, found, names, name),
        Occurrence::DeclareSubprogram { name, .. } => long_name(alloc, found, names, name),
        Occurrence::DeclareEntry { name, .. } => long_name(alloc, found, names, name),
        Occurrence::DeclareTask { name, .. } => long_name(alloc, found, names, name),
        Occurrence::DeclareProtected { name, .. } => long_name(alloc, found, names, name),
        _ => Ok(()),
    }
}

/// Behind an occurrence: a use of a name, or a use clause.
#[tactic(auto, unfolding(ada_legality::specs::UnitsUsed::found_behind))]
fn found_behind(
    found: &mut List<Finding>,
    names: &Names<'_>,
    occurrence: Occurrence<'_>,
) -> Result<(), NoMemory>
    ensures { OnOk result
        (found.new ≡ found.old ++ found_behind names.now (occurrence_shown occurrence.entry)) }
{
    match occurrence {
        Occurrence::Mention { name } => unit_unseen(found, names, name),
        Occurrence::UsePackage { name } => unit_unseen(found, names, name),
        _ => Ok(()),
    }
}

/// What occurrences break, one behind another.
fn found_along<'t>(
    alloc: Global,
    found: &mut List<Finding>,
    names: &mut Names<'t>,
    occurrences: &[Occurrence<'t>],
) -> Result<(), NoMemory>
    ensures { OnOk result
        (found.new ≡ found.old ++ found_along (map occurrence_shown occurrences.now) names.old) }
{
    for occurrence in occurrences {
        found_before(alloc, found, names, *occurrence)?;
        behind(alloc, names, *occurrence)?;
        found_behind(found, names, *occurrence)?;
    }
    Ok(())
}

/// All occurrences, where these names are known.
#[tactic(auto, using(crate::proofs::FoundIs::found_is))]
fn found_from<'t>(
    alloc: Global,
    found: &mut List<Finding>,
    names: &mut Names<'t>,
    occurrences: &Occurrences<'t>,
) -> Result<(), NoMemory>
    ensures { OnOk result (found.new ≡ found.old ++ found_from occurrences.now names.old) }
{
    found_along(alloc, found, names, occurrences.as_slice())
}

/// What the names of a source break on the way through them: units that no with clause makes
/// usable, and long names.
pub fn units_used(
    alloc: Global,
    found: &mut List<Finding>,
    pragmas: &[Pragma],
    occurrences: &Occurrences<'_>,
) -> Result<(), NoMemory>
    // It stands behind what was found before.
    ensures { OnOk result
        (found.new
        ≡ found.old ++ found_from occurrences.now (nothing_known (last_priority_of pragmas.now))) }
{
    let mut names = nothing_known(alloc, last_priority_of(pragmas))?;
    found_from(alloc, found, &mut names, occurrences)
}
