//! The faults of a source (ISO/IEC 8652:2012, 1.1.5).
ghost use Rattle.std.specs.Prelude.{◌≡◌, ◌++◌, IfOk, OnOk};
ghost use Rattle.world_tables.specs.Lists.{first_of};
ghost use Rattle.ada_legality.specs.Faults.{faults_where, found_of, walked};
ghost use Rattle.ada_legality.specs.Units.{known_with, units_found};
ghost use Rattle.legality.specs.Behind.{found_behind};

use crate::units::units_found;
use ada_legality::{Fault, Finding, InForce, Number, add_finding, list_finding};
use ada_occurrences::occurrences_of;
use ada_regions::{AdaType, Names, Occurrences};
use ada_tree::Unit;
use ann_base::NoMemory;
use legality_beside::{first_fault_in, found_beside, packages_judged};
use legality_contexts::{indexes_of, known_with};
use legality_pragmas::{deadline_ranges_of, in_force_by, pragmas_judged};
use legality_units::units_used;
use profile_image::ImageList;
use std::alloc::Global;
use world_tables::List;

/// What the units of a source have, where the types of the indexes of array types are known.
fn found_in_units<'n, 't>(
    alloc: Global,
    found: &mut List<Finding>,
    tree: &Unit,
    names: &'n Names<'t>,
    occurrences: &'n Occurrences<'t>,
    in_force: &InForce,
    indexes: &'n List<AdaType>,
) -> Result<(), NoMemory>
    ensures { OnOk result
        (found.new
        ≡ found.old
        ++ units_found tree.now (known_with names.now occurrences.now in_force.now indexes.now)) }
{
    let known = known_with(alloc, names, occurrences, in_force, indexes);
    units_found(alloc, found, &known, tree)
}

/// What a walk over the source finds. The check of borrows wants the type of the limits among the
/// parameters.
#[tactic(auto, unfolding(ada_legality::specs::Faults::walked, ada_legality::specs::Units::known_of))]
fn walked_through<'n, 't>(
    alloc: Global,
    found: &mut List<Finding>,
    tree: &Unit,
    names: &'n Names<'t>,
    occurrences: &'n Occurrences<'t>,
    _number: Option<Number>,
) -> Result<(), NoMemory>
    ensures { OnOk result (found.new ≡ found.old ++ walked tree.now names.now occurrences.now) }
{
    let in_force = in_force_by(alloc, tree.pragmas.as_slice())?;
    let indexes = indexes_of(alloc, names, occurrences, &in_force)?;
    found_in_units(alloc, found, tree, names, occurrences, &in_force, &indexes)
}

/// What a walk over the source finds.
fn walked<'n, 't>(
    alloc: Global,
    found: &mut List<Finding>,
    tree: &Unit,
    names: &'n Names<'t>,
    occurrences: &'n Occurrences<'t>,
) -> Result<(), NoMemory>
    ensures { OnOk result (found.new ≡ found.old ++ walked tree.now names.now occurrences.now) }
{
    walked_through(alloc, found, tree, names, occurrences, None)
}

/// What is found of pragmas, packages and units, and beside what the walk found.
fn found_behind(
    alloc: Global,
    all: &mut List<Finding>,
    tree: &Unit,
    names: &Names<'_>,
    occurrences: &Occurrences<'_>,
    found: &List<Finding>,
) -> Result<(), NoMemory>
    ensures { OnOk result
        (all.new ≡ all.old ++ found_behind tree.now names.now occurrences.now found.now) }
{
    let pragmas = tree.pragmas.as_slice();
    let ranges = deadline_ranges_of(alloc, pragmas)?;
    found_beside(alloc, all, names, ranges.as_slice(), found)?;
    pragmas_judged(all, pragmas)?;
    packages_judged(alloc, all, names, tree.packages.as_slice())?;
    units_used(alloc, all, pragmas, occurrences)
}

/// All that is found in a source: what its rules say it breaks, and what rules on the whole source
/// ask of.
#[tactic(auto, unfolding(ada_legality::specs::Faults::found_of))]
fn found_of<'n, 't>(
    alloc: Global,
    tree: &Unit,
    names: &'n Names<'t>,
    occurrences: &'n Occurrences<'t>,
) -> Result<List<Finding>, NoMemory>
    // It is what the definition says.
    ensures found { IfOk result (λ found. found ≡ found_of tree.now names.now occurrences.now) }
{
    let mut found = List::new(alloc);
    walked(alloc, &mut found, tree, names, occurrences)?;
    let mut all = same_again(alloc, &found)?;
    found_behind(alloc, &mut all, tree, names, occurrences, &found)?;
    Ok(all)
}

/// The same findings again.
fn same_again(alloc: Global, found: &List<Finding>) -> Result<List<Finding>, NoMemory>
    ensures { IfOk result (λ copy. copy ≡ found.now) }
{
    let mut copy = List::new(alloc);
    for finding in found.iter() {
        add_finding(&mut copy, *finding)?;
    }
    Ok(copy)
}

/// The same findings as one piece of memory.
fn in_one_piece(alloc: Global, found: &List<Finding>) -> Result<ImageList<Finding>, NoMemory>
    ensures { IfOk result (λ all. all ≡ found.now) }
{
    let mut all = ImageList::new(alloc);
    for finding in found.iter() {
        list_finding(&mut all, *finding)?;
    }
    Ok(all)
}

/// The first fault of a source whose names are numbered, in the order of the text, at one place by
/// the number of its rule.
#[tactic(auto, unfolding(ada_legality::specs::Faults::faults_where))]
pub fn first_fault<'t>(
    alloc: Global,
    unit: &'t Unit,
    names: &Names<'t>,
) -> Result<Option<Fault>, NoMemory>
    // It is the first of those that the definitions find; none where the source breaks no rule.
    ensures fault { IfOk result
        (λ fault. fault ≡ first_of (faults_where unit.now names.now)) }
{
    let occurrences = occurrences_of(alloc, unit)?;
    let found = found_of(alloc, unit, names, &occurrences)?;
    let all = in_one_piece(alloc, &found)?;
    Ok(first_fault_in(all.as_slice()))
}
