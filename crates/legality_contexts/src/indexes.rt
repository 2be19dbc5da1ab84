//! The types of the indexes of array types (ISO/IEC 8652:2012, 3.6): each array type stands behind
//! those that its bounds name.
ghost use Rattle.std.specs.Prelude.{◌≡◌, IfOk, OnOk, map};
ghost use Rattle.ada_regions.specs.Shown.{occurrence_shown};
ghost use Rattle.ada_legality.specs.SimpleStatements.{type_between};
ghost use Rattle.ada_legality.specs.Units.{indexes_of, known_with};
ghost use Rattle.legality_contexts.specs.Along.{index_put, indexes_along};

use ada_image::{ListOf, NamesOf};
use ada_legality::{InForce, Known, OccurrencesOf};
use ada_regions::{AdaType, Names, Occurrence, Occurrences};
use ada_tree::Expression;
use ann_base::NoMemory;
use legality_expressions::type_between;
use std::alloc::Global;
use world_tables::List;

/// What is known outside all constructs.
pub fn known_with<'n, 't>(
    alloc: Global,
    names: &'n Names<'t>,
    occurrences: &'n Occurrences<'t>,
    in_force: &InForce,
    indexes: &'n List<AdaType>,
) -> Known<'n, 't>
    // It is what the definition says.
    ensures { result ≡ known_with names.now occurrences.now in_force.now indexes.now }
{
    Known {
        names: NamesOf::new(names),
        around: List::new(alloc),
        loops: List::new(alloc),
        indexes: ListOf::new(indexes),
        in_force: *in_force,
        occurrences: OccurrencesOf::new(occurrences),
    }
}

/// The type of the index of an array type, behind those before it.
fn index_between<'n, 't>(
    alloc: Global,
    names: &'n Names<'t>,
    occurrences: &'n Occurrences<'t>,
    in_force: &InForce,
    indexes: &'n List<AdaType>,
    low: &Expression,
    high: &Expression,
) -> Result<AdaType, NoMemory>
    ensures { IfOk result
        (λ t.
        t
        ≡ type_between (known_with names.now occurrences.now in_force.now indexes.now) low.now
        high.now) }
{
    let known = known_with(alloc, names, occurrences, in_force, indexes);
    type_between(alloc, &known, low, high)
}

/// Puts the type of the index of an array type behind those before it, where one is declared.
fn index_put<'n, 't>(
    alloc: Global,
    names: &'n Names<'t>,
    occurrences: &'n Occurrences<'t>,
    in_force: &InForce,
    indexes: &mut List<AdaType>,
    occurrence: Occurrence<'_>,
) -> Result<(), NoMemory>
    ensures { OnOk result
        (indexes.new
        ≡ index_put names.now occurrences.now in_force.now indexes.old
        (occurrence_shown occurrence.entry)) }
{
    match occurrence {
        Occurrence::DeclareArray { low, high, .. } => {
            let t = index_between(alloc, names, occurrences, in_force, indexes, low, high)?;
            indexes.push_back(t)?;
            Ok(())
        }
        _ => Ok(()),
    }
}

/// Puts the types of the indexes of all array types that are declared in these occurrences.
fn indexes_along<'n, 't>(
    alloc: Global,
    names: &'n Names<'t>,
    occurrences: &'n Occurrences<'t>,
    in_force: &InForce,
    indexes: &mut List<AdaType>,
    items: &[Occurrence<'t>],
) -> Result<(), NoMemory>
    ensures { OnOk result
        (indexes.new
        ≡ indexes_along names.now occurrences.now in_force.now indexes.old
        (map occurrence_shown items.now)) }
{
    for occurrence in items {
        index_put(alloc, names, occurrences, in_force, indexes, *occurrence)?;
    }
    Ok(())
}

/// The types of the indexes of all array types, by their numbers.
#[tactic(auto, using(crate::proofs::IndexesAre::indexes_are))]
pub fn indexes_of<'n, 't>(
    alloc: Global,
    names: &'n Names<'t>,
    occurrences: &'n Occurrences<'t>,
    in_force: &InForce,
) -> Result<List<AdaType>, NoMemory>
    // They are those of the definition.
    ensures { IfOk result (λ indexes. indexes ≡ indexes_of names.now occurrences.now in_force.now) }
{
    let mut indexes = List::new(alloc);
    indexes_along(
        alloc,
        names,
        occurrences,
        in_force,
        &mut indexes,
        occurrences.as_slice(),
    )?;
    Ok(indexes)
}
