//! Contexts of library units (ISO/IEC 8652:2012, 8.4, 10.1.2, D.7).
ghost use Rattle.std.specs.Prelude.{◌≡◌, ◌++◌, OnOk};
ghost use Rattle.ada_regions.specs.Words.{all_of};
ghost use Rattle.ada_legality.specs.CallStatements.{all_found};
ghost use Rattle.ada_legality.specs.Declarations.{use_found};
ghost use Rattle.ada_legality.specs.Units.{clause_found, context_found};
ghost use Rattle.ada_legality.specs.Units.{names_dynamic_priorities, with_found};
ghost use Rattle.ada_legality.specs.Values.{is_denoted};

use ada_entities::denoted_by;
use ada_legality::{Finding, Known, Rule};
use ada_predefined::same_unit;
use ada_regions::{Denoted, PredefinedUnit};
use ada_tree::{ContextClause, Name, OneOrMore};
use ann_base::NoMemory;
use legality_types::{broken_if, broken_unless};
use legality_units::use_found;
use legality_values::place_of;
use world_tables::List;

/// Ada.Dynamic_Priorities.
#[tactic(auto, unfolding(ada_regions::specs::Visibility::same_denoted))]
fn names_dynamic_priorities(denoted: Denoted) -> bool
    ensures { result ≡ names_dynamic_priorities denoted }
{
    match denoted {
        Denoted::Entity(_) => false,
        Denoted::Unit(unit) => same_unit(unit, PredefinedUnit::DynamicPriorities),
        Denoted::Item { .. } => false,
    }
}

/// A name denotes that package.
fn is_dynamic_priorities(known: &Known<'_, '_>, name: &Name) -> bool
    ensures { result ≡ is_denoted names_dynamic_priorities known.now name.now }
{
    match denoted_by(known.names.get(), name) {
        None => false,
        Some(denoted) => names_dynamic_priorities(denoted),
    }
}

/// A unit that is named by a with clause: one of the profile, or an earlier package.
#[tactic(auto, unfolding(ada_legality::specs::Units::with_found))]
fn with_found(found: &mut List<Finding>, known: &Known<'_, '_>, name: &Name) -> Result<(), NoMemory>
    ensures { OnOk result (found.new ≡ found.old ++ with_found name.now known.now) }
{
    let kept = denoted_by(known.names.get(), name).is_some();
    broken_unless(found, Rule::LibraryUnits, kept, place_of(name))?;
    let broken = known.in_force.no_dynamic_priorities && is_dynamic_priorities(known, name);
    broken_if(found, Rule::Restriction, broken, place_of(name))
}

/// The names of a use clause.
fn uses_found(
    found: &mut List<Finding>,
    known: &Known<'_, '_>,
    names: &OneOrMore<Name>,
) -> Result<(), NoMemory>
    ensures { OnOk result
        (found.new ≡ found.old ++ all_found use_found (all_of names.now) known.now) }
{
    use_found(found, known, &names.first)?;
    for name in names.others.as_slice() {
        use_found(found, known, name)?;
    }
    Ok(())
}

/// The names of a with clause.
fn withs_found(
    found: &mut List<Finding>,
    known: &Known<'_, '_>,
    names: &OneOrMore<Name>,
) -> Result<(), NoMemory>
    ensures { OnOk result
        (found.new ≡ found.old ++ all_found with_found (all_of names.now) known.now) }
{
    with_found(found, known, &names.first)?;
    for name in names.others.as_slice() {
        with_found(found, known, name)?;
    }
    Ok(())
}

/// A with or use clause.
#[tactic(auto, unfolding(ada_legality::specs::Units::clause_found))]
fn clause_found(
    found: &mut List<Finding>,
    known: &Known<'_, '_>,
    clause: &ContextClause,
) -> Result<(), NoMemory>
    ensures { OnOk result (found.new ≡ found.old ++ clause_found clause.now known.now) }
{
    if clause.is_use {
        uses_found(found, known, &clause.names)
    } else {
        withs_found(found, known, &clause.names)
    }
}

/// The context of a library unit.
pub fn context_found(
    found: &mut List<Finding>,
    known: &Known<'_, '_>,
    clauses: &[ContextClause],
) -> Result<(), NoMemory>
    ensures { OnOk result (found.new ≡ found.old ++ context_found clauses.now known.now) }
{
    for clause in clauses {
        clause_found(found, known, clause)?;
    }
    Ok(())
}
