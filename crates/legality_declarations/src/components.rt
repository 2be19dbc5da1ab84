//! Components (ISO/IEC 8652:2012, 3.8, 9.4).
ghost use Rattle.std.specs.Prelude.{◌≡◌, ◌++◌, OnOk};
ghost use Rattle.ada_legality.specs.CallStatements.{all_found};
ghost use Rattle.ada_legality.specs.Declarations.{component_found, components_found};
ghost use Rattle.ada_legality.specs.Declarations.{protected_component_found};
ghost use Rattle.ada_legality.specs.Declarations.{record_component_found};

use ada_legality::{Finding, IndicationUse, Known};
use ada_tree::{Component, OneOrMore};
use ann_base::NoMemory;
use legality_conditions::value_found_if;
use legality_parts::{indication_found, type_of_mark};
use std::alloc::Global;
use world_tables::List;

/// A component.
#[tactic(auto, unfolding(ada_legality::specs::Declarations::component_found))]
fn component_found(
    alloc: Global,
    found: &mut List<Finding>,
    known: &Known<'_, '_>,
    purpose: IndicationUse,
    component: &Component,
) -> Result<(), NoMemory>
    ensures { OnOk result
        (found.new ≡ found.old ++ component_found purpose component.now known.now) }
{
    indication_found(alloc, found, known, purpose, &component.subtype)?;
    let t = type_of_mark(known, &component.subtype);
    value_found_if(alloc, found, known, t, &component.initial)
}

/// A component of a controlled type.
fn record_component_found(
    alloc: Global,
    found: &mut List<Finding>,
    known: &Known<'_, '_>,
    component: &Component,
) -> Result<(), NoMemory>
    ensures { OnOk result
        (found.new ≡ found.old ++ record_component_found component.now known.now) }
{
    component_found(alloc, found, known, IndicationUse::ForComponent, component)
}

/// The components of a derived type.
pub(crate) fn components_found(
    alloc: Global,
    found: &mut List<Finding>,
    known: &Known<'_, '_>,
    components: &OneOrMore<Component>,
) -> Result<(), NoMemory>
    ensures { OnOk result (found.new ≡ found.old ++ components_found components.now known.now) }
{
    record_component_found(alloc, found, known, &components.first)?;
    for component in components.others.as_slice() {
        record_component_found(alloc, found, known, component)?;
    }
    Ok(())
}

/// A component of a protected unit.
fn protected_component_found(
    alloc: Global,
    found: &mut List<Finding>,
    known: &Known<'_, '_>,
    component: &Component,
) -> Result<(), NoMemory>
    ensures { OnOk result
        (found.new ≡ found.old ++ protected_component_found component.now known.now) }
{
    let purpose = IndicationUse::ForProtectedComponent(component.names.first.place);
    component_found(alloc, found, known, purpose, component)
}

/// The components of a protected unit.
pub fn protected_components_found(
    alloc: Global,
    found: &mut List<Finding>,
    known: &Known<'_, '_>,
    components: &[Component],
) -> Result<(), NoMemory>
    ensures { OnOk result
        (found.new ≡ found.old ++ all_found protected_component_found components.now known.now) }
{
    for component in components {
        protected_component_found(alloc, found, known, component)?;
    }
    Ok(())
}
