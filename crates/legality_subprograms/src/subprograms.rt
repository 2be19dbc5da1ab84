//! Subprograms (ISO/IEC 8652:2012, 6.1, 7.6, 8.3.1).
ghost use Rattle.std.specs.Prelude.{◌≡◌, ◌++◌, OnOk};
ghost use Rattle.ann_base.specs.Lists.{is_empty};
ghost use Rattle.ada_legality.specs.CallStatements.{found_if, indication_found};
ghost use Rattle.ada_legality.specs.Aspects.{aspects_found};
ghost use Rattle.ada_legality.specs.Declarations.{is_parameterless_procedure};
ghost use Rattle.ada_legality.specs.Declarations.{owner_of_aspects, specification_found};
ghost use Rattle.ada_legality.specs.Declarations.{subprogram_found, unit_of_operation};

use crate::overriding::{
    completes_declaration, is_overriding, numbered_of, overriding_judged, place_of_specification,
};
use ada_legality::{AspectOwner, BodyKind, Finding, IndicationUse, Known};
use ada_tree::{Aspect, Identifier, SubprogramSpecification, SubtypeIndication};
use ann_base::{NoMemory, Place};
use legality_entities::kind_of_identifier;
use legality_parts::{aspects_found, indication_found, parameters_found};
use legality_profiles::declaration_noted;
use std::alloc::Global;
use world_tables::List;

/// The protected unit whose operation an identifier names.
#[tactic(auto, unfolding(ada_legality::specs::Declarations::unit_of_operation))]
pub fn unit_of_operation(known: &Known<'_, '_>, name: &Identifier) -> Option<u32>
    ensures { result ≡ unit_of_operation known.now name.now }
{
    let kind = kind_of_identifier(known, name)?;
    let subprogram = numbered_of(known.names.get(), kind)?;
    subprogram.unit
}

fn is_empty<T>(items: &[T]) -> bool
    ensures { result ≡ is_empty items.now }
{
    match items {
        [] => true,
        [_, ..] => false,
    }
}

/// A procedure without parameters.
fn is_parameterless_procedure(specification: &SubprogramSpecification) -> bool
    ensures { result ≡ is_parameterless_procedure specification.now }
{
    specification.result.is_none() && is_empty(specification.parameters.as_slice())
}

/// On what a subprogram's aspects stand.
#[tactic(auto, unfolding(ada_legality::specs::Declarations::owner_of_aspects))]
fn owner_of_aspects(
    known: &Known<'_, '_>,
    specification: &SubprogramSpecification,
    unit: Option<u32>,
) -> AspectOwner
    ensures { result ≡ owner_of_aspects known.now specification.now unit }
{
    match unit {
        None => AspectOwner::OnSubprogram,
        Some(unit) => AspectOwner::OnOperation {
            is_parameterless: is_parameterless_procedure(specification),
            completes: completes_declaration(known, &specification.name),
            unit,
        },
    }
}

/// The result of a function.
fn result_found(
    alloc: Global,
    found: &mut List<Finding>,
    known: &Known<'_, '_>,
    result_of: &Option<SubtypeIndication>,
) -> Result<(), NoMemory>
    ensures { OnOk result
        (found.new
        ≡ found.old
        ++ found_if (indication_found IndicationUse.ForResult) result_of.now known.now) }
{
    match result_of {
        None => Ok(()),
        Some(indication) => {
            indication_found(alloc, found, known, IndicationUse::ForResult, indication)
        }
    }
}

/// What is found in aspects, of which the parts are not asked.
fn aspects_alone(
    alloc: Global,
    found: &mut List<Finding>,
    known: &Known<'_, '_>,
    owner: AspectOwner,
    place: Place,
    aspects: &[Aspect],
) -> Result<(), NoMemory>
    ensures { OnOk result
        (found.new ≡ found.old ++ (aspects_found owner place aspects.now known.now).1) }
{
    aspects_found(alloc, found, known, owner, place, aspects)?;
    Ok(())
}

/// A subprogram's specification, of what is an operation of this unit.
#[tactic(auto, unfolding(ada_legality::specs::Declarations::specification_found))]
pub fn specification_found(
    alloc: Global,
    found: &mut List<Finding>,
    known: &Known<'_, '_>,
    specification: &SubprogramSpecification,
    unit: Option<u32>,
) -> Result<(), NoMemory>
    ensures { OnOk result
        (found.new ≡ found.old ++ specification_found specification.now unit known.now) }
{
    let in_unit = unit.is_some() && specification.result.is_none();
    let overrides = is_overriding(known, &specification.name)?;
    let parameters = specification.parameters.as_slice();
    parameters_found(alloc, found, known, in_unit, overrides, parameters)?;
    result_found(alloc, found, known, &specification.result)?;
    let owner = owner_of_aspects(known, specification, unit);
    let place = place_of_specification(specification);
    let aspects = specification.aspects.as_slice();
    aspects_alone(alloc, found, known, owner, place, aspects)
}

/// A subprogram declaration.
#[tactic(auto, unfolding(ada_legality::specs::Declarations::subprogram_found))]
pub fn subprogram_found(
    alloc: Global,
    found: &mut List<Finding>,
    known: &Known<'_, '_>,
    specification: &SubprogramSpecification,
) -> Result<(), NoMemory>
    ensures { OnOk result (found.new ≡ found.old ++ subprogram_found specification.now known.now) }
{
    let unit = unit_of_operation(known, &specification.name);
    let place = place_of_specification(specification);
    declaration_noted(
        found,
        known,
        BodyKind::Subprogram,
        &specification.name,
        place,
    )?;
    overriding_judged(found, known, specification, unit)?;
    specification_found(alloc, found, known, specification, unit)
}
