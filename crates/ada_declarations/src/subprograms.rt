//! Subprograms and entries; those of a protected unit stand in its region (ISO/IEC 8652:2012, 6.1,
//! 9.4, 9.5.2).
ghost use Rattle.std.specs.Prelude.{◌≡◌, IfOk, OnOk, option_map};
ghost use Rattle.ada_regions.specs.Names.{innermost_frame};
ghost use Rattle.ada_regions.specs.Subtypes.{indicated_subtype};
ghost use Rattle.ada_regions.specs.Declaring.{type_of_kind, owner_type, protected_unit_of};
ghost use Rattle.ada_regions.specs.Declaring.{numbered_subprogram, subprogram_declared};
ghost use Rattle.ada_regions.specs.Declaring.{entry_unit_in, entry_unit_of, entry_declared};

use crate::entering::{entered, entered_here, is_taken, number};
use ada_entities::{copy, kind_at, owner_here};
use ada_regions::{
    AdaType, AspectsOf, ComponentOwner, Enclosure, EntityKind, Names, NumberedEntry,
    NumberedSubprogram, Subtype, type_of_kind,
};
use ada_subtypes::{formals_of, indicated_subtype};
use ada_tree::{Identifier, Parameter, SubprogramSpecification};
use ann_base::NoMemory;
use profile_image::{EntryNo, EntryUnit, ProtectedUnitNo, SubprogramNo, TaskUnitNo};
use std::alloc::Global;

/// The type of the construct whose region it is.
#[tactic(auto, unfolding(ada_regions::specs::Declaring::owner_type))]
fn owner_type(names: &Names<'_>) -> Option<AdaType>
    ensures { result ≡ owner_type names.now (innermost_frame names.now.frames) }
{
    let owner = owner_here(names)?;
    let kind = kind_at(names, owner)?;
    type_of_kind(kind)
}

fn protected_unit_of(owner: Option<ComponentOwner>) -> Option<ProtectedUnitNo>
    ensures { result ≡ protected_unit_of owner }
{
    match owner? {
        ComponentOwner::Protected(unit) => Some(unit),
        ComponentOwner::Controlled(_) => None,
    }
}

/// The number of a protected unit.
fn unit_number(unit: Option<ProtectedUnitNo>) -> Option<u32>
    ensures { result ≡ option_map (λ u. u.0) unit }
{
    let unit = unit?;
    Some(unit.0)
}

/// The subtype of a function's result; a procedure has none.
fn result_of(names: &Names<'_>, specification: &SubprogramSpecification) -> Option<Option<Subtype>>
    ensures { result ≡ option_map (indicated_subtype names.now) specification.now.result }
{
    let indication = specification.result.as_ref()?;
    Some(indicated_subtype(names, indication))
}

fn numbered_subprogram<'t>(
    alloc: Global,
    names: &Names<'t>,
    enclosure: Enclosure,
    scope: u32,
    identifier: &Identifier,
    specification: &'t SubprogramSpecification,
) -> Result<NumberedSubprogram<'t>, NoMemory>
    ensures { IfOk result
        (λ subprogram.
        subprogram
        ≡ numbered_subprogram names.now enclosure scope identifier.now specification.now) }
{
    let name = copy(alloc, identifier.text.as_slice())?;
    let formals = formals_of(alloc, names, specification.parameters.as_slice())?;
    Ok(NumberedSubprogram {
        name,
        scope,
        formals,
        result: result_of(names, specification),
        unit: unit_number(protected_unit_of(enclosure.components)),
        part: enclosure.part,
        aspects: AspectsOf::new(specification.aspects.as_slice()),
    })
}

/// A subprogram in this region: its declaration, or the body that declares it.
#[tactic(auto, unfolding(ada_regions::specs::Declaring::subprogram_declared))]
pub fn subprogram_declared<'t>(
    alloc: Global,
    names: &mut Names<'t>,
    enclosure: Enclosure,
    specified: bool,
    scope: u32,
    identifier: &Identifier,
    specification: &'t SubprogramSpecification,
) -> Result<(), NoMemory>
    ensures { OnOk result
        (names.new
        ≡ subprogram_declared enclosure specified scope identifier.now specification.now
        names.old) }
{
    let kind = EntityKind::Subprogram {
        number: SubprogramNo(number(names.subprograms.len())?),
        is_function: specification.result.is_some(),
        specified,
        formals: formals_of(alloc, names, specification.parameters.as_slice())?,
        unit: protected_unit_of(enclosure.components),
    };
    let taken = is_taken(names, enclosure.region, identifier.text.as_slice());
    let subprogram = numbered_subprogram(
        alloc,
        names,
        enclosure,
        scope,
        identifier,
        specification,
    )?;
    names.subprograms.push_back(subprogram)?;
    entered(alloc, names, enclosure, taken, identifier, kind, None)
}

fn entry_unit_in(of_type: AdaType) -> EntryUnit
    ensures { result ≡ entry_unit_in of_type }
{
    match of_type {
        AdaType::Task(unit) => EntryUnit::Task(unit),
        AdaType::Protected(unit) => EntryUnit::Protected(unit),
        _ => EntryUnit::Task(TaskUnitNo(0)),
    }
}

fn entry_unit_of(of_type: Option<AdaType>) -> EntryUnit
    ensures { result ≡ entry_unit_of of_type }
{
    match of_type {
        None => EntryUnit::Task(TaskUnitNo(0)),
        Some(of_type) => entry_unit_in(of_type),
    }
}

/// An entry is declared.
#[tactic(auto, unfolding(ada_regions::specs::Declaring::entry_declared))]
pub fn entry_declared(
    alloc: Global,
    names: &mut Names<'_>,
    identifier: &Identifier,
    parameters: &[Parameter],
) -> Result<(), NoMemory>
    ensures { OnOk result (names.new ≡ entry_declared identifier.now parameters.now names.old) }
{
    let unit = entry_unit_of(owner_type(names));
    let kind = EntityKind::Entry {
        number: EntryNo(number(names.entries.len())?),
        unit,
        formals: formals_of(alloc, names, parameters)?,
    };
    let name = copy(alloc, identifier.text.as_slice())?;
    let formals = formals_of(alloc, names, parameters)?;
    names.entries.push_back(NumberedEntry {
        name,
        unit,
        formals,
        body: None,
    })?;
    entered_here(alloc, names, identifier, kind, None)
}
