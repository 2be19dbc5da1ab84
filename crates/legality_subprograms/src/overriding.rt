//! What overrides the operations of controlled types (ISO/IEC 8652:2012, 7.6, 8.3.1).
ghost use Rattle.std.specs.Prelude.{◌≡◌, ◌++◌, IfOk, OnOk, option_copied};
ghost use Rattle.std.specs.Prelude.{option_map, unwrap_or, false};
ghost use Rattle.std.specs.List.{list_any};
ghost use Rattle.std.specs.Str.{bytes_eq};
ghost use Rattle.ada_regions.specs.Words.{same_place};
ghost use Rattle.ada_regions.specs.Names.{entity_at};
ghost use Rattle.ada_legality.specs.Declarations.{completes_declaration, controlled_names};
ghost use Rattle.ada_legality.specs.Declarations.{declares_here, is_operation_name, is_overriding};
ghost use Rattle.ada_legality.specs.Declarations.{is_specified_name, looks_overriding};
ghost use Rattle.ada_legality.specs.Declarations.{numbered_of, of_controlled_type, overrides_any};
ghost use Rattle.ada_legality.specs.Declarations.{overrides_some, overrides_type};
ghost use Rattle.ada_legality.specs.Declarations.{overrides_wrongly, overriding_judged};

use ada_completions::is_specified;
use ada_entities::{entity_at, entity_denoted, same_place};
use ada_legality::{Finding, Known, Rule};
use ada_regions::{
    EntityKind, Formal, Names, NumberedControlled, NumberedSubprogram, is_controlled_type,
};
use ada_tree::{Identifier, Parameter, SubprogramSpecification};
use ann_base::{NoMemory, Place};
use image_layout::{added, has_one_of_type};
use legality_entities::{formals_of_subprogram, kind_of_identifier};
use legality_parts::type_of_mark;
use legality_types::broken_if;
use world_tables::List;

/// A subprogram begins with `overriding`, where it has the word.
pub(crate) fn place_of_specification(specification: &SubprogramSpecification) -> Place
    ensures { result ≡ unwrap_or specification.now.overriding specification.now.place }
{
    specification.overriding.unwrap_or(specification.place)
}

/// A name of the operations of a controlled type; Adjust is one of a type derived from Controlled
/// alone.
fn is_controlled_name(name: &[u8], is_limited: bool) -> bool
    ensures { result ≡ list_any (bytes_eq name.now) (controlled_names is_limited) }
{
    if is_limited {
        name == b"initialize".as_slice() || name == b"finalize".as_slice()
    } else {
        name == b"initialize".as_slice()
            || (name == b"finalize".as_slice() || name == b"adjust".as_slice())
    }
}

/// A subprogram overrides an operation of this type.
#[tactic(auto, unfolding(ada_legality::specs::Declarations::overrides_type))]
fn overrides_type(
    subprogram: &NumberedSubprogram<'_>,
    formals: &[Formal],
    number: u32,
    controlled: NumberedControlled,
) -> bool
    ensures { result ≡ overrides_type subprogram.now formals.now number controlled }
{
    is_controlled_name(subprogram.name.as_slice(), controlled.is_limited)
        && (subprogram.result.is_none()
            && (subprogram.unit.is_none()
                && (subprogram.part == controlled.part && has_one_of_type(number, formals))))
}

/// It overrides an operation of some type.
#[tactic(auto, unfolding(ada_legality::specs::Declarations::overrides_some))]
fn overrides_some(
    subprogram: &NumberedSubprogram<'_>,
    formals: &[Formal],
    types: &List<NumberedControlled>,
) -> Result<bool, NoMemory>
    ensures { IfOk result (λ held. held ≡ overrides_some subprogram.now formals.now 0 types.now) }
{
    let mut number = 0u32;
    for controlled in types.iter() {
        if overrides_type(subprogram, formals, number, *controlled) {
            return Ok(true);
        }
        number = added(number, 1)?;
    }
    Ok(false)
}

/// The subprogram of an entity.
#[tactic(auto, unfolding(ada_legality::specs::Declarations::numbered_of))]
pub(crate) fn numbered_of<'n, 't>(
    names: &'n Names<'t>,
    kind: &EntityKind,
) -> Option<&'n NumberedSubprogram<'t>>
    ensures { option_copied result ≡ numbered_of names.now kind.now }
{
    match kind {
        EntityKind::Subprogram { number, .. } => names.subprograms.get(number.0 as usize),
        _ => None,
    }
}

/// The subprogram of this kind overrides something.
#[tactic(auto, unfolding(ada_legality::specs::Declarations::overrides_any))]
fn overrides_any(names: &Names<'_>, kind: &EntityKind) -> Result<bool, NoMemory>
    ensures { IfOk result (λ held. held ≡ overrides_any names.now kind.now) }
{
    match numbered_of(names, kind) {
        None => Ok(false),
        Some(subprogram) => {
            let formals = formals_of_subprogram(kind);
            overrides_some(subprogram, formals, &names.controlled_types)
        }
    }
}

/// An identifier is the name of what overrides.
#[tactic(auto, unfolding(ada_legality::specs::Declarations::is_overriding))]
pub(crate) fn is_overriding(known: &Known<'_, '_>, name: &Identifier) -> Result<bool, NoMemory>
    ensures { IfOk result (λ held. held ≡ is_overriding known.now name.now) }
{
    match kind_of_identifier(known, name) {
        None => Ok(false),
        Some(kind) => overrides_any(known.names.get(), kind),
    }
}

/// The name of a declared procedure.
#[tactic(auto, unfolding(ada_legality::specs::Declarations::is_specified_name))]
fn is_specified_name(known: &Known<'_, '_>, name: &Identifier) -> bool
    ensures { result ≡ is_specified_name known.now name.now }
{
    match entity_denoted(known.names.get(), name.place) {
        None => false,
        Some(entity) => is_specified(known.names.get(), entity),
    }
}

/// An entity is declared at a place.
fn is_declared_at(names: &Names<'_>, entity: u32, place: Place) -> bool
    ensures { result
        ≡ unwrap_or (option_map (λ x. same_place x.place place) (entity_at names.now entity))
        false }
{
    match entity_at(names, entity) {
        None => false,
        Some(entity) => same_place(entity.place, place),
    }
}

/// An identifier is where its entity is declared.
#[tactic(auto, unfolding(ada_legality::specs::Declarations::declares_here))]
fn declares_here(known: &Known<'_, '_>, name: &Identifier) -> bool
    ensures { result ≡ declares_here known.now name.now }
{
    match entity_denoted(known.names.get(), name.place) {
        None => false,
        Some(entity) => is_declared_at(known.names.get(), entity, name.place),
    }
}

/// A body that completes a declaration.
#[tactic(auto, unfolding(ada_legality::specs::Declarations::completes_declaration))]
pub(crate) fn completes_declaration(known: &Known<'_, '_>, name: &Identifier) -> bool
    ensures { result ≡ completes_declaration known.now name.now }
{
    is_specified_name(known, name) && !declares_here(known, name)
}

/// Initialize, Finalize or Adjust.
fn is_operation_name(name: &Identifier) -> bool
    ensures { result ≡ is_operation_name name.now }
{
    is_controlled_name(name.text.as_slice(), false)
}

/// A parameter is of a controlled type.
#[tactic(auto, unfolding(ada_legality::specs::Declarations::of_controlled_type))]
fn of_controlled_type(known: &Known<'_, '_>, parameter: &Parameter) -> bool
    ensures { result ≡ of_controlled_type known.now parameter.now }
{
    match type_of_mark(known, &parameter.subtype) {
        None => false,
        Some(t) => is_controlled_type(t),
    }
}

/// Some parameter is of a controlled type.
fn has_controlled_type(known: &Known<'_, '_>, parameters: &[Parameter]) -> bool
    ensures { result ≡ list_any (of_controlled_type known.now) parameters.now }
{
    parameters
        .iter()
        .any(|parameter| of_controlled_type(known, parameter))
}

/// A subprogram of such a name with such a parameter.
#[tactic(auto, unfolding(ada_legality::specs::Declarations::looks_overriding))]
fn looks_overriding(
    known: &Known<'_, '_>,
    specification: &SubprogramSpecification,
    unit: Option<u32>,
) -> bool
    ensures { result ≡ looks_overriding known.now specification.now unit }
{
    is_operation_name(&specification.name)
        && (unit.is_none() && has_controlled_type(known, specification.parameters.as_slice()))
}

/// What overrides nothing, and says or looks so.
#[tactic(auto, unfolding(ada_legality::specs::Declarations::overrides_wrongly))]
fn overrides_wrongly(
    known: &Known<'_, '_>,
    specification: &SubprogramSpecification,
    unit: Option<u32>,
) -> Result<bool, NoMemory>
    ensures { IfOk result (λ held. held ≡ overrides_wrongly known.now specification.now unit) }
{
    let name = &specification.name;
    let overrides = is_overriding(known, name)?;
    Ok(
        !overrides
            && (specification.overriding.is_some()
                || (!completes_declaration(known, name)
                    && looks_overriding(known, specification, unit))),
    )
}

/// The word of a subprogram that overrides nothing.
#[tactic(auto, unfolding(ada_legality::specs::Declarations::overriding_judged))]
pub(crate) fn overriding_judged(
    found: &mut List<Finding>,
    known: &Known<'_, '_>,
    specification: &SubprogramSpecification,
    unit: Option<u32>,
) -> Result<(), NoMemory>
    ensures { OnOk result
        (found.new ≡ found.old ++ overriding_judged known.now specification.now unit) }
{
    let broken = overrides_wrongly(known, specification, unit)?;
    let place = place_of_specification(specification);
    broken_if(found, Rule::ControlledOperations, broken, place)
}
