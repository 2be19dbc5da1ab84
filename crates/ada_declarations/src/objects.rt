//! Objects, components, parameters, exceptions and labels (ISO/IEC 8652:2012, 3.3.1, 3.8, 5.1, 5.5,
//! 6.1, 11.1).
ghost use Rattle.std.specs.Prelude.{◌≡◌, OnOk};
ghost use Rattle.ada_regions.specs.Occurrences.{a_label};
ghost use Rattle.ada_regions.specs.Declaring.{constant_value, object_number, number_of_object};
ghost use Rattle.ada_regions.specs.Declaring.{task_indicated, object_declared, owner_or_none};
ghost use Rattle.ada_regions.specs.Declaring.{component_declared, parameter_declared};
ghost use Rattle.ada_regions.specs.Declaring.{loop_parameter_declared, exception_declared};
ghost use Rattle.ada_regions.specs.Declaring.{declared};

use crate::entering::entered_here;
use crate::numbering::{initial_of, next_declaration, numbered, numbered_declaration};
use ada_entities::{denoted_by, enclosure_here, entity_of, kind_at, scope_in, scope_of_loops};
use ada_regions::{ComponentOwner, Denoted, EntityKind, Names, Sort};
use ada_subtypes::{indicated_subtype, mode_of, static_value};
use ada_tree::{Component, Constraint as Indicated, Identifier, ObjectDeclaration, Parameter};
use ann_base::NoMemory;
use profile_image::{ControlledNo, DeclNo, Value};
use std::alloc::Global;

/// The value of a constant whose initial value is static.
#[tactic(auto, unfolding(ada_regions::specs::Declaring::constant_value))]
fn constant_value(names: &Names<'_>, object: &ObjectDeclaration) -> Option<Value>
    ensures { result ≡ constant_value names.now object.now }
{
    if object.constant {
        static_value(names, object.initial.as_ref()?)
    } else {
        None
    }
}

fn object_number(kind: &EntityKind) -> Option<DeclNo>
    ensures { result ≡ object_number kind.now }
{
    match kind {
        EntityKind::Object { declaration, .. } => Some(*declaration),
        _ => None,
    }
}

fn number_of_object(names: &Names<'_>, denoted: Denoted) -> Option<u32>
    ensures { result ≡ number_of_object names.now denoted }
{
    let entity = entity_of(denoted)?;
    let kind = kind_at(names, entity)?;
    let number = object_number(kind)?;
    Some(number.0)
}

/// The constant that a timer's indication names (D.14.1).
#[tactic(auto, unfolding(ada_regions::specs::Declaring::task_indicated))]
fn task_indicated(names: &Names<'_>, constraint: &Option<Indicated>) -> Option<u32>
    ensures { result ≡ task_indicated names.now constraint.now }
{
    match constraint.as_ref()? {
        Indicated::Access(name) => number_of_object(names, denoted_by(names, name)?),
        Indicated::Range { .. } => None,
    }
}

/// An object is declared.
#[tactic(auto, unfolding(ada_regions::specs::Declaring::object_declared))]
pub fn object_declared<'t>(
    alloc: Global,
    names: &mut Names<'t>,
    identifier: &'t Identifier,
    object: &'t ObjectDeclaration,
) -> Result<(), NoMemory>
    ensures { OnOk result (names.new ≡ object_declared identifier.now object.now names.old) }
{
    let subtype = indicated_subtype(names, &object.subtype);
    let kind = EntityKind::Object {
        subtype,
        constant: object.constant,
        value: constant_value(names, object),
        declaration: next_declaration(names)?,
    };
    let scope = scope_in(&names.frames);
    let mut declaration = numbered_declaration(
        alloc,
        names,
        identifier,
        Sort::Object,
        scope,
        subtype,
    )?;
    declaration.initial = initial_of(&object.initial);
    declaration.task = task_indicated(names, &object.subtype.constraint);
    names.declarations.push_back(declaration)?;
    entered_here(alloc, names, identifier, kind, None)
}

fn owner_or_none(owner: Option<ComponentOwner>) -> ComponentOwner
    ensures { result ≡ owner_or_none owner }
{
    match owner {
        None => ComponentOwner::Controlled(ControlledNo(0)),
        Some(owner) => owner,
    }
}

/// A component is declared.
#[tactic(auto, unfolding(ada_regions::specs::Declaring::component_declared, ada_regions::specs::Declaring::numbered))]
pub fn component_declared<'t>(
    alloc: Global,
    names: &mut Names<'t>,
    identifier: &'t Identifier,
    component: &'t Component,
) -> Result<(), NoMemory>
    ensures { OnOk result (names.new ≡ component_declared identifier.now component.now names.old) }
{
    let subtype = indicated_subtype(names, &component.subtype);
    let owner = owner_or_none(enclosure_here(names).components);
    let kind = EntityKind::Component {
        subtype,
        owner,
        declaration: next_declaration(names)?,
    };
    let sort = Sort::Component(owner);
    let mut declaration = numbered_declaration(alloc, names, identifier, sort, 0, subtype)?;
    declaration.initial = initial_of(&component.initial);
    names.declarations.push_back(declaration)?;
    entered_here(alloc, names, identifier, kind, None)
}

/// A parameter is declared; that of a body or an accept statement has cells.
#[tactic(auto, unfolding(ada_regions::specs::Declaring::parameter_declared))]
pub fn parameter_declared<'t>(
    alloc: Global,
    names: &mut Names<'t>,
    with_cells: bool,
    identifier: &'t Identifier,
    parameter: &'t Parameter,
) -> Result<(), NoMemory>
    ensures { OnOk result
        (names.new ≡ parameter_declared with_cells identifier.now parameter.now names.old) }
{
    let subtype = indicated_subtype(names, &parameter.subtype);
    let mode = mode_of(parameter.is_in, parameter.is_out);
    if with_cells {
        let kind = EntityKind::Parameter {
            subtype,
            mode,
            declaration: Some(next_declaration(names)?),
        };
        let scope = scope_in(&names.frames);
        numbered(alloc, names, identifier, Sort::Parameter, scope, subtype)?;
        entered_here(alloc, names, identifier, kind, None)
    } else {
        let kind = EntityKind::Parameter {
            subtype,
            mode,
            declaration: None,
        };
        entered_here(alloc, names, identifier, kind, None)
    }
}

/// A loop parameter is declared.
#[tactic(auto, unfolding(ada_regions::specs::Declaring::loop_parameter_declared))]
pub fn loop_parameter_declared<'t>(
    alloc: Global,
    names: &mut Names<'t>,
    identifier: &'t Identifier,
) -> Result<(), NoMemory>
    ensures { OnOk result (names.new ≡ loop_parameter_declared identifier.now names.old) }
{
    let kind = EntityKind::LoopParameter(next_declaration(names)?);
    let scope = scope_of_loops(&names.frames);
    numbered(alloc, names, identifier, Sort::LoopParameter, scope, None)?;
    entered_here(alloc, names, identifier, kind, None)
}

/// An exception is declared.
#[tactic(auto, unfolding(ada_regions::specs::Declaring::exception_declared))]
pub fn exception_declared<'t>(
    alloc: Global,
    names: &mut Names<'t>,
    identifier: &'t Identifier,
) -> Result<(), NoMemory>
    ensures { OnOk result (names.new ≡ exception_declared identifier.now names.old) }
{
    let kind = EntityKind::Exception(next_declaration(names)?);
    numbered(alloc, names, identifier, Sort::Exception, 0, None)?;
    entered_here(alloc, names, identifier, kind, None)
}

/// The name of a loop or a block is declared.
#[tactic(auto, unfolding(ada_regions::specs::Declaring::declared))]
pub fn label_declared(
    alloc: Global,
    names: &mut Names<'_>,
    identifier: &Identifier,
) -> Result<(), NoMemory>
    ensures { OnOk result (names.new ≡ declared identifier.now a_label names.old) }
{
    entered_here(alloc, names, identifier, EntityKind::Label, None)
}
