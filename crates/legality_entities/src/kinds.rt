//! Kinds of entities (ISO/IEC 8652:2012, 3.1, 3.3, 6.1, 9.5.2).
ghost use Rattle.std.specs.Prelude.{◌≡◌};
ghost use Rattle.ada_legality.specs.Values.{is_object_kind, is_literal_kind, is_function_kind};
ghost use Rattle.ada_legality.specs.Values.{is_procedure_kind, formals_of_subprogram};
ghost use Rattle.ada_legality.specs.SimpleStatements.{task_type_of_entry};
ghost use Rattle.ada_legality.specs.Attributes.{protected_procedure, is_in_mode, is_variable_kind};
ghost use Rattle.ada_legality.specs.Attributes.{type_of_entry_unit, unit_type_of_entry};

use ada_regions::{AdaType, EntityKind, Formal, Mode};
use profile_image::{EntryUnit, ProtectedUnitNo};

/// An object, a parameter, a component or a loop parameter.
pub fn is_object_kind(kind: &EntityKind) -> bool
    ensures { result ≡ is_object_kind kind.now }
{
    match kind {
        EntityKind::Object { .. } => true,
        EntityKind::Parameter { .. } => true,
        EntityKind::Component { .. } => true,
        EntityKind::LoopParameter(_) => true,
        _ => false,
    }
}

/// An enumeration literal.
pub fn is_literal_kind(kind: &EntityKind) -> bool
    ensures { result ≡ is_literal_kind kind.now }
{
    match kind {
        EntityKind::Literal { .. } => true,
        _ => false,
    }
}

/// A function of the source.
pub fn is_function_kind(kind: &EntityKind) -> bool
    ensures { result ≡ is_function_kind kind.now }
{
    match kind {
        EntityKind::Subprogram { is_function, .. } => *is_function,
        _ => false,
    }
}

/// A procedure of the source.
pub fn is_procedure_kind(kind: &EntityKind) -> bool
    ensures { result ≡ is_procedure_kind kind.now }
{
    match kind {
        EntityKind::Subprogram { is_function, .. } => !*is_function,
        EntityKind::Main => true,
        _ => false,
    }
}

/// The formals of a subprogram.
pub fn formals_of_subprogram(kind: &EntityKind) -> &[Formal]
    ensures { result.now ≡ formals_of_subprogram kind.now }
{
    match kind {
        EntityKind::Subprogram { formals, .. } => formals.as_slice(),
        _ => &[],
    }
}

/// The protected unit of a procedure of one.
#[tactic(auto, unfolding(ada_legality::specs::Attributes::protected_procedure))]
pub fn protected_procedure(kind: &EntityKind) -> Option<ProtectedUnitNo>
    ensures { result ≡ protected_procedure kind.now }
{
    match kind {
        EntityKind::Subprogram {
            is_function,
            unit,
            ..
        } => { if *is_function { None } else { *unit } }
        _ => None,
    }
}

fn is_in_mode(mode: Mode) -> bool
    ensures { result ≡ is_in_mode mode }
{
    match mode {
        Mode::In => true,
        _ => false,
    }
}

/// A variable by itself (3.3).
pub fn is_variable_kind(kind: &EntityKind) -> bool
    ensures { result ≡ is_variable_kind kind.now }
{
    match kind {
        EntityKind::Object { constant, .. } => !*constant,
        EntityKind::Parameter { mode, .. } => !is_in_mode(*mode),
        EntityKind::Component { .. } => true,
        _ => false,
    }
}

fn type_of_entry_unit(unit: EntryUnit) -> AdaType
    ensures { result ≡ type_of_entry_unit unit }
{
    match unit {
        EntryUnit::Task(unit) => AdaType::Task(unit),
        EntryUnit::Protected(unit) => AdaType::Protected(unit),
    }
}

/// The type of an entry's unit.
#[tactic(auto, unfolding(ada_legality::specs::Attributes::unit_type_of_entry))]
pub fn unit_type_of_entry(kind: &EntityKind) -> Option<AdaType>
    ensures { result ≡ unit_type_of_entry kind.now }
{
    match kind {
        EntityKind::Entry { unit, .. } => Some(type_of_entry_unit(*unit)),
        _ => None,
    }
}

/// The task unit of an entry.
pub fn task_type_of_entry(kind: &EntityKind) -> Option<AdaType>
    ensures { result ≡ task_type_of_entry kind.now }
{
    match kind {
        EntityKind::Entry { unit, .. } => match unit {
            EntryUnit::Task(unit) => Some(AdaType::Task(*unit)),
            EntryUnit::Protected(_) => None,
        },
        _ => None,
    }
}
