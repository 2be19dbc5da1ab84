//! The types of names (ISO/IEC 8652:2012, 4.1, 6.4).
ghost use Rattle.std.specs.Prelude.{◌≡◌, pos, suc};
ghost use Rattle.ada_regions.specs.PredefinedUnits.{subtype_with};
ghost use Rattle.ada_regions.specs.declared.types.AdaType.TheVariants as types;
ghost use Rattle.profile_image.specs.declared.values.Constraint.TheVariants as constraint;
ghost use Rattle.ada_legality.specs.declared.reading.Typed.TheVariants as typing;
ghost use Rattle.ada_legality.specs.Values.{denotes_value, denotes_object, denotes_function};
ghost use Rattle.ada_legality.specs.Values.{denotes_procedure, component_subtype};
ghost use Rattle.ada_legality.specs.Values.{subtype_with_index, unless_index, typed_constant};
ghost use Rattle.ada_legality.specs.Values.{typed_value, result_of_kind, typed_operation_call};
ghost use Rattle.ada_legality.specs.Values.{typed_call, typed_denoted, typed_name};

use ada_entities::denoted_by;
use ada_image::type_of_operation;
use ada_legality::{Known, Typed};
use ada_regions::{
    AdaType, Denoted, EntityKind, Names, Operation, PredefinedUnit, Subtype, is_entry,
};
use ada_tree::Name;
use image_layout::array_of;
use legality_entities::{
    constant_type, denoted_kind, is_function_kind, is_function_operation, is_literal_kind,
    is_object_kind, is_predefined_constant, is_procedure_kind, operation_denoted, operation_of,
    subtype_of_entity, type_of_constant,
};
use legality_types::{typed_as, typed_by, typed_if};
use profile_image::Constraint;

/// An object, a literal or a constant.
#[tactic(auto, unfolding(ada_legality::specs::Values::denotes_value))]
pub fn denotes_value(known: &Known<'_, '_>, denoted: Denoted) -> bool
    ensures { result ≡ denotes_value known.now denoted }
{
    if constant_type(denoted).is_some() {
        true
    } else {
        match denoted_kind(known.names.get(), denoted) {
            None => false,
            Some(kind) => is_object_kind(kind) || is_literal_kind(kind),
        }
    }
}

/// What is assigned is an object, a constant one too, or an element of an array.
#[tactic(auto, unfolding(ada_legality::specs::Values::denotes_object))]
pub fn denotes_object(known: &Known<'_, '_>, denoted: Denoted) -> bool
    ensures { result ≡ denotes_object known.now denoted }
{
    match denoted {
        Denoted::Item { item, .. } => is_predefined_constant(item),
        _ => match denoted_kind(known.names.get(), denoted) {
            None => false,
            Some(kind) => is_object_kind(kind),
        },
    }
}

/// A function.
#[tactic(auto, unfolding(ada_legality::specs::Values::denotes_function))]
pub fn denotes_function(known: &Known<'_, '_>, denoted: Denoted) -> bool
    ensures { result ≡ denotes_function known.now denoted }
{
    match operation_denoted(denoted) {
        Some(operation) => is_function_operation(operation),
        None => match denoted_kind(known.names.get(), denoted) {
            None => false,
            Some(kind) => is_function_kind(kind),
        },
    }
}

/// A procedure that a statement may call: of the source, or predefined.
#[tactic(auto, unfolding(ada_legality::specs::Values::denotes_procedure))]
pub fn denotes_procedure(known: &Known<'_, '_>, denoted: Denoted) -> bool
    ensures { result ≡ denotes_procedure known.now denoted }
{
    match operation_denoted(denoted) {
        Some(operation) => !is_function_operation(operation),
        None => match denoted_kind(known.names.get(), denoted) {
            None => false,
            Some(kind) => is_procedure_kind(kind) || is_entry(kind),
        },
    }
}

/// The subtype of an array's components.
#[tactic(auto, unfolding(ada_legality::specs::Values::component_subtype))]
fn component_subtype(names: &Names<'_>, subtype: Subtype) -> Option<Subtype>
    ensures { result ≡ component_subtype names.now subtype }
{
    let array = array_of(names, subtype.of_type)?;
    array.component
}

/// The subtype itself, or that of the components behind an index.
#[tactic(auto, unfolding(ada_legality::specs::Values::subtype_with_index))]
fn subtype_with_index(
    names: &Names<'_>,
    has_index: bool,
    subtype: Option<Subtype>,
) -> Option<Subtype>
    ensures { result ≡ subtype_with_index names.now has_index subtype }
{
    if has_index {
        component_subtype(names, subtype?)
    } else {
        subtype
    }
}

/// None, where an index stands.
fn unless_index(has_index: bool, t: Option<AdaType>) -> Option<AdaType>
    ensures { result ≡ unless_index has_index t }
{
    if has_index { None } else { t }
}

/// A whole number from 0 to this one.
fn up_to(last: i32) -> Typed
    ensures { result
        ≡ typing.OfSubtype (subtype_with types.Integer (constraint.Whole (pos 0) last)) }
{
    Typed::OfSubtype(Subtype {
        of_type: AdaType::Integer,
        range: Constraint::Whole { low: 0, high: last },
    })
}

/// The number behind the last Priority.
fn after(last: u8) -> i32
    ensures { result ≡ pos (suc last) }
{
    (last as u16 + 1) as i32
}

/// The type of a predefined constant; that of System is of Priority (13.7).
#[tactic(auto, unfolding(ada_legality::specs::Values::typed_constant))]
fn typed_constant(known: &Known<'_, '_>, unit: PredefinedUnit, t: Option<AdaType>) -> Typed
    ensures { result ≡ typed_constant known.now unit t }
{
    match unit {
        PredefinedUnit::System => match t {
            None => Typed::WithoutType,
            Some(of_type) => match of_type {
                AdaType::Integer => up_to(known.names.get().last_priority as i32),
                _ => typed_as(of_type),
            },
        },
        _ => typed_if(t),
    }
}

/// The type of a value, or of an element of it.
#[tactic(auto, unfolding(ada_legality::specs::Values::typed_value))]
fn typed_value(known: &Known<'_, '_>, has_index: bool, denoted: Denoted) -> Typed
    ensures { result ≡ typed_value known.now has_index denoted }
{
    match denoted {
        Denoted::Item { unit, item } => {
            typed_constant(known, unit, unless_index(has_index, type_of_constant(item)))
        }
        _ => {
            let subtype = subtype_of_entity(known, denoted);
            typed_by(subtype_with_index(known.names.get(), has_index, subtype))
        }
    }
}

/// The subtype of a function's result, as its declaration or its only body says.
#[tactic(auto, unfolding(ada_legality::specs::Values::result_of_kind))]
fn result_of_kind(names: &Names<'_>, kind: &EntityKind) -> Option<Subtype>
    ensures { result ≡ result_of_kind names.now kind.now }
{
    match kind {
        EntityKind::Subprogram { number, .. } => {
            names.subprograms.get(number.0 as usize)?.result?
        }
        _ => None,
    }
}

/// Get_Priority has a result of Any_Priority (D.5.1).
#[tactic(auto, unfolding(ada_legality::specs::Values::typed_operation_call))]
fn typed_operation_call(known: &Known<'_, '_>, operation: Operation) -> Typed
    ensures { result ≡ typed_operation_call known.now operation }
{
    match operation {
        Operation::GetPriority => up_to(after(known.names.get().last_priority)),
        _ => typed_if(type_of_operation(operation)),
    }
}

/// The type of a function's result.
#[tactic(auto, unfolding(ada_legality::specs::Values::typed_call))]
fn typed_call(known: &Known<'_, '_>, denoted: Denoted) -> Typed
    ensures { result ≡ typed_call known.now denoted }
{
    match denoted {
        Denoted::Item { item, .. } => match operation_of(item) {
            None => Typed::WithoutType,
            Some(operation) => typed_operation_call(known, operation),
        },
        _ => match denoted_kind(known.names.get(), denoted) {
            None => typed_by(None),
            Some(kind) => typed_by(result_of_kind(known.names.get(), kind)),
        },
    }
}

/// The type of a call or a value.
#[tactic(auto, unfolding(ada_legality::specs::Values::typed_denoted))]
pub fn typed_denoted(known: &Known<'_, '_>, has_arguments: bool, denoted: Denoted) -> Typed
    ensures { result ≡ typed_denoted known.now has_arguments denoted }
{
    if denotes_function(known, denoted) {
        typed_call(known, denoted)
    } else {
        typed_value(known, has_arguments, denoted)
    }
}

/// The type of a name without attribute.
#[tactic(auto, unfolding(ada_legality::specs::Values::typed_name))]
pub fn typed_name(known: &Known<'_, '_>, name: &Name, has_arguments: bool) -> Typed
    ensures { result ≡ typed_name known.now name.now has_arguments }
{
    match denoted_by(known.names.get(), name) {
        None => Typed::WithoutType,
        Some(denoted) => typed_denoted(known, has_arguments, denoted),
    }
}
