//! Predefined names (ISO/IEC 8652:2012, annexes A, C, D).
ghost use Rattle.std.specs.Prelude.{◌≡◌};
ghost use Rattle.ada_legality.specs.Values.{is_function_operation, type_of_constant};
ghost use Rattle.ada_legality.specs.Values.{operation_of, operation_denoted};
ghost use Rattle.ada_legality.specs.Values.{constant_type, is_predefined_constant};

use ada_image::type_of_operation;
use ada_regions::{AdaType, Denoted, Operation, Predefined};

/// A predefined function.
pub fn is_function_operation(operation: Operation) -> bool
    ensures { result ≡ is_function_operation operation }
{
    type_of_operation(operation).is_some()
}

/// The type of a constant, of False or True.
#[tactic(auto, unfolding(ada_legality::specs::Values::type_of_constant))]
pub fn type_of_constant(item: Predefined) -> Option<AdaType>
    ensures { result ≡ type_of_constant item }
{
    match item {
        Predefined::Constant { of_type, .. } => Some(of_type),
        Predefined::Truth(_) => Some(AdaType::Boolean),
        _ => None,
    }
}

/// A predefined subprogram.
pub fn operation_of(item: Predefined) -> Option<Operation>
    ensures { result ≡ operation_of item }
{
    match item {
        Predefined::Operation(operation) => Some(operation),
        _ => None,
    }
}

/// The predefined subprogram that is denoted.
pub fn operation_denoted(denoted: Denoted) -> Option<Operation>
    ensures { result ≡ operation_denoted denoted }
{
    match denoted {
        Denoted::Item { item, .. } => operation_of(item),
        _ => None,
    }
}

/// The type of a constant that is denoted.
pub fn constant_type(denoted: Denoted) -> Option<AdaType>
    ensures { result ≡ constant_type denoted }
{
    match denoted {
        Denoted::Item { item, .. } => type_of_constant(item),
        _ => None,
    }
}

/// A predefined constant.
pub fn is_predefined_constant(item: Predefined) -> bool
    ensures { result ≡ is_predefined_constant item }
{
    match item {
        Predefined::Constant { .. } => true,
        _ => false,
    }
}
