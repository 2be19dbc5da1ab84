//! Kinds of types (ISO/IEC 8652:2012, 3.2, 3.5, 7.5, 7.6, D.8, D.14, D.15).
ghost use Rattle.std.specs.Prelude.{◌≡◌};
ghost use Rattle.ada_regions.specs.TypeKinds.{is_task_type, is_protected_type};
ghost use Rattle.ada_regions.specs.TypeKinds.{is_controlled_type, is_array_type};
ghost use Rattle.ada_legality.specs.Types.{same_type_if, has_ranges, is_ordered};
ghost use Rattle.ada_legality.specs.Types.{is_scalar, is_scalar_or_array, has_no_values};
ghost use Rattle.ada_legality.specs.Types.{is_discrete, is_of_time, is_task_id};
ghost use Rattle.ada_legality.specs.Types.{is_integer, is_boolean, is_duration, is_timer};
ghost use Rattle.ada_legality.specs.Types.{is_event_timer_or_budget, is_root_controlled};

use ada_legality::same_type;
use ada_regions::{AdaType, is_array_type, is_controlled_type, is_protected_type, is_task_type};

/// Two types are the same, or both are none.
pub fn same_type_if(a: Option<AdaType>, b: Option<AdaType>) -> bool
    ensures { result ≡ same_type_if a b }
{
    match a {
        None => match b {
            None => true,
            Some(_) => false,
        },
        Some(a) => match b {
            None => false,
            Some(b) => same_type(a, b),
        },
    }
}

/// Types whose values come one after another (3.2).
pub fn is_discrete(t: AdaType) -> bool
    ensures { result ≡ is_discrete t }
{
    match t {
        AdaType::Integer => true,
        AdaType::Boolean => true,
        AdaType::Enumeration(_) => true,
        _ => false,
    }
}

/// Types whose values are moments or spans (9.6, D.8, D.14).
pub fn is_of_time(t: AdaType) -> bool
    ensures { result ≡ is_of_time t }
{
    match t {
        AdaType::Duration => true,
        AdaType::Time => true,
        AdaType::TimeSpan => true,
        AdaType::CpuTime => true,
        _ => false,
    }
}

/// Task_Id (C.7.1).
pub fn is_task_id(t: AdaType) -> bool
    ensures { result ≡ is_task_id t }
{
    match t {
        AdaType::TaskId => true,
        _ => false,
    }
}

/// Integer (3.5.4).
pub fn is_integer(t: AdaType) -> bool
    ensures { result ≡ is_integer t }
{
    match t {
        AdaType::Integer => true,
        _ => false,
    }
}

/// Boolean (3.5.3).
pub fn is_boolean(t: AdaType) -> bool
    ensures { result ≡ is_boolean t }
{
    match t {
        AdaType::Boolean => true,
        _ => false,
    }
}

/// Duration (9.6).
pub fn is_duration(t: AdaType) -> bool
    ensures { result ≡ is_duration t }
{
    match t {
        AdaType::Duration => true,
        _ => false,
    }
}

/// Timer (D.14.1).
pub fn is_timer(t: AdaType) -> bool
    ensures { result ≡ is_timer t }
{
    match t {
        AdaType::Timer => true,
        _ => false,
    }
}

/// Events, timers and group budgets (D.14, D.15).
pub fn is_event_timer_or_budget(t: AdaType) -> bool
    ensures { result ≡ is_event_timer_or_budget t }
{
    match t {
        AdaType::TimingEvent => true,
        AdaType::Timer => true,
        AdaType::GroupBudget => true,
        _ => false,
    }
}

/// Limited_Controlled and Controlled themselves (7.6).
pub fn is_root_controlled(t: AdaType) -> bool
    ensures { result ≡ is_root_controlled t }
{
    match t {
        AdaType::LimitedControlled => true,
        AdaType::Controlled => true,
        _ => false,
    }
}

/// Types of which a range may be taken.
pub fn has_ranges(t: AdaType) -> bool
    ensures { result ≡ has_ranges t }
{
    match t {
        AdaType::Duration => true,
        _ => is_discrete(t),
    }
}

/// Types whose values stand in an order.
pub fn is_ordered(t: AdaType) -> bool
    ensures { result ≡ is_ordered t }
{
    is_discrete(t) || is_of_time(t)
}

/// Types whose values take one cell (this profile's own: Task_Id is one of them).
pub fn is_scalar(t: AdaType) -> bool
    ensures { result ≡ is_scalar t }
{
    is_ordered(t) || is_task_id(t)
}

/// A scalar type or an array type.
pub fn is_scalar_or_array(t: AdaType) -> bool
    ensures { result ≡ is_scalar_or_array t }
{
    is_scalar(t) || is_array_type(t)
}

/// Objects of these types have no initial value (7.5).
pub fn has_no_values(t: AdaType) -> bool
    ensures { result ≡ has_no_values t }
{
    is_event_timer_or_budget(t)
        || (is_controlled_type(t) || (is_task_type(t) || is_protected_type(t)))
}
