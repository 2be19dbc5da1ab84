//! When two types are the same (ISO/IEC 8652:2012, 3.2).
ghost use Rattle.std.specs.Prelude.{◌≡◌};
ghost use Rattle.ada_legality.specs.Types.{type_number, declared_number, same_type};

use ada_regions::AdaType;

/// Which kind of type it is.
fn type_number(t: AdaType) -> u32
    ensures { result ≡ type_number t }
{
    match t {
        AdaType::Integer => 0,
        AdaType::Boolean => 1,
        AdaType::Duration => 2,
        AdaType::Enumeration(_) => 3,
        AdaType::Array(_) => 4,
        AdaType::Time => 5,
        AdaType::TimeSpan => 6,
        AdaType::CpuTime => 7,
        AdaType::TaskId => 8,
        AdaType::TimingEvent => 9,
        AdaType::Timer => 10,
        AdaType::GroupBudget => 11,
        AdaType::LimitedControlled => 12,
        AdaType::Controlled => 13,
        AdaType::Derived(_) => 14,
        AdaType::Task(_) => 15,
        AdaType::Protected(_) => 16,
    }
}

/// Which of the types that the source declares it is.
fn declared_number(t: AdaType) -> u32
    ensures { result ≡ declared_number t }
{
    match t {
        AdaType::Enumeration(enumeration) => enumeration.0,
        AdaType::Array(array) => array,
        AdaType::Derived(controlled) => controlled.0,
        AdaType::Task(unit) => unit.0,
        AdaType::Protected(unit) => unit.0,
        _ => 0,
    }
}

/// Two types are the same.
#[tactic(auto, unfolding(crate::specs::Types::same_type))]
pub fn same_type(a: AdaType, b: AdaType) -> bool
    ensures { result ≡ same_type a b }
{
    type_number(a) == type_number(b) && declared_number(a) == declared_number(b)
}
