//! Which predefined units there are, and which stand in which (ISO/IEC 8652:2012, 10.1.1).
ghost use Rattle.std.specs.Prelude.{◌≡◌};
ghost use Rattle.ada_regions.specs.PredefinedUnits.{unit_number, same_unit, child_unit};
ghost use Rattle.ada_regions.specs.PredefinedUnits.{root_unit, parent_unit};

use ada_regions::PredefinedUnit;

/// The number of a unit among all.
fn unit_number(unit: PredefinedUnit) -> u32
    ensures { result ≡ unit_number unit }
{
    match unit {
        PredefinedUnit::Standard => 0,
        PredefinedUnit::Ada => 1,
        PredefinedUnit::System => 2,
        PredefinedUnit::TextIo => 3,
        PredefinedUnit::RealTime => 4,
        PredefinedUnit::TimingEvents => 5,
        PredefinedUnit::ExecutionTime => 6,
        PredefinedUnit::Timers => 7,
        PredefinedUnit::GroupBudgets => 8,
        PredefinedUnit::DynamicPriorities => 9,
        PredefinedUnit::TaskIdentification => 10,
        PredefinedUnit::Dispatching => 11,
        PredefinedUnit::RoundRobin => 12,
        PredefinedUnit::Edf => 13,
        PredefinedUnit::Finalization => 14,
        PredefinedUnit::ScriptPorts => 15,
    }
}

/// Whether both are the same unit.
#[tactic(auto, unfolding(ada_regions::specs::PredefinedUnits::same_unit))]
pub fn same_unit(a: PredefinedUnit, b: PredefinedUnit) -> bool
    ensures { result ≡ same_unit a b }
{
    unit_number(a) == unit_number(b)
}

/// The unit with this name that stands in no other.
#[tactic(auto, unfolding(ada_regions::specs::PredefinedUnits::root_unit))]
pub fn root_unit(name: &[u8]) -> Option<PredefinedUnit>
    ensures { result ≡ root_unit name.now }
{
    if name == b"standard".as_slice() {
        Some(PredefinedUnit::Standard)
    } else if name == b"ada".as_slice() {
        Some(PredefinedUnit::Ada)
    } else if name == b"system".as_slice() {
        Some(PredefinedUnit::System)
    } else if name == b"script_ports".as_slice() {
        Some(PredefinedUnit::ScriptPorts)
    } else {
        None
    }
}

/// The child of Ada with this name.
#[tactic(auto, unfolding(ada_regions::specs::PredefinedUnits::child_unit))]
fn child_of_ada(name: &[u8]) -> Option<PredefinedUnit>
    ensures { result ≡ child_unit PredefinedUnit.Ada name.now }
{
    if name == b"text_io".as_slice() {
        Some(PredefinedUnit::TextIo)
    } else if name == b"real_time".as_slice() {
        Some(PredefinedUnit::RealTime)
    } else if name == b"execution_time".as_slice() {
        Some(PredefinedUnit::ExecutionTime)
    } else if name == b"dynamic_priorities".as_slice() {
        Some(PredefinedUnit::DynamicPriorities)
    } else if name == b"task_identification".as_slice() {
        Some(PredefinedUnit::TaskIdentification)
    } else if name == b"dispatching".as_slice() {
        Some(PredefinedUnit::Dispatching)
    } else if name == b"finalization".as_slice() {
        Some(PredefinedUnit::Finalization)
    } else {
        None
    }
}

/// The child of Ada.Execution_Time with this name.
#[tactic(auto, unfolding(ada_regions::specs::PredefinedUnits::child_unit))]
fn child_of_execution_time(name: &[u8]) -> Option<PredefinedUnit>
    ensures { result ≡ child_unit PredefinedUnit.ExecutionTime name.now }
{
    if name == b"timers".as_slice() {
        Some(PredefinedUnit::Timers)
    } else if name == b"group_budgets".as_slice() {
        Some(PredefinedUnit::GroupBudgets)
    } else {
        None
    }
}

/// The child of Ada.Dispatching with this name.
#[tactic(auto, unfolding(ada_regions::specs::PredefinedUnits::child_unit))]
fn child_of_dispatching(name: &[u8]) -> Option<PredefinedUnit>
    ensures { result ≡ child_unit PredefinedUnit.Dispatching name.now }
{
    if name == b"round_robin".as_slice() {
        Some(PredefinedUnit::RoundRobin)
    } else if name == b"edf".as_slice() {
        Some(PredefinedUnit::Edf)
    } else {
        None
    }
}

/// The child of Ada.Real_Time with this name.
#[tactic(auto, unfolding(ada_regions::specs::PredefinedUnits::child_unit))]
fn child_of_real_time(name: &[u8]) -> Option<PredefinedUnit>
    ensures { result ≡ child_unit PredefinedUnit.RealTime name.now }
{
    if name == b"timing_events".as_slice() {
        Some(PredefinedUnit::TimingEvents)
    } else {
        None
    }
}

/// The child of a unit with this name.
#[tactic(auto, unfolding(ada_regions::specs::PredefinedUnits::child_unit))]
pub fn child_unit(unit: PredefinedUnit, name: &[u8]) -> Option<PredefinedUnit>
    ensures { result ≡ child_unit unit name.now }
{
    match unit {
        PredefinedUnit::Ada => child_of_ada(name),
        PredefinedUnit::RealTime => child_of_real_time(name),
        PredefinedUnit::ExecutionTime => child_of_execution_time(name),
        PredefinedUnit::Dispatching => child_of_dispatching(name),
        _ => None,
    }
}

/// The unit in which a unit stands.
#[tactic(auto, unfolding(ada_regions::specs::PredefinedUnits::parent_unit))]
pub fn parent_unit(unit: PredefinedUnit) -> Option<PredefinedUnit>
    ensures { result ≡ parent_unit unit }
{
    match unit {
        PredefinedUnit::Standard => None,
        PredefinedUnit::Ada => None,
        PredefinedUnit::System => None,
        PredefinedUnit::TextIo => Some(PredefinedUnit::Ada),
        PredefinedUnit::RealTime => Some(PredefinedUnit::Ada),
        PredefinedUnit::TimingEvents => Some(PredefinedUnit::RealTime),
        PredefinedUnit::ExecutionTime => Some(PredefinedUnit::Ada),
        PredefinedUnit::Timers => Some(PredefinedUnit::ExecutionTime),
        PredefinedUnit::GroupBudgets => Some(PredefinedUnit::ExecutionTime),
        PredefinedUnit::DynamicPriorities => Some(PredefinedUnit::Ada),
        PredefinedUnit::TaskIdentification => Some(PredefinedUnit::Ada),
        PredefinedUnit::Dispatching => Some(PredefinedUnit::Ada),
        PredefinedUnit::RoundRobin => Some(PredefinedUnit::Dispatching),
        PredefinedUnit::Edf => Some(PredefinedUnit::Dispatching),
        PredefinedUnit::Finalization => Some(PredefinedUnit::Ada),
        PredefinedUnit::ScriptPorts => None,
    }
}
