//! What the predefined units declare (ISO/IEC 8652:2012, annex A, C.7.1, annex D).
ghost use Rattle.std.specs.Prelude.{◌≡◌, suc, pos};
ghost use Rattle.ada_regions.specs.Words.{entry_named};
ghost use Rattle.ada_regions.specs.PredefinedUnits.{item_in, free, integers, whole_integer};
ghost use Rattle.ada_regions.specs.PredefinedUnits.{whole_boolean, whole_duration};
ghost use Rattle.ada_regions.specs.PredefinedUnits.{default_priority, declared_in_standard};
ghost use Rattle.ada_regions.specs.PredefinedUnits.{declared_in_system, declared_in_text_io};
ghost use Rattle.ada_regions.specs.PredefinedUnits.{declared_in_real_time};
ghost use Rattle.ada_regions.specs.PredefinedUnits.{declared_in_timing_events};
ghost use Rattle.ada_regions.specs.PredefinedUnits.{declared_in_execution_time};
ghost use Rattle.ada_regions.specs.PredefinedUnits.{declared_in_timers, declared_in_group_budgets};
ghost use Rattle.ada_regions.specs.PredefinedUnits.{declared_in_dynamic_priorities};
ghost use Rattle.ada_regions.specs.PredefinedUnits.{declared_in_task_identification};
ghost use Rattle.ada_regions.specs.PredefinedUnits.{declared_in_dispatching};
ghost use Rattle.ada_regions.specs.PredefinedUnits.{declared_in_round_robin, declared_in_edf};
ghost use Rattle.ada_regions.specs.PredefinedUnits.{declared_in_finalization};
ghost use Rattle.ada_regions.specs.PredefinedUnits.{declared_in_script_ports};

use crate::priorities::default_priority;
use ada_regions::{AdaType, Operation, Predefined, PredefinedUnit, Subtype};
use ann_base::{Moment, Raised};
use profile_image::{Constraint, INTEGER_FIRST, INTEGER_LAST, TIME_FIRST, TIME_LAST, Value};

/// A type whose values have no range.
fn free(of_type: AdaType) -> Predefined
    ensures { result ≡ free of_type }
{
    Predefined::Mark(Subtype {
        of_type,
        range: Constraint::Free,
    })
}

/// A subtype of Integer.
fn integers(low: i32, high: i32) -> Predefined
    ensures { result ≡ integers low high }
{
    Predefined::Mark(Subtype {
        of_type: AdaType::Integer,
        range: Constraint::Whole { low, high },
    })
}

/// Integer (3.5.4).
fn whole_integer() -> Subtype
    ensures { result ≡ whole_integer }
{
    Subtype {
        of_type: AdaType::Integer,
        range: Constraint::Whole {
            low: INTEGER_FIRST,
            high: INTEGER_LAST,
        },
    }
}

/// Boolean (3.5.3).
fn whole_boolean() -> Subtype
    ensures { result ≡ whole_boolean }
{
    Subtype {
        of_type: AdaType::Boolean,
        range: Constraint::Truth {
            low: false,
            high: true,
        },
    }
}

/// Duration (9.6).
fn whole_duration() -> Subtype
    ensures { result ≡ whole_duration }
{
    Subtype {
        of_type: AdaType::Duration,
        range: Constraint::Ticks {
            low: TIME_FIRST,
            high: TIME_LAST,
        },
    }
}

/// A constant of a type of times.
fn moment(of_type: AdaType, moment: Moment) -> Predefined
    ensures { result ≡ Predefined.Constant of_type (Value.Ticks moment) }
{
    Predefined::Constant {
        of_type,
        value: Value::Ticks(moment),
    }
}

/// The number behind the last Priority.
fn after(last: u8) -> i32
    ensures { result ≡ pos (suc last) }
{
    (last as u16 + 1) as i32
}

/// What Standard (A.1) declares under a name.
#[tactic(auto, unfolding(ada_regions::specs::PredefinedUnits::declared_in_standard))]
fn item_in_standard(name: &[u8]) -> Option<Predefined>
    ensures { result ≡ entry_named name.now declared_in_standard }
{
    if name == b"integer".as_slice() {
        Some(Predefined::Mark(whole_integer()))
    } else if name == b"natural".as_slice() {
        Some(integers(0, INTEGER_LAST))
    } else if name == b"positive".as_slice() {
        Some(integers(1, INTEGER_LAST))
    } else if name == b"boolean".as_slice() {
        Some(Predefined::Mark(whole_boolean()))
    } else if name == b"false".as_slice() {
        Some(Predefined::Truth(false))
    } else if name == b"true".as_slice() {
        Some(Predefined::Truth(true))
    } else if name == b"duration".as_slice() {
        Some(Predefined::Mark(whole_duration()))
    } else if name == b"constraint_error".as_slice() {
        Some(Predefined::Exception(Raised::Constraint))
    } else if name == b"program_error".as_slice() {
        Some(Predefined::Exception(Raised::Program))
    } else if name == b"storage_error".as_slice() {
        Some(Predefined::Exception(Raised::Storage))
    } else if name == b"tasking_error".as_slice() {
        Some(Predefined::Exception(Raised::Tasking))
    } else {
        None
    }
}

/// What System (13.7) declares under a name.
#[tactic(auto, unfolding(ada_regions::specs::PredefinedUnits::declared_in_system))]
fn item_in_system(last: u8, name: &[u8]) -> Option<Predefined>
    ensures { result ≡ entry_named name.now (declared_in_system last) }
{
    if name == b"any_priority".as_slice() {
        Some(integers(0, after(last)))
    } else if name == b"priority".as_slice() {
        Some(integers(0, last as i32))
    } else if name == b"interrupt_priority".as_slice() {
        Some(integers(after(last), after(last)))
    } else if name == b"default_priority".as_slice() {
        Some(Predefined::Constant {
            of_type: AdaType::Integer,
            value: Value::Whole(default_priority(last) as i32),
        })
    } else {
        None
    }
}

/// What Ada.Text_IO (A.10.1) declares under a name.
#[tactic(auto, unfolding(ada_regions::specs::PredefinedUnits::declared_in_text_io))]
fn item_in_text_io(name: &[u8]) -> Option<Predefined>
    ensures { result ≡ entry_named name.now declared_in_text_io }
{
    if name == b"put_line".as_slice() {
        Some(Predefined::Operation(Operation::PutLine))
    } else {
        None
    }
}

/// What Ada.Real_Time (D.8) declares under a name.
#[tactic(auto, unfolding(ada_regions::specs::PredefinedUnits::declared_in_real_time))]
fn item_in_real_time(name: &[u8]) -> Option<Predefined>
    ensures { result ≡ entry_named name.now declared_in_real_time }
{
    if name == b"time".as_slice() {
        Some(free(AdaType::Time))
    } else if name == b"time_span".as_slice() {
        Some(free(AdaType::TimeSpan))
    } else if name == b"time_first".as_slice() {
        Some(moment(AdaType::Time, 0))
    } else if name == b"time_last".as_slice() {
        Some(moment(AdaType::Time, TIME_LAST))
    } else if name == b"time_span_zero".as_slice() {
        Some(moment(AdaType::TimeSpan, 0))
    } else if name == b"clock".as_slice() {
        Some(Predefined::Operation(Operation::Clock))
    } else if name == b"microseconds".as_slice() {
        Some(Predefined::Operation(Operation::Microseconds))
    } else if name == b"milliseconds".as_slice() {
        Some(Predefined::Operation(Operation::Milliseconds))
    } else if name == b"seconds".as_slice() {
        Some(Predefined::Operation(Operation::Seconds))
    } else if name == b"minutes".as_slice() {
        Some(Predefined::Operation(Operation::Minutes))
    } else if name == b"to_duration".as_slice() {
        Some(Predefined::Operation(Operation::ToDuration))
    } else if name == b"to_time_span".as_slice() {
        Some(Predefined::Operation(Operation::ToTimeSpan))
    } else {
        None
    }
}

/// What Ada.Real_Time.Timing_Events (D.15) declares under a name.
#[tactic(auto, unfolding(ada_regions::specs::PredefinedUnits::declared_in_timing_events))]
fn item_in_timing_events(name: &[u8]) -> Option<Predefined>
    ensures { result ≡ entry_named name.now declared_in_timing_events }
{
    if name == b"timing_event".as_slice() {
        Some(free(AdaType::TimingEvent))
    } else if name == b"set_handler".as_slice() {
        Some(Predefined::Operation(Operation::SetEvent))
    } else if name == b"cancel_handler".as_slice() {
        Some(Predefined::Operation(Operation::CancelEvent))
    } else if name == b"time_of_event".as_slice() {
        Some(Predefined::Operation(Operation::TimeOfEvent))
    } else {
        None
    }
}

/// What Ada.Execution_Time (D.14) declares under a name.
#[tactic(auto, unfolding(ada_regions::specs::PredefinedUnits::declared_in_execution_time))]
fn item_in_execution_time(name: &[u8]) -> Option<Predefined>
    ensures { result ≡ entry_named name.now declared_in_execution_time }
{
    if name == b"cpu_time".as_slice() {
        Some(free(AdaType::CpuTime))
    } else if name == b"clock".as_slice() {
        Some(Predefined::Operation(Operation::ExecutionClock))
    } else {
        None
    }
}

/// What Ada.Execution_Time.Timers (D.14.1) declares under a name.
#[tactic(auto, unfolding(ada_regions::specs::PredefinedUnits::declared_in_timers))]
fn item_in_timers(name: &[u8]) -> Option<Predefined>
    ensures { result ≡ entry_named name.now declared_in_timers }
{
    if name == b"timer".as_slice() {
        Some(free(AdaType::Timer))
    } else if name == b"set_handler".as_slice() {
        Some(Predefined::Operation(Operation::SetTimer))
    } else if name == b"cancel_handler".as_slice() {
        Some(Predefined::Operation(Operation::CancelTimer))
    } else if name == b"time_remaining".as_slice() {
        Some(Predefined::Operation(Operation::TimeRemaining))
    } else if name == b"timer_resource_error".as_slice() {
        Some(Predefined::Exception(Raised::TimerResource))
    } else {
        None
    }
}

/// What Ada.Execution_Time.Group_Budgets (D.14.2) declares under a name.
#[tactic(auto, unfolding(ada_regions::specs::PredefinedUnits::declared_in_group_budgets))]
fn item_in_group_budgets(name: &[u8]) -> Option<Predefined>
    ensures { result ≡ entry_named name.now declared_in_group_budgets }
{
    if name == b"group_budget".as_slice() {
        Some(free(AdaType::GroupBudget))
    } else if name == b"add_task".as_slice() {
        Some(Predefined::Operation(Operation::AddTask))
    } else if name == b"remove_task".as_slice() {
        Some(Predefined::Operation(Operation::RemoveTask))
    } else if name == b"replenish".as_slice() {
        Some(Predefined::Operation(Operation::Replenish))
    } else if name == b"add".as_slice() {
        Some(Predefined::Operation(Operation::Add))
    } else if name == b"budget_has_expired".as_slice() {
        Some(Predefined::Operation(Operation::BudgetHasExpired))
    } else if name == b"budget_remaining".as_slice() {
        Some(Predefined::Operation(Operation::BudgetRemaining))
    } else if name == b"set_handler".as_slice() {
        Some(Predefined::Operation(Operation::SetBudget))
    } else if name == b"cancel_handler".as_slice() {
        Some(Predefined::Operation(Operation::CancelBudget))
    } else if name == b"group_budget_error".as_slice() {
        Some(Predefined::Exception(Raised::GroupBudget))
    } else {
        None
    }
}

/// What Ada.Dynamic_Priorities (D.5.1) declares under a name.
#[tactic(auto, unfolding(ada_regions::specs::PredefinedUnits::declared_in_dynamic_priorities))]
fn item_in_dynamic_priorities(name: &[u8]) -> Option<Predefined>
    ensures { result ≡ entry_named name.now declared_in_dynamic_priorities }
{
    if name == b"set_priority".as_slice() {
        Some(Predefined::Operation(Operation::SetPriority))
    } else if name == b"get_priority".as_slice() {
        Some(Predefined::Operation(Operation::GetPriority))
    } else {
        None
    }
}

/// What Ada.Task_Identification (C.7.1) declares under a name.
#[tactic(auto, unfolding(ada_regions::specs::PredefinedUnits::declared_in_task_identification))]
fn item_in_task_identification(name: &[u8]) -> Option<Predefined>
    ensures { result ≡ entry_named name.now declared_in_task_identification }
{
    if name == b"task_id".as_slice() {
        Some(free(AdaType::TaskId))
    } else if name == b"null_task_id".as_slice() {
        Some(Predefined::Constant {
            of_type: AdaType::TaskId,
            value: Value::Task(None),
        })
    } else if name == b"current_task".as_slice() {
        Some(Predefined::Operation(Operation::CurrentTask))
    } else {
        None
    }
}

/// What Ada.Dispatching (D.2.1) declares under a name.
#[tactic(auto, unfolding(ada_regions::specs::PredefinedUnits::declared_in_dispatching))]
fn item_in_dispatching(name: &[u8]) -> Option<Predefined>
    ensures { result ≡ entry_named name.now declared_in_dispatching }
{
    if name == b"dispatching_policy_error".as_slice() {
        Some(Predefined::Exception(Raised::DispatchingPolicy))
    } else {
        None
    }
}

/// What Ada.Dispatching.Round_Robin (D.2.5) declares under a name.
#[tactic(auto, unfolding(ada_regions::specs::PredefinedUnits::declared_in_round_robin))]
fn item_in_round_robin(name: &[u8]) -> Option<Predefined>
    ensures { result ≡ entry_named name.now declared_in_round_robin }
{
    if name == b"set_quantum".as_slice() {
        Some(Predefined::Operation(Operation::SetQuantum))
    } else {
        None
    }
}

/// What Ada.Dispatching.EDF (D.2.6) declares under a name.
#[tactic(auto, unfolding(ada_regions::specs::PredefinedUnits::declared_in_edf))]
fn item_in_edf(name: &[u8]) -> Option<Predefined>
    ensures { result ≡ entry_named name.now declared_in_edf }
{
    if name == b"set_deadline".as_slice() {
        Some(Predefined::Operation(Operation::SetDeadline))
    } else if name == b"get_deadline".as_slice() {
        Some(Predefined::Operation(Operation::GetDeadline))
    } else if name == b"delay_until_and_set_deadline".as_slice() {
        Some(Predefined::Operation(Operation::DelayUntilAndSetDeadline))
    } else {
        None
    }
}

/// What Ada.Finalization (7.6) declares under a name.
#[tactic(auto, unfolding(ada_regions::specs::PredefinedUnits::declared_in_finalization))]
fn item_in_finalization(name: &[u8]) -> Option<Predefined>
    ensures { result ≡ entry_named name.now declared_in_finalization }
{
    if name == b"limited_controlled".as_slice() {
        Some(free(AdaType::LimitedControlled))
    } else if name == b"controlled".as_slice() {
        Some(free(AdaType::Controlled))
    } else {
        None
    }
}

/// What Script_Ports, this project's own declares under a name.
#[tactic(auto, unfolding(ada_regions::specs::PredefinedUnits::declared_in_script_ports))]
fn item_in_script_ports(name: &[u8]) -> Option<Predefined>
    ensures { result ≡ entry_named name.now declared_in_script_ports }
{
    if name == b"value".as_slice() {
        Some(Predefined::Operation(Operation::PortValue))
    } else {
        None
    }
}

/// What a unit declares under a name, where the last Priority is given.
#[tactic(auto, unfolding(ada_regions::specs::PredefinedUnits::item_in))]
pub fn item_in(last: u8, unit: PredefinedUnit, name: &[u8]) -> Option<Predefined>
    ensures { result ≡ item_in last unit name.now }
{
    match unit {
        PredefinedUnit::Standard => item_in_standard(name),
        PredefinedUnit::Ada => None,
        PredefinedUnit::System => item_in_system(last, name),
        PredefinedUnit::TextIo => item_in_text_io(name),
        PredefinedUnit::RealTime => item_in_real_time(name),
        PredefinedUnit::TimingEvents => item_in_timing_events(name),
        PredefinedUnit::ExecutionTime => item_in_execution_time(name),
        PredefinedUnit::Timers => item_in_timers(name),
        PredefinedUnit::GroupBudgets => item_in_group_budgets(name),
        PredefinedUnit::DynamicPriorities => item_in_dynamic_priorities(name),
        PredefinedUnit::TaskIdentification => item_in_task_identification(name),
        PredefinedUnit::Dispatching => item_in_dispatching(name),
        PredefinedUnit::RoundRobin => item_in_round_robin(name),
        PredefinedUnit::Edf => item_in_edf(name),
        PredefinedUnit::Finalization => item_in_finalization(name),
        PredefinedUnit::ScriptPorts => item_in_script_ports(name),
    }
}
