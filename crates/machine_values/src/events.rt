//! What an expression may ask of events, timers, group budgets and ports (ISO/IEC 8652:2012, D.14,
//! D.15).
ghost use Rattle.std.specs.Prelude.{◌≡◌, ◌<ℤ◌, negsuc, OnErr, IfOk, find};
ghost use Rattle.std.specs.Prelude.{option_copied, pos, slice_index_or};
ghost use Rattle.profile_machine.specs.Values.{is_event, event_moment, timer_of};
ghost use Rattle.profile_machine.specs.Values.{time_left, budget_of, port_value};

use ann_base::{Moment, NoMemory, Raised, TaskNo};
use profile_image::{LAST_OUTSIDE_LINE, Value};
use profile_machine::world::{Agenda, Appointment, Budget, Due, DueOf, Timer, TimerSetting, World};
use world_tables::List;

/// Whether an appointment is that of the event.
pub fn is_event(event: u32, due: Due) -> bool
    ensures { result ≡ is_event event due }
{
    match due {
        Due::Event(number, _) => event == number,
        Due::Delay(_) | Due::Timeout(_) | Due::Trigger(_, _) => false,
    }
}

fn found_event(appointments: &Agenda, event: u32) -> Option<&Appointment>
    ensures { option_copied result ≡ find (λ a. is_event event a.due) appointments.now }
{
    appointments.appointment_for(DueOf::Event(event))
}

/// The moment for which an event is set, or 0.
pub fn event_moment(world: &World, event: u32) -> Moment
    ensures { result ≡ event_moment world.now event }
{
    match found_event(&world.appointments, event) {
        Some(appointment) => appointment.moment,
        None => 0,
    }
}

/// The timer with this number.
pub fn timer_of(world: &World, number: u32) -> Timer
    ensures { result ≡ timer_of world.now number }
{
    let none = Timer {
        task: TaskNo(0),
        setting: None,
    };
    world.timers.get_or(number as usize, none)
}

/// What a set timer has left, or 0.
///
/// Errors: it is beyond the ends of 64 bits.
pub fn time_left(setting: Option<TimerSetting>, clock: u64) -> Result<Moment, NoMemory>
    ensures ok { IfOk result (λ left. left ≡ time_left setting clock) }
    ensures err { OnErr result (time_left setting clock <ℤ negsuc 9223372036854775807) }
{
    let Some(setting) = setting else {
        return Ok(0);
    };
    setting.value.checked_sub_unsigned(clock).ok_or(NoMemory)
}

/// The group budget with this number.
pub fn budget_of(world: &World, number: u32) -> Budget
    ensures { result ≡ budget_of world.now number }
{
    let none = Budget {
        remaining: 0,
        handler: None,
    };
    world.budgets.get_or(number as usize, none)
}

fn port_at(ports: &List<i32>, place: u32) -> i32
    ensures { result ≡ slice_index_or ports.now place (pos 0) }
{
    ports.get_or(place as usize, 0)
}

/// The value of a port; they are numbered from 0.
///
/// Errors: `Constraint` for another number.
pub fn port_value(world: &World, port: Value) -> Result<Value, Raised>
    ensures { result ≡ port_value world.now port }
{
    match port {
        Value::Whole(n) if 0 <= n && n <= LAST_OUTSIDE_LINE as i32 => {
            Ok(Value::Whole(port_at(&world.ports, n.unsigned_abs())))
        }
        Value::Whole(_) => Err(Raised::Constraint),
        Value::Truth(_) | Value::Literal(_) | Value::Ticks(_) | Value::Task(_) | Value::Thing(_) =>
            Err(Raised::Program),
    }
}
