//! Appointments: timing events, delays, time-outs and triggering delays (ISO/IEC 8652:2012, 9.6,
//! 9.7, D.15).
ghost use Rattle.std.specs.Prelude.{◌≡◌, OnOk};
ghost use Rattle.profile_machine.specs.Appointments.{appoint, drop_appointment};
ghost use Rattle.profile_machine.specs.Appointments.{is_appointed, drop_delay};
ghost use Rattle.profile_machine.specs.DueOf.{is_due_of};

use ann_base::{Moment, NoMemory};
use profile_machine::world::{Appointment, Due, DueOf, World};
use trace_text::Who;

/// Something is set for a moment, behind all that are not later.
///
/// Errors: memory ran out.
pub fn appoint(world: &mut World, due: Due, moment: Moment) -> Result<(), NoMemory>
    ensures { OnOk result (world.new ≡ appoint due moment world.old) }
{
    world.appointments.put(Appointment { due, moment })?;
    Ok(())
}

/// What is set for this is set no longer.
pub fn drop_appointment(world: &mut World, of: DueOf)
    ensures { world.new ≡ drop_appointment (is_due_of of) world.old }
{
    world.appointments.forget(of);
}

/// Whether anything is set for this.
pub fn is_appointed(world: &World, of: DueOf) -> bool
    ensures { result ≡ is_appointed (is_due_of of) world.now }
{
    world.appointments.has(of)
}

/// A task no longer waits for its moment.
pub fn drop_delay(world: &mut World, name: Who)
    ensures { world.new ≡ drop_delay name world.old }
{
    match name {
        Who::Task(task) => drop_appointment(world, DueOf::Delay(task)),
        Who::Agent => {}
    }
}
