//! Appointments in the worlds that a run reaches: laws of the profile machine's definitions alone.
//! Each is the contract of a function that does nothing.
ghost use Rattle.world_laws.specs.AppointmentWorlds.{ReachedAppointmentsAreInOrder};
ghost use Rattle.world_laws.specs.AppointmentWorlds.{ReachedDelaysAreAwaited};

/// In every world that a run reaches the appointments stand by moment, and none of them is before
/// now (ISO/IEC 8652:2012, 9.6, D.15).
#[tactic(auto, using(crate::proofs::Appointments::AppointmentWorlds::reached_appointments_are_in_order))]
pub fn reached_appointments_are_in_order()
    ensures { ReachedAppointmentsAreInOrder }
{}

/// In every world that a run reaches a task for which the end of a delay is appointed is blocked
/// for that delay (ISO/IEC 8652:2012, 9.6, 9.7.1).
#[tactic(auto, using(crate::proofs::Appointments::DelayWorlds::reached_delays_are_awaited))]
pub fn reached_delays_are_awaited()
    ensures { ReachedDelaysAreAwaited }
{}
