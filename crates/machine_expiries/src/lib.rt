//! What has come due at a moment: items of the script, timing events, delays, time-outs and
//! triggers, timers, group budgets and quanta. Each function has the name of the machine's
//! definition of which it is the counterpart.
#![tactic(auto)]

mod appointments;
mod expiries;
mod script;

pub use appointments::appointments_due;
pub use expiries::{budgets_due, quantum_spent, timers_due};
pub use script::script_items;
