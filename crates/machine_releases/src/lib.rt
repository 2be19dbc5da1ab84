//! What comes by time and by interrupts: releases of handlers, interrupts, timers and group budgets
//! as they are kept, and the tick that is charged (ISO/IEC 8652:2012, C.3, D.14). Each function has
//! the name of the machine's definition of which it is the counterpart.
#![tactic(auto)]

mod budgets;
mod interrupts;
mod releases;
mod ticks;
mod timers;

pub use budgets::{load, raise_by, set_handler};
pub use interrupts::interrupt;
pub use releases::{has_room_for_release, release};
pub use ticks::{charge, charge_itself};
pub use timers::{clear_timer, set_in};
