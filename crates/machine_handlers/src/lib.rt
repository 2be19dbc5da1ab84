//! Handlers: the statements that set and cancel timing events, timers and group budgets, and the
//! agent that calls the handlers that are released (ISO/IEC 8652:2012, D.14, D.15). Each function
//! has the name of the machine's definition of which it is the counterpart.
#![tactic(auto)]

mod agent;
mod budgets;
mod events;
mod members;
mod settings;
mod timers;

pub use agent::call_handler;
pub use budgets::{add_to_budget, cancel_budget, replenish, set_budget};
pub use events::{cancel_event, set_event};
pub use members::{add_member, remove_member};
pub use timers::{cancel_timer, set_timer};
