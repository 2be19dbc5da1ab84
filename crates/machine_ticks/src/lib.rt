//! The world in which a run begins, the tick for which somebody is chosen, why a run stops, and the
//! lines of a trace that are made of those of a run. Each function has the name of the machine's
//! definition of which it is the counterpart.
#![tactic(auto)]

mod events;
mod openings;
mod stops;
mod tocks;

pub use events::{ended_by, event_of, tick_event, why_lent};
pub use openings::opening;
pub use stops::{Stopped, stop};
pub use tocks::{TickLine, tock};
