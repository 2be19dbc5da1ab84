//! What an action costs, in ticks (this profile's choice). Each function has the name of the
//! machine's definition of which it is the counterpart.
#![tactic(auto)]

mod costs;

pub use costs::{cost, cost_of_found, has_registered, of_region};
