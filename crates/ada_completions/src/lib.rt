//! Completions: the bodies of declared subprograms, and those of task and protected units (ISO/IEC
//! 8652:2012, 3.11.1). Each function has the name of the definition of `ada_regions` of which it is
//! the counterpart.
#![tactic(auto)]

mod bodies;
mod frames;
mod seen_again;
mod subprograms;
mod units;

pub use bodies::body_apart;
pub use frames::{owned, take_innermost};
pub use subprograms::{completed, entity_bound, headed, is_specified};
pub use units::{body_begun, components_of, entry_mentioned, has_body, is_unit, type_of_entity};
