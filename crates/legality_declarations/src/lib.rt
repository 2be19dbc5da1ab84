//! What is found in declarations but those of units: objects, types, components and entries
//! (ISO/IEC 8652:2012, clause 3, 7.6, 9.4, 9.5.2). Each function has the name of the definition of
//! `ada_legality` of which it is the counterpart.
#![tactic(auto)]

mod components;
mod entries;
mod objects;
mod types;

pub use components::protected_components_found;
pub use entries::{entries_found, entry_found};
pub use objects::object_found;
pub use types::definition_found;
