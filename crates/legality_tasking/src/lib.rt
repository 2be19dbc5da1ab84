//! What is asked of tasks, protected and limited objects, timers and entries, and of the heads of
//! units' and entries' bodies (ISO/IEC 8652:2012, 7.5, 9.1, 9.4, 9.5.2, D.2.6, D.7, D.14, D.15).
//! Each function has the name of the definition of `ada_legality` of which it is the counterpart.
#![tactic(auto)]

mod entries;
mod heads;
mod objects;
mod tasks;

pub use entries::{EntryOf, entries_judged, entries_of_definition, entries_of_operations};
pub use heads::{barrier_found, entry_body_judged, unit_body_judged, unit_here};
pub use objects::{protected_noted, protected_unit_of_name, typed_object_if};
pub use tasks::{single_task_judged, task_judged};
