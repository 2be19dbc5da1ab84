//! Task and protected units, their entries, and controlled types in the image of a source (ISO/IEC
//! 8652:2012, 7.6, 9.1, 9.4, 9.5.2, C.3.1, D.1, D.3). Each function has the name of the definition
//! of `ada_image` of which it is the counterpart. A number that its type cannot hold is answered as
//! want of memory.
#![tactic(auto)]

mod aspects;
mod attachments;
mod components;
mod controlled_types;
mod entries;
mod operations;
mod protected_units;
mod task_units;
mod unit_entries;

pub use aspects::priority_or;
pub use controlled_types::controlled_types_made;
pub use entries::entries_made;
pub use protected_units::protected_units_made;
pub use task_units::task_units_made;
