//! The predefined units and what they declare (ISO/IEC 8652:2012, annex A, C.7.1, annex D), by
//! name, and the last and the default priority of a source.
#![tactic(auto)]

mod items;
mod priorities;
mod units;

pub use items::item_in;
pub use priorities::{default_priority, last_priority_of};
pub use units::{child_unit, parent_unit, root_unit, same_unit};
