//! The containers on which the kernel's copy of a world stands: lists, and items by number.
#![tactic(auto)]

mod lists;
mod tables;

pub use lists::List;
pub use tables::Table;
