//! Names, expressions, subtype indications and parameters, read from a cursor over tokens (ISO/IEC
//! 8652:2012, 3.2.2, clause 4, 6.1).
#![tactic(auto)]

mod expressions;
mod lists;
mod names;
mod operators;
mod subtypes;

pub use expressions::{argument, arguments, expression};
pub use lists::{items, items_behind, separated};
pub use names::{identifiers, name, name_list};
pub use subtypes::{below, bounds, first_before, parameters, subtype_indication};
