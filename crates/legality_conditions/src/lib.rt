//! What is found in values and conditions, and the cells of what is declared (ISO/IEC 8652:2012,
//! 3.3.1, 4.9, 5.3, 5.5, 8.6). Each function has the name of the definition of `ada_legality` of
//! which it is the counterpart.
#![tactic(auto)]

mod cells;
mod values;

pub use cells::cells_noted;
pub use values::{condition_found, not_static, value_alone_found_if, value_found, value_found_if};
