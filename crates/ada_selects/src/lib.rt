//! Reading accept and select statements (ISO/IEC 8652:2012, 9.5.2, 9.7), and what the other
//! statements share with them.
#![tactic(auto)]

mod accepts;
mod beginnings;
mod nested;
mod reader;
mod selects;

pub use accepts::end_name;
pub use beginnings::{begins_block, begins_compound, begins_loop, begins_statement};
pub use nested::Nested;
pub use reader::SelectReader;
