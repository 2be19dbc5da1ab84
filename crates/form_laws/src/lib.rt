//! Laws of tables of names that are clear: what legality reads in a source of such a table, and
//! breaks no rule, has a form in an image.
#![tactic(auto)]

mod clear_laws;

pub use clear_laws::{clear_expressions, units_built};
