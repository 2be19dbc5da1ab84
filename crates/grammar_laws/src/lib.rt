//! Laws of the grammar: what is read is what is written, what is written is read, and no tree goes
//! on with the token at which the reading stops.
#![tactic(auto)]

mod fault_places;
mod reading_laws;

pub use fault_places::{no_tree_goes_deeper, no_tree_goes_on};
pub use reading_laws::{expression_is_spelt, one_tree_spells, read_is_spelt, spelt_is_read};
