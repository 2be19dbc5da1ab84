//! What is found in the contexts of library units, and what is known outside all constructs
//! (ISO/IEC 8652:2012, 3.6, 8.4, 10.1.2). Each function has the name of the definition of
//! `ada_legality` of which it is the counterpart.
#![tactic(auto)]

mod contexts;
mod indexes;

pub use contexts::context_found;
pub use indexes::{indexes_of, known_with};
