//! The occurrences of names in what has no sequence of statements in it, in the order of the text
//! (ISO/IEC 8652:2012, clause 8): expressions, simple statements, declarations without bodies, and
//! context clauses.
#![tactic(auto)]

mod contexts;
mod declarations;
mod expressions;
mod statements;
mod telling;

pub use declarations::tell_profile;
pub use statements::tell_parameters;
pub use telling::{Naming, Tell, tell_each, tell_names};
