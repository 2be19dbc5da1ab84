//! Scopes and subprograms of an image: the cells that their declarations take, where they stand,
//! and what they hold at first (ISO/IEC 8652:2012, 3.1, 3.3.1, 5.6, 6.1, 6.3). Each function has
//! the name of the definition of `ada_image` of which it is the counterpart. A number that its type
//! cannot hold is answered as want of memory.
#![tactic(auto)]

mod places;
mod runs;
mod scopes;
mod subprograms;

pub use places::place_behind;
pub use scopes::{scope_no, scopes_made};
pub use subprograms::subprograms_made;
