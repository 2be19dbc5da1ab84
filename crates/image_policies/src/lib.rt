//! What pragmas ask for at run time (ISO/IEC 8652:2012, 2.8, D.2.2, D.4, D.7). Each function has
//! the name of the definition of `ada_image` of which it is the counterpart. A number that its type
//! cannot hold is answered as want of memory.
#![tactic(auto)]

mod arguments;
mod dispatching;
mod levels;
mod policies;
mod queuing;

pub use levels::{level, level_of};
pub use policies::policies_of;
pub use queuing::is_longest;
