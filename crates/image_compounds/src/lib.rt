//! Compound statements of the image of a source, with what stands in them (ISO/IEC 8652:2012, 5.3
//! to 5.6, 9.5.2, 9.7, 11.2): what stands inside leads to what comes behind the whole. Each
//! function has the name of the definition of `ada_image` of which it is the counterpart. A number
//! that its type cannot hold is answered as want of memory.
#![tactic(auto)]

mod blocks;
mod branches;
mod loops;
mod making;
mod places;
mod selects;

pub use blocks::{accept_put, block_put, handlers_put};
pub use branches::{case_put, if_put};
pub use loops::loop_put;
pub use making::MakeSequence;
pub use places::same_place;
pub use selects::select_put;
