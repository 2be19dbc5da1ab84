//! Controlled objects: Initialize, Finalize and assignment (ISO/IEC 8652:2012, 7.6, 7.6.1). Each
//! function has the name of the machine's definition of which it is the counterpart. A number that
//! its type cannot hold is answered as want of memory.
#![tactic(auto)]

mod assigning;
mod assignments;
mod finalizing;
mod initializing;
mod marks;
mod operations;
mod registration;

pub use assigning::end_in_assign;
pub use assignments::assign_controlled;
pub use finalizing::{end_in_finalize, finalize, next_to_finalize, open_finalize};
pub use initializing::{end_in_initialize, initialize};
pub use marks::set_being_left;
pub use registration::{region_or_none, top_region};
