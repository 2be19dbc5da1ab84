//! Visibility: what a direct name denotes, and what an expanded name or a selected component does
//! (ISO/IEC 8652:2012, 4.1.3, 8.3, 8.4). Each function has the name of the definition of
//! `ada_regions` of which it is the counterpart.
#![tactic(auto)]

mod direct;
mod seeking;
mod selecting;
mod use_clauses;

pub use direct::{bound, in_standard, item_of};
pub use seeking::{resolved, sought};
pub use selecting::{name_resolved, selected};
pub use use_clauses::is_withed;
