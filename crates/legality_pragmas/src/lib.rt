//! Configuration pragmas (ISO/IEC 8652:2012, 2.8, 13.12, D.2.2, D.2.6, D.3, D.4, D.7): which break
//! a rule, what they forbid or limit, and which priorities they have dispatched by deadlines. Each
//! function has the name of the definition of `ada_legality` of which it is the counterpart. Only a
//! literal of more than 128 bits, which no token is, is answered as want of memory where there is
//! some.
#![tactic(auto)]

mod arguments;
mod clashes;
mod deadlines;
mod in_force;
mod policies;
mod profile;
mod restrictions;

pub use clashes::pragmas_judged;
pub use deadlines::deadline_ranges_of;
pub use in_force::in_force_by;
