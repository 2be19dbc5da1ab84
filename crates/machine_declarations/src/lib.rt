//! The declarations of objects: variables, protected objects, timing events, timers and group
//! budgets (ISO/IEC 8652:2012, 3.3.1, 7.6, 9.4, D.14, D.15). Each function has the name of the
//! machine's definition of which it is the counterpart. A number that its type cannot hold is
//! answered as want of memory.
#![tactic(auto)]

mod declarations;
mod initial_values;
mod objects;
mod timing;

pub use declarations::declare;
pub use objects::{no_calls, set_thing};
