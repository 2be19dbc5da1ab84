//! The simple statements of the image of a source (ISO/IEC 8652:2012, 5.1), without calls, and the
//! parts of compound ones that hold no statements. Each function has the name of the definition of
//! `ada_image` of which it is the counterpart. A number that its type cannot hold is answered as
//! want of memory.
#![tactic(auto)]

mod assignments;
mod choices;
mod entries;
mod exceptions;
mod scopes;
mod simple;

pub use assignments::{array_name, assignment_put};
pub use choices::choices_made;
pub use entries::{abort_put, entry_at, requeue_put};
pub use exceptions::{handled_made, raise_put};
pub use scopes::scope_at;
pub use simple::{delay_put, exit_put, return_put};
