//! The declarations of the image of a source, by number: what each declares, the range of its
//! values, its cells and its initial value (ISO/IEC 8652:2012, 3.1, 3.3.1, 3.5). Each function has
//! the name of the definition of `ada_image` of which it is the counterpart. A number that its type
//! cannot hold is answered as want of memory.
#![tactic(auto)]

mod declarations;
mod initial_values;
mod kinds;

pub use declarations::declarations_made;
