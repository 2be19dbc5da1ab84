//! The front end: from the bytes of a source to its image, the program that the machine runs, or
//! why it is refused.
//!
//! The stages are asked in their order: tokens, tree, names, legality, forms. The first one that
//! refuses decides. An image is made of what none of them refuses.
#![tactic(auto)]

mod accepting;

pub use accepting::accept;
