//! Aborts and requeues (ISO/IEC 8652:2012, 9.5.4, 9.8, D.7). Each function has the name of the
//! definition of `ada_legality` of which it is the counterpart.
#![tactic(auto)]

mod requeues;

pub use requeues::{abort_found, requeue_found};
