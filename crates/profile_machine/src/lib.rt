//! The profile machine: the world of a run as plain data, and, in `specs/`, the definition of the
//! timed run of an image.
#![tactic(auto)]

mod run_data;
pub mod world;

pub use run_data::Leaving;
