//! The worked rows by their subjects.
pub mod numbered;
pub mod real_time;
pub mod sequential;
pub mod tasking;
