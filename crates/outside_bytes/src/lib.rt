//! Whole files, their lines, and whole pieces: reading a file of a shelf up to a limit, or line by
//! line in memory that grows with the longest line alone, and writing all of a piece to a sink.
//!
//! A shelf reads and a sink writes as many bytes at a time as it likes. The calls here go on until
//! everything is read or written, or the outside fails.
#![tactic(auto)]

mod lines;
mod reading;
mod writing;

pub use lines::Lines;
pub use reading::read_file;
pub use writing::{write_all, write_four, write_two};
