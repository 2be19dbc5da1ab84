//! How long a line is.

/// The most bytes that a line has, its line feed too.
pub const LINE_BYTES: usize = 1_100;

/// The last tick that a line of a trace can have.
pub const LAST_TICK: u64 = 1_000_000_000;
