//! Places in a source text.

/// Where a token or a fault stands: line and column, both counted from 1. A column is a byte of its
/// line.
#[derive(Clone, Copy, Debug, PartialEq, Eq)]
pub struct Place {
    /// The line, from 1. A line feed ends a line.
    pub line: u32,
    /// The column in bytes, from 1.
    pub column: u32,
}
