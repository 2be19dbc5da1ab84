//! Why tokens spell no tree.
use thiserror::Error;

/// Why tokens spell no tree.
#[derive(Clone, Copy, Debug, Error)]
pub enum ParseFault {
    /// The token where reading from left to right stops, or the number of tokens at the end of the source.
    #[error("a token that cannot stand here")]
    Unexpected { token: u32 },
    /// The token that opens nesting 101.
    #[error("nesting is too deep")]
    TooDeep { token: u32 },
}
