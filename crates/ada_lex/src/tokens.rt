//! Tokens and the faults of a source that has none.
use ann_base::Place;
use thiserror::Error;

/// What a token is.
#[derive(Clone, Copy, PartialEq, Eq)]
pub enum Kind {
    /// An identifier or a reserved word (2.3, 2.9).
    Word,
    /// A numeric literal without a base and an exponent (2.4.1).
    Number,
    /// A string literal, with its quotation marks (2.6).
    Text,
    /// A delimiter (2.2).
    Delimiter,
}

/// A token: its kind, the bytes `first .. end` of the source that spell it, and the place of its
/// first byte.
#[derive(Clone, Copy, PartialEq, Eq)]
pub struct Token {
    pub kind: Kind,
    /// The offset of its first byte.
    pub first: u32,
    /// The offset behind its last byte.
    pub end: u32,
    pub place: Place,
}

/// Why a source has no tokens: its first fault.
#[derive(Clone, Copy, Debug, Error)]
pub enum LexFault {
    /// A byte that no token, separator or comment has there.
    #[error("a byte that may not stand here")]
    BadByte(Place),
    /// A number that is no decimal literal of this profile, at its first byte.
    #[error("not a number of this profile")]
    BadNumber(Place),
    /// A text that does not end on its line, at its first mark.
    #[error("a text that does not end on its line")]
    OpenString(Place),
    /// More than `MAX_SOURCE` bytes.
    #[error("the source is too long")]
    TooLong,
}
