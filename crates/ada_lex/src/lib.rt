//! The words, numbers, texts and delimiters of an Ada source (ISO/IEC 8652:2012, clause 2).
//!
//! `lex` cuts a source into its tokens, each with its place, or tells the first fault. A token
//! keeps where its bytes lie; `spelling` gives them, and the functions beside it say what they
//! mean.
#![tactic(auto)]

mod delimiters;
mod lexing;
mod meaning;
mod scan;
mod tokens;
mod words;

pub use delimiters::{Delimiter, delimiter_of};
pub use lexing::{MAX_SOURCE, lex};
pub use meaning::{decimals, lower_case, same_word, spelling, text_value, whole_value};
pub use tokens::{Kind, LexFault, Token};
pub use words::{Reserved, is_reserved, reserved_word};
