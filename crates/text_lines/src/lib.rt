//! How the bytes of a text are cut into lines, a line into words, and which words are numerals.
#![tactic(auto)]

mod lines;
mod numerals;

pub use lines::{TextLine, line_at, next_word};
pub use numerals::{is_numeral, number_in};
