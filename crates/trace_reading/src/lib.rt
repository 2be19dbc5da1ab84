//! How a line of a trace is read: exactly the lines that `trace_text` writes are read, each as what
//! it was written from.
#![tactic(auto)]

mod laws;
mod read;

pub use laws::{long_texts_are_bad, texts_differ};
pub use read::{BadLine, read_line};
