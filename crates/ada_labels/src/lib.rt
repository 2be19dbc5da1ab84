//! The labels that statements declare in the body or block around them, in the order of the text
//! (ISO/IEC 8652:2012, 5.1).
#![tactic(auto)]

mod labels;
mod sequences;

pub use sequences::LabelledSequence;
