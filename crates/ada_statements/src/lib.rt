//! Reading statements that hold others (ISO/IEC 8652:2012, 5.1 to 5.6).
#![tactic(auto)]

mod statements;

pub use statements::StatementReader;
