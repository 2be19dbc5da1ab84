//! Statements without others in them, and their parts, as they are read (ISO/IEC 8652:2012, clauses
//! 5, 6, 9 and 11).
#![tactic(auto)]

mod simple;

pub use simple::{
    abort_statement, call, choice, delay, exit_statement, handled_exceptions, iteration, label_end,
    null_statement, raise_statement, requeue_statement, return_statement, simple_statement,
};
