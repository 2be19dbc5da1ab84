//! Whole commands over files and an output in memory, each read and each write of which fails in
//! turn.
#![tactic(auto)]

#[cfg(test)]
mod tests;
