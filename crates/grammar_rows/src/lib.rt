//! Rows of the grammar: small sources, legal and illegal, for each production.
#![tactic(auto)]

#[cfg(test)]
mod tests;
