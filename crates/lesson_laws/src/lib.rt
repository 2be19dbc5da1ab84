//! From bytes, by the checker: what the definitions say of small sources, from their bytes to the
//! text of their runs or to their refusal, computed in the logic stage by stage. The calls do
//! nothing: their contracts are the laws.
#![tactic(auto)]

pub mod accepted;
pub mod refused;
