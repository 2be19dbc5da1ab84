//! Scopes in use in the worlds that a run reaches: laws of the profile machine's definitions alone.
//! Each is the contract of a function that does nothing.
ghost use Rattle.world_laws.specs.ScopeWorlds.{ReachedScopesAreRight};

/// In every world that a run reaches the scopes in use are those of the open marks, each owned by
/// the task whose mark it is, the newest first (ISO/IEC 8652:2012, 3.1, 7.6.1).
#[tactic(auto, using(crate::proofs::Scopes::ScopeWorlds::reached_scopes_are_right))]
pub fn reached_worlds_have_the_scopes_of_marks()
    ensures { ReachedScopesAreRight }
{}
