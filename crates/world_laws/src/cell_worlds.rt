//! Cells of the scopes in use in the worlds that a run reaches: laws of the profile machine's
//! definitions alone. Each is the contract of a function that does nothing.
ghost use Rattle.world_laws.specs.CellWorlds.{ReachedCellsAreRight};

/// In every world that a run reaches each scope in use has as many cells as its text says
/// (ISO/IEC 8652:2012, 3.1, 3.3.1).
#[tactic(auto, using(crate::proofs::Cells::CellWorlds::reached_cells_are_right))]
pub fn reached_cells_are_right()
    ensures { ReachedCellsAreRight }
{}
