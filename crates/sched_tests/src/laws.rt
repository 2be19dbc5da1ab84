//! What holds of every text of a table.
ghost use Rattle.sched_tests.specs.Reading.{CutTablesAreReadAlike};

/// The first `TABLE_BYTES` bytes of a text and one more say all: what stands behind them changes
/// neither its duties nor the first line that is refused.
#[tactic(auto, using(crate::proofs::LongTables::cut_tables_are_read_alike))]
pub fn cut_tables_are_read_alike()
    ensures { CutTablesAreReadAlike }
{}
