//! What holds of every text of a script.
ghost use Rattle.event_script.specs.Script.{CutScriptsAreReadAlike};

/// The first `SCRIPT_BYTES` bytes of a text and one more say all: what stands behind them changes
/// neither its items nor the first line that is refused.
#[tactic(auto, using(crate::proofs::LongScripts::cut_scripts_are_read_alike))]
pub fn cut_scripts_are_read_alike()
    ensures { CutScriptsAreReadAlike }
{}
