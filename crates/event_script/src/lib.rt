//! Scripts: the interrupts that come, the ports that are set and the interrupts that are masked in
//! a run, each at its tick. `docs/SCRIPTS.md` explains the format.
#![tactic(auto)]

mod entries;
mod faults;
mod items;
mod laws;
mod numbers;
mod reading;
mod words;

pub use faults::{LAST_TICK, MOST_ITEMS, SCRIPT_BYTES, ScriptFault, ScriptFaultKind};
pub use laws::cut_scripts_are_read_alike;
pub use reading::read_script;
