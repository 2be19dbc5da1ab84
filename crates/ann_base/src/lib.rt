//! What every crate of the interpreter shares: places in a source, the numbers that name run-time
//! things, the predefined exceptions, names of bounded length, and the outside (files that are
//! read, sinks that are written).
#![tactic(auto)]

mod exceptions;
mod faults;
mod identities;
mod names;
mod outside;
mod places;

pub use exceptions::Raised;
pub use faults::{Failed, Full, NoMemory, OrMemory};
pub use identities::{CallNo, Level, Moment, ObjectNo, RegionNo, SLOTS, Slot, TaskNo, next_number};
pub use names::{NAME_BYTES, Name};
pub use outside::{Shelf, Sink};
pub use places::Place;
