//! The host's files and its two output streams.
#![tactic(auto)]

mod host;

pub use host::{HostShelf, HostSink};
