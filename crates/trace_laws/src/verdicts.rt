//! What is answered of a whole trace.
use crate::laws::Law;

/// The most bytes that a trace has: 64 MiB.
pub const TRACE_BYTES: usize = 67_108_864;

/// What is answered of the bytes of a trace. Lines count from 1.
#[derive(Clone, Copy, PartialEq, Eq)]
pub enum Verdict {
    /// All lines, so many, are formed and break no law.
    Lawful(u64),
    /// This line is the first that offends, and it breaks this law.
    Broken(u64, Law),
    /// This line is the first that offends: it is none, does not keep the list formed, or goes on
    /// beyond the most bytes.
    Refused(u64),
}
