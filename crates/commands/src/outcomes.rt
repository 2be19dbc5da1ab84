//! How a command ends.
ghost use Rattle.std.specs.Prelude.{◌≡◌, if◌then◌else◌};
ghost use Rattle.commands.specs.Outcomes.{status_of, stop_status, without_items};

use ada_verdicts::Refusal;
use event_script::ScriptFault;
use sched_tests::TableFault;
use trace_text::Ended as Stop;

/// How a command ended.
#[derive(Drop)]
pub enum Outcome {
    /// A run was written whole, and stopped for this reason.
    Ended(Stop),
    /// The source is accepted.
    Accepted,
    /// The lines of a test of a table were written.
    Tested {
        /// Whether a duty may miss its deadline.
        failed: bool,
    },
    /// What was asked of a trace was written.
    Traced {
        /// Whether the trace breaks a law, which was asked for.
        broken: bool,
    },
    /// The words are not asked for.
    WordsRefused,
    /// The source is not accepted.
    SourceRefused(Refusal),
    /// The source is accepted, and the other file is not a script.
    ScriptRefused(ScriptFault),
    /// The file is not a table.
    TableRefused(TableFault),
    /// The file is not a trace: this line is refused.
    TraceRefused(u64),
    /// A file could not be read.
    ReadFault,
    /// Standard output could not be written.
    WriteFault,
    /// Memory ran out.
    NoMemory,
}

impl Outcome {
    /// The status with which the program ends: 0 to 3 as a run stopped, 0 where a source is
    /// accepted, 0 or 12 as a test ended, 0 or 10 as a trace keeps the laws, 4 to 9, 11 and 13
    /// where the command was not done.
    pub fn status(&self) -> u8
        ensures { result ≡ status_of self.now }
    {
        match self {
            Outcome::Ended(stop) => stop_status(stop),
            Outcome::Accepted => 0,
            Outcome::Tested { failed } => tested_status(*failed),
            Outcome::Traced { broken } => traced_status(*broken),
            Outcome::WordsRefused => 6,
            Outcome::SourceRefused(_) => 4,
            Outcome::ScriptRefused(_) => 5,
            Outcome::TableRefused(_) => 13,
            Outcome::TraceRefused(_) => 11,
            Outcome::ReadFault => 7,
            Outcome::WriteFault => 8,
            Outcome::NoMemory => 9,
        }
    }
}

/// The status of a test: 12 where a duty may miss its deadline.
fn tested_status(failed: bool) -> u8
    ensures { result ≡ if failed then 12 else 0 }
{
    if failed { 12 } else { 0 }
}

/// The status of what is told of a trace: 10 where it breaks a law.
fn traced_status(broken: bool) -> u8
    ensures { result ≡ if broken then 10 else 0 }
{
    if broken { 10 } else { 0 }
}

/// The status of a run that stopped so.
fn stop_status(stop: &Stop) -> u8
    ensures { result ≡ stop_status stop.now }
{
    match stop {
        Stop::Completed => 0,
        Stop::Exception(_) => 1,
        Stop::Stuck => 2,
        Stop::Bound => 3,
    }
}

/// Why there are no items of a script that is asked for.
#[derive(Clone, Copy)]
pub enum NoItems {
    /// The file is not a script.
    Refused(ScriptFault),
    /// It could not be read.
    Unread,
    /// Memory ran out.
    NoMemory,
}

impl NoItems {
    /// How a run ends that has no items of its script.
    pub fn outcome(self) -> Outcome
        ensures { result ≡ without_items self }
    {
        match self {
            NoItems::Refused(fault) => Outcome::ScriptRefused(fault),
            NoItems::Unread => Outcome::ReadFault,
            NoItems::NoMemory => Outcome::NoMemory,
        }
    }
}
