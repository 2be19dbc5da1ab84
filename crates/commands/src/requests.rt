//! Requests.
use trace_text::LAST_TICK;

/// How many ticks a run takes at most where the words do not say it.
pub const DEFAULT_TICKS: u64 = 1_000_000;

/// The most ticks that the words may say: up to the last one that a line of a trace can have.
pub const MOST_TICKS: u64 = LAST_TICK;

/// What is asked of a source.
#[derive(Clone, Copy)]
pub enum Work {
    /// `run`: the trace of its run up to this many ticks, from 1 to `MOST_TICKS`.
    Run { ticks: u64 },
    /// The summary of its run up to this many ticks, from 1 to `MOST_TICKS`.
    Summary { ticks: u64 },
    /// `accept`: whether it is accepted.
    Accept,
}

/// What is asked of a table of duties.
#[derive(Clone, Copy)]
pub enum TableTest {
    /// `rta`: the response time of each duty under fixed priorities.
    ResponseTimes,
    /// `demand`: the processor demand under earliest deadline first.
    Demand,
}

/// What is asked of a trace.
#[derive(Clone, Copy)]
pub enum TraceWork {
    /// `laws`: whether it keeps the five laws, or which line breaks which.
    Laws,
    /// `report`: what it shows of each task.
    Report,
}

/// What the words of a command ask for. Files are named as the words name them.
#[derive(Clone, Copy)]
pub enum Request<'a> {
    /// `run SOURCE`, also with `--ticks N` at the end, and `accept SOURCE`.
    Source {
        source: &'a [u8],
        work: Work,
    },
    /// `run SOURCE SCRIPT`, also with `--ticks N` at the end: the trace of its run under the script
    /// up to this many ticks, from 1 to `MOST_TICKS`.
    Script {
        source: &'a [u8],
        script: &'a [u8],
        ticks: u64,
    },
    /// `load N`: the summary of the run of a load of so many tasks, from 1 to `MOST_TASKS`, up to
    /// `DEFAULT_TICKS` ticks.
    Load {
        tasks: u32,
    },
    /// `rta TABLE` and `demand TABLE`.
    Table {
        table: &'a [u8],
        test: TableTest,
    },
    /// `laws TRACE` and `report TRACE`.
    Trace {
        trace: &'a [u8],
        work: TraceWork,
    },
}
