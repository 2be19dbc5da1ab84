//! Telling what a trace shows.
ghost use Rattle.std.specs.Prelude.{◌≡◌, ◌≤◌, [], ◌∷◌, ◌++◌, codes};
ghost use Rattle.std.specs.Prelude.{decimal, false, Some, Ok, OnOk, OnErr};
ghost use Rattle.ann_base.specs.Outside.{Rose, extended};
ghost use Rattle.outside_bytes.specs.Pieces.{HoldsPrefix};
ghost use Rattle.commands.specs.declared.requests.TraceWork.TheVariants as question;
ghost use Rattle.run_report.specs.Texts.{text_in};
ghost use Rattle.commands.specs.Requests.{TraceAsked};
ghost use Rattle.commands.specs.Outside.{shelf_of, sink_of};
ghost use Rattle.commands.specs.Traces.{law_word, verdict_answer, file_answer};
ghost use Rattle.commands.specs.Performed.{Performs, TellsTrace};

use crate::words::{write_labelled, write_words};
use crate::{Outcome, TraceWork};
use ann_base::{Failed, OrMemory, Shelf, Sink};
use itoa::Buffer;
use run_report::{Report, accounts_tell};
use std::alloc::Global;
use trace_files::{FileReport, judge_file, report_file, write_report};
use trace_laws::{Law, Verdict};

/// Reads the named trace, and tells what is asked of it: the verdict of the laws, or the report of
/// its tasks, goes to `out` (docs/TRACES.md).
///
/// Where the file cannot be read or is no trace, nothing is written. Where `out` fails or memory
/// runs out, at most a prefix of the answer was written. The outcome says which of these came.
pub fn serve_trace<S: Shelf, K: Sink>(
    alloc: Global,
    trace: &[u8],
    work: TraceWork,
    shelf: &mut S,
    out: &mut K,
) -> Outcome
    ensures performed { Performs (Some (TraceAsked trace.now work))
        (shelf_of S.files S.faults shelf.old shelf.new)
        (sink_of K.held K.faults out.old out.new) result }
    ensures monotone_shelf { S.faults shelf.old ≤ S.faults shelf.new }
    ensures monotone_out { K.faults out.old ≤ K.faults out.new }
{
    match work {
        TraceWork::Laws => serve_laws(alloc, trace, shelf, out),
        TraceWork::Report => serve_report(alloc, trace, shelf, out),
    }
}

/// Tells which law the named trace breaks.
fn serve_laws<S: Shelf, K: Sink>(alloc: Global, trace: &[u8], shelf: &mut S, out: &mut K) -> Outcome
    ensures performed { Performs (Some (TraceAsked trace.now question.Laws))
        (shelf_of S.files S.faults shelf.old shelf.new)
        (sink_of K.held K.faults out.old out.new) result }
    ensures monotone_shelf { S.faults shelf.old ≤ S.faults shelf.new }
    ensures monotone_out { K.faults out.old ≤ K.faults out.new }
{
    match judge_file(alloc, shelf, trace) {
        Ok(verdict) => tell_verdict(out, verdict),
        Err(OrMemory::Fault(_)) => Outcome::ReadFault,
        Err(OrMemory::Memory) => Outcome::NoMemory,
    }
}

/// Tells what the named trace shows of each task.
fn serve_report<S: Shelf, K: Sink>(
    alloc: Global,
    trace: &[u8],
    shelf: &mut S,
    out: &mut K,
) -> Outcome
    ensures performed { Performs (Some (TraceAsked trace.now question.Report))
        (shelf_of S.files S.faults shelf.old shelf.new)
        (sink_of K.held K.faults out.old out.new) result }
    ensures monotone_shelf { S.faults shelf.old ≤ S.faults shelf.new }
    ensures monotone_out { K.faults out.old ≤ K.faults out.new }
{
    accounts_tell();
    match report_file(alloc, shelf, trace) {
        Ok(reported) => tell_report(alloc, out, reported),
        Err(OrMemory::Fault(_)) => Outcome::ReadFault,
        Err(OrMemory::Memory) => Outcome::NoMemory,
    }
}

/// Writes the report of a trace, where it is not refused.
fn tell_report<K: Sink>(alloc: Global, out: &mut K, reported: FileReport) -> Outcome
    ensures told { TellsTrace (file_answer reported)
        (sink_of K.held K.faults out.old out.new) result }
    ensures monotone_out { K.faults out.old ≤ K.faults out.new }
{
    match reported {
        FileReport::Formed(report) => tell_accounts(alloc, out, &report),
        FileReport::Refused(line) => Outcome::TraceRefused(line),
    }
}

/// Writes a report.
fn tell_accounts<K: Sink>(alloc: Global, out: &mut K, report: &Report) -> Outcome
    ensures told { TellsTrace (Ok (text_in report.now, false))
        (sink_of K.held K.faults out.old out.new) result }
    ensures monotone_out { K.faults out.old ≤ K.faults out.new }
{
    match write_report(alloc, out, report) {
        Ok(()) => Outcome::Traced { broken: false },
        Err(OrMemory::Fault(_)) => Outcome::WriteFault,
        Err(OrMemory::Memory) => Outcome::NoMemory,
    }
}

/// Writes a verdict, where the trace is not refused.
fn tell_verdict<K: Sink>(out: &mut K, verdict: Verdict) -> Outcome
    ensures told { TellsTrace (verdict_answer verdict)
        (sink_of K.held K.faults out.old out.new) result }
    ensures monotone_out { K.faults out.old ≤ K.faults out.new }
{
    match verdict {
        Verdict::Lawful(count) => match write_lawful(out, count) {
            Ok(()) => Outcome::Traced { broken: false },
            Err(_) => Outcome::WriteFault,
        },
        Verdict::Broken(line, law) => match write_broken(out, line, law) {
            Ok(()) => Outcome::Traced { broken: true },
            Err(_) => Outcome::WriteFault,
        },
        Verdict::Refused(line) => Outcome::TraceRefused(line),
    }
}

/// Writes `lawful LINES` and a line feed. After a failure a prefix of it was written.
fn write_lawful<K: Sink>(out: &mut K, count: u64) -> Result<(), Failed>
    ensures written { OnOk result
        (K.held out.new
        ≡ extended (K.held out.old) (codes "lawful " ++ (decimal count ++ 10 ∷ []))) }
    ensures monotone { K.faults out.old ≤ K.faults out.new }
    ensures cause { OnErr result (Rose (K.faults out.old) (K.faults out.new)) }
    ensures prefix { OnErr result
        (HoldsPrefix (K.held out.old) (K.held out.new)
        (codes "lawful " ++ (decimal count ++ 10 ∷ []))) }
{
    let mut digits = Buffer::new();
    write_words(out, b"lawful", digits.format(count).as_bytes())
}

/// Writes `broken LINE LAW` and a line feed. After a failure a prefix of it was written.
fn write_broken<K: Sink>(out: &mut K, line: u64, law: Law) -> Result<(), Failed>
    ensures written { OnOk result
        (K.held out.new
        ≡ extended (K.held out.old)
        (codes "broken " ++ (decimal line ++ 32 ∷ (law_word law ++ 10 ∷ [])))) }
    ensures monotone { K.faults out.old ≤ K.faults out.new }
    ensures cause { OnErr result (Rose (K.faults out.old) (K.faults out.new)) }
    ensures prefix { OnErr result
        (HoldsPrefix (K.held out.old) (K.held out.new)
        (codes "broken " ++ (decimal line ++ 32 ∷ (law_word law ++ 10 ∷ [])))) }
{
    let mut number = Buffer::new();
    let number = number.format(line).as_bytes();
    write_labelled(out, b"broken ", number, law_word(law))
}

/// The name of a law.
fn law_word(law: Law) -> &'static [u8]
    ensures { result.now ≡ law_word law }
{
    match law {
        Law::Dispatch => b"dispatch",
        Law::Ceiling => b"ceiling",
        Law::Exclusive => b"exclusive",
        Law::Handlers => b"handlers",
        Law::Left => b"left",
    }
}
