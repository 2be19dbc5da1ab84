//! The status of an outcome, and the note on it.
ghost use Rattle.std.specs.Prelude.{◌≡◌, ◌≤◌, OnOk, OnErr};
ghost use Rattle.ann_base.specs.Outside.{Rose, extended};
ghost use Rattle.outside_bytes.specs.Pieces.{HoldsPrefix};
ghost use Rattle.commands.specs.Outside.{sink_of};
ghost use Rattle.commands.specs.Traces.{trace_note};
ghost use Rattle.sched_tests.specs.Reports.{table_note};
ghost use Rattle.commands.specs.Outcomes.{Concludes, IsNoted, IsNotedInPart};
ghost use Rattle.commands.specs.Outcomes.{note_of, refusal_text, script_note};

use crate::Outcome;
use crate::words::{write_labelled, write_words};
use ada_verdicts::Refusal;
use ann_base::{Failed, Sink};
use event_script::ScriptFault;
use itoa::Buffer;
use outside_bytes::{write_all, write_four};
use sched_tests::TableFault;

/// The status of an outcome, with which the program ends (README.md has the table of them). Where
/// the command was not done a note of one line says so on `notes`; where the note cannot be written
/// the status is 8, and a prefix of it was written.
pub fn conclude<K: Sink>(notes: &mut K, outcome: Outcome) -> u8
    ensures concluded { Concludes outcome (sink_of K.held K.faults notes.old notes.new) result }
    ensures monotone { K.faults notes.old ≤ K.faults notes.new }
{
    let status = outcome.status();
    match write_note(notes, outcome) {
        Ok(()) => status,
        Err(_) => 8,
    }
}

/// Writes the note on an outcome, a line where the command was not done. After a failure a prefix
/// of it was written.
fn write_note<K: Sink>(notes: &mut K, outcome: Outcome) -> Result<(), Failed>
    ensures noted { OnOk result
        (IsNoted (note_of outcome) (sink_of K.held K.faults notes.old notes.new)) }
    ensures monotone { K.faults notes.old ≤ K.faults notes.new }
    ensures cause { OnErr result (Rose (K.faults notes.old) (K.faults notes.new)) }
    ensures in_part { OnErr result
        (IsNotedInPart (note_of outcome) (sink_of K.held K.faults notes.old notes.new)) }
{
    match outcome {
        Outcome::Ended(_) => Ok(()),
        Outcome::Accepted => Ok(()),
        Outcome::Tested { .. } => Ok(()),
        Outcome::Traced { .. } => Ok(()),
        Outcome::WordsRefused => write_all(notes, b"words refused\n"),
        Outcome::SourceRefused(refusal) => write_refusal(notes, refusal),
        Outcome::ScriptRefused(fault) => write_script_fault(notes, fault),
        Outcome::TableRefused(fault) => write_table_fault(notes, fault),
        Outcome::TraceRefused(line) => write_trace_fault(notes, line),
        Outcome::ReadFault => write_all(notes, b"read fault\n"),
        Outcome::WriteFault => write_all(notes, b"write fault\n"),
        Outcome::NoMemory => write_all(notes, b"no memory\n"),
    }
}

/// Writes `source refused LINE:COLUMN CODE` and a line feed. After a failure a prefix of it was
/// written.
fn write_refusal<K: Sink>(notes: &mut K, refusal: Refusal) -> Result<(), Failed>
    ensures written { OnOk result
        (K.held notes.new ≡ extended (K.held notes.old) (refusal_text refusal)) }
    ensures monotone { K.faults notes.old ≤ K.faults notes.new }
    ensures cause { OnErr result (Rose (K.faults notes.old) (K.faults notes.new)) }
    ensures prefix { OnErr result
        (HoldsPrefix (K.held notes.old) (K.held notes.new) (refusal_text refusal)) }
{
    let (mut line, mut column, mut number) = (Buffer::new(), Buffer::new(), Buffer::new());
    let line = line.format(refusal.place.line).as_bytes();
    let column = column.format(refusal.place.column).as_bytes();
    let number = number.format(refusal.code.number()).as_bytes();
    write_four(notes, b"source refused ", line, b":", column)?;
    write_four(notes, b" ", &[refusal.code.letter()], number, b"\n")
}

/// Writes `script refused LINE KIND` and a line feed. After a failure a prefix of it was written.
fn write_script_fault<K: Sink>(notes: &mut K, fault: ScriptFault) -> Result<(), Failed>
    ensures written { OnOk result
        (K.held notes.new ≡ extended (K.held notes.old) (script_note fault)) }
    ensures monotone { K.faults notes.old ≤ K.faults notes.new }
    ensures cause { OnErr result (Rose (K.faults notes.old) (K.faults notes.new)) }
    ensures prefix { OnErr result
        (HoldsPrefix (K.held notes.old) (K.held notes.new) (script_note fault)) }
{
    let (mut line, mut kind) = (Buffer::new(), Buffer::new());
    let line = line.format(fault.line).as_bytes();
    let kind = kind.format(fault.kind.number()).as_bytes();
    write_labelled(notes, b"script refused ", line, kind)
}

/// Writes `table refused LINE KIND` and a line feed. After a failure a prefix of it was written.
fn write_table_fault<K: Sink>(notes: &mut K, fault: TableFault) -> Result<(), Failed>
    ensures written { OnOk result
        (K.held notes.new ≡ extended (K.held notes.old) (table_note fault)) }
    ensures monotone { K.faults notes.old ≤ K.faults notes.new }
    ensures cause { OnErr result (Rose (K.faults notes.old) (K.faults notes.new)) }
    ensures prefix { OnErr result
        (HoldsPrefix (K.held notes.old) (K.held notes.new) (table_note fault)) }
{
    let (mut line, mut kind) = (Buffer::new(), Buffer::new());
    let line = line.format(fault.line).as_bytes();
    let kind = kind.format(fault.kind.number()).as_bytes();
    write_labelled(notes, b"table refused ", line, kind)
}

/// Writes `trace refused LINE` and a line feed. After a failure a prefix of it was written.
fn write_trace_fault<K: Sink>(notes: &mut K, line: u64) -> Result<(), Failed>
    ensures written { OnOk result
        (K.held notes.new ≡ extended (K.held notes.old) (trace_note line)) }
    ensures monotone { K.faults notes.old ≤ K.faults notes.new }
    ensures cause { OnErr result (Rose (K.faults notes.old) (K.faults notes.new)) }
    ensures prefix { OnErr result
        (HoldsPrefix (K.held notes.old) (K.held notes.new) (trace_note line)) }
{
    let mut digits = Buffer::new();
    write_words(notes, b"trace refused", digits.format(line).as_bytes())
}
