//! The lines of a trace in a file, one after another.
ghost use Rattle.std.specs.Prelude.{◌≡◌, ◌≤◌, ◌+◌, ℕ, List, true, length, IfOk, IfErr, OnOk};
ghost use Rattle.ann_base.specs.Answers.{OfFault};
ghost use Rattle.ann_base.specs.Outside.{Rose, Lacks};
ghost use Rattle.outside_bytes.specs.Files.{told, WhereTold, left_of};
ghost use Rattle.trace_laws.specs.declared.verdicts.TheConstants.{TRACE_BYTES};
ghost use Rattle.trace_files.specs.Texts.{IsLeft, IsSound, GoesOn, Takes, Counted, nothing_read};

use ann_base::{Failed, OrMemory, Shelf};
use outside_bytes::Lines;
use std::alloc::Global;
use trace_laws::TRACE_BYTES;
use trace_reading::{long_texts_are_bad, read_line};
use trace_text::{Event, LINE_BYTES};

/// A trace in a file, of which some lines are read.
#[derive(Drop)]
pub struct TraceFile {
    lines: Lines,
    /// The text that was read last, or the first of its bytes where it is longer than a line may
    /// be.
    text: Vec<u8>,
    /// How many bytes the lines that were read have.
    before: usize,
    /// How many lines were read.
    pub count: u64,
}

/// What a trace goes on with.
#[derive(Drop)]
pub enum Next {
    /// A line: its tick, and what it says.
    Line(u64, Event),
    /// A text that is no line, or goes on beyond the most bytes that a trace has.
    Refused,
    /// Nothing: it is read to its end.
    End,
}

impl TraceFile {
    /// The trace in the named file, of which nothing is read.
    ///
    /// Errors: `Fault` where the shelf failed, or tells its files and lacks this one.
    pub fn open<S: Shelf>(
        alloc: Global,
        shelf: &mut S,
        name: &[u8],
    ) -> Result<TraceFile, OrMemory<Failed>>
        ensures left { IfOk result (λ trace. WhereTold (told (S.files shelf.old) name.now)
            (λ file. IsLeft trace (left_of (S.files shelf.new) (S.at shelf.new)) file)) }
        ensures first { IfOk result nothing_read }
        ensures files { S.files shelf.new ≡ S.files shelf.old }
        ensures picked { OnOk result (S.picked shelf.new ≡ true) }
        ensures monotone { S.faults shelf.old ≤ S.faults shelf.new }
        ensures cause { IfErr result (OfFault (λ _. Lacks (S.files shelf.old) name.now
            (Rose (S.faults shelf.old) (S.faults shelf.new)))) }
    {
        let lines = Lines::open(alloc, shelf, name, TRACE_BYTES + 1)?;
        Ok(TraceFile {
            lines,
            text: Vec::new(alloc),
            before: 0,
            count: 0,
        })
    }

    /// Reads on. It takes memory for one line alone, however long a text is that is none.
    ///
    /// Errors: `Fault` where the shelf failed.
    pub fn next<S: Shelf>(&mut self, shelf: &mut S) -> Result<Next, OrMemory<Failed>>
        requires picked { S.picked shelf.old ≡ true }
        requires sound { IsSound self.old }
        ensures next { IfOk result (λ next. (rest : List ℕ) →
            IsLeft self.old (left_of (S.files shelf.old) (S.at shelf.old)) rest →
            GoesOn self.old.before rest next self.new
            (left_of (S.files shelf.new) (S.at shelf.new))) }
        ensures counted { IfOk result (λ next. Counted self.old self.new next) }
        ensures sound { IsSound self.new }
        ensures files { S.files shelf.new ≡ S.files shelf.old }
        ensures picked { S.picked shelf.new ≡ true }
        ensures monotone { S.faults shelf.old ≤ S.faults shelf.new }
        ensures cause { IfErr result
            (OfFault (λ _. Rose (S.faults shelf.old) (S.faults shelf.new))) }
    {
        long_texts_are_bad();
        if !self.lines.next(shelf, &mut self.text, LINE_BYTES + 1)? {
            return Ok(Next::End);
        }
        Ok(self.take())
    }

    // The text that was read, as a line.
    fn take(&mut self) -> Next
        requires sound { IsSound self.old }
        ensures taken { Takes self.old self.new result }
        ensures counted { Counted self.old self.new result }
        ensures sound { IsSound self.new }
    {
        let length = self.text.len();
        if length > LINE_BYTES || self.before + length > TRACE_BYTES {
            return Next::Refused;
        }
        match read_line(&self.text) {
            Ok((tick, event)) => {
                self.before += length;
                self.count += 1;
                Next::Line(tick, event)
            }
            Err(_) => Next::Refused,
        }
    }
}
