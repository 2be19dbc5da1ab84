//! What a trace in a file shows of each task.
ghost use Rattle.std.specs.Prelude.{◌≡◌, ◌≤◌, IfOk, IfErr};
ghost use Rattle.ann_base.specs.Answers.{OfFault};
ghost use Rattle.ann_base.specs.Outside.{Rose, Lacks};
ghost use Rattle.outside_bytes.specs.Files.{told, WhereTold};
ghost use Rattle.trace_files.specs.Reported.{IsReported};

use crate::texts::{Next, TraceFile};
use ann_base::{Failed, OrMemory, Shelf};
use run_report::Report;
use std::alloc::Global;
use trace_text::tests_tell;

/// What is answered of the trace in a file.
#[derive(Drop)]
pub enum FileReport {
    /// The report of its lines, which are formed.
    Formed(Report),
    /// This line is the first that is refused, counted from 1: it is none, does not keep the lines
    /// formed, or goes on beyond the most bytes.
    Refused(u64),
}

/// The report of the trace in the named file, or its first line that is refused. It is read line by
/// line, up to that line, and no line is kept. Where the shelf tells its files, this one is among
/// them.
///
/// Errors: `Fault` where the shelf failed, or tells its files and lacks this one.
pub fn report_file<S: Shelf>(
    alloc: Global,
    shelf: &mut S,
    name: &[u8],
) -> Result<FileReport, OrMemory<Failed>>
    ensures reported { IfOk result (λ reported. WhereTold (told (S.files shelf.old) name.now)
        (λ file. IsReported file reported)) }
    ensures files { S.files shelf.new ≡ S.files shelf.old }
    ensures monotone { S.faults shelf.old ≤ S.faults shelf.new }
    ensures cause { IfErr result (OfFault (λ _. Lacks (S.files shelf.old) name.now
        (Rose (S.faults shelf.old) (S.faults shelf.new)))) }
{
    tests_tell();
    let mut trace = TraceFile::open(alloc, shelf, name)?;
    let mut report = Report::new(alloc);
    loop {
        match trace.next(shelf)? {
            Next::End => return Ok(FileReport::Formed(report)),
            Next::Refused => return Ok(FileReport::Refused(trace.count + 1)),
            Next::Line(tick, event) => match report.line(tick, &event) {
                Ok(()) => {}
                Err(OrMemory::Fault(_)) => return Ok(FileReport::Refused(trace.count)),
                Err(OrMemory::Memory) => return Err(OrMemory::Memory),
            },
        }
    }
}
