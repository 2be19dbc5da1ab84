//! Which law a trace in a file breaks.
ghost use Rattle.std.specs.Prelude.{◌≡◌, ◌≤◌, IfOk, IfErr};
ghost use Rattle.ann_base.specs.Answers.{OfFault};
ghost use Rattle.ann_base.specs.Outside.{Rose, Lacks};
ghost use Rattle.outside_bytes.specs.Files.{told, WhereTold};
ghost use Rattle.trace_laws.specs.Verdicts.{laws_answer};
ghost use Rattle.trace_files.specs.Judged.{verdict_on};

use crate::texts::{Next, TraceFile};
use ann_base::{Failed, OrMemory, Shelf};
use std::alloc::Global;
use trace_laws::{LawFault, Laws, Verdict, answers_tell};

/// The verdict on the trace in the named file: that it is lawful, or its first line that breaks a
/// law or is refused. It is read line by line, up to the line that offends, and no line is kept.
/// Where the shelf tells its files, this one is among them.
///
/// Errors: `Fault` where the shelf failed, or tells its files and lacks this one.
pub fn judge_file<S: Shelf>(
    alloc: Global,
    shelf: &mut S,
    name: &[u8],
) -> Result<Verdict, OrMemory<Failed>>
    ensures verdict { IfOk result (λ verdict. WhereTold (told (S.files shelf.old) name.now)
        (λ file. laws_answer file ≡ verdict)) }
    ensures files { S.files shelf.new ≡ S.files shelf.old }
    ensures monotone { S.faults shelf.old ≤ S.faults shelf.new }
    ensures cause { IfErr result (OfFault (λ _. Lacks (S.files shelf.old) name.now
        (Rose (S.faults shelf.old) (S.faults shelf.new)))) }
{
    answers_tell();
    let mut trace = TraceFile::open(alloc, shelf, name)?;
    let mut laws = Laws::new(alloc);
    loop {
        match trace.next(shelf)? {
            Next::End => return Ok(Verdict::Lawful(trace.count)),
            Next::Refused => return Ok(Verdict::Refused(trace.count + 1)),
            Next::Line(tick, event) => match laws.line(tick, &event) {
                Ok(()) => {}
                Err(OrMemory::Fault(fault)) => return Ok(verdict_on(fault, trace.count)),
                Err(OrMemory::Memory) => return Err(OrMemory::Memory),
            },
        }
    }
}

// The verdict where the line with this number is at fault.
fn verdict_on(fault: LawFault, number: u64) -> Verdict
    ensures { result ≡ verdict_on fault number }
{
    match fault {
        LawFault::Malformed => Verdict::Refused(number),
        LawFault::Broken(law) => Verdict::Broken(number, law),
    }
}
