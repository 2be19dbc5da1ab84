//! Writing a report.
ghost use Rattle.std.specs.Prelude.{◌≡◌, ◌≤◌, ◌+◌, ◌++◌, length, IfErr, IfSome, OnOk, OnErr};
ghost use Rattle.std.specs.List.{slice_get};
ghost use Rattle.ann_base.specs.Answers.{OfFault};
ghost use Rattle.ann_base.specs.Outside.{Rose, extended};
ghost use Rattle.outside_bytes.specs.Pieces.{HoldsPrefix};
ghost use Rattle.line_writing.specs.declared.buffer.TheConstants.{BUFFER_BYTES};
ghost use Rattle.run_report.specs.declared.writing.TheConstants.{REPORT_BYTES};
ghost use Rattle.run_report.specs.Kept.{accounts_in};
ghost use Rattle.run_report.specs.Texts.{account_text, text_in};

use ann_base::{Failed, OrMemory, Sink};
use line_writing::LineBuffer;
use outside_bytes::write_all;
use run_report::{Report, write_account, write_totals};
use std::alloc::Global;

/// Writes a report: a line for each task in the order of the `new` lines, and three for the whole.
/// After a failure a prefix of it was written.
pub fn write_report<K: Sink>(
    alloc: Global,
    out: &mut K,
    report: &Report,
) -> Result<(), OrMemory<Failed>>
    ensures written { OnOk result
        (K.held out.new ≡ extended (K.held out.old) (text_in report.now)) }
    ensures prefix { OnErr result
        (HoldsPrefix (K.held out.old) (K.held out.new) (text_in report.now)) }
    ensures monotone { K.faults out.old ≤ K.faults out.new }
    ensures cause { IfErr result (OfFault (λ _. Rose (K.faults out.old) (K.faults out.new))) }
{
    let mut buffer = LineBuffer::new(alloc)?;
    for place in 0..report.len() {
        buffer.clear();
        push_account(report, place, &mut buffer);
        write_line(out, buffer.bytes())?;
    }
    buffer.clear();
    write_totals(
        report.agent_run(),
        report.idle(),
        report.ticks(),
        &mut buffer,
    );
    write_line(out, buffer.bytes())
}

// Appends the line of the account at a place.
fn push_account(report: &Report, place: u32, buffer: &mut LineBuffer)
    requires { length buffer.old + REPORT_BYTES ≤ BUFFER_BYTES }
    ensures { IfSome (slice_get (accounts_in report.now) place)
        (λ account. buffer.new ≡ buffer.old ++ account_text account) }
{
    match report.account(place) {
        Some(account) => write_account(&account, buffer),
        None => {}
    }
}

// Writes a line. After a failure a prefix of it was written.
fn write_line<K: Sink>(out: &mut K, line: &[u8]) -> Result<(), OrMemory<Failed>>
    ensures written { OnOk result (K.held out.new ≡ extended (K.held out.old) line.now) }
    ensures prefix { OnErr result (HoldsPrefix (K.held out.old) (K.held out.new) line.now) }
    ensures monotone { K.faults out.old ≤ K.faults out.new }
    ensures cause { IfErr result (OfFault (λ _. Rose (K.faults out.old) (K.faults out.new))) }
{
    match write_all(out, line) {
        Ok(()) => Ok(()),
        Err(failed) => Err(OrMemory::Fault(failed)),
    }
}
