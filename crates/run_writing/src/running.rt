//! Running an image and writing its trace.
ghost use Rattle.std.specs.Prelude.{◌≡◌, ◌≤◌, ◌<◌, [], IfOk, IfErr, OnOk, OnErr};
ghost use Rattle.ann_base.specs.Answers.{OfFault};
ghost use Rattle.ann_base.specs.Outside.{Rose, extended};
ghost use Rattle.outside_bytes.specs.Pieces.{HoldsPrefix};
ghost use Rattle.trace_text.specs.Text.{ArePrintable};
ghost use Rattle.profile_machine.specs.Run.{lines_of_run};
ghost use Rattle.commands.specs.Runs.{text_of_run, stop_of, text_under, stop_under};

use ann_base::{Failed, Moment, OrMemory, Sink};
use commands::MOST_TICKS;
use line_writing::LineBuffer;
use machine_kernel::{Next, Stop, boot};
use outside_bytes::write_all;
use profile_image::{Image, Item};
use std::alloc::Global;
use world_tables::List;

/// Writes the run of an image without a script up to so many ticks, as `run_under` does with no
/// items.
pub fn run<K: Sink>(
    alloc: Global,
    image: Image,
    ticks: u64,
    out: &mut K,
) -> Result<Stop, OrMemory<Failed>>
    requires positive { 0 < ticks }
    requires bounded { ticks ≤ MOST_TICKS }
    ensures written { OnOk result
        (K.held out.new ≡ extended (K.held out.old) (text_of_run image ticks)) }
    ensures printable { OnOk result (ArePrintable (lines_of_run image [] ticks)) }
    ensures stop { IfOk result (λ stop. stop ≡ stop_of image ticks) }
    ensures prefix { OnErr result
        (HoldsPrefix (K.held out.old) (K.held out.new) (text_of_run image ticks)) }
    ensures monotone { K.faults out.old ≤ K.faults out.new }
    ensures cause { IfErr result (OfFault (λ _. Rose (K.faults out.old) (K.faults out.new))) }
{
    run_under(alloc, image, List::new(alloc), ticks, out)
}

/// Writes the run of an image under the items of a script up to so many ticks, line by line
/// (docs/TRACES.md), and answers why it stopped. Where it ends all of its text was written, and
/// each of its lines is printable.
///
/// Errors: `Fault` where the sink failed, `Memory` where memory ran out, or where a line has a name
/// or a text that no trace can have. A prefix of the text was written.
pub fn run_under<K: Sink>(
    alloc: Global,
    image: Image,
    items: List<(Moment, Item)>,
    ticks: u64,
    out: &mut K,
) -> Result<Stop, OrMemory<Failed>>
    requires positive { 0 < ticks }
    requires bounded { ticks ≤ MOST_TICKS }
    ensures written { OnOk result
        (K.held out.new ≡ extended (K.held out.old) (text_under items image ticks)) }
    ensures printable { OnOk result (ArePrintable (lines_of_run image items ticks)) }
    ensures stop { IfOk result (λ stop. stop ≡ stop_under items image ticks) }
    ensures prefix { OnErr result
        (HoldsPrefix (K.held out.old) (K.held out.new) (text_under items image ticks)) }
    ensures monotone { K.faults out.old ≤ K.faults out.new }
    ensures cause { IfErr result (OfFault (λ _. Rose (K.faults out.old) (K.faults out.new))) }
{
    let mut kernel = boot(alloc, image, items, ticks)?;
    let mut buffer = LineBuffer::new(alloc)?;
    loop {
        buffer.clear();
        match kernel.next(&mut buffer)? {
            Next::Going => {
                write_line(out, buffer.bytes())?;
            }
            Next::Ended => return Ok(kernel.stop()?),
        }
    }
}

/// Writes a line, or several. After a failure a prefix of them was written.
pub fn write_line<K: Sink>(out: &mut K, line: &[u8]) -> Result<(), OrMemory<Failed>>
    ensures written { OnOk result (K.held out.new ≡ extended (K.held out.old) line.now) }
    ensures prefix { OnErr result (HoldsPrefix (K.held out.old) (K.held out.new) line.now) }
    ensures monotone { K.faults out.old ≤ K.faults out.new }
    ensures cause { OnErr result (Rose (K.faults out.old) (K.faults out.new)) }
{
    match write_all(out, line) {
        Ok(()) => Ok(()),
        Err(failed) => Err(OrMemory::Fault(failed)),
    }
}
