//! Running an image and counting its lines.
ghost use Rattle.std.specs.Prelude.{◌≡◌, ◌≤◌, ◌<◌, [], IfOk, IfErr, OnOk, OnErr};
ghost use Rattle.ann_base.specs.Answers.{OfFault};
ghost use Rattle.ann_base.specs.Outside.{Rose, extended};
ghost use Rattle.outside_bytes.specs.Pieces.{HoldsPrefix};
ghost use Rattle.profile_machine.specs.Run.{lines_of_run};
ghost use Rattle.load_runs.specs.Tallies.{Tallies};
ghost use Rattle.commands.specs.Runs.{stop_of, summary_under, stop_under};

use crate::running::write_line;
use ann_base::{Failed, Moment, NoMemory, OrMemory, Sink};
use commands::MOST_TICKS;
use line_writing::LineBuffer;
use load_runs::Tally;
use machine_kernel::{Next, Stop, boot};
use profile_image::{Image, Item};
use std::alloc::Global;
use world_tables::List;

/// Writes the summary of the run of an image without a script up to so many ticks, and answers why
/// the run stopped. The summary has how many lines of each word the trace has, and its last line
/// (docs/LANGUAGE.md).
///
/// Errors: `Fault` where the sink failed, `Memory` where memory ran out, or where a line has a name
/// or a text that no trace can have. A prefix of the summary was written.
pub fn summarize<K: Sink>(
    alloc: Global,
    image: Image,
    ticks: u64,
    out: &mut K,
) -> Result<Stop, OrMemory<Failed>>
    requires positive { 0 < ticks }
    requires bounded { ticks ≤ MOST_TICKS }
    ensures written { OnOk result
        (K.held out.new ≡ extended (K.held out.old) (summary_under [] image ticks)) }
    ensures stop { IfOk result (λ stop. stop ≡ stop_of image ticks) }
    ensures prefix { OnErr result
        (HoldsPrefix (K.held out.old) (K.held out.new) (summary_under [] image ticks)) }
    ensures monotone { K.faults out.old ≤ K.faults out.new }
    ensures cause { IfErr result (OfFault (λ _. Rose (K.faults out.old) (K.faults out.new))) }
{
    summarize_under(alloc, image, List::new(alloc), ticks, out)
}

/// Writes the summary of the run of an image under the items of a script up to so many ticks. It is
/// written once the run has ended, and no line of the run but the last is kept.
fn summarize_under<K: Sink>(
    alloc: Global,
    image: Image,
    items: List<(Moment, Item)>,
    ticks: u64,
    out: &mut K,
) -> Result<Stop, OrMemory<Failed>>
    requires positive { 0 < ticks }
    requires bounded { ticks ≤ MOST_TICKS }
    ensures written { OnOk result
        (K.held out.new ≡ extended (K.held out.old) (summary_under items image ticks)) }
    ensures stop { IfOk result (λ stop. stop ≡ stop_under items image ticks) }
    ensures prefix { OnErr result
        (HoldsPrefix (K.held out.old) (K.held out.new) (summary_under items image ticks)) }
    ensures monotone { K.faults out.old ≤ K.faults out.new }
    ensures cause { IfErr result (OfFault (λ _. Rose (K.faults out.old) (K.faults out.new))) }
{
    let mut tally = Tally::new(alloc)?;
    let stop = tally_run(alloc, image, items, ticks, &mut tally)?;
    let text = tally.text(alloc)?;
    write_line(out, text.as_slice())?;
    Ok(stop)
}

/// Tallies the lines of the run of an image under the items of a script up to so many ticks.
fn tally_run(
    alloc: Global,
    image: Image,
    items: List<(Moment, Item)>,
    ticks: u64,
    tally: &mut Tally,
) -> Result<Stop, NoMemory>
    requires positive { 0 < ticks }
    requires bounded { ticks ≤ MOST_TICKS }
    requires empty { Tallies tally.old [] }
    ensures tallied { OnOk result (Tallies tally.new (lines_of_run image items ticks)) }
    ensures stop { IfOk result (λ stop. stop ≡ stop_under items image ticks) }
{
    let mut kernel = boot(alloc, image, items, ticks)?;
    let mut buffer = LineBuffer::new(alloc)?;
    loop {
        buffer.clear();
        match kernel.next(&mut buffer)? {
            Next::Going => tally.piece(buffer.bytes())?,
            Next::Ended => return Ok(kernel.stop()?),
        }
    }
}
