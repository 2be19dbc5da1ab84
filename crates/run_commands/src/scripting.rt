//! Running a source under a script.
ghost use Rattle.std.specs.Prelude.{◌≤◌, Some};
ghost use Rattle.commands.specs.declared.requests.Work.TheVariants as work;
ghost use Rattle.commands.specs.Requests.{ScriptAsked, IsTicks};
ghost use Rattle.commands.specs.Outside.{shelf_of, sink_of};
ghost use Rattle.commands.specs.Performed.{Performs, ReadsFile, ReadsScript};
ghost use Rattle.commands.specs.Performed.{ServesImage, ServesScript, ServesUnder};

use crate::performing::{SOURCE_READ, without_image};
use ada_front::accept;
use ada_verdicts::long_sources_are_refused;
use ann_base::{Moment, OrMemory, Shelf, Sink};
use commands::{NoItems, Outcome};
use event_script::{SCRIPT_BYTES, cut_scripts_are_read_alike, read_script};
use outside_bytes::read_file;
use profile_image::{Image, Item};
use run_writing::run_under;
use std::alloc::Global;
use world_tables::List;

/// How many bytes of a script are read: one more than it may have, so that one that is too long is
/// seen to be.
const SCRIPT_READ: usize = SCRIPT_BYTES + 1;

/// Reads the named source, and then the named script, and runs the one under the other.
pub fn serve_script<S: Shelf, K: Sink>(
    alloc: Global,
    source: &[u8],
    script: &[u8],
    ticks: u64,
    shelf: &mut S,
    out: &mut K,
) -> Outcome
    requires { IsTicks ticks }
    ensures performed { Performs (Some (ScriptAsked source.now script.now ticks))
        (shelf_of S.files S.faults shelf.old shelf.new)
        (sink_of K.held K.faults out.old out.new) result }
    ensures monotone_shelf { S.faults shelf.old ≤ S.faults shelf.new }
    ensures monotone_out { K.faults out.old ≤ K.faults out.new }
{
    // A source that was not read to its end is refused as the whole of it is.
    long_sources_are_refused();
    match read_file(alloc, shelf, source, SOURCE_READ) {
        Ok(bytes) => serve_under(alloc, &bytes, script, ticks, shelf, out),
        Err(OrMemory::Fault(_)) => Outcome::ReadFault,
        Err(OrMemory::Memory) => Outcome::NoMemory,
    }
}

/// Runs the bytes of a source under the named script.
fn serve_under<S: Shelf, K: Sink>(
    alloc: Global,
    bytes: &[u8],
    script: &[u8],
    ticks: u64,
    shelf: &mut S,
    out: &mut K,
) -> Outcome
    requires { IsTicks ticks }
    ensures served { ServesUnder script.now ticks bytes.now
        (shelf_of S.files S.faults shelf.old shelf.new)
        (sink_of K.held K.faults out.old out.new) result }
    ensures monotone_shelf { S.faults shelf.old ≤ S.faults shelf.new }
    ensures monotone_out { K.faults out.old ≤ K.faults out.new }
{
    match accept(alloc, bytes) {
        Ok(image) => serve_image_under(alloc, image, script, ticks, shelf, out),
        Err(refused) => without_image(refused),
    }
}

/// Runs an image under the named script.
fn serve_image_under<S: Shelf, K: Sink>(
    alloc: Global,
    image: Image,
    script: &[u8],
    ticks: u64,
    shelf: &mut S,
    out: &mut K,
) -> Outcome
    requires { IsTicks ticks }
    ensures served { ServesScript script.now ticks image
        (shelf_of S.files S.faults shelf.old shelf.new)
        (sink_of K.held K.faults out.old out.new) result }
    ensures monotone_shelf { S.faults shelf.old ≤ S.faults shelf.new }
    ensures monotone_out { K.faults out.old ≤ K.faults out.new }
{
    match read_items(alloc, script, shelf) {
        Ok(items) => serve_items(alloc, image, items, ticks, out),
        Err(missing) => missing.outcome(),
    }
}

/// The items of the named script.
fn read_items<S: Shelf>(
    alloc: Global,
    script: &[u8],
    shelf: &mut S,
) -> Result<List<(Moment, Item)>, NoItems>
    ensures read { ReadsFile (shelf_of S.files S.faults shelf.old shelf.new) script.now result }
    ensures monotone { S.faults shelf.old ≤ S.faults shelf.new }
{
    // A script that was not read to its end is refused as the whole of it is.
    cut_scripts_are_read_alike();
    match read_file(alloc, shelf, script, SCRIPT_READ) {
        Ok(text) => items_in(alloc, &text),
        Err(OrMemory::Fault(_)) => Err(NoItems::Unread),
        Err(OrMemory::Memory) => Err(NoItems::NoMemory),
    }
}

/// The items of the bytes of a script.
fn items_in(alloc: Global, text: &[u8]) -> Result<List<(Moment, Item)>, NoItems>
    ensures read { ReadsScript text.now result }
{
    match read_script(alloc, text) {
        Ok(items) => Ok(items),
        Err(OrMemory::Fault(fault)) => Err(NoItems::Refused(fault)),
        Err(OrMemory::Memory) => Err(NoItems::NoMemory),
    }
}

/// Runs an image under the items of a script.
fn serve_items<K: Sink>(
    alloc: Global,
    image: Image,
    items: List<(Moment, Item)>,
    ticks: u64,
    out: &mut K,
) -> Outcome
    requires { IsTicks ticks }
    ensures served { ServesImage items (work.Run ticks) image
        (sink_of K.held K.faults out.old out.new) result }
    ensures monotone_out { K.faults out.old ≤ K.faults out.new }
{
    match run_under(alloc, image, items, ticks, out) {
        Ok(stop) => Outcome::Ended(stop),
        Err(OrMemory::Fault(_)) => Outcome::WriteFault,
        Err(OrMemory::Memory) => Outcome::NoMemory,
    }
}
