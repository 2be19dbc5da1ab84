//! What is done for the words.
ghost use Rattle.std.specs.Prelude.{◌≡◌, ◌≤◌, [], codes, Some, OnOk, OnErr};
ghost use Rattle.ann_base.specs.Outside.{Rose, extended};
ghost use Rattle.outside_bytes.specs.Pieces.{HoldsPrefix};
ghost use Rattle.commands.specs.declared.requests.TheConstants.{DEFAULT_TICKS};
ghost use Rattle.commands.specs.declared.requests.Work.TheVariants as work;
ghost use Rattle.commands.specs.Requests.{SourceAsked, LoadAsked, seen, HasTicks, IsWork, IsLoad};
ghost use Rattle.commands.specs.Asked.{asked_of};
ghost use Rattle.commands.specs.Outside.{ShelfChange, shelf_of, sink_of};
ghost use Rattle.commands.specs.Performed.{Performs, ServesBytes, ServesImage, without_image};

use crate::scripting::serve_script;
use ada_front::accept;
use ada_lex::MAX_SOURCE;
use ada_verdicts::{Refusal, long_sources_are_refused};
use ann_base::{Failed, OrMemory, Shelf, Sink};
use commands::{DEFAULT_TICKS, Outcome, Request, Work, asked, serve_table, serve_trace};
use load_runs::load_source;
use outside_bytes::{read_file, write_all};
use profile_image::Image;
use run_writing::{run, summarize};
use std::alloc::Global;

/// How many bytes of a source are read: one more than it may have, so that one that is too long is
/// seen to be.
pub const SOURCE_READ: usize = MAX_SOURCE + 1;

/// Does what the words ask for with the files that they name, and tells how it ended. What was
/// asked for goes to `out` (README.md has the commands).
///
/// Where words, a source, a script, a table or a trace are refused, or a file cannot be read,
/// nothing is written. Where `out` fails or memory runs out, at most a prefix was written. The
/// outcome says which of these came.
pub fn perform<S: Shelf, K: Sink>(
    alloc: Global,
    words: &[Vec<u8>],
    shelf: &mut S,
    out: &mut K,
) -> Outcome
    ensures performed { Performs (asked_of words.now)
        (shelf_of S.files S.faults shelf.old shelf.new)
        (sink_of K.held K.faults out.old out.new) result }
    ensures monotone_shelf { S.faults shelf.old ≤ S.faults shelf.new }
    ensures monotone_out { K.faults out.old ≤ K.faults out.new }
{
    match asked(words) {
        None => Outcome::WordsRefused,
        Some(request) => serve(alloc, request, shelf, out),
    }
}

/// Serves a request with the file that it names.
fn serve<S: Shelf, K: Sink>(alloc: Global, request: Request, shelf: &mut S, out: &mut K) -> Outcome
    requires { HasTicks (seen request) }
    ensures performed { Performs (Some (seen request.entry))
        (shelf_of S.files S.faults shelf.old shelf.new)
        (sink_of K.held K.faults out.old out.new) result }
    ensures monotone_shelf { S.faults shelf.old ≤ S.faults shelf.new }
    ensures monotone_out { K.faults out.old ≤ K.faults out.new }
{
    match request {
        Request::Source { source, work } => serve_source(alloc, source, work, shelf, out),
        Request::Script {
            source,
            script,
            ticks,
        } => serve_script(alloc, source, script, ticks, shelf, out),
        Request::Load { tasks } => serve_load(alloc, tasks, out),
        Request::Table { table, test } => serve_table(alloc, table, test, shelf, out),
        Request::Trace { trace, work } => serve_trace(alloc, trace, work, shelf, out),
    }
}

/// Makes the source of a load, and tells the summary of its run. No shelf is asked.
fn serve_load<K: Sink>(alloc: Global, tasks: u32, out: &mut K) -> Outcome
    requires { IsLoad tasks }
    ensures performed { (shelf : ShelfChange) → Performs (Some (LoadAsked tasks)) shelf
        (sink_of K.held K.faults out.old out.new) result }
    ensures monotone_out { K.faults out.old ≤ K.faults out.new }
{
    match load_source(alloc, tasks) {
        Ok(text) => {
            let work = Work::Summary {
                ticks: DEFAULT_TICKS,
            };
            serve_bytes(alloc, work, &text, out)
        }
        Err(_) => Outcome::NoMemory,
    }
}

/// Reads the named source, and does with it what is asked.
fn serve_source<S: Shelf, K: Sink>(
    alloc: Global,
    source: &[u8],
    work: Work,
    shelf: &mut S,
    out: &mut K,
) -> Outcome
    requires { IsWork work }
    ensures performed { Performs (Some (SourceAsked source.now work))
        (shelf_of S.files S.faults shelf.old shelf.new)
        (sink_of K.held K.faults out.old out.new) result }
    ensures monotone_shelf { S.faults shelf.old ≤ S.faults shelf.new }
    ensures monotone_out { K.faults out.old ≤ K.faults out.new }
{
    // A source that was not read to its end is refused as the whole of it is.
    long_sources_are_refused();
    match read_file(alloc, shelf, source, SOURCE_READ) {
        Ok(bytes) => serve_bytes(alloc, work, &bytes, out),
        Err(OrMemory::Fault(_)) => Outcome::ReadFault,
        Err(OrMemory::Memory) => Outcome::NoMemory,
    }
}

/// Does what is asked with the bytes of a source.
fn serve_bytes<K: Sink>(alloc: Global, work: Work, bytes: &[u8], out: &mut K) -> Outcome
    requires { IsWork work }
    ensures served { ServesBytes work bytes.now
        (sink_of K.held K.faults out.old out.new) result }
    ensures monotone_out { K.faults out.old ≤ K.faults out.new }
{
    match accept(alloc, bytes) {
        Ok(image) => serve_image(alloc, work, image, out),
        Err(refused) => without_image(refused),
    }
}

/// The outcome of a source without an image.
pub fn without_image(refused: OrMemory<Refusal>) -> Outcome
    ensures { result ≡ without_image refused }
{
    match refused {
        OrMemory::Fault(refusal) => Outcome::SourceRefused(refusal),
        OrMemory::Memory => Outcome::NoMemory,
    }
}

/// Does what is asked with the image of a source.
fn serve_image<K: Sink>(alloc: Global, work: Work, image: Image, out: &mut K) -> Outcome
    requires { IsWork work }
    ensures served { ServesImage [] work image
        (sink_of K.held K.faults out.old out.new) result }
    ensures monotone_out { K.faults out.old ≤ K.faults out.new }
{
    match work {
        Work::Run { ticks } => match run(alloc, image, ticks, out) {
            Ok(stop) => Outcome::Ended(stop),
            Err(OrMemory::Fault(_)) => Outcome::WriteFault,
            Err(OrMemory::Memory) => Outcome::NoMemory,
        },
        Work::Summary { ticks } => match summarize(alloc, image, ticks, out) {
            Ok(stop) => Outcome::Ended(stop),
            Err(OrMemory::Fault(_)) => Outcome::WriteFault,
            Err(OrMemory::Memory) => Outcome::NoMemory,
        },
        Work::Accept => match accepted(out) {
            Ok(()) => Outcome::Accepted,
            Err(_) => Outcome::WriteFault,
        },
    }
}

/// Writes that a source is accepted. After a failure a prefix of it was written.
fn accepted<K: Sink>(out: &mut K) -> Result<(), Failed>
    ensures written { OnOk result
        (K.held out.new ≡ extended (K.held out.old) (codes "accepted\n")) }
    ensures prefix { OnErr result
        (HoldsPrefix (K.held out.old) (K.held out.new) (codes "accepted\n")) }
    ensures monotone { K.faults out.old ≤ K.faults out.new }
    ensures cause { OnErr result (Rose (K.faults out.old) (K.faults out.new)) }
{
    write_all(out, b"accepted\n")
}
