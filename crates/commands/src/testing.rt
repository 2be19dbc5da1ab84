//! Testing a table of duties.
ghost use Rattle.std.specs.Prelude.{◌≤◌, Some, Ok};
ghost use Rattle.commands.specs.Requests.{TableAsked};
ghost use Rattle.commands.specs.Outside.{shelf_of, sink_of};
ghost use Rattle.commands.specs.Performed.{Performs, TestsBytes, TestsDuties};

use crate::reporting::{write_demand, write_responses};
use crate::{Outcome, TableTest};
use ann_base::{OrMemory, Shelf, Sink};
use outside_bytes::read_file;
use sched_tests::{TABLE_BYTES, Table, cut_tables_are_read_alike, read_table};
use std::alloc::Global;

/// How many bytes of a table are read: one more than it may have, so that one that is too long is
/// seen to be.
const BYTES: usize = TABLE_BYTES + 1;

/// Reads the named table of duties, and tests it: what the test tells goes to `out`, line by line
/// (docs/SCHEDULING.md).
///
/// Where the file cannot be read or is no table, nothing is written. Where `out` fails or memory
/// runs out, at most a prefix of the lines was written. The outcome says which of these came.
pub fn serve_table<S: Shelf, K: Sink>(
    alloc: Global,
    table: &[u8],
    test: TableTest,
    shelf: &mut S,
    out: &mut K,
) -> Outcome
    ensures performed { Performs (Some (TableAsked table.now test))
        (shelf_of S.files S.faults shelf.old shelf.new)
        (sink_of K.held K.faults out.old out.new) result }
    ensures monotone_shelf { S.faults shelf.old ≤ S.faults shelf.new }
    ensures monotone_out { K.faults out.old ≤ K.faults out.new }
{
    // A table that was not read to its end is refused as the whole of it is.
    cut_tables_are_read_alike();
    match read_file(alloc, shelf, table, BYTES) {
        Ok(bytes) => test_bytes(alloc, test, &bytes, out),
        Err(OrMemory::Fault(_)) => Outcome::ReadFault,
        Err(OrMemory::Memory) => Outcome::NoMemory,
    }
}

/// Tests the bytes of a table.
fn test_bytes<K: Sink>(alloc: Global, test: TableTest, bytes: &[u8], out: &mut K) -> Outcome
    ensures tested { TestsBytes test bytes.now
        (sink_of K.held K.faults out.old out.new) result }
    ensures monotone_out { K.faults out.old ≤ K.faults out.new }
{
    match read_table(alloc, bytes) {
        Ok(table) => test_table(test, &table, out),
        Err(OrMemory::Fault(fault)) => Outcome::TableRefused(fault),
        Err(OrMemory::Memory) => Outcome::NoMemory,
    }
}

/// Tests a table.
fn test_table<K: Sink>(test: TableTest, table: &Table, out: &mut K) -> Outcome
    ensures tested { TestsDuties test table.now
        (sink_of K.held K.faults out.old out.new) result }
    ensures monotone_out { K.faults out.old ≤ K.faults out.new }
{
    match test {
        TableTest::ResponseTimes => match write_responses(out, table) {
            Ok(failed) => Outcome::Tested { failed },
            Err(_) => Outcome::WriteFault,
        },
        TableTest::Demand => match write_demand(out, table) {
            Ok(failed) => Outcome::Tested { failed },
            Err(_) => Outcome::WriteFault,
        },
    }
}
