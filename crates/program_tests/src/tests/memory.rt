//! The words of a run, and files and an output in memory for it.
ghost use Rattle.std.specs.Prelude.{◌<◌};

use super::rows::Row;
use ann_base::NoMemory;
use outside_memory::{MemShelf, MemSink};
use std::alloc::Global;

/// A shelf with the source and the script of a row, that moves so many bytes at a time, and fails
/// at the listed calls.
pub(super) fn shelf_of(
    alloc: Global,
    row: &Row,
    most: usize,
    fails: &[u64],
) -> Result<MemShelf, NoMemory>
    requires { 0 < most }
{
    let mut files = Vec::new(alloc);
    files.push((
        Vec::from_slice(alloc, b"source")?,
        Vec::from_slice(alloc, row.source)?,
    ))?;
    files.push((
        Vec::from_slice(alloc, b"script")?,
        Vec::from_slice(alloc, row.script)?,
    ))?;
    Ok(MemShelf::new(files, most, fails.to_vec(alloc)?))
}

/// An output of a thousand bytes, that takes so many at a time, and fails at the listed calls.
pub(super) fn sink_of(alloc: Global, most: usize, fails: &[u64]) -> Result<MemSink, NoMemory>
    requires { 0 < most }
{
    MemSink::new(alloc, most, 1_000, fails.to_vec(alloc)?)
}

/// The words that ask for the run of a row.
pub(super) fn words_of(alloc: Global, row: &Row) -> Result<Vec<Vec<u8>>, NoMemory> {
    let mut words = Vec::new(alloc);
    for word in row.words {
        words.push(Vec::from_slice(alloc, word.as_bytes())?)?;
    }
    Ok(words)
}
