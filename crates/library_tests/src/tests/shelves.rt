//! What several tests read from.
ghost use Rattle.std.specs.Prelude.{◌<◌};

use outside_memory::MemShelf;
use std::alloc::{AllocError, Global};

/// A shelf with one file, of this name and these bytes, that moves so many bytes at a time and
/// fails at the listed calls.
pub(super) fn shelf(
    alloc: Global,
    name: &[u8],
    bytes: &[u8],
    most: usize,
    fails: &[u64],
) -> Result<MemShelf, AllocError>
    requires { 0 < most }
{
    let mut files = Vec::new(alloc);
    files.push((
        Vec::from_slice(alloc, name)?,
        Vec::from_slice(alloc, bytes)?,
    ))?;
    Ok(MemShelf::new(files, most, fails.to_vec(alloc)?))
}
