//! What is found grows at its end, and is read from its beginning.
ghost use Rattle.std.specs.Prelude.{◌≡◌, ◌≤◌, length, take, IfOk};

use ada_legality::{Finding, list_finding};
use ann_base::NoMemory;
use profile_image::ImageList;
use std::alloc::Global;
use world_tables::List;

/// What was found, as one piece of memory.
pub(crate) fn in_one_piece(
    alloc: Global,
    found: &List<Finding>,
) -> Result<ImageList<Finding>, NoMemory>
    ensures { IfOk result (λ all. all ≡ found.now) }
{
    let mut all = ImageList::new(alloc);
    for finding in found.iter() {
        list_finding(&mut all, *finding)?;
    }
    Ok(all)
}

/// What was found before a place.
pub(crate) fn before_place(found: &[Finding], place: usize) -> &[Finding]
    requires { place ≤ length found.now }
    ensures { result.now ≡ take place found.now }
{
    found.split_at(place).0
}
