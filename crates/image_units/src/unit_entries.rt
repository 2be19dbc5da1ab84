//! The entries of a unit, in the order of the text (ISO/IEC 8652:2012, 9.5.2).
ghost use Rattle.std.specs.Prelude.{◌≡◌, take, IfOk};
ghost use Rattle.ada_image.specs.UnitsOfImage.{entries_from, entries_of, place_among};

use ada_regions::Names;
use ann_base::NoMemory;
use image_layout::{added, same_entry_unit};
use profile_image::{EntryNo, EntryUnit, ImageList};
use std::alloc::Global;

/// The numbers of the entries of a unit.
#[tactic(auto, unfolding(ada_image::specs::UnitsOfImage::entries_of, ada_image::specs::UnitsOfImage::entries_from))]
pub(crate) fn entries_of(
    alloc: Global,
    names: &Names<'_>,
    unit: EntryUnit,
) -> Result<ImageList<EntryNo>, NoMemory>
    ensures { IfOk result (λ entries. entries ≡ entries_of names.now unit) }
{
    let mut entries = ImageList::new(alloc);
    let mut number = 0u32;
    for entry in names.entries.iter() {
        let next = added(number, 1)?;
        if same_entry_unit(entry.unit, unit) {
            entries.push(EntryNo(number))?;
        }
        number = next;
    }
    Ok(entries)
}

/// How many of the first entries of the text are of a unit.
#[tactic(auto, unfolding(ada_image::specs::UnitsOfImage::place_among), using(crate::proofs::Taken::take_there, crate::proofs::Taken::take_nothing))]
pub(crate) fn place_among(
    names: &Names<'_>,
    before: usize,
    unit: EntryUnit,
) -> Result<u32, NoMemory>
    ensures { IfOk result (λ place. place ≡ place_among unit (take before names.now.entries)) }
{
    let mut place = 0u32;
    let mut left = before;
    for other in names.entries.iter() {
        if left == 0 {
            return Ok(place);
        }
        left -= 1;
        if same_entry_unit(other.unit, unit) {
            place = added(place, 1)?;
        }
    }
    Ok(place)
}
