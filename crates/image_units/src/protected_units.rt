//! Protected units (ISO/IEC 8652:2012, 9.4, C.3.1, D.3).
ghost use Rattle.std.specs.Prelude.{◌≡◌, IfOk};
ghost use Rattle.ada_image.specs.UnitsOfImage.{default_ceiling, protected_unit_made};
ghost use Rattle.ada_image.specs.UnitsOfImage.{protected_units_made};

use crate::aspects::priority_or;
use crate::attachments::attachments_of;
use crate::components::component_numbers;
use crate::unit_entries::entries_of;
use ada_regions::{ComponentOwner, Names, NumberedProtected};
use ann_base::{Level, NoMemory};
use image_layout::added;
use profile_image::{Attachment, EntryUnit, ImageList, ProtectedUnit, ProtectedUnitNo};
use std::alloc::Global;

/// The ceiling without an aspect: the last Priority, and the one above where a handler is attached
/// (this profile's).
#[tactic(auto, unfolding(ada_image::specs::UnitsOfImage::default_ceiling))]
fn default_ceiling(last: Level, attached: &[Attachment]) -> Result<Level, NoMemory>
    ensures { IfOk result (λ ceiling. ceiling ≡ default_ceiling last attached.now) }
{
    match attached {
        [] => Ok(last),
        [_, ..] => last.checked_add(1).ok_or(NoMemory),
    }
}

/// A protected unit.
#[tactic(auto, unfolding(ada_image::specs::UnitsOfImage::protected_unit_made))]
fn protected_unit_made(
    alloc: Global,
    names: &Names<'_>,
    number: u32,
    unit: &NumberedProtected<'_>,
) -> Result<ProtectedUnit, NoMemory>
    ensures { IfOk result (λ made. made ≡ protected_unit_made names.now number unit.now) }
{
    let attached = attachments_of(alloc, names, number)?;
    let default = default_ceiling(names.last_priority, attached.as_slice())?;
    let no = ProtectedUnitNo(number);
    Ok(ProtectedUnit {
        ceiling: priority_or(names, unit.aspects.as_slice(), default)?,
        entries: entries_of(alloc, names, EntryUnit::Protected(no))?,
        components: component_numbers(alloc, names, ComponentOwner::Protected(no))?,
        attached,
    })
}

/// The protected units, in the order of the text.
#[tactic(auto, unfolding(ada_image::specs::UnitsOfImage::protected_units_made))]
pub fn protected_units_made(
    alloc: Global,
    names: &Names<'_>,
) -> Result<ImageList<ProtectedUnit>, NoMemory>
    ensures { IfOk result
        (λ made. made ≡ protected_units_made names.now 0 names.now.protected_units) }
{
    let mut made = ImageList::new(alloc);
    let mut number = 0u32;
    for unit in names.protected_units.iter() {
        made.push(protected_unit_made(alloc, names, number, unit)?)?;
        number = added(number, 1)?;
    }
    Ok(made)
}
