//! Controlled types (ISO/IEC 8652:2012, 7.6).
ghost use Rattle.std.specs.Prelude.{◌≡◌, IfOk};
ghost use Rattle.ada_image.specs.UnitsOfImage.{controlled_type_made, controlled_types_made};

use crate::components::component_numbers;
use crate::operations::{overriding, unless_limited};
use ada_regions::{ComponentOwner, Names, NumberedControlled};
use ann_base::NoMemory;
use image_layout::added;
use profile_image::{ControlledNo, ControlledType, ImageList};
use std::alloc::Global;

/// A controlled type with the operations that it overrides.
#[tactic(auto, unfolding(ada_image::specs::UnitsOfImage::controlled_type_made))]
fn controlled_type_made(
    alloc: Global,
    names: &Names<'_>,
    number: u32,
    controlled: NumberedControlled,
) -> Result<ControlledType, NoMemory>
    ensures { IfOk result (λ made. made ≡ controlled_type_made names.now number controlled) }
{
    let owner = ComponentOwner::Controlled(ControlledNo(number));
    let components = component_numbers(alloc, names, owner)?;
    let initialize = overriding(names, number, controlled, b"initialize")?;
    let finalize = overriding(names, number, controlled, b"finalize")?;
    let adjust = overriding(names, number, controlled, b"adjust")?;
    Ok(ControlledType {
        components,
        initialize,
        finalize,
        adjust: unless_limited(controlled.is_limited, adjust),
    })
}

/// The controlled types, in the order of the text.
#[tactic(auto, unfolding(ada_image::specs::UnitsOfImage::controlled_types_made))]
pub fn controlled_types_made(
    alloc: Global,
    names: &Names<'_>,
) -> Result<ImageList<ControlledType>, NoMemory>
    ensures { IfOk result
        (λ made. made ≡ controlled_types_made names.now 0 names.now.controlled_types) }
{
    let mut made = ImageList::new(alloc);
    let mut number = 0u32;
    for controlled in names.controlled_types.iter() {
        made.push(controlled_type_made(alloc, names, number, *controlled)?)?;
        number = added(number, 1)?;
    }
    Ok(made)
}
