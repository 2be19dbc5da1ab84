//! The components of protected units and controlled types (ISO/IEC 8652:2012, 3.8, 9.4).
ghost use Rattle.std.specs.Prelude.{◌≡◌, IfOk};
ghost use Rattle.ada_image.specs.UnitsOfImage.{components_from, component_numbers};

use ada_regions::{ComponentOwner, Names};
use ann_base::NoMemory;
use image_layout::{added, is_component_of};
use profile_image::{DeclNo, ImageList};
use std::alloc::Global;

/// The numbers of the components of an owner, in the order of the text.
#[tactic(auto, unfolding(ada_image::specs::UnitsOfImage::component_numbers, ada_image::specs::UnitsOfImage::components_from))]
pub(crate) fn component_numbers(
    alloc: Global,
    names: &Names<'_>,
    owner: ComponentOwner,
) -> Result<ImageList<DeclNo>, NoMemory>
    ensures { IfOk result (λ components. components ≡ component_numbers names.now owner) }
{
    let mut components = ImageList::new(alloc);
    let mut number = 0u32;
    for declaration in names.declarations.iter() {
        let next = added(number, 1)?;
        if is_component_of(owner, declaration.sort) {
            components.push(DeclNo(number))?;
        }
        number = next;
    }
    Ok(components)
}
