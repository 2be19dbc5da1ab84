//! Subprograms of the image (ISO/IEC 8652:2012, 6.1).
ghost use Rattle.std.specs.Prelude.{◌≡◌, IfOk, map, option_map};
ghost use Rattle.ada_image.specs.Layout.{range_of_cells, subprogram_made, unit_no};

use ada_entities::copy;
use ada_regions::{Names, NumberedSubprogram, Subtype};
use ann_base::NoMemory;
use image_layout::{formals_made, range_of_cells};
use profile_image::{Constraint, ImageList, ProtectedUnitNo, ScopeNo, Subprogram};
use std::alloc::Global;

fn range_of_result(names: &Names<'_>, result_of: Option<Option<Subtype>>) -> Option<Constraint>
    ensures { result ≡ option_map (range_of_cells names.now) result_of }
{
    let subtype = result_of?;
    Some(range_of_cells(names, subtype))
}

fn unit_of(unit: Option<u32>) -> Option<ProtectedUnitNo>
    ensures { result ≡ option_map unit_no unit }
{
    let unit = unit?;
    Some(ProtectedUnitNo(unit))
}

/// A subprogram of the image (6.1).
#[tactic(auto, unfolding(ada_image::specs::Layout::subprogram_made))]
fn subprogram_made(
    alloc: Global,
    names: &Names<'_>,
    subprogram: &NumberedSubprogram<'_>,
) -> Result<Subprogram, NoMemory>
    ensures { IfOk result (λ made. made ≡ subprogram_made names.now subprogram.now) }
{
    Ok(Subprogram {
        name: copy(alloc, subprogram.name.as_slice())?,
        scope: ScopeNo(subprogram.scope),
        formals: formals_made(alloc, names, subprogram.formals.as_slice())?,
        result: range_of_result(names, subprogram.result),
        unit: unit_of(subprogram.unit),
    })
}

/// All subprograms of the image.
pub fn subprograms_made(alloc: Global, names: &Names<'_>) -> Result<ImageList<Subprogram>, NoMemory>
    ensures { IfOk result (λ made. made ≡ map (subprogram_made names.now) names.now.subprograms) }
{
    let mut made = ImageList::new(alloc);
    for subprogram in names.subprograms.iter() {
        made.push(subprogram_made(alloc, names, subprogram)?)?;
    }
    Ok(made)
}
