//! Where the cells of a declaration stand: behind those before it in its scope, or among the
//! components of its owner.
ghost use Rattle.std.specs.Prelude.{◌≡◌, IfOk, take};
ghost use Rattle.ada_image.specs.Layout.{place_behind, stands_beside};

use ada_regions::{Names, NumberedDeclaration, Sort};
use ann_base::NoMemory;
use image_layout::{added, cells_of_declaration, is_component_of, is_in_scope};

/// Whether the cells of another declaration stand beside those of a declaration.
#[tactic(auto, unfolding(ada_image::specs::Layout::stands_beside))]
fn stands_beside(declaration: &NumberedDeclaration<'_>, other: &NumberedDeclaration<'_>) -> bool
    ensures { result ≡ stands_beside declaration.now declaration.now.sort other.now }
{
    match declaration.sort {
        Sort::Object => is_in_scope(declaration.scope, other),
        Sort::Component(owner) => is_component_of(owner, other.sort),
        Sort::Parameter => is_in_scope(declaration.scope, other),
        Sort::LoopParameter => is_in_scope(declaration.scope, other),
        Sort::Exception => false,
    }
}

/// The place of the first cell of a declaration, where so many stand before it in the table.
#[tactic(auto, unfolding(ada_image::specs::Layout::place_behind), using(crate::proofs::Taken::take_there, crate::proofs::Taken::take_nothing))]
pub fn place_behind(
    names: &Names<'_>,
    before: usize,
    declaration: &NumberedDeclaration<'_>,
) -> Result<u32, NoMemory>
    ensures { IfOk result
        (λ place.
        place ≡ place_behind names.now (take before names.now.declarations) declaration.now) }
{
    let mut place = 0;
    let mut left = before;
    for other in names.declarations.iter() {
        if left == 0 {
            return Ok(place);
        }
        left -= 1;
        if stands_beside(declaration, other) {
            place = added(place, cells_of_declaration(names, other)?)?;
        }
    }
    Ok(place)
}
