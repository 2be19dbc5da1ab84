//! Scopes by the places of their constructs.
ghost use Rattle.std.specs.Prelude.{◌≡◌, IfOk};
ghost use Rattle.ada_image.specs.ImageOfStatements.{scope_at};

use ada_entities::same_place;
use ada_regions::Names;
use ann_base::{NoMemory, Place};

/// The number of the scope whose construct stands at a place; that of the environment where none
/// does.
#[tactic(auto, unfolding(ada_image::specs::ImageOfStatements::scope_at, ada_image::specs::ImageOfStatements::position_of_scope))]
pub fn scope_at(names: &Names<'_>, place: Place) -> Result<u32, NoMemory>
    ensures { IfOk result (λ number. number ≡ scope_at names.now place) }
{
    let mut number = 0u32;
    for scope in names.scopes.iter() {
        if same_place(scope.place, place) {
            return Ok(number);
        }
        number = number.checked_add(1).ok_or(NoMemory)?;
    }
    Ok(0)
}
