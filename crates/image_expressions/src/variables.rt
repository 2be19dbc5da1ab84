//! Variables: an object, or an element of an array by its index (ISO/IEC 8652:2012, 4.1, 4.1.1).
ghost use Rattle.std.specs.Prelude.{option_copied, option_map};
ghost use Rattle.ada_image.specs.Made.{Made};
ghost use Rattle.ada_image.specs.ImageOfExpressions.{index_made, variable_made, variable_put};

use crate::images::Imaged;
use ada_image::{Lists, Within};
use ada_tree::Name;
use ann_base::NoMemory;
use image_layout::value_put;
use image_names::object_named;
use profile_image::{ExprNo, Expression, VariableName};

/// The index of an element, if there is one.
#[tactic(auto, unfolding(ada_image::specs::ImageOfExpressions::index_made))]
fn index_made<E: Imaged>(
    lists: &mut Lists,
    index: Option<&E>,
    within: &Within<'_, '_>,
) -> Result<Option<ExprNo>, NoMemory>
    ensures { Made
        (index_made (option_map (λ e. (E.image e).made within.now) (option_copied index.entry)))
        lists.old lists.new result }
{
    match index {
        None => Ok(None),
        Some(index) => Ok(Some(index.made(lists, within)?)),
    }
}

/// The variable that a name denotes, with the index of an element or without.
#[tactic(auto, unfolding(ada_image::specs::ImageOfExpressions::variable_made))]
pub fn variable_made<E: Imaged>(
    lists: &mut Lists,
    within: &Within<'_, '_>,
    name: &Name,
    index: Option<&E>,
) -> Result<VariableName, NoMemory>
    ensures { Made
        (variable_made within.now name.now
        (option_map (λ e. (E.image e).made within.now) (option_copied index.entry))) lists.old
        lists.new result }
{
    let index = index_made(lists, index, within)?;
    Ok(VariableName {
        object: object_named(within, name),
        index,
    })
}

/// The value of a variable.
#[tactic(auto, unfolding(ada_image::specs::ImageOfExpressions::variable_put))]
pub(crate) fn variable_put<E: Imaged>(
    lists: &mut Lists,
    within: &Within<'_, '_>,
    name: &Name,
    index: Option<&E>,
) -> Result<ExprNo, NoMemory>
    ensures { Made
        (variable_put within.now name.now
        (option_map (λ e. (E.image e).made within.now) (option_copied index.entry))) lists.old
        lists.new result }
{
    let variable = variable_made(lists, within, name, index)?;
    value_put(lists, Expression::Variable(variable))
}
