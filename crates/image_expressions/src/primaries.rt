//! Names of entities as values (ISO/IEC 8652:2012, 4.1).
ghost use Rattle.std.specs.Prelude.{option_copied, option_map};
ghost use Rattle.ada_image.specs.Made.{Made};
ghost use Rattle.ada_image.specs.ImageOfExpressions.{object_made, entity_made};

use crate::images::Imaged;
use crate::variables::variable_put;
use ada_image::{Lists, Within};
use ada_regions::{EntityKind, Subtype};
use ada_tree::Name;
use ann_base::NoMemory;
use image_layout::{subtype_is_thing, value_put};
use image_names::{declared_as, known, no_value};
use profile_image::{DeclNo, ExprNo, Expression, Value};

/// An object by its name, or a value.
#[tactic(auto, unfolding(ada_image::specs::ImageOfExpressions::object_made))]
fn object_made<E: Imaged>(
    lists: &mut Lists,
    within: &Within<'_, '_>,
    name: &Name,
    subtype: Option<Subtype>,
    declaration: DeclNo,
    index: Option<&E>,
) -> Result<ExprNo, NoMemory>
    ensures { Made
        (object_made within.now name.now subtype declaration
        (option_map (λ e. (E.image e).made within.now) (option_copied index.entry))) lists.old
        lists.new result }
{
    if subtype_is_thing(subtype) {
        value_put(lists, Expression::Thing(declaration))
    } else {
        variable_put(lists, within, name, index)
    }
}

/// The value of a name, given what its entity is.
#[tactic(auto, unfolding(ada_image::specs::ImageOfExpressions::entity_made))]
pub(crate) fn entity_made<E: Imaged>(
    lists: &mut Lists,
    within: &Within<'_, '_>,
    name: &Name,
    index: Option<&E>,
    kind: &EntityKind,
) -> Result<ExprNo, NoMemory>
    ensures { Made
        (entity_made within.now name.now
        (option_map (λ e. (E.image e).made within.now) (option_copied index.entry)) kind.now)
        lists.old lists.new result }
{
    match kind {
        EntityKind::Literal { position, .. } => known(lists, Value::Literal(*position)),
        EntityKind::Object {
            subtype,
            declaration,
            ..
        } => object_made(lists, within, name, *subtype, *declaration, index),
        EntityKind::Parameter {
            subtype,
            declaration,
            ..
        } => object_made(
            lists,
            within,
            name,
            *subtype,
            declared_as(*declaration),
            index,
        ),
        EntityKind::LoopParameter(_) => variable_put(lists, within, name, index),
        EntityKind::Component { .. } => variable_put(lists, within, name, index),
        _ => no_value(lists),
    }
}
