//! Attributes of names (ISO/IEC 8652:2012, 4.1.4), and values that the text gives.
ghost use Rattle.std.specs.Prelude.{◌≡◌, option_copied, unwrap_or, pos};
ghost use Rattle.profile_image.specs.declared.values.Value.TheVariants as value;
ghost use Rattle.ada_regions.specs.Statics.{attribute_value};
ghost use Rattle.ada_image.specs.Made.{Made};
ghost use Rattle.ada_image.specs.ImageOfExpressions.{known, no_value, count_of};
ghost use Rattle.ada_image.specs.ImageOfExpressions.{count_made, attribute_made};

use crate::names::{kind_named, thing_named};
use ada_image::{Lists, Within};
use ada_regions::{EntityKind, Names};
use ada_subtypes::attribute_value;
use ada_tree::{Attribute, Name};
use ann_base::NoMemory;
use image_layout::value_put;
use profile_image::{ExprNo, Expression, Value};

/// A value that the text gives.
pub fn known(lists: &mut Lists, value: Value) -> Result<ExprNo, NoMemory>
    ensures { Made (known value) lists.old lists.new result }
{
    value_put(lists, Expression::Known(value))
}

/// What no accepted source has there.
pub fn no_value(lists: &mut Lists) -> Result<ExprNo, NoMemory>
    ensures { Made no_value lists.old lists.new result }
{
    known(lists, Value::Whole(0))
}

/// The static value of First or Last (3.5).
fn end_value(names: &Names<'_>, name: &Name, attribute: Attribute) -> Value
    ensures { result
        ≡ unwrap_or (attribute_value names.now name.now attribute) (value.Whole (pos 0)) }
{
    attribute_value(names, name, attribute).unwrap_or(Value::Whole(0))
}

/// Count of an entry (9.9).
#[tactic(auto, unfolding(ada_image::specs::ImageOfExpressions::count_of))]
fn count_of(lists: &mut Lists, kind: &EntityKind) -> Result<ExprNo, NoMemory>
    ensures { Made (count_of kind.now) lists.old lists.new result }
{
    match kind {
        EntityKind::Entry { number, .. } => value_put(lists, Expression::Count(*number)),
        _ => no_value(lists),
    }
}

/// Count of what a name denotes.
#[tactic(auto, unfolding(ada_image::specs::ImageOfExpressions::count_made))]
fn count_made(lists: &mut Lists, kind: Option<&EntityKind>) -> Result<ExprNo, NoMemory>
    ensures { Made (count_made (option_copied kind.entry)) lists.old lists.new result }
{
    match kind {
        None => no_value(lists),
        Some(kind) => count_of(lists, kind),
    }
}

/// An attribute of a name (4.1.4).
#[tactic(auto, unfolding(ada_image::specs::ImageOfExpressions::attribute_made))]
pub fn attribute_made(
    lists: &mut Lists,
    within: &Within<'_, '_>,
    name: &Name,
    attribute: Attribute,
) -> Result<ExprNo, NoMemory>
    ensures { Made (attribute_made within.now name.now attribute) lists.old lists.new result }
{
    match attribute {
        Attribute::First => known(lists, end_value(within.names.get(), name, Attribute::First)),
        Attribute::Last => known(lists, end_value(within.names.get(), name, Attribute::Last)),
        Attribute::Image => no_value(lists),
        Attribute::Count => count_made(lists, kind_named(within, name)),
        Attribute::Identity => value_put(lists, Expression::Thing(thing_named(within, name))),
        Attribute::Access => no_value(lists),
    }
}
