//! Initial values (ISO/IEC 8652:2012, 3.3.1).
ghost use Rattle.std.specs.Prelude.{◌≡◌, is_some, option_copied};
ghost use Rattle.ada_image.specs.ImageOfCalls.{function_call};
ghost use Rattle.ada_image.specs.ImageOfUnits.{initial_made, initial_of_call};
ghost use Rattle.ada_image.specs.ImageOfUnits.{scalar_initial, scalar_or_array};
ghost use Rattle.ada_image.specs.Made.{Made};

use ada_image::{Lists, Within};
use ada_regions::Subtype;
use ada_tree::Expression;
use ann_base::NoMemory;
use image_actuals::function_call;
use image_expressions::{expression_made, named};
use image_layout::subtype_is_array;
use image_statements::array_name;
use profile_image::Initial;

/// The value of a scalar.
#[tactic(auto, unfolding(ada_image::specs::ImageOfUnits::scalar_initial))]
fn scalar_initial(
    lists: &mut Lists,
    within: &Within<'_, '_>,
    expression: &Expression,
) -> Result<Initial, NoMemory>
    ensures { Made (scalar_initial within.now expression.now) lists.old lists.new result }
{
    let value = expression_made(lists, expression, within)?;
    Ok(Initial::Scalar(value))
}

/// The value of a scalar, or an array that is copied.
#[tactic(auto, unfolding(ada_image::specs::ImageOfUnits::scalar_or_array))]
fn scalar_or_array(
    lists: &mut Lists,
    within: &Within<'_, '_>,
    subtype: Option<Subtype>,
    expression: &Expression,
) -> Result<Initial, NoMemory>
    ensures { Made (scalar_or_array within.now subtype expression.now) lists.old lists.new result }
{
    if subtype_is_array(subtype) {
        Ok(Initial::Array(array_name(within, named(expression))))
    } else {
        scalar_initial(lists, within, expression)
    }
}

/// Whether a value is the call of a declared function that stands alone.
fn is_call(within: &Within<'_, '_>, expression: &Expression) -> bool
    ensures { result ≡ is_some (function_call within.now expression.now) }
{
    match function_call(within, expression) {
        None => false,
        Some(_) => true,
    }
}

/// None is given here where a call gives it.
#[tactic(auto, unfolding(ada_image::specs::ImageOfUnits::initial_of_call))]
fn initial_of_call(
    lists: &mut Lists,
    within: &Within<'_, '_>,
    subtype: Option<Subtype>,
    expression: &Expression,
    is_call: bool,
) -> Result<Initial, NoMemory>
    ensures { Made (initial_of_call within.now subtype expression.now is_call) lists.old lists.new
        result }
{
    if is_call {
        Ok(Initial::Default)
    } else {
        scalar_or_array(lists, within, subtype, expression)
    }
}

/// The initial value of a declaration, if it has one.
#[tactic(auto, unfolding(ada_image::specs::ImageOfUnits::initial_made))]
pub(crate) fn initial_made(
    lists: &mut Lists,
    within: &Within<'_, '_>,
    subtype: Option<Subtype>,
    expression: Option<&Expression>,
) -> Result<Initial, NoMemory>
    ensures { Made (initial_made within.now subtype (option_copied expression.entry)) lists.old
        lists.new result }
{
    match expression {
        None => Ok(Initial::Default),
        Some(expression) => {
            let is_call = is_call(within, expression);
            initial_of_call(lists, within, subtype, expression, is_call)
        }
    }
}
