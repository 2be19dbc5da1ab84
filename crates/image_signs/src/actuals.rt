//! The signs in the actuals of calls (ISO/IEC 8652:2012, 6.4, 9.5.3).
ghost use Rattle.std.specs.Prelude.{◌≡◌, IfOk};
ghost use Rattle.ada_image.specs.CallStatements.{signs_in_actuals};

use crate::forms::signs_in;
use ada_image::Within;
use ada_tree::{Argument, Expression};
use ann_base::NoMemory;
use image_layout::added;

/// The operator signs in the actuals of a call.
#[tactic(auto, unfolding(ada_image::specs::CallStatements::signs_in_actuals))]
pub fn signs_in_actuals(
    within: &Within<'_, '_>,
    arguments: &[Argument<Expression>],
) -> Result<u32, NoMemory>
    ensures { IfOk result (λ signs. signs ≡ signs_in_actuals within.now arguments.now) }
{
    let mut signs = 0u32;
    for argument in arguments {
        signs = added(signs, signs_in(within, &argument.value)?)?;
    }
    Ok(signs)
}
