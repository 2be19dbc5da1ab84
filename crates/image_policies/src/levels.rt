//! Values as levels (ISO/IEC 8652:2012, D.1).
ghost use Rattle.std.specs.Prelude.{◌≡◌, IfOk};
ghost use Rattle.ada_image.specs.UnitsOfImage.{level_of};

use ann_base::{Level, NoMemory};
use profile_image::Value;

/// A value as a number, if it is a whole one that is not negative.
#[tactic(auto, unfolding(ada_image::specs::UnitsOfImage::level_of))]
pub fn level_of(value: Value) -> Option<u32>
    ensures { result ≡ level_of value }
{
    match value {
        Value::Whole(number) => u32::try_from(number).ok(),
        _ => None,
    }
}

/// A number as a priority. One that does not fit is taken for want of memory.
pub fn level(number: u32) -> Result<Level, NoMemory>
    ensures { IfOk result (λ level. level ≡ number) }
{
    match Level::try_from(number) {
        Ok(level) => Ok(level),
        Err(_) => Err(NoMemory),
    }
}
