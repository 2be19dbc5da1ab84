//! Aspects (ISO/IEC 8652:2012, 13.1.1), and the levels that they name (D.1).
ghost use Rattle.std.specs.Prelude.{◌≡◌, option_copied, unwrap_or, IfOk};
ghost use Rattle.ada_image.specs.UnitsOfImage.{aspect_value, static_aspect, priority_of};

use ada_regions::Names;
use ada_subtypes::static_value;
use ada_tree::{Aspect, Expression};
use ann_base::{Level, NoMemory};
use image_policies::{level, level_of};

/// The value of the first aspect with this name, where it has one.
#[tactic(auto, unfolding(ada_image::specs::UnitsOfImage::aspect_value))]
pub(crate) fn aspect_value<'t>(name: &[u8], aspects: &'t [Aspect]) -> Option<&'t Expression>
    ensures { option_copied result ≡ aspect_value name.now aspects.now }
{
    for aspect in aspects {
        if aspect.name.text.as_slice() == name {
            return aspect.value.as_ref();
        }
    }
    None
}

/// The number that an aspect names.
#[tactic(auto, unfolding(ada_image::specs::UnitsOfImage::static_aspect))]
pub(crate) fn static_aspect(names: &Names<'_>, name: &[u8], aspects: &[Aspect]) -> Option<u32>
    ensures { result ≡ static_aspect names.now name.now aspects.now }
{
    let value = aspect_value(name, aspects)?;
    let value = static_value(names, value)?;
    level_of(value)
}

/// Priority or Interrupt_Priority (D.1).
#[tactic(auto, unfolding(ada_image::specs::UnitsOfImage::priority_of))]
fn priority_of(names: &Names<'_>, aspects: &[Aspect]) -> Option<u32>
    ensures { result ≡ priority_of names.now aspects.now }
{
    match static_aspect(names, b"priority", aspects) {
        Some(priority) => Some(priority),
        None => static_aspect(names, b"interrupt_priority", aspects),
    }
}

/// The priority that aspects give, if they give one. One that is no level is answered as want of
/// memory.
pub(crate) fn priority_given(
    names: &Names<'_>,
    aspects: &[Aspect],
) -> Result<Option<Level>, NoMemory>
    ensures { IfOk result (λ priority. priority ≡ priority_of names.now aspects.now) }
{
    match priority_of(names, aspects) {
        None => Ok(None),
        Some(priority) => Ok(Some(level(priority)?)),
    }
}

/// The priority that aspects give, or this one (D.1). One that is no level is answered as want of
/// memory.
pub fn priority_or(names: &Names<'_>, aspects: &[Aspect], default: Level) -> Result<Level, NoMemory>
    ensures { IfOk result
        (λ priority. priority ≡ unwrap_or (priority_of names.now aspects.now) default) }
{
    match priority_of(names, aspects) {
        None => Ok(default),
        Some(priority) => level(priority),
    }
}
