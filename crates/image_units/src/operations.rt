//! The procedures that override the operations of controlled types: those of the same part with one
//! `in out` parameter of the type (ISO/IEC 8652:2012, 7.6).
ghost use Rattle.std.specs.Prelude.{◌≡◌, cond, Some, None, IfOk};
ghost use Rattle.std.specs.Option.{option_or};
ghost use Rattle.ada_image.specs.UnitsOfImage.{subprogram_no, has_one_of_type, overrides};
ghost use Rattle.ada_image.specs.UnitsOfImage.{overriding_from, overriding, unless_limited};

use ada_regions::{Names, NumberedControlled, NumberedSubprogram};
use ann_base::NoMemory;
use image_layout::{added, has_one_of_type};
use profile_image::SubprogramNo;

/// Whether a subprogram overrides the operation of a controlled type that has this name.
#[tactic(auto, unfolding(ada_image::specs::UnitsOfImage::overrides))]
fn overrides(
    number: u32,
    controlled: NumberedControlled,
    name: &[u8],
    subprogram: &NumberedSubprogram<'_>,
) -> bool
    ensures { result ≡ overrides number controlled name.now subprogram.now }
{
    subprogram.name.as_slice() == name
        && subprogram.result.is_none()
        && subprogram.unit.is_none()
        && subprogram.part == controlled.part
        && has_one_of_type(number, subprogram.formals.as_slice())
}

/// The subprogram with this number where it overrides, or the one that was found before.
fn latest(is_here: bool, number: u32, found: Option<SubprogramNo>) -> Option<SubprogramNo>
    ensures { result ≡ option_or (cond is_here (Some (subprogram_no number)) None) found }
{
    if is_here {
        Some(SubprogramNo(number))
    } else {
        found
    }
}

/// The last subprogram of the text that overrides the operation with this name.
#[tactic(auto, unfolding(ada_image::specs::UnitsOfImage::overriding, ada_image::specs::UnitsOfImage::overriding_from), using(crate::proofs::Latest::latest_laws))]
pub(crate) fn overriding(
    names: &Names<'_>,
    number: u32,
    controlled: NumberedControlled,
    name: &[u8],
) -> Result<Option<SubprogramNo>, NoMemory>
    ensures { IfOk result
        (λ operation. operation ≡ overriding names.now number controlled name.now) }
{
    let mut found = None;
    let mut place = 0u32;
    for subprogram in names.subprograms.iter() {
        let is_here = overrides(number, controlled, name, subprogram);
        found = latest(is_here, place, found);
        place = added(place, 1)?;
    }
    Ok(found)
}

/// A limited type has no Adjust.
pub(crate) fn unless_limited(
    is_limited: bool,
    subprogram: Option<SubprogramNo>,
) -> Option<SubprogramNo>
    ensures { result ≡ unless_limited is_limited subprogram }
{
    if is_limited { None } else { subprogram }
}
