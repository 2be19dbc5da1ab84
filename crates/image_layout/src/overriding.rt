//! The parameters of the procedures that override the operations of controlled types (ISO/IEC
//! 8652:2012, 7.6).
ghost use Rattle.std.specs.Prelude.{◌≡◌};
ghost use Rattle.ada_image.specs.Layout.{subtype_is};
ghost use Rattle.ada_image.specs.UnitsOfImage.{has_one_of_type, is_derived, is_in_out, is_of_type};

use ada_regions::{AdaType, Formal, Mode, Subtype};

fn is_derived(number: u32, of_type: AdaType) -> bool
    ensures { result ≡ is_derived number of_type }
{
    match of_type {
        AdaType::Derived(other) => other.0 == number,
        _ => false,
    }
}

fn subtype_is_derived(number: u32, subtype: Option<Subtype>) -> bool
    ensures { result ≡ subtype_is (is_derived number) subtype }
{
    match subtype {
        None => false,
        Some(subtype) => is_derived(number, subtype.of_type),
    }
}

/// Whether it is the mode `in out`.
pub fn is_in_out(mode: Mode) -> bool
    ensures { result ≡ is_in_out mode }
{
    match mode {
        Mode::In => false,
        Mode::Out => false,
        Mode::InOut => true,
    }
}

/// Whether it is an `in out` parameter of a controlled type.
#[tactic(auto, unfolding(ada_image::specs::UnitsOfImage::is_of_type))]
fn is_of_type(number: u32, formal: &Formal) -> bool
    ensures { result ≡ is_of_type number formal.now }
{
    is_in_out(formal.mode) && subtype_is_derived(number, formal.subtype)
}

/// Whether there is such a parameter and no other.
#[tactic(auto, unfolding(ada_image::specs::UnitsOfImage::has_one_of_type))]
pub fn has_one_of_type(number: u32, formals: &[Formal]) -> bool
    ensures { result ≡ has_one_of_type number formals.now }
{
    match formals {
        [] => false,
        [formal] => is_of_type(number, formal),
        [_, _, ..] => false,
    }
}
