//! Limited types (ISO/IEC 8652:2012, 7.5, 7.6).
ghost use Rattle.std.specs.Prelude.{◌≡◌};
ghost use Rattle.ada_legality.specs.Types.{is_limited_controlled, is_limited, is_copied_controlled};

use crate::kinds::has_no_values;
use ada_regions::{AdaType, Names, is_controlled_type};
use profile_image::ControlledNo;

/// A type derived from Limited_Controlled.
fn is_limited_controlled(names: &Names<'_>, controlled: ControlledNo) -> bool
    ensures { result ≡ is_limited_controlled names.now controlled }
{
    match names.controlled_types.get(controlled.0 as usize) {
        None => true,
        Some(controlled) => controlled.is_limited,
    }
}

/// Objects of these types are not copied: a Controlled one is.
#[tactic(auto, unfolding(ada_legality::specs::Types::is_limited))]
pub fn is_limited(names: &Names<'_>, t: AdaType) -> bool
    ensures { result ≡ is_limited names.now t }
{
    match t {
        AdaType::Derived(controlled) => is_limited_controlled(names, controlled),
        _ => has_no_values(t),
    }
}

/// A type derived from Controlled.
#[tactic(auto, unfolding(ada_legality::specs::Types::is_copied_controlled))]
pub fn is_copied_controlled(names: &Names<'_>, t: AdaType) -> bool
    ensures { result ≡ is_copied_controlled names.now t }
{
    is_controlled_type(t) && !is_limited(names, t)
}
