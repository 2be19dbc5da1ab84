//! A place as a value.
ghost use Rattle.std.specs.Prelude.{◌≡◌};

use ada_image::Within;
use image_layout::in_scope;

/// The same place. As a value, it is passed on with lists that do not live as long as those of the
/// place do.
pub fn same_place<'n, 't>(within: &Within<'n, 't>) -> Within<'n, 't>
    ensures { result ≡ within.now }
{
    in_scope(within, within.scope)
}
