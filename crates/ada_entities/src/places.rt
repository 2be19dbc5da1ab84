//! Places in a text.
ghost use Rattle.std.specs.Prelude.{◌≡◌};
ghost use Rattle.ada_regions.specs.Words.{same_place, stands_before};

use ann_base::Place;

/// Whether both are the same place.
pub fn same_place(a: Place, b: Place) -> bool
    ensures { result ≡ same_place a b }
{
    a.line == b.line && a.column == b.column
}

/// Whether the first of two places stands before the other one in the text.
pub fn stands_before(a: Place, b: Place) -> bool
    ensures { result ≡ stands_before a b }
{
    a.line < b.line || (a.line == b.line && a.column < b.column)
}
