//! The parts of names (ISO/IEC 8652:2012, 4.1.3).
ghost use Rattle.std.specs.Prelude.{◌≡◌, option_copied};
ghost use Rattle.ada_image.specs.ImageOfExpressions.{prefix_part};

use ada_tree::{Identifier, Name};

/// The part of a name before the last, if it has more than one.
#[tactic(auto, using(crate::proofs::Parts::before_at), unfolding(ada_image::specs::ImageOfExpressions::prefix_part))]
pub fn prefix_part(name: &Name) -> Option<&Identifier>
    ensures { option_copied result ≡ prefix_part name.now }
{
    let mut before = None;
    let mut last = &name.parts.first;
    for part in name.parts.others.as_slice() {
        before = Some(last);
        last = part;
    }
    before
}
