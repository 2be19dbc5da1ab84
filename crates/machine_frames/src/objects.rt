//! Protected objects that are there (ISO/IEC 8652:2012, 9.4).
ghost use Rattle.std.specs.Prelude.{◌≡◌, option_copied};
ghost use Rattle.profile_machine.specs.Values.{object_of};

use ann_base::ObjectNo;
use profile_machine::world::{Object, World};

/// The protected object with this number, if it is there.
pub fn object_of(world: &World, number: ObjectNo) -> Option<&Object>
    ensures { option_copied result ≡ object_of world.now number }
{
    world.objects.find(number.0)
}
