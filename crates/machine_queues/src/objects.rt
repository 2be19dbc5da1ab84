//! A protected object for writing (ISO/IEC 8652:2012, 9.4).
ghost use Rattle.std.specs.Prelude.{◌≡◌, find};
ghost use Rattle.std.specs.List.{position_from};
ghost use Rattle.std.specs.Option.{option_copied_mut};
ghost use Rattle.std.specs.Borrow.{sem};
ghost use Rattle.profile_machine.specs.Values.{is_object};
ghost use Rattle.machine_queues.specs.Lends.{lends_object};

use ann_base::ObjectNo;
use profile_machine::world::Object;
use rosters::Roster;

// Where the first object with this number stands.
fn place_of(objects: &Roster<Object>, number: ObjectNo) -> Option<usize>
    ensures { result ≡ position_from (is_object number) 0 objects.now }
{
    objects.place_of(number.0)
}

// The object in this place, where the first one with this number stands, for writing.
fn object_in_place(
    objects: &mut Roster<Object>,
    number: ObjectNo,
    place: usize,
) -> Option<&mut Object>
    requires { position_from (is_object number) 0 objects.old ≡ Some place }
    ensures* writes_back { sem 𝓛 (lends_object objects.entry number result) }
    ensures value { option_copied_mut result ≡ find (is_object number) objects.old }
{
    objects.get_mut(place)
}

/// The protected object with this number for writing, if it is there.
pub fn object_mut(objects: &mut Roster<Object>, number: ObjectNo) -> Option<&mut Object>
    ensures* writes_back { sem 𝓛 (lends_object objects.entry number result) }
    ensures value { option_copied_mut result ≡ find (is_object number) objects.old }
{
    match place_of(objects, number) {
        Some(place) => object_in_place(objects, number, place),
        None => None,
    }
}
