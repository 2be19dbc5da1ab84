//! Whom a name calls (ISO/IEC 8652:2012, 9.5, 9.5.3). An operation of the unit in whose body the
//! call stands is called from inside.
ghost use Rattle.std.specs.Prelude.{◌≡◌};
ghost use Rattle.ada_image.specs.ImageOfCalls.{operation_called, callee_of};
ghost use Rattle.ada_image.specs.ImageOfCalls.{owner_before, owner_of_entry};

use ada_image::Within;
use ada_tree::Name;
use image_names::{named_before, object_before};
use profile_image::{Callee, DeclNo, EntryOwner, EntryUnit, ProtectedUnitNo, SubprogramNo};

fn operation_called(operation: SubprogramNo, object: Option<DeclNo>) -> Callee
    ensures { result ≡ operation_called operation object }
{
    match object {
        None => Callee::OwnOperation(operation),
        Some(object) => Callee::Operation { object, operation },
    }
}

/// What a name of a subprogram calls (6.4, 9.5.1).
#[tactic(auto, unfolding(ada_image::specs::ImageOfCalls::callee_of))]
pub fn callee_of(
    within: &Within<'_, '_>,
    name: &Name,
    number: SubprogramNo,
    unit: Option<ProtectedUnitNo>,
) -> Callee
    ensures { result ≡ callee_of within.now name.now number unit }
{
    match unit {
        None => Callee::Subprogram(number),
        Some(_) => operation_called(number, object_before(within, name)),
    }
}

fn owner_before(object: Option<DeclNo>) -> EntryOwner
    ensures { result ≡ owner_before object }
{
    match object {
        None => EntryOwner::Own,
        Some(object) => EntryOwner::Object(object),
    }
}

/// Whose entry a name denotes (9.5.3). A task is named by its object inside its body too.
#[tactic(auto, unfolding(ada_image::specs::ImageOfCalls::owner_of_entry))]
pub fn owner_of_entry(within: &Within<'_, '_>, name: &Name, unit: EntryUnit) -> EntryOwner
    ensures { result ≡ owner_of_entry within.now name.now unit }
{
    match unit {
        EntryUnit::Task(_) => owner_before(named_before(within, name)),
        EntryUnit::Protected(_) => owner_before(object_before(within, name)),
    }
}
