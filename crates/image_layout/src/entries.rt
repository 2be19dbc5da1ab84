//! The units whose entries stand in one list (ISO/IEC 8652:2012, 9.5.2).
ghost use Rattle.std.specs.Prelude.{◌≡◌};
ghost use Rattle.ada_image.specs.UnitsOfImage.{same_entry_unit};

use profile_image::EntryUnit;

/// Whether both are the same unit.
#[tactic(auto, unfolding(ada_image::specs::UnitsOfImage::same_entry_unit))]
pub fn same_entry_unit(unit: EntryUnit, other: EntryUnit) -> bool
    ensures { result ≡ same_entry_unit unit other }
{
    match (unit, other) {
        (EntryUnit::Task(a), EntryUnit::Task(b)) => a.0 == b.0,
        (EntryUnit::Task(_), EntryUnit::Protected(_)) => false,
        (EntryUnit::Protected(_), EntryUnit::Task(_)) => false,
        (EntryUnit::Protected(a), EntryUnit::Protected(b)) => a.0 == b.0,
    }
}
