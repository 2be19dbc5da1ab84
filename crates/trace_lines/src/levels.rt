//! Levels by number: the bases of tasks, and the ceilings of protected objects.
ghost use Rattle.std.specs.Prelude.{◌≡◌, OnOk, OnErr};
ghost use Rattle.std.specs.Ordering.{nat_cmp};
ghost use Rattle.std.specs.BTreeMap.{insert_entry};
ghost use Rattle.std.specs.Map.{keys_of};
ghost use Rattle.trace_text.specs.Laws.{has, level_of};

use ann_base::{Level, NoMemory};
use std::collections::BTreeMap;

/// A level is set for a number.
pub fn set(levels: &mut BTreeMap<u32, Level>, number: u32, level: Level) -> Result<(), NoMemory>
    ensures set { OnOk result
        (levels.new.entries ≡ insert_entry nat_cmp levels.old.entries number level) }
    ensures unchanged { OnErr result (levels.new.entries ≡ levels.old.entries) }
{
    levels.insert(number, level)?;
    Ok(())
}

/// Whether a number has a level.
pub fn has(levels: &BTreeMap<u32, Level>, number: u32) -> bool
    ensures { result ≡ has number (keys_of levels.now.entries) }
{
    levels.contains_key(&number)
}

/// The level of a number.
pub fn at(levels: &BTreeMap<u32, Level>, number: u32) -> Option<Level>
    ensures { result ≡ level_of number levels.now.entries }
{
    levels.get(&number).copied()
}
