//! Which priorities the pragmas of a source give (ISO/IEC 8652:2012, 2.8, 13.7, D.1).
ghost use Rattle.std.specs.Prelude.{◌≡◌};
ghost use Rattle.std.specs.List.{list_any};
ghost use Rattle.ada_regions.specs.Numbered.{is_wide, last_priority_of};
ghost use Rattle.ada_regions.specs.PredefinedUnits.{default_priority};

use ada_regions::{DEFAULT_PRIORITY, DEFAULT_WIDE_PRIORITY, LAST_PRIORITY, LAST_WIDE_PRIORITY};
use ada_tree::Pragma;
use ann_base::Level;

fn is_wide(given: &Pragma) -> bool
    ensures { result ≡ is_wide given.now }
{
    given.name.text.as_slice() == b"priority_range".as_slice()
}

fn any_is_wide(pragmas: &[Pragma]) -> bool
    ensures { result ≡ list_any is_wide pragmas.now }
{
    pragmas.iter().any(|given| is_wide(given))
}

/// The last value of System.Priority under these pragmas.
pub fn last_priority_of(pragmas: &[Pragma]) -> Level
    ensures { result ≡ last_priority_of pragmas.now }
{
    if any_is_wide(pragmas) {
        LAST_WIDE_PRIORITY
    } else {
        LAST_PRIORITY
    }
}

/// System.Default_Priority (ISO/IEC 8652:2012, 13.7), where the last Priority is given.
pub fn default_priority(last: Level) -> Level
    ensures { result ≡ default_priority last }
{
    if last == LAST_WIDE_PRIORITY {
        DEFAULT_WIDE_PRIORITY
    } else {
        DEFAULT_PRIORITY
    }
}
