//! Entry declarations (ISO/IEC 8652:2012, 9.5.2).
ghost use Rattle.std.specs.Prelude.{◌≡◌, ◌++◌, OnOk};
ghost use Rattle.ada_legality.specs.CallStatements.{all_found};
ghost use Rattle.ada_legality.specs.Declarations.{entry_found};

use ada_legality::{Finding, Known};
use ada_tree::EntryDeclaration;
use ann_base::NoMemory;
use legality_parts::parameters_found;
use legality_tasking::EntryOf;
use std::alloc::Global;
use world_tables::List;

/// An entry declaration.
pub fn entry_found(
    alloc: Global,
    found: &mut List<Finding>,
    known: &Known<'_, '_>,
    entry: &EntryDeclaration,
) -> Result<(), NoMemory>
    ensures { OnOk result (found.new ≡ found.old ++ entry_found entry.now known.now) }
{
    let parameters = entry.parameters.as_slice();
    parameters_found(alloc, found, known, false, false, parameters)
}

/// All entry declarations.
pub fn entries_found(
    alloc: Global,
    found: &mut List<Finding>,
    known: &Known<'_, '_>,
    entries: &[EntryOf<'_>],
) -> Result<(), NoMemory>
    ensures { OnOk result (found.new ≡ found.old ++ all_found entry_found entries.now known.now) }
{
    for entry in entries {
        entry_found(alloc, found, known, entry.get())?;
    }
    Ok(())
}
