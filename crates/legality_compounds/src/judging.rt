//! What is found in parts of a tree.
ghost use Rattle.std.specs.Prelude.{◌≡◌, ◌++◌, OnOk};
ghost use Rattle.ada_regions.specs.Words.{all_of};
ghost use Rattle.ada_legality.specs.CallStatements.{all_found, found_if};

use ada_legality::{Finding, Known};
use ada_tree::OneOrMore;
use ann_base::NoMemory;
use std::alloc::Global;
use world_tables::List;

/// What is judged where something is known. A crate that judges sequences of statements names
/// itself by a type `W` of its own.
pub trait Judge<W> {
    ghost use Rattle.std.specs.Prelude.{◌≡◌, ◌++◌, OnOk};
    ghost use Rattle.ada_legality.specs.Declarations.{Sight};

    ghost judged: { Self → Sight };

    /// What is found in it stands behind what was found before.
    fn judge(
        &self,
        alloc: Global,
        found: &mut List<Finding>,
        known: &Known<'_, '_>,
    ) -> Result<(), NoMemory>
        ensures { OnOk result (found.new ≡ found.old ++ judged self.now known.now) };
}

/// What is there.
pub fn judge_if<W, T: Judge<W>>(
    alloc: Global,
    found: &mut List<Finding>,
    known: &Known<'_, '_>,
    item: &Option<T>,
) -> Result<(), NoMemory>
    ensures { OnOk result (found.new ≡ found.old ++ found_if T.judged item.now known.now) }
{
    match item {
        None => Ok(()),
        Some(item) => item.judge(alloc, found, known),
    }
}

/// Items one behind another.
pub fn judge_each<W, T: Judge<W>>(
    alloc: Global,
    found: &mut List<Finding>,
    known: &Known<'_, '_>,
    items: &[T],
) -> Result<(), NoMemory>
    ensures { OnOk result (found.new ≡ found.old ++ all_found T.judged items.now known.now) }
{
    for item in items {
        item.judge(alloc, found, known)?;
    }
    Ok(())
}

/// All items of a list.
pub fn judge_all<W, T: Judge<W>>(
    alloc: Global,
    found: &mut List<Finding>,
    known: &Known<'_, '_>,
    items: &OneOrMore<T>,
) -> Result<(), NoMemory>
    ensures { OnOk result
        (found.new ≡ found.old ++ all_found T.judged (all_of items.now) known.now) }
{
    items.first.judge(alloc, found, known)?;
    judge_each(alloc, found, known, items.others.as_slice())
}
