//! How the cells of a scope begin (ISO/IEC 8652:2012, 3.3.1).
ghost use Rattle.std.specs.Prelude.{◌≡◌, length, take, IfOk};
ghost use Rattle.profile_image.specs.Program.{with_run, with_runs, initial_cells};

use ann_base::NoMemory;
use profile_image::{CellRun, Scope, Value};
use std::alloc::Global;

/// The cells of a scope as it begins.
pub fn initial_cells(alloc: Global, scope: &Scope) -> Result<Vec<Value>, NoMemory>
    ensures { IfOk result (λ cells. cells.items ≡ initial_cells scope.now) }
{
    let mut cells = vec![in alloc; Value::Whole(0); scope.size as usize]?;
    begin_runs(cells.as_mut_slice(), scope.cells.as_slice());
    Ok(cells)
}

fn begin_runs(cells: &mut [Value], runs: &[CellRun])
    ensures { cells.new ≡ take (length cells.old) (with_runs runs.now cells.old) }
{
    for run in runs {
        begin_run(cells, *run);
    }
}

// What lies behind the last cell begins nothing.
fn begin_run(cells: &mut [Value], run: CellRun)
    ensures { cells.new ≡ take (length cells.old) (with_run run cells.old) }
{
    let first = cells.len().min(run.place as usize);
    let end = cells.len().min(run.place as usize + run.count as usize);
    for place in first..end {
        cells[place] = run.value;
    }
}
