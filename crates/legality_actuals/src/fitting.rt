//! Actuals for what their formals want (ISO/IEC 8652:2012, 6.4.1, D.7).
ghost use Rattle.std.specs.Prelude.{◌≡◌, ◌++◌, OnOk};
ghost use Rattle.ada_legality.specs.Reading.{actual_wanted, actual_if};
ghost use Rattle.ada_legality.specs.Reading.{actuals_fitted, actuals_judged};
ghost use Rattle.legality_actuals.specs.Along.{fitted_along};

use ada_legality::{ActualPart, Asked, Finding, FormalPart, Known, Read, Wanted};
use ada_regions::Mode;
use ann_base::{NoMemory, Place};
use legality_calls::{actual_from, actuals_numbered, assigned_if, handler_actual};
use legality_reads::fitted;
use world_tables::List;

/// An actual for what its formal wants.
#[tactic(auto, unfolding(ada_legality::specs::Reading::actual_wanted))]
fn actual_wanted(
    found: &mut List<Finding>,
    known: &Known<'_, '_>,
    mode: Mode,
    wanted: Wanted,
    read: &Read,
) -> Result<(), NoMemory>
    ensures { OnOk result (found.new ≡ found.old ++ actual_wanted known.now mode wanted read.now) }
{
    match wanted {
        Wanted::OfType(t) => {
            fitted(found, Asked::ForActual, t, read)?;
            assigned_if(found, known, mode, read)
        }
        Wanted::HandlerOf(t) => handler_actual(found, known, read, t),
    }
}

/// An actual that is there.
fn actual_if(
    found: &mut List<Finding>,
    known: &Known<'_, '_>,
    formal: &FormalPart,
    read: Option<Read>,
) -> Result<(), NoMemory>
    ensures { OnOk result (found.new ≡ found.old ++ actual_if known.now formal.now read) }
{
    match read {
        None => Ok(()),
        Some(read) => actual_wanted(found, known, formal.mode, formal.wanted, &read),
    }
}

/// Actuals for all formals, one formal at a time.
fn fitted_along(
    found: &mut List<Finding>,
    known: &Known<'_, '_>,
    formals: &[FormalPart],
    actuals: &[ActualPart],
) -> Result<(), NoMemory>
    ensures { OnOk result
        (found.new ≡ found.old ++ fitted_along known.now 0 formals.now actuals.now) }
{
    let mut number = 0;
    for formal in formals {
        let read = actual_from(number, formal.name.as_slice(), actuals);
        actual_if(found, known, formal, read)?;
        number += 1;
    }
    Ok(())
}

/// Actuals for all formals.
#[tactic(auto, using(crate::proofs::AlongIs::fitted_is))]
fn actuals_fitted(
    found: &mut List<Finding>,
    known: &Known<'_, '_>,
    formals: &[FormalPart],
    actuals: &[ActualPart],
) -> Result<(), NoMemory>
    ensures { OnOk result
        (found.new ≡ found.old ++ actuals_fitted known.now 0 formals.now actuals.now) }
{
    fitted_along(found, known, formals, actuals)
}

/// The actuals of a call.
#[tactic(auto, unfolding(ada_legality::specs::Reading::actuals_judged))]
pub fn actuals_judged(
    found: &mut List<Finding>,
    known: &Known<'_, '_>,
    call: Place,
    formals: &[FormalPart],
    actuals: &[ActualPart],
) -> Result<(), NoMemory>
    ensures { OnOk result
        (found.new ≡ found.old ++ actuals_judged known.now call formals.now actuals.now) }
{
    actuals_numbered(found, known, call, formals, actuals)?;
    actuals_fitted(found, known, formals, actuals)
}
