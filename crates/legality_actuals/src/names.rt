//! Names as elements and calls with their actuals (ISO/IEC 8652:2012, 4.1, 6.4).
ghost use Rattle.std.specs.Prelude.{◌≡◌, ◌++◌, [], OnOk, option_map, unwrap_or};
ghost use Rattle.ada_legality.specs.Calls.{formals_denoted};
ghost use Rattle.ada_legality.specs.Reading.{actuals_judged};
ghost use Rattle.ada_legality.specs.ReadExpressions.{element_judged, denoted_judged, name_judged};

use crate::fitting::actuals_judged;
use ada_entities::denoted_by;
use ada_legality::{ActualPart, Finding, Known, Rule};
use ada_regions::{AdaType, Denoted};
use ada_tree::Name;
use ann_base::{NoMemory, Place};
use legality_calls::{actuals_numbered, formals_denoted, without_name};
use legality_names::{denotes_function, ends_of_object};
use legality_types::broken_unless;
use legality_values::{index_fitted, names_value, place_of};
use std::alloc::Global;
use world_tables::List;

/// An element of an array.
#[tactic(auto, unfolding(ada_legality::specs::ReadExpressions::element_judged))]
fn element_judged(
    alloc: Global,
    found: &mut List<Finding>,
    known: &Known<'_, '_>,
    place: Place,
    actuals: &[ActualPart],
    t: Option<AdaType>,
) -> Result<(), NoMemory>
    ensures { OnOk result (found.new ≡ found.old ++ element_judged known.now place actuals.now t) }
{
    match t {
        None => Ok(()),
        Some(t) => {
            let formals = without_name(alloc, Some(t))?;
            actuals_numbered(found, known, place, formals.as_slice(), actuals)?;
            index_fitted(found, Some(t), actuals)
        }
    }
}

/// The call of what is denoted.
fn call_of(
    alloc: Global,
    found: &mut List<Finding>,
    known: &Known<'_, '_>,
    place: Place,
    actuals: &[ActualPart],
    denoted: Denoted,
) -> Result<(), NoMemory>
    ensures { OnOk result
        (found.new
        ≡ found.old
        ++ actuals_judged known.now place (formals_denoted known.now actuals.now denoted)
        actuals.now) }
{
    let formals = formals_denoted(alloc, known, actuals, denoted)?;
    actuals_judged(found, known, place, formals.as_slice(), actuals)
}

/// A call or an element, by what the name denotes.
#[tactic(auto, unfolding(ada_legality::specs::ReadExpressions::denoted_judged))]
fn denoted_judged(
    alloc: Global,
    found: &mut List<Finding>,
    known: &Known<'_, '_>,
    place: Place,
    actuals: &[ActualPart],
    denoted: Denoted,
) -> Result<(), NoMemory>
    ensures { OnOk result
        (found.new ≡ found.old ++ denoted_judged known.now place actuals.now denoted) }
{
    if denotes_function(known, denoted) {
        call_of(alloc, found, known, place, actuals, denoted)
    } else if actuals.is_empty() {
        Ok(())
    } else {
        let t = ends_of_object(known, denoted);
        element_judged(alloc, found, known, place, actuals, t)
    }
}

/// What a name denotes, where it denotes something.
fn denoted_judged_if(
    alloc: Global,
    found: &mut List<Finding>,
    known: &Known<'_, '_>,
    place: Place,
    actuals: &[ActualPart],
    denoted: Option<Denoted>,
) -> Result<(), NoMemory>
    ensures { OnOk result
        (found.new
        ≡ found.old
        ++ unwrap_or (option_map (denoted_judged known.now place actuals.now) denoted) []) }
{
    match denoted {
        None => Ok(()),
        Some(denoted) => denoted_judged(alloc, found, known, place, actuals, denoted),
    }
}

/// A name without attribute.
#[tactic(auto, unfolding(ada_legality::specs::ReadExpressions::name_judged))]
pub fn name_judged(
    alloc: Global,
    found: &mut List<Finding>,
    known: &Known<'_, '_>,
    name: &Name,
    actuals: &[ActualPart],
) -> Result<(), NoMemory>
    ensures { OnOk result (found.new ≡ found.old ++ name_judged known.now name.now actuals.now) }
{
    let place = place_of(name);
    let kept = names_value(known, name, !actuals.is_empty());
    broken_unless(found, Rule::KindOfName, kept, place)?;
    let denoted = denoted_by(known.names.get(), name);
    denoted_judged_if(alloc, found, known, place, actuals, denoted)
}
