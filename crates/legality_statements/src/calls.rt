//! Calls (ISO/IEC 8652:2012, 6.4, 9.5.3, A.10.7).
ghost use Rattle.std.specs.Prelude.{◌≡◌, ◌++◌, [], OnOk, option_map, unwrap_or};
ghost use Rattle.ada_legality.specs.Calls.{actual_from, formals_denoted};
ghost use Rattle.ada_legality.specs.Reading.{actuals_judged};
ghost use Rattle.ada_legality.specs.Values.{denotes_procedure, is_denoted};
ghost use Rattle.ada_legality.specs.CallStatements.{is_put_line, line_judged};
ghost use Rattle.ada_legality.specs.CallStatements.{line_if_put, call_judged, call_found};

use ada_entities::denoted_by;
use ada_legality::{ActualPart, Finding, Known, Read, Rule};
use ada_regions::{Denoted, Operation, Predefined};
use ada_tree::{Call, Name};
use ann_base::{NoMemory, Place};
use legality_actuals::actuals_judged;
use legality_calls::{actual_from, formals_denoted};
use legality_expressions::arguments_read;
use legality_names::denotes_procedure;
use legality_reads::{literal_in, other_pointed_literal};
use legality_types::{broken_unless, is_pointed};
use legality_values::place_of;
use std::alloc::Global;
use world_tables::List;

/// Put_Line.
fn is_put_line(denoted: Denoted) -> bool
    ensures { result ≡ is_put_line denoted }
{
    match denoted {
        Denoted::Entity(_) => false,
        Denoted::Unit(_) => false,
        Denoted::Item { item, .. } => match item {
            Predefined::Operation(operation) => match operation {
                Operation::PutLine => true,
                _ => false,
            },
            _ => false,
        },
    }
}

/// The line that Put_Line puts.
#[tactic(auto, unfolding(ada_legality::specs::CallStatements::line_judged))]
fn line_judged(found: &mut List<Finding>, place: Place, read: Option<Read>) -> Result<(), NoMemory>
    ensures { OnOk result (found.new ≡ found.old ++ line_judged place read) }
{
    match read {
        None => Ok(()),
        Some(read) => {
            if is_pointed(read.typed) {
                other_pointed_literal(found, literal_in(&read))
            } else {
                broken_unless(found, Rule::PutLineForm, read.line.is_some(), place)
            }
        }
    }
}

/// The line, where Put_Line is called.
fn line_if_put(
    found: &mut List<Finding>,
    place: Place,
    actuals: &[ActualPart],
    denoted: Denoted,
) -> Result<(), NoMemory>
    ensures { OnOk result (found.new ≡ found.old ++ line_if_put place actuals.now denoted) }
{
    if is_put_line(denoted) {
        line_judged(found, place, actual_from(0, b"item", actuals))
    } else {
        Ok(())
    }
}

/// The call of a procedure.
fn procedure_called(
    alloc: Global,
    found: &mut List<Finding>,
    known: &Known<'_, '_>,
    place: Place,
    actuals: &[ActualPart],
    denoted: Denoted,
) -> Result<(), NoMemory>
    ensures { OnOk result
        (found.new
        ≡ found.old
        ++ (line_if_put place actuals.now denoted
        ++ actuals_judged known.now place (formals_denoted known.now actuals.now denoted)
        actuals.now)) }
{
    line_if_put(found, place, actuals, denoted)?;
    let formals = formals_denoted(alloc, known, actuals, denoted)?;
    actuals_judged(found, known, place, formals.as_slice(), actuals)
}

/// A call, by what its name denotes.
#[tactic(auto, unfolding(ada_legality::specs::CallStatements::call_judged))]
fn call_judged(
    alloc: Global,
    found: &mut List<Finding>,
    known: &Known<'_, '_>,
    place: Place,
    actuals: &[ActualPart],
    denoted: Denoted,
) -> Result<(), NoMemory>
    ensures { OnOk result
        (found.new ≡ found.old ++ call_judged known.now place actuals.now denoted) }
{
    if denotes_procedure(known, denoted) {
        procedure_called(alloc, found, known, place, actuals, denoted)
    } else {
        Ok(())
    }
}

/// A call, where its name denotes something.
fn call_judged_if(
    alloc: Global,
    found: &mut List<Finding>,
    known: &Known<'_, '_>,
    place: Place,
    actuals: &[ActualPart],
    denoted: Option<Denoted>,
) -> Result<(), NoMemory>
    ensures { OnOk result
        (found.new
        ≡ found.old
        ++ unwrap_or (option_map (call_judged known.now place actuals.now) denoted) []) }
{
    match denoted {
        None => Ok(()),
        Some(denoted) => call_judged(alloc, found, known, place, actuals, denoted),
    }
}

/// A name denotes a procedure.
fn names_procedure(known: &Known<'_, '_>, name: &Name) -> bool
    ensures { result ≡ is_denoted (denotes_procedure known.now) known.now name.now }
{
    match denoted_by(known.names.get(), name) {
        None => false,
        Some(denoted) => denotes_procedure(known, denoted),
    }
}

/// A call statement.
#[tactic(auto, unfolding(ada_legality::specs::CallStatements::call_found))]
pub fn call_found(
    alloc: Global,
    found: &mut List<Finding>,
    known: &Known<'_, '_>,
    call: &Call,
) -> Result<(), NoMemory>
    ensures { OnOk result (found.new ≡ found.old ++ call_found call.now known.now) }
{
    let place = place_of(&call.name);
    let kept = names_procedure(known, &call.name);
    broken_unless(found, Rule::KindOfName, kept, place)?;
    let actuals = arguments_read(alloc, found, known, call.arguments.as_slice())?;
    let denoted = denoted_by(known.names.get(), &call.name);
    call_judged_if(alloc, found, known, place, actuals.as_slice(), denoted)
}
