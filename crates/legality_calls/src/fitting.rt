//! The actuals of a call, by number and name (ISO/IEC 8652:2012, 6.4.1, D.15).
ghost use Rattle.std.specs.List.{list_any};
ghost use Rattle.std.specs.Prelude.{◌≡◌, ◌++◌, OnOk, codes};
ghost use Rattle.ada_legality.specs.Calls.{is_formal_named};
ghost use Rattle.ada_legality.specs.Reading.{is_event, wants_event, is_event_handler};
ghost use Rattle.ada_legality.specs.Reading.{sets_event_by_span, actuals_numbered};

use crate::actuals::{is_formal_named, wrong_actuals};
use ada_legality::{ActualPart, Finding, FormalPart, Known, Rule, Wanted};
use ada_regions::AdaType;
use ann_base::{NoMemory, Place};
use legality_types::broken_if;
use world_tables::List;

fn is_event(t: AdaType) -> bool
    ensures { result ≡ is_event t }
{
    match t {
        AdaType::TimingEvent => true,
        _ => false,
    }
}

fn wants_event(wanted: Wanted) -> bool
    ensures { result ≡ wants_event wanted }
{
    match wanted {
        Wanted::OfType(_) => false,
        Wanted::HandlerOf(t) => is_event(t),
    }
}

fn is_event_handler(formal: &FormalPart) -> bool
    ensures { result ≡ is_event_handler formal.now }
{
    wants_event(formal.wanted)
}

/// A formal is that of a span.
fn has_span_formal(formals: &[FormalPart]) -> bool
    ensures { result ≡ list_any (is_formal_named (codes "in_time")) formals.now }
{
    formals
        .iter()
        .any(|formal| is_formal_named(b"in_time", formal))
}

/// A formal is for a handler of timing events.
fn has_event_handler(formals: &[FormalPart]) -> bool
    ensures { result ≡ list_any is_event_handler formals.now }
{
    formals.iter().any(|formal| is_event_handler(formal))
}

/// The formals of Set_Handler of a timing event with a span.
#[tactic(auto, unfolding(ada_legality::specs::Reading::sets_event_by_span))]
fn sets_event_by_span(formals: &[FormalPart]) -> bool
    ensures { result ≡ sets_event_by_span formals.now }
{
    has_span_formal(formals) && has_event_handler(formals)
}

/// The actuals of these formals, by number and name.
#[tactic(auto, unfolding(ada_legality::specs::Reading::actuals_numbered))]
pub fn actuals_numbered(
    found: &mut List<Finding>,
    known: &Known<'_, '_>,
    call: Place,
    formals: &[FormalPart],
    actuals: &[ActualPart],
) -> Result<(), NoMemory>
    ensures { OnOk result
        (found.new ≡ found.old ++ actuals_numbered known.now call formals.now actuals.now) }
{
    wrong_actuals(found, call, formals, actuals)?;
    let broken = known.in_force.no_relative_delay && sets_event_by_span(formals);
    broken_if(found, Rule::Restriction, broken, call)
}
