//! The heads of loops and selects (ISO/IEC 8652:2012, 5.5, 9.7).
ghost use Rattle.std.specs.Prelude.{◌≡◌, ◌++◌, OnOk, IfOk, false};
ghost use Rattle.ada_tree.specs.declared.statements.Iteration.TheVariants as iteration;
ghost use Rattle.ada_legality.specs.SimpleStatements.{range_if_static, loop_parameter};
ghost use Rattle.ada_legality.specs.SimpleStatements.{with_iteration, iteration_found, guard_found};
ghost use Rattle.ada_legality.specs.SimpleStatements.{trigger_found, entry_call_found};

use crate::assignments::delay_found;
use crate::calls::call_found;
use ada_entities::entity_denoted;
use ada_legality::{Asked, Finding, Known, LoopParameter, Rule};
use ada_regions::{AdaType, Subtype};
use ada_subtypes::{range_between, static_value};
use ada_tree::{Call, Expression, Guard, Identifier, Iteration, Trigger};
use ann_base::{NoMemory, Place};
use legality_conditions::{cells_noted, condition_found};
use legality_entities::{copy_of, names_entry, with_loop};
use legality_expressions::{Readable, type_between};
use legality_reads::expected;
use legality_types::{broken_unless, type_of_bounds};
use legality_values::place_of;
use profile_image::Constraint;
use std::alloc::Global;
use world_tables::List;

/// The range between two bounds, where they are static.
fn range_if_static(
    known: &Known<'_, '_>,
    low: &Expression,
    high: &Expression,
    t: AdaType,
) -> Subtype
    ensures { result ≡ range_if_static known.now low.now high.now t }
{
    let names = known.names.get();
    Subtype {
        of_type: t,
        range: range_between(
            static_value(names, low),
            static_value(names, high),
            Constraint::Free,
        ),
    }
}

/// A loop parameter of this type.
#[tactic(auto, unfolding(ada_legality::specs::SimpleStatements::loop_parameter))]
fn loop_parameter(
    known: &Known<'_, '_>,
    name: &Identifier,
    low: &Expression,
    high: &Expression,
    t: AdaType,
) -> LoopParameter
    ensures { result ≡ loop_parameter known.now name.now low.now high.now t }
{
    LoopParameter {
        entity: entity_denoted(known.names.get(), name.place).unwrap_or(0),
        subtype: Some(range_if_static(known, low, high, t)),
    }
}

/// What is known behind the head of a loop.
#[tactic(auto, unfolding(ada_legality::specs::SimpleStatements::with_iteration))]
pub fn with_iteration<'n, 't>(
    alloc: Global,
    known: &Known<'n, 't>,
    iteration: &Iteration,
) -> Result<Known<'n, 't>, NoMemory>
    ensures { IfOk result (λ inside. inside ≡ with_iteration iteration.now known.now) }
{
    match iteration {
        Iteration::Forever => copy_of(known),
        Iteration::While { .. } => copy_of(known),
        Iteration::For {
            parameter,
            low,
            high,
            ..
        } => {
            let t = type_between(alloc, known, low, high)?;
            with_loop(known, loop_parameter(known, parameter, low, high, t))
        }
    }
}

/// The head of a `for` loop.
#[tactic(auto, unfolding(ada_legality::specs::SimpleStatements::iteration_found))]
fn for_found(
    alloc: Global,
    found: &mut List<Finding>,
    known: &Known<'_, '_>,
    place: Place,
    name: &Identifier,
    low: &Expression,
    high: &Expression,
) -> Result<(), NoMemory>
    ensures { OnOk result
        (found.new
        ≡ found.old
        ++ iteration_found place (iteration.For place name.now false low.now high.now) known.now) }
{
    cells_noted(found, known, name, place)?;
    let first = low.read(alloc, found, known)?;
    let last = high.read(alloc, found, known)?;
    let t = type_of_bounds(first.typed, last.typed);
    expected(found, Asked::ForValue, Some(t), &first)?;
    expected(found, Asked::ForValue, Some(t), &last)
}

/// How a loop goes on.
#[tactic(auto, unfolding(ada_legality::specs::SimpleStatements::iteration_found))]
pub fn iteration_found(
    alloc: Global,
    found: &mut List<Finding>,
    known: &Known<'_, '_>,
    place: Place,
    iteration: &Iteration,
) -> Result<(), NoMemory>
    ensures { OnOk result (found.new ≡ found.old ++ iteration_found place iteration.now known.now) }
{
    match iteration {
        Iteration::Forever => Ok(()),
        Iteration::While { condition, .. } => condition_found(alloc, found, known, condition),
        Iteration::For {
            parameter,
            low,
            high,
            ..
        } => for_found(alloc, found, known, place, parameter, low, high),
    }
}

/// A guard.
pub fn guard_found(
    alloc: Global,
    found: &mut List<Finding>,
    known: &Known<'_, '_>,
    guard: &Guard,
) -> Result<(), NoMemory>
    ensures { OnOk result (found.new ≡ found.old ++ guard_found guard.now known.now) }
{
    condition_found(alloc, found, known, &guard.condition)
}

/// A trigger: it calls an entry.
#[tactic(auto, unfolding(ada_legality::specs::SimpleStatements::trigger_found))]
pub fn trigger_found(
    alloc: Global,
    found: &mut List<Finding>,
    known: &Known<'_, '_>,
    trigger: &Trigger,
) -> Result<(), NoMemory>
    ensures { OnOk result (found.new ≡ found.old ++ trigger_found trigger.now known.now) }
{
    match trigger {
        Trigger::Call(call) => {
            call_found(alloc, found, known, call)?;
            let kept = names_entry(known, &call.name);
            broken_unless(found, Rule::AsynchronousSelect, kept, place_of(&call.name))
        }
        Trigger::Delay(delay) => delay_found(alloc, found, known, delay),
    }
}

/// The call of a timed or conditional call: of an entry.
#[tactic(auto, unfolding(ada_legality::specs::SimpleStatements::entry_call_found))]
pub fn entry_call_found(
    alloc: Global,
    found: &mut List<Finding>,
    known: &Known<'_, '_>,
    call: &Call,
) -> Result<(), NoMemory>
    ensures { OnOk result (found.new ≡ found.old ++ entry_call_found call.now known.now) }
{
    call_found(alloc, found, known, call)?;
    let kept = names_entry(known, &call.name);
    broken_unless(
        found,
        Rule::EntryCallAlternative,
        kept,
        place_of(&call.name),
    )
}
