//! Results of a call that are copied back (ISO/IEC 8652:2012, 6.4.1).
ghost use Rattle.std.specs.Prelude.{◌≡◌};
ghost use Rattle.profile_machine.specs.CallEnds.{store, copy_back, outcome_of, with_results};
ghost use Rattle.machine_scopes.specs.Stored.{Stores, StoresOnly};

use crate::write_cell;
use ann_base::{OrMemory, Raised};
use machine_operators::checked;
use machine_program::{Program, declaration_of};
use profile_image::Value;
use profile_machine::world::{Call, Outcome, Variable, World};
use world_tables::List;

// The value is stored in the variable, unless it is out of the variable's range.
fn stored(p: &Program, v: Variable, value: Value, world: &mut World) -> Result<(), Raised>
    ensures { StoresOnly result (store p.now v value world.old) world.old world.new }
{
    match checked(declaration_of(p, v.declared).constraint, value) {
        Ok(value) => {
            write_cell(world, v.within, v.place, value);
            Ok(())
        }
        Err(raised) => Err(raised),
    }
}

/// The value is stored in the variable.
///
/// Errors: `Fault` with Constraint_Error where the value is out of the variable's range; the world
/// is then as it was. Memory never runs out.
pub fn store(
    p: &Program,
    v: Variable,
    value: Value,
    world: &mut World,
) -> Result<(), OrMemory<Raised>>
    ensures { Stores result (store p.now v value world.old) world.old world.new }
{
    match stored(p, v, value, world) {
        Ok(()) => Ok(()),
        Err(raised) => Err(OrMemory::Fault(raised)),
    }
}

// The values are stored in the variables that get them, up to the first that is out of its range.
// Answers whether all were.
fn copy_back(
    p: &Program,
    results: &List<Option<Variable>>,
    values: &List<Value>,
    world: &mut World,
) -> bool
    ensures { copy_back p.now results.now values.now world.old ≡ (world.new, result) }
{
    let mut handed = values.iter();
    for target in results.iter() {
        let Some(value) = handed.next() else {
            return true;
        };
        if let Some(target) = target {
            if stored(p, *target, *value, world).is_err() {
                return false;
            }
        }
    }
    true
}

fn outcome_of(copied: bool) -> Outcome
    ensures { result ≡ outcome_of copied }
{
    if copied {
        Outcome::Finished
    } else {
        Outcome::ToRaise(Raised::Constraint)
    }
}

/// A call that ended well gives its results, up to the first that is out of its variable's range;
/// where there is one, Constraint_Error is to be raised.
pub fn with_results(p: &Program, call: &Call, outcome: Outcome, world: &mut World) -> Outcome
    ensures { with_results p.now call.now outcome world.old ≡ (world.new, result) }
{
    match outcome {
        Outcome::Finished => outcome_of(copy_back(p, &call.results, &call.values, world)),
        Outcome::Cancelled => Outcome::Cancelled,
        Outcome::ToRaise(exception) => Outcome::ToRaise(exception),
        Outcome::WasRaised(exception) => Outcome::WasRaised(exception),
    }
}
