//! Values, conditions, and what is not static (ISO/IEC 8652:2012, 4.9, 5.3, 8.6).
ghost use Rattle.std.specs.Prelude.{◌≡◌, ◌++◌, OnOk};
ghost use Rattle.ada_legality.specs.CallStatements.{found_if, value_found, value_alone_found};
ghost use Rattle.ada_legality.specs.CallStatements.{condition_found, not_static};

use ada_legality::{Asked, Finding, Known, Rule};
use ada_regions::AdaType;
use ada_tree::Expression;
use ann_base::{NoMemory, Place};
use legality_choices::number_of_expression;
use legality_expressions::Readable;
use legality_reads::{expected, fitted};
use legality_types::broken_unless;
use std::alloc::Global;
use world_tables::List;

/// A value, in which a function's call may not stand.
#[tactic(auto, unfolding(ada_legality::specs::CallStatements::value_found))]
pub fn value_found(
    alloc: Global,
    found: &mut List<Finding>,
    known: &Known<'_, '_>,
    t: Option<AdaType>,
    expression: &Expression,
) -> Result<(), NoMemory>
    ensures { OnOk result (found.new ≡ found.old ++ value_found t expression.now known.now) }
{
    let read = expression.read(alloc, found, known)?;
    expected(found, Asked::ForValue, t, &read)
}

/// A value, where one is given.
pub fn value_found_if(
    alloc: Global,
    found: &mut List<Finding>,
    known: &Known<'_, '_>,
    t: Option<AdaType>,
    expression: &Option<Expression>,
) -> Result<(), NoMemory>
    ensures { OnOk result
        (found.new ≡ found.old ++ found_if (value_found t) expression.now known.now) }
{
    match expression {
        None => Ok(()),
        Some(expression) => value_found(alloc, found, known, t, expression),
    }
}

/// A value that may be a function's call.
#[tactic(auto, unfolding(ada_legality::specs::CallStatements::value_alone_found))]
fn value_alone_found(
    alloc: Global,
    found: &mut List<Finding>,
    known: &Known<'_, '_>,
    t: Option<AdaType>,
    expression: &Expression,
) -> Result<(), NoMemory>
    ensures { OnOk result (found.new ≡ found.old ++ value_alone_found t expression.now known.now) }
{
    let read = expression.read(alloc, found, known)?;
    fitted(found, Asked::ForValue, t, &read)
}

/// A value that may be a function's call, where one is given.
pub fn value_alone_found_if(
    alloc: Global,
    found: &mut List<Finding>,
    known: &Known<'_, '_>,
    t: Option<AdaType>,
    expression: &Option<Expression>,
) -> Result<(), NoMemory>
    ensures { OnOk result
        (found.new ≡ found.old ++ found_if (value_alone_found t) expression.now known.now) }
{
    match expression {
        None => Ok(()),
        Some(expression) => value_alone_found(alloc, found, known, t, expression),
    }
}

/// A condition: Boolean.
#[tactic(auto, unfolding(ada_legality::specs::CallStatements::condition_found))]
pub fn condition_found(
    alloc: Global,
    found: &mut List<Finding>,
    known: &Known<'_, '_>,
    expression: &Expression,
) -> Result<(), NoMemory>
    ensures { OnOk result (found.new ≡ found.old ++ condition_found expression.now known.now) }
{
    let read = expression.read(alloc, found, known)?;
    expected(found, Asked::ForCondition, Some(AdaType::Boolean), &read)
}

/// An expression that is not static.
pub fn not_static(
    found: &mut List<Finding>,
    rule: Rule,
    known: &Known<'_, '_>,
    expression: &Expression,
    place: Place,
) -> Result<(), NoMemory>
    ensures { OnOk result
        (found.new ≡ found.old ++ not_static rule known.now expression.now place) }
{
    let kept = number_of_expression(known, expression)?.is_some();
    broken_unless(found, rule, kept, place)
}
