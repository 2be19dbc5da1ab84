//! Actuals of declared subprograms and entries, in the order of the formals (ISO/IEC 8652:2012,
//! 6.4.1).
ghost use Rattle.std.specs.Prelude.{◌≡◌, OnOk, option_copied};
ghost use Rattle.ada_image.specs.Made.{Made};
ghost use Rattle.ada_image.specs.ImageOfCalls.{in_made, out_made, in_out_made, mode_made};
ghost use Rattle.ada_image.specs.ImageOfCalls.{thing_actual, actual_made, arguments_made};
ghost use Rattle.image_actuals.specs.Added.{Added, actual_if};

use crate::targets::variable_in;
use ada_image::{Lists, Within};
use ada_regions::{Formal, Mode};
use ada_tree::{Argument, Expression};
use ann_base::NoMemory;
use image_expressions::{expression_made, named};
use image_layout::{argument_from, subtype_is_thing};
use image_names::thing_in;
use profile_image::{Actual, Actuals};
use std::alloc::Global;

/// An actual of mode `in`.
#[tactic(auto, unfolding(ada_image::specs::ImageOfCalls::in_made))]
fn in_made(
    lists: &mut Lists,
    within: &Within<'_, '_>,
    expression: &Expression,
) -> Result<Actual, NoMemory>
    ensures { Made (in_made within.now expression.now) lists.old lists.new result }
{
    let value = expression_made(lists, expression, within)?;
    Ok(Actual::In(value))
}

/// An actual of mode `out`.
#[tactic(auto, unfolding(ada_image::specs::ImageOfCalls::out_made))]
fn out_made(
    lists: &mut Lists,
    within: &Within<'_, '_>,
    expression: &Expression,
) -> Result<Actual, NoMemory>
    ensures { Made (out_made within.now expression.now) lists.old lists.new result }
{
    let variable = variable_in(lists, within, expression)?;
    Ok(Actual::Out(variable))
}

/// An actual of mode `in out`.
#[tactic(auto, unfolding(ada_image::specs::ImageOfCalls::in_out_made))]
fn in_out_made(
    lists: &mut Lists,
    within: &Within<'_, '_>,
    expression: &Expression,
) -> Result<Actual, NoMemory>
    ensures { Made (in_out_made within.now expression.now) lists.old lists.new result }
{
    let variable = variable_in(lists, within, expression)?;
    Ok(Actual::InOut(variable))
}

/// An actual of this mode.
#[tactic(auto, unfolding(ada_image::specs::ImageOfCalls::mode_made))]
fn mode_made(
    lists: &mut Lists,
    within: &Within<'_, '_>,
    mode: Mode,
    expression: &Expression,
) -> Result<Actual, NoMemory>
    ensures { Made (mode_made within.now mode expression.now) lists.old lists.new result }
{
    match mode {
        Mode::In => in_made(lists, within, expression),
        Mode::Out => out_made(lists, within, expression),
        Mode::InOut => in_out_made(lists, within, expression),
    }
}

/// An actual that stands for itself.
#[tactic(auto, unfolding(ada_image::specs::ImageOfCalls::thing_actual))]
fn thing_actual(within: &Within<'_, '_>, expression: &Expression) -> Actual
    ensures { result ≡ thing_actual within.now expression.now }
{
    Actual::Thing(thing_in(within, named(expression)))
}

/// The actual for a formal.
#[tactic(auto, unfolding(ada_image::specs::ImageOfCalls::actual_made))]
fn actual_made(
    lists: &mut Lists,
    within: &Within<'_, '_>,
    formal: &Formal,
    expression: &Expression,
) -> Result<Actual, NoMemory>
    ensures { Made (actual_made within.now formal.now expression.now) lists.old lists.new result }
{
    if subtype_is_thing(formal.subtype) {
        Ok(thing_actual(within, expression))
    } else {
        mode_made(lists, within, formal.mode, expression)
    }
}

/// Adds the actual for a formal, where there is one.
fn push_actual(
    lists: &mut Lists,
    actuals: &mut Actuals,
    within: &Within<'_, '_>,
    formal: &Formal,
    argument: Option<&Expression>,
) -> Result<(), NoMemory>
    ensures { OnOk result
        (Added (actual_if within.now formal.now (option_copied argument.entry)) lists.old lists.new
        actuals.old actuals.new) }
{
    match argument {
        None => Ok(()),
        Some(argument) => {
            let actual = actual_made(lists, within, formal, argument)?;
            actuals.push(actual)?;
            Ok(())
        }
    }
}

/// The actuals of a call, in the order of the formals.
#[tactic(auto, using(crate::proofs::ActualLemmas::actuals_more), unfolding(ada_image::specs::ImageOfCalls::arguments_made, ada_image::specs::ImageOfCalls::actuals_made, ada_image::specs::ImageOfExpressions::actuals_for))]
pub fn arguments_made(
    alloc: Global,
    lists: &mut Lists,
    within: &Within<'_, '_>,
    formals: &[Formal],
    arguments: &[Argument<Expression>],
) -> Result<Actuals, NoMemory>
    ensures { Made (arguments_made within.now formals.now arguments.now) lists.old lists.new
        result }
{
    let mut actuals = Actuals::new(alloc);
    for (place, formal) in formals.iter().enumerate() {
        let argument = argument_from(place, formal.name.as_slice(), arguments);
        push_actual(lists, &mut actuals, within, formal, argument)?;
    }
    Ok(actuals)
}
