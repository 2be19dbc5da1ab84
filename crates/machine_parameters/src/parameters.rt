//! What a call hands over, and where its result goes (ISO/IEC 8652:2012, 6.4.1).
ghost use Rattle.std.specs.Prelude.{◌≡◌, ◌+◌, drop};
ghost use Rattle.ann_base.specs.Answers.{Answers};
ghost use Rattle.profile_machine.specs.Subprograms.{nothing_handed, hand_value, hand_back};
ghost use Rattle.profile_machine.specs.Subprograms.{hand_thing, hand_over, handed, result_to};

use ann_base::{OrMemory, Raised};
use machine_operators::checked;
use machine_values::{Seen, located, object_cell, or_raised, read, thing, value, variable};
use profile_image::{Actual, Destination, Formal, ObjectName, Value};
use profile_machine::world::{CopyBack, Handed, Located, ResultTo, Variable};
use std::alloc::Global;
use world_tables::List;

fn nothing_handed(alloc: Global) -> Handed
    ensures { result ≡ nothing_handed }
{
    Handed {
        values: List::new(alloc),
        back: List::new(alloc),
        subject: None,
    }
}

fn hand_value(value: Value, rest: Handed) -> Result<Handed, OrMemory<Raised>>
    ensures { Answers result (hand_value value rest) }
{
    let mut values = rest.values;
    values.push_front(value)?;
    Ok(Handed {
        values,
        back: rest.back,
        subject: rest.subject,
    })
}

fn hand_back(
    place: u32,
    target: Variable,
    value: Value,
    rest: Handed,
) -> Result<Handed, OrMemory<Raised>>
    ensures { Answers result (hand_back place target value rest) }
{
    let mut values = rest.values;
    let mut back = rest.back;
    values.push_front(value)?;
    back.push_front(CopyBack { place, target })?;
    Ok(Handed {
        values,
        back,
        subject: rest.subject,
    })
}

fn hand_thing(value: Value, l: Located, rest: Handed) -> Result<Handed, OrMemory<Raised>>
    ensures { Answers result (hand_thing value l rest) }
{
    let mut values = rest.values;
    values.push_front(value)?;
    Ok(Handed {
        values,
        back: rest.back,
        subject: Some(l),
    })
}

// One parameter, and then the others.
#[cycle(handed)]
fn hand_over(
    alloc: Global,
    q: &Seen<'_>,
    place: u32,
    formals: &[Formal],
    actuals: &[Actual],
    f: Formal,
    a: Actual,
) -> Result<Handed, OrMemory<Raised>>
    ensures { Answers result
        (hand_over q.now place f a
        (handed q.now (place + 1) (drop (place + 1) formals.now) (drop (place + 1) actuals.now))) }
{
    match a {
        Actual::In(e) => {
            let v = or_raised(checked(f.constraint, value(q, e)?))?;
            hand_value(v, handed_behind(alloc, q, place, formals, actuals)?)
        }
        Actual::InOut(name) => {
            let x = variable(q, name)?;
            let v = or_raised(checked(f.constraint, read(q.world, x)))?;
            hand_back(
                place,
                x,
                v,
                handed_behind(alloc, q, place, formals, actuals)?,
            )
        }
        Actual::Out(name) => {
            let x = variable(q, name)?;
            hand_back(
                place,
                x,
                f.initial,
                handed_behind(alloc, q, place, formals, actuals)?,
            )
        }
        Actual::Thing(d) => {
            let v = or_raised(thing(q, d))?;
            let l = or_raised(located(q, d))?;
            hand_thing(v, l, handed_behind(alloc, q, place, formals, actuals)?)
        }
    }
}

#[cycle(handed)]
fn handed_behind(
    alloc: Global,
    q: &Seen<'_>,
    place: u32,
    formals: &[Formal],
    actuals: &[Actual],
) -> Result<Handed, OrMemory<Raised>>
    ensures { Answers result
        (handed q.now (place + 1) (drop (place + 1) formals.now) (drop (place + 1) actuals.now)) }
{
    let next = place.checked_add(1).ok_or(OrMemory::Memory)?;
    handed_from(alloc, q, next, formals, actuals)
}

// The parameters from this place on.
#[cycle(handed)]
#[tactic(auto, using(crate::proofs::ParameterLemmas::handed_laws))]
fn handed_from(
    alloc: Global,
    q: &Seen<'_>,
    place: u32,
    formals: &[Formal],
    actuals: &[Actual],
) -> Result<Handed, OrMemory<Raised>>
    ensures { Answers result
        (handed q.now place (drop place formals.now) (drop place actuals.now)) }
{
    match formals.get(place as usize) {
        Some(formal) => match actuals.get(place as usize) {
            Some(actual) => hand_over(alloc, q, place, formals, actuals, *formal, *actual),
            None => Ok(nothing_handed(alloc)),
        },
        None => Ok(nothing_handed(alloc)),
    }
}

/// What a call hands over: scalars are copied in, from left to right, and other objects stand for
/// themselves.
///
/// Errors: `Fault` with the exception that the evaluation raises, `Constraint` for a value out of
/// its formal's range.
pub fn handed(
    alloc: Global,
    q: &Seen<'_>,
    formals: &[Formal],
    actuals: &[Actual],
) -> Result<Handed, OrMemory<Raised>>
    ensures { Answers result (handed q.now 0 formals.now actuals.now) }
{
    handed_from(alloc, q, 0, formals, actuals)
}

/// Where the result of a call goes. It is found before the parameters are evaluated.
///
/// Errors: `Fault` with the exception that the evaluation of the variable's name raises.
pub fn result_to(q: &Seen<'_>, to: Destination) -> Result<ResultTo, OrMemory<Raised>>
    ensures { Answers result (result_to q.now to) }
{
    match to {
        Destination::Nowhere => Ok(ResultTo::Nowhere),
        Destination::Variable(name) => Ok(ResultTo::Variable(variable(q, name)?)),
        Destination::Declaration(d) => {
            Ok(ResultTo::Variable(object_cell(q, ObjectName::Declared(d))?))
        }
        Destination::Return(f) => Ok(ResultTo::Return(f)),
    }
}
