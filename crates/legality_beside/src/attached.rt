//! Attached handlers and their interrupts (C.3.1, D.3).
ghost use Rattle.std.specs.Prelude.{◌≡◌, ◌++◌, ◌≤◌, length, take, OnOk};
ghost use Rattle.std.specs.List.{flat_map, list_any};
ghost use Rattle.ada_legality.specs.WholeSource.{is_attached_in, has_attached, same_numbers};
ghost use Rattle.ada_legality.specs.WholeSource.{clashes_with, clashes, place_for};
ghost use Rattle.ada_legality.specs.WholeSource.{handler_of_object, handlers_of_object};
ghost use Rattle.ada_legality.specs.WholeSource.{is_attached_number, takes_number};
ghost use Rattle.ada_legality.specs.WholeSource.{taken_number, numbers_of_object};

use crate::findings::before_place;
use ada_entities::same_place;
use ada_legality::{Attached, Finding, Number, ProtectedObject, Rule};
use ann_base::{NoMemory, Place};
use legality_choices::same_number;
use legality_types::broken_if;
use world_tables::List;

fn is_attached_in(unit: u32, finding: &Finding) -> bool
    ensures { result ≡ is_attached_in unit finding.now }
{
    match finding {
        Finding::Attached(attached) => attached.unit == unit && attached.number.is_some(),
        _ => false,
    }
}

/// Whether a handler is attached to an interrupt in this unit.
#[tactic(auto, unfolding(ada_legality::specs::WholeSource::has_attached))]
pub(crate) fn has_attached(found: &[Finding], unit: u32) -> bool
    ensures { result ≡ has_attached found.now unit }
{
    found.iter().any(|finding| is_attached_in(unit, finding))
}

fn same_numbers(a: Option<Number>, b: Option<Number>) -> bool
    ensures { result ≡ same_numbers a b }
{
    match a {
        None => false,
        Some(a) => match b {
            None => false,
            Some(b) => same_number(a, b),
        },
    }
}

/// Whether two attachments are of one procedure or one number, in one unit.
fn clashes_with(a: &Attached, b: &Attached) -> bool
    ensures { result ≡ clashes_with a.now b.now }
{
    a.unit == b.unit && (same_place(a.procedure, b.procedure) || same_numbers(a.number, b.number))
}

fn clashes(attached: &Attached, finding: &Finding) -> bool
    ensures { result ≡ clashes attached.now finding.now }
{
    match finding {
        Finding::Attached(other) => clashes_with(attached, other),
        _ => false,
    }
}

/// Whether an attachment clashes with one before it.
pub(crate) fn clashes_before(found: &[Finding], at: usize, attached: &Attached) -> bool
    requires { at ≤ length found.now }
    ensures { result ≡ list_any (clashes attached.now) (take at found.now) }
{
    before_place(found, at)
        .iter()
        .any(|finding| clashes(attached, finding))
}

/// Where a rule on an object is broken: a single one at the procedure, another one where it is
/// declared.
fn place_for(object: &ProtectedObject, single: Place) -> Place
    ensures { result ≡ place_for object.now single }
{
    if object.single { single } else { object.place }
}

/// An attached handler of an object outside library packages.
fn handler_of_object(
    judged: &mut List<Finding>,
    object: &ProtectedObject,
    finding: &Finding,
) -> Result<(), NoMemory>
    ensures { OnOk result (judged.new ≡ judged.old ++ handler_of_object object.now finding.now) }
{
    match finding {
        Finding::Attached(attached) => broken_if(
            judged,
            Rule::HandlerProcedure,
            attached.unit == object.unit,
            place_for(object, attached.procedure),
        ),
        _ => Ok(()),
    }
}

fn all_handlers(
    judged: &mut List<Finding>,
    found: &[Finding],
    object: &ProtectedObject,
) -> Result<(), NoMemory>
    ensures { OnOk result
        (judged.new ≡ judged.old ++ flat_map (handler_of_object object.now) found.now) }
{
    for finding in found {
        handler_of_object(judged, object, finding)?;
    }
    Ok(())
}

/// The attached handlers of an object are library-level.
#[tactic(auto, unfolding(ada_legality::specs::WholeSource::handlers_of_object))]
pub(crate) fn handlers_of_object(
    judged: &mut List<Finding>,
    found: &[Finding],
    object: &ProtectedObject,
) -> Result<(), NoMemory>
    ensures { OnOk result (judged.new ≡ judged.old ++ handlers_of_object found.now object.now) }
{
    if object.is_library {
        Ok(())
    } else {
        all_handlers(judged, found, object)
    }
}

fn is_attached_number(number: Option<Number>, unit: u32, finding: &Finding) -> bool
    ensures { result ≡ is_attached_number number unit finding.now }
{
    match finding {
        Finding::Attached(attached) => {
            attached.unit == unit && same_numbers(number, attached.number)
        }
        _ => false,
    }
}

fn has_attached_number(found: &[Finding], number: Option<Number>, unit: u32) -> bool
    ensures { result ≡ list_any (is_attached_number number unit) found.now }
{
    found
        .iter()
        .any(|finding| is_attached_number(number, unit, finding))
}

/// Whether an object takes this number.
fn takes_number(found: &[Finding], number: Option<Number>, finding: &Finding) -> bool
    ensures { result ≡ takes_number found.now number finding.now }
{
    match finding {
        Finding::ProtectedObject(object) => has_attached_number(found, number, object.unit),
        _ => false,
    }
}

fn any_takes(found: &[Finding], before: &[Finding], number: Option<Number>) -> bool
    ensures { result ≡ list_any (takes_number found.now number) before.now }
{
    before
        .iter()
        .any(|finding| takes_number(found, number, finding))
}

/// An attachment whose number an object before takes.
#[tactic(auto, unfolding(ada_legality::specs::WholeSource::taken_number))]
fn taken_number(
    judged: &mut List<Finding>,
    found: &[Finding],
    before: &[Finding],
    object: &ProtectedObject,
    finding: &Finding,
) -> Result<(), NoMemory>
    ensures { OnOk result
        (judged.new ≡ judged.old ++ taken_number found.now before.now object.now finding.now) }
{
    match finding {
        Finding::Attached(attached) => {
            let taken = attached.unit == object.unit && any_takes(found, before, attached.number);
            broken_if(
                judged,
                Rule::AttachedInterrupt,
                taken,
                place_for(object, attached.aspect),
            )
        }
        _ => Ok(()),
    }
}

/// The interrupts of an object, of which those before take none.
#[tactic(auto, unfolding(ada_legality::specs::WholeSource::numbers_of_object))]
pub(crate) fn numbers_of_object(
    judged: &mut List<Finding>,
    found: &[Finding],
    before: &[Finding],
    object: &ProtectedObject,
) -> Result<(), NoMemory>
    ensures { OnOk result
        (judged.new ≡ judged.old ++ numbers_of_object found.now before.now object.now) }
{
    for finding in found {
        taken_number(judged, found, before, object, finding)?;
    }
    Ok(())
}
