//! Actuals and formals by number and name (ISO/IEC 8652:2012, 6.4.1).
ghost use Rattle.std.specs.Prelude.{◌≡◌, ◌++◌, ◌≤◌, ◌||◌, length, take, OnOk};
ghost use Rattle.ada_legality.specs.Calls.{gives_name, is_formal_named, names_formal};
ghost use Rattle.ada_legality.specs.Calls.{formal_at, given_in_place, given_before};
ghost use Rattle.ada_legality.specs.Calls.{some_are_named, is_for_a_formal, stray_actuals};
ghost use Rattle.ada_legality.specs.Calls.{is_misnamed, some_are_misnamed, is_given};
ghost use Rattle.ada_legality.specs.Calls.{all_given, wrong_actuals, is_for, actual_from};
ghost use Rattle.legality_calls.specs.Along.{actual_along, given_along};
ghost use Rattle.legality_calls.specs.Along.{misnamed_along, stray_along};

use crate::moments::gives_name;
use ada_legality::{ActualPart, Finding, FormalPart, Read, Rule};
use ann_base::{NoMemory, Place};
use legality_types::broken_unless;
use world_tables::List;

/// A formal has this name.
pub(crate) fn is_formal_named(name: &[u8], formal: &FormalPart) -> bool
    ensures { result ≡ is_formal_named name.now formal.now }
{
    formal.name.as_slice() == name
}

/// A name is one of the formals'.
fn names_formal(formals: &[FormalPart], name: &[u8]) -> bool
    ensures { result ≡ names_formal formals.now name.now }
{
    formals.iter().any(|formal| is_formal_named(name, formal))
}

/// The name of the formal in this place.
fn formal_at(formals: &[FormalPart], place: usize) -> &[u8]
    ensures { result.now ≡ formal_at formals.now place }
{
    match formals.get(place) {
        None => b"",
        Some(formal) => formal.name.as_slice(),
    }
}

/// An actual gives the formal of this name by its place.
fn given_in_place(formals: &[FormalPart], actual: &ActualPart, place: usize, name: &[u8]) -> bool
    ensures { result ≡ given_in_place formals.now actual.now place name.now }
{
    match actual.formal {
        Some(_) => false,
        None => formal_at(formals, place) == name,
    }
}

/// An actual in this place gives the formal of this name.
fn gives(formals: &[FormalPart], actual: &ActualPart, place: usize, name: &[u8]) -> bool
    ensures { result
        ≡ (gives_name name.now actual.now || given_in_place formals.now actual.now place name.now) }
{
    gives_name(name, actual) || given_in_place(formals, actual, place, name)
}

/// Those before give the formal of this name already, one actual at a time.
fn given_along(formals: &[FormalPart], before: &[ActualPart], name: &[u8]) -> bool
    ensures { result ≡ given_along formals.now before.now 0 name.now }
{
    let mut at = 0;
    for actual in before {
        if gives(formals, actual, at, name) {
            return true;
        }
        at += 1;
    }
    false
}

/// Those before give the formal of this name already, in its place or by its name.
#[tactic(auto, using(crate::proofs::AlongIs::given_is))]
fn given_before(formals: &[FormalPart], before: &[ActualPart], name: &[u8]) -> bool
    ensures { result ≡ given_before formals.now before.now 0 name.now }
{
    given_along(formals, before, name)
}

/// A name stands before.
fn some_are_named(before: &[ActualPart]) -> bool
    ensures { result ≡ some_are_named before.now }
{
    before.iter().any(|actual| actual.formal.is_some())
}

/// An actual with this name is for one formal, which no other before it is for.
#[tactic(auto, unfolding(ada_legality::specs::Calls::is_for_a_formal))]
fn is_for_a_formal(formals: &[FormalPart], before: &[ActualPart], actual: &ActualPart) -> bool
    ensures { result ≡ is_for_a_formal formals.now before.now actual.now.formal }
{
    match &actual.formal {
        None => !some_are_named(before) && before.len() < formals.len(),
        Some(name) => {
            names_formal(formals, name.as_slice())
                && !given_before(formals, before, name.as_slice())
        }
    }
}

/// The actuals before a place.
fn before_place(actuals: &[ActualPart], place: usize) -> &[ActualPart]
    requires { place ≤ length actuals.now }
    ensures { result.now ≡ take place actuals.now }
{
    actuals.split_at(place).0
}

/// The actuals that are for no formal, one actual at a time.
fn stray_along(
    found: &mut List<Finding>,
    formals: &[FormalPart],
    actuals: &[ActualPart],
) -> Result<(), NoMemory>
    ensures { OnOk result
        (found.new ≡ found.old ++ stray_along formals.now actuals.now 0 actuals.now) }
{
    let mut at = 0;
    for actual in actuals {
        let kept = is_for_a_formal(formals, before_place(actuals, at), actual);
        broken_unless(found, Rule::Actuals, kept, actual.place)?;
        at += 1;
    }
    Ok(())
}

/// The actuals that are for no formal.
#[tactic(auto, using(crate::proofs::AlongIs::stray_is))]
fn stray_actuals(
    found: &mut List<Finding>,
    formals: &[FormalPart],
    actuals: &[ActualPart],
) -> Result<(), NoMemory>
    ensures { OnOk result
        (found.new ≡ found.old ++ stray_actuals formals.now actuals.now 0 actuals.now) }
{
    stray_along(found, formals, actuals)
}

/// An actual that has a name and no formal, or that stands in no place.
#[tactic(auto, unfolding(ada_legality::specs::Calls::is_misnamed))]
fn is_misnamed(formals: &[FormalPart], before: &[ActualPart], actual: &ActualPart) -> bool
    ensures { result ≡ is_misnamed formals.now before.now actual.now.formal }
{
    match actual.formal {
        None => some_are_named(before),
        Some(_) => !is_for_a_formal(formals, before, actual),
    }
}

/// Some actual is misnamed, one actual at a time.
fn misnamed_along(formals: &[FormalPart], actuals: &[ActualPart]) -> bool
    ensures { result ≡ misnamed_along formals.now actuals.now 0 actuals.now }
{
    let mut at = 0;
    for actual in actuals {
        if is_misnamed(formals, before_place(actuals, at), actual) {
            return true;
        }
        at += 1;
    }
    false
}

/// Some actual is misnamed.
#[tactic(auto, using(crate::proofs::AlongIs::misnamed_is))]
fn some_are_misnamed(formals: &[FormalPart], actuals: &[ActualPart]) -> bool
    ensures { result ≡ some_are_misnamed formals.now actuals.now 0 actuals.now }
{
    misnamed_along(formals, actuals)
}

/// A formal has its actual, or may be omitted.
fn is_given(formals: &[FormalPart], actuals: &[ActualPart], formal: &FormalPart) -> bool
    ensures { result ≡ is_given formals.now actuals.now formal.now }
{
    formal.may_be_omitted || given_before(formals, actuals, formal.name.as_slice())
}

/// Each formal has its actual.
#[tactic(auto, unfolding(ada_legality::specs::Calls::all_given))]
fn all_given(formals: &[FormalPart], actuals: &[ActualPart]) -> bool
    ensures { result ≡ all_given formals.now actuals.now }
{
    formals
        .iter()
        .all(|formal| is_given(formals, actuals, formal))
}

/// Actuals that do not fit formals by number and name: a stray one, and the call where some are too
/// few.
#[tactic(auto, unfolding(ada_legality::specs::Calls::wrong_actuals))]
pub fn wrong_actuals(
    found: &mut List<Finding>,
    call: Place,
    formals: &[FormalPart],
    actuals: &[ActualPart],
) -> Result<(), NoMemory>
    ensures { OnOk result (found.new ≡ found.old ++ wrong_actuals call formals.now actuals.now) }
{
    let kept = all_given(formals, actuals) || some_are_misnamed(formals, actuals);
    broken_unless(found, Rule::Actuals, kept, call)?;
    stray_actuals(found, formals, actuals)
}

/// An actual in this place is for the formal of this number and name.
fn is_for(number: usize, name: &[u8], place: usize, actual: &ActualPart) -> bool
    ensures { result ≡ is_for number name.now place actual.now.formal }
{
    match &actual.formal {
        None => place == number,
        Some(formal) => formal.as_slice() == name,
    }
}

/// The actual for a formal, one actual at a time.
fn actual_along(number: usize, name: &[u8], actuals: &[ActualPart]) -> Option<Read>
    ensures { result ≡ actual_along number name.now 0 actuals.now }
{
    let mut at = 0;
    for actual in actuals {
        if is_for(number, name, at, actual) {
            return Some(actual.read);
        }
        at += 1;
    }
    None
}

/// The actual for a formal, if it is there.
#[tactic(auto, using(crate::proofs::AlongIs::actual_is))]
pub fn actual_from(number: usize, name: &[u8], actuals: &[ActualPart]) -> Option<Read>
    ensures { result ≡ actual_from number name.now 0 actuals.now }
{
    actual_along(number, name, actuals)
}
