//! Calls of protected operations (ISO/IEC 8652:2012, 9.5.1).
ghost use Rattle.std.specs.Prelude.{◌≡◌, OnOk};
ghost use Rattle.profile_machine.specs.Values.{own_object, seen_by};
ghost use Rattle.profile_image.specs.Program.{marks_of, scope_of, subprogram_of};
ghost use Rattle.profile_machine.specs.Subprograms.{handing};
ghost use Rattle.profile_machine.specs.Protected.{mode_of, where_let_inside, begin_operation};
ghost use Rattle.profile_machine.specs.Protected.{has_object_open, call_operation_of};
ghost use Rattle.profile_machine.specs.Protected.{call_operation, begin_own_operation};
ghost use Rattle.profile_machine.specs.Protected.{unit_of_operation, call_own_operation};
ghost use Rattle.machine_frames.specs.Did.{Did};
ghost use Rattle.machine_protected.specs.Operations.{own_operation};

use ann_base::{NoMemory, ObjectNo, Raised};
use machine_exclusion::{
    begin_action_on, body_of_object, entering, find_held, has_open, marks_of_action, outer_of_body,
};
use machine_frames::{Effect, goes, has_room, object_of, raises, refused};
use machine_parameters::{begin_body, handed, result_to};
use machine_program::{Program, marks_of, next_of, scope_of, subprogram_of};
use machine_scopes::open_scope;
use machine_values::{object_number, own_object, seen_by};
use profile_image::{
    Actual, DeclNo, Destination, ProtectedUnitNo, StatementNo, Subprogram, SubprogramNo,
};
use profile_machine::world::{Entering, Handed, Part, Purpose, ResultTo, World};
use std::alloc::Global;
use trace_text::{Mode, Who};

fn mode_of(operation: &Subprogram) -> Mode
    ensures { result ≡ mode_of operation.now }
{
    match operation.result {
        Some(_) => Mode::Read,
        None => Mode::Write,
    }
}

fn has_object_open(world: &World, name: Who, o: ObjectNo) -> bool
    ensures { result ≡ has_object_open world.now name o }
{
    match object_of(world, o) {
        Some(object) => has_open(name, &object.actions),
        None => false,
    }
}

// The body of the operation runs in an action of its own.
#[tactic(auto, unfolding(profile_machine::specs::Protected::begin_operation))]
fn begin_operation(
    alloc: Global,
    p: &Program,
    effect: &mut Effect,
    name: Who,
    s: StatementNo,
    f: SubprogramNo,
    o: ObjectNo,
    h: Handed,
    to: ResultTo,
) -> Result<(), NoMemory>
    ensures { OnOk result (Did (begin_operation p.now name s f o h to) effect.old effect.new) }
{
    goes(effect, name, next_of(p, s));
    begin_action_on(p, effect, name, o, mode_of(subprogram_of(p, f)), None, None)?;
    let scope = subprogram_of(p, f).scope;
    let body = body_of_object(p, &effect.world, scope, o, h.subject, h.values);
    let purpose = Purpose::Subprogram(h.back, to);
    open_scope(alloc, p, name, scope, body, purpose, &mut effect.world)
}

// The body of the operation runs where the object lets the caller in.
fn let_inside(
    alloc: Global,
    p: &Program,
    effect: &mut Effect,
    name: Who,
    s: StatementNo,
    f: SubprogramNo,
    o: ObjectNo,
    h: Handed,
    to: ResultTo,
) -> Result<(), NoMemory>
    ensures { OnOk result
        (Did
        (where_let_inside p.now name o (mode_of (subprogram_of p.now f))
        (begin_operation p.now name s f o h to)) effect.old effect.new) }
{
    let mode = mode_of(subprogram_of(p, f));
    match entering(p, &effect.world, name, o, mode) {
        Entering::SameObject => raises(effect, Part::Own, name, Raised::Program),
        Entering::AboveCeiling => raises(effect, Part::Own, name, Raised::Program),
        Entering::Held => find_held(p, effect, name, o, mode),
        Entering::Inside => begin_operation(alloc, p, effect, name, s, f, o, h, to),
    }
}

fn call_with_room(
    alloc: Global,
    p: &Program,
    effect: &mut Effect,
    name: Who,
    s: StatementNo,
    f: SubprogramNo,
    actuals: &[Actual],
    to: Destination,
    o: ObjectNo,
) -> Result<(), NoMemory>
    ensures { OnOk result
        (Did
        (handing p.now name f actuals.now to
        (λ h r.
        where_let_inside p.now name o (mode_of (subprogram_of p.now f))
        (begin_operation p.now name s f o h r))) effect.old effect.new) }
{
    let q = seen_by(p, &effect.world, name);
    match result_to(&q, to) {
        Ok(r) => match handed(alloc, &q, subprogram_of(p, f).formals.as_slice(), actuals) {
            Ok(h) => let_inside(alloc, p, effect, name, s, f, o, h, r),
            Err(answer) => refused(effect, name, answer),
        },
        Err(answer) => refused(effect, name, answer),
    }
}

// First whether the object is the own one, then room, then the parameters, then the ceiling and
// whether it is held.
#[tactic(auto, unfolding(profile_machine::specs::Protected::call_operation_of))]
fn call_operation_of(
    alloc: Global,
    p: &Program,
    effect: &mut Effect,
    name: Who,
    s: StatementNo,
    f: SubprogramNo,
    actuals: &[Actual],
    to: Destination,
    o: ObjectNo,
) -> Result<(), NoMemory>
    ensures { OnOk result
        (Did (call_operation_of p.now name s f actuals.now to o) effect.old effect.new) }
{
    let scope = subprogram_of(p, f).scope;
    if has_object_open(&effect.world, name, o) {
        raises(effect, Part::Own, name, Raised::Program)
    } else if has_room(
        &effect.world,
        name,
        marks_of_action(p, scope),
        scope_of(p, scope).size,
    ) {
        call_with_room(alloc, p, effect, name, s, f, actuals, to, o)
    } else {
        raises(effect, Part::Own, name, Raised::Storage)
    }
}

/// A protected procedure or function of an object is called from outside.
#[tactic(auto, unfolding(profile_machine::specs::Protected::call_operation))]
pub fn call_operation(
    alloc: Global,
    p: &Program,
    effect: &mut Effect,
    name: Who,
    s: StatementNo,
    d: DeclNo,
    f: SubprogramNo,
    actuals: &[Actual],
    to: Destination,
) -> Result<(), NoMemory>
    ensures { OnOk result
        (Did (call_operation p.now name s d f actuals.now to) effect.old effect.new) }
{
    match object_number(&seen_by(p, &effect.world, name), d) {
        Ok(o) => call_operation_of(alloc, p, effect, name, s, f, actuals, to, o),
        Err(exception) => raises(effect, Part::Own, name, exception),
    }
}

// The body runs in the action that is open.
#[tactic(auto, unfolding(profile_machine::specs::Protected::begin_own_operation))]
fn begin_own_operation(
    alloc: Global,
    p: &Program,
    effect: &mut Effect,
    name: Who,
    s: StatementNo,
    f: SubprogramNo,
    o: Option<ObjectNo>,
    h: Handed,
    to: ResultTo,
) -> Result<(), NoMemory>
    ensures { OnOk result (Did (begin_own_operation p.now name s f o h to) effect.old effect.new) }
{
    match o {
        Some(o) => {
            let outer = outer_of_body(p, &effect.world, subprogram_of(p, f).scope, o);
            begin_body(alloc, p, effect, name, s, f, outer, Some(o), h, to)
        }
        None => raises(effect, Part::Own, name, Raised::Program),
    }
}

fn unit_of_operation(operation: &Subprogram) -> ProtectedUnitNo
    ensures { result ≡ unit_of_operation operation.now }
{
    operation.unit.unwrap_or(ProtectedUnitNo(0))
}

// The object of the operation's unit in whose body the one with this name stands.
fn object_called(p: &Program, world: &World, name: Who, f: SubprogramNo) -> Option<ObjectNo>
    ensures { result
        ≡ own_object (seen_by p.now world.now name) (unit_of_operation (subprogram_of p.now f)) }
{
    own_object(
        &seen_by(p, world, name),
        unit_of_operation(subprogram_of(p, f)),
    )
}

// The body runs on the object in whose body the caller stands.
#[tactic(auto, unfolding(crate::specs::Operations::own_operation))]
fn own_operation(
    alloc: Global,
    p: &Program,
    effect: &mut Effect,
    name: Who,
    s: StatementNo,
    f: SubprogramNo,
    h: Handed,
    to: ResultTo,
) -> Result<(), NoMemory>
    ensures { OnOk result (Did (own_operation p.now name s f h to) effect.old effect.new) }
{
    let o = object_called(p, &effect.world, name, f);
    begin_own_operation(alloc, p, effect, name, s, f, o, h, to)
}

fn call_own_with_room(
    alloc: Global,
    p: &Program,
    effect: &mut Effect,
    name: Who,
    s: StatementNo,
    f: SubprogramNo,
    actuals: &[Actual],
    to: Destination,
) -> Result<(), NoMemory>
    ensures { OnOk result
        (Did (handing p.now name f actuals.now to (own_operation p.now name s f)) effect.old
        effect.new) }
{
    let q = seen_by(p, &effect.world, name);
    match result_to(&q, to) {
        Ok(r) => match handed(alloc, &q, subprogram_of(p, f).formals.as_slice(), actuals) {
            Ok(h) => own_operation(alloc, p, effect, name, s, f, h, r),
            Err(answer) => refused(effect, name, answer),
        },
        Err(answer) => refused(effect, name, answer),
    }
}

/// A protected procedure or function is called from inside its unit: no action begins.
#[tactic(auto, unfolding(profile_machine::specs::Protected::call_own_operation, crate::specs::Operations::own_operation))]
pub fn call_own_operation(
    alloc: Global,
    p: &Program,
    effect: &mut Effect,
    name: Who,
    s: StatementNo,
    f: SubprogramNo,
    actuals: &[Actual],
    to: Destination,
) -> Result<(), NoMemory>
    ensures { OnOk result
        (Did (call_own_operation p.now name s f actuals.now to) effect.old effect.new) }
{
    let scope = subprogram_of(p, f).scope;
    if has_room(
        &effect.world,
        name,
        marks_of(p, scope),
        scope_of(p, scope).size,
    ) {
        call_own_with_room(alloc, p, effect, name, s, f, actuals, to)
    } else {
        raises(effect, Part::Own, name, Raised::Storage)
    }
}
