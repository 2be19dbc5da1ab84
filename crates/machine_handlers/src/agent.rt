//! The agent calls handlers (ISO/IEC 8652:2012, C.3, D.15).
ghost use Rattle.std.specs.Prelude.{◌≡◌, IfOk, OnOk};
ghost use Rattle.profile_machine.specs.Handlers.{argument_values, begin_handler};
ghost use Rattle.profile_machine.specs.Handlers.{begin_handler_if_room};
ghost use Rattle.profile_machine.specs.Handlers.{enter_handler, call_handler};
ghost use Rattle.machine_frames.specs.Did.{Did};

use ann_base::NoMemory;
use machine_exclusion::{begin_action_on, body_of_object, entering, find_held};
use machine_frames::{Effect, has_room};
use machine_program::{Program, marks_of, scope_of, subprogram_of};
use machine_protected::end_release;
use machine_scopes::open_scope;
use profile_image::Value;
use profile_machine::world::{Entering, Purpose, Release, ResultTo};
use std::alloc::Global;
use trace_text::{Mode, Who};
use world_tables::List;

// The value of the handler's parameter.
fn argument_values(alloc: Global, argument: Option<u32>) -> Result<List<Value>, NoMemory>
    ensures { IfOk result (λ values. values ≡ argument_values argument) }
{
    let mut values = List::new(alloc);
    if let Some(number) = argument {
        values.push_back(Value::Thing(number))?;
    }
    Ok(values)
}

#[tactic(auto, unfolding(profile_machine::specs::Handlers::begin_handler))]
fn begin_handler(
    alloc: Global,
    p: &Program,
    effect: &mut Effect,
    release: Release,
) -> Result<(), NoMemory>
    ensures { OnOk result (Did (begin_handler p.now release) effect.old effect.new) }
{
    let object = release.handler.object;
    let number = Some(release.number);
    begin_action_on(p, effect, Who::Agent, object, Mode::Write, None, number)?;
    let scope = subprogram_of(p, release.handler.procedure).scope;
    let values = argument_values(alloc, release.argument)?;
    let beginning = body_of_object(p, &effect.world, scope, object, None, values);
    let purpose = Purpose::Subprogram(List::new(alloc), ResultTo::Nowhere);
    open_scope(
        alloc,
        p,
        Who::Agent,
        scope,
        beginning,
        purpose,
        &mut effect.world,
    )
}

// Without room for its body a handler is served at once.
#[tactic(auto, unfolding(profile_machine::specs::Handlers::begin_handler_if_room))]
fn begin_handler_if_room(
    alloc: Global,
    p: &Program,
    effect: &mut Effect,
    release: Release,
) -> Result<(), NoMemory>
    ensures { OnOk result (Did (begin_handler_if_room p.now release) effect.old effect.new) }
{
    let scope = subprogram_of(p, release.handler.procedure).scope;
    let marks = 1 + marks_of(p, scope);
    if has_room(&effect.world, Who::Agent, marks, scope_of(p, scope).size) {
        begin_handler(alloc, p, effect, release)
    } else {
        end_release(effect, release.number)
    }
}

#[tactic(auto, unfolding(profile_machine::specs::Handlers::enter_handler))]
fn enter_handler(
    alloc: Global,
    p: &Program,
    effect: &mut Effect,
    release: Release,
    entering: Entering,
) -> Result<(), NoMemory>
    ensures { OnOk result (Did (enter_handler p.now release entering) effect.old effect.new) }
{
    match entering {
        Entering::SameObject => end_release(effect, release.number),
        Entering::AboveCeiling => end_release(effect, release.number),
        Entering::Held => find_held(p, effect, Who::Agent, release.handler.object, Mode::Write),
        Entering::Inside => begin_handler_if_room(alloc, p, effect, release),
    }
}

/// The agent calls the handler of a release: `enter`, and the body is opened. Where it may not
/// enter, or there is no room, the release is served at once.
///
/// Errors: memory ran out, or numbers are used up.
#[tactic(auto, unfolding(profile_machine::specs::Handlers::call_handler))]
pub fn call_handler(
    alloc: Global,
    p: &Program,
    effect: &mut Effect,
    release: Release,
) -> Result<(), NoMemory>
    ensures { OnOk result (Did (call_handler p.now release) effect.old effect.new) }
{
    let entering = entering(
        p,
        &effect.world,
        Who::Agent,
        release.handler.object,
        Mode::Write,
    );
    enter_handler(alloc, p, effect, release, entering)
}
