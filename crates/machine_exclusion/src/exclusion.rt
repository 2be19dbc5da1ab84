//! Whether a protected action may begin (ISO/IEC 8652:2012, 9.5.1, D.3).
ghost use Rattle.std.specs.Prelude.{◌≡◌, ◌&&◌, OnOk, not};
ghost use Rattle.std.specs.List.{list_any};
ghost use Rattle.profile_machine.specs.Protected.{is_action_of, has_open, is_read};
ghost use Rattle.profile_machine.specs.Protected.{excludes, is_above_ceiling};
ghost use Rattle.profile_machine.specs.Protected.{entering_object, entering, find_held};
ghost use Rattle.profile_machine.specs.Tasks.{task_of};
ghost use Rattle.profile_image.specs.Words.{without};
ghost use Rattle.machine_frames.specs.Did.{Did};

use ann_base::{Level, NoMemory, ObjectNo};
use machine_dispatching::{active_of, to_tail};
use machine_frames::{Effect, object_of, says, task_at};
use machine_program::{Program, has_edf};
use profile_machine::world::{Action, Entering, Line, Object, Part, World, same_who};
use trace_text::{Mode, Who};
use world_tables::List;

/// Whether an open action is that of the one with this name.
pub fn is_action_of(name: Who, action: Action) -> bool
    ensures { result ≡ is_action_of name action }
{
    same_who(name, action.who)
}

fn any_own(name: Who, actions: &List<Action>) -> bool
    ensures { result ≡ list_any (is_action_of name) actions.now }
{
    actions.iter().any(|action| is_action_of(name, *action))
}

/// Whether the one with this name has one of these actions open.
#[tactic(auto, using(crate::proofs::ActionLemmas::action_laws))]
pub fn has_open(name: Who, actions: &List<Action>) -> bool
    ensures { result ≡ has_open name actions.now }
{
    any_own(name, actions)
}

fn is_read(mode: Mode) -> bool
    ensures { result ≡ is_read mode }
{
    match mode {
        Mode::Read => true,
        Mode::Write => false,
    }
}

fn any_other(name: Who, actions: &List<Action>) -> bool
    ensures { result ≡ list_any (λ a. not (is_action_of name a)) actions.now }
{
    actions.iter().any(|action| !is_action_of(name, *action))
}

fn any_other_writes(name: Who, actions: &List<Action>) -> bool
    ensures { result
        ≡ list_any (λ a. not (is_action_of name a) && not (is_read a.mode)) actions.now }
{
    actions.iter().any(|action| !is_action_of(name, *action) && !is_read(action.mode))
}

// Whether actions of others exclude one in this mode: functions exclude each other no more than
// readers do.
#[tactic(auto, using(crate::proofs::ActionLemmas::action_laws))]
fn excludes(name: Who, mode: Mode, actions: &List<Action>) -> bool
    ensures { result ≡ excludes mode (without (is_action_of name) actions.now) }
{
    match mode {
        Mode::Read => any_other_writes(name, actions),
        Mode::Write => any_other(name, actions),
    }
}

/// The base priority of the one with this name; 0 where it is not there.
pub fn base_of(world: &World, name: Who) -> Level
    ensures { result ≡ (task_of world.now name).base }
{
    match task_at(world, name) {
        Some(task) => task.base,
        None => 0,
    }
}

/// Whether the active priority of the one with this name is above a ceiling; in a program with an
/// EDF range also whether the base priority is (D.3, D.2.6).
pub fn is_above_ceiling(p: &Program, world: &World, name: Who, ceiling: Level) -> bool
    ensures { result ≡ is_above_ceiling p.now world.now name ceiling }
{
    ceiling < active_of(p, world, name) || (has_edf(p) && ceiling < base_of(world, name))
}

fn entering_object(p: &Program, world: &World, name: Who, object: &Object, mode: Mode) -> Entering
    ensures { result ≡ entering_object p.now world.now name object.now mode }
{
    if has_open(name, &object.actions) {
        Entering::SameObject
    } else if is_above_ceiling(p, world, name, object.ceiling) {
        Entering::AboveCeiling
    } else if excludes(name, mode, &object.actions) {
        Entering::Held
    } else {
        Entering::Inside
    }
}

/// Whether the one with this name may begin an action on an object; one that is not there lets
/// nobody in.
pub fn entering(p: &Program, world: &World, name: Who, o: ObjectNo, mode: Mode) -> Entering
    ensures { result ≡ entering p.now world.now name o mode }
{
    match object_of(world, o) {
        Some(object) => entering_object(p, world, name, object, mode),
        None => Entering::SameObject,
    }
}

/// Who finds the object held goes to the tail of its level, and does the whole action again.
#[tactic(auto, unfolding(profile_machine::specs::Protected::find_held))]
pub fn find_held(
    p: &Program,
    effect: &mut Effect,
    name: Who,
    o: ObjectNo,
    mode: Mode,
) -> Result<(), NoMemory>
    ensures { OnOk result (Did (find_held p.now name o mode) effect.old effect.new) }
{
    says(
        effect,
        Part::Own,
        Line::Held {
            who: name,
            object: o,
            mode,
        },
    )?;
    to_tail(p, effect, Part::ThePlacing, name)
}
