//! The protected actions that are open, the one that began last first (9.5.1).
ghost use Rattle.std.specs.Prelude.{◌≡◌, ◌<◌, ◌≤◌, length, vec_len, vec_capacity};
ghost use Rattle.std.specs.List.{list_all, list_any};
ghost use Rattle.trace_text.specs.Laws.{is_write, is_beside, closed, actions_after, is_exclusive};
ghost use Rattle.trace_laws.specs.Actions.{is_of, is_held_against, place_of};

use ann_base::ObjectNo;
use trace_lines::is_same;
use trace_text::{Action, Event, Mode, Who};

fn is_write(mode: Mode) -> bool
    ensures { result ≡ is_write mode }
{
    match mode {
        Mode::Read => false,
        Mode::Write => true,
    }
}

// An open action is on another object, or both read.
fn is_beside(object: ObjectNo, mode: Mode, action: &Action) -> bool
    ensures { result ≡ is_beside object.0 mode action.now }
{
    object.0 != action.object || !(is_write(mode) || is_write(action.mode))
}

// The subject's action on the object.
fn is_of(object: ObjectNo, who: Who, action: &Action) -> bool
    ensures { result ≡ is_of object.0 who action.now }
{
    object.0 == action.object && is_same(who, action.who)
}

// Another subject has the object, and one of both writes.
fn is_held_against(object: ObjectNo, who: Who, mode: Mode, action: &Action) -> bool
    ensures { result ≡ is_held_against object.0 who mode action.now }
{
    object.0 == action.object
        && !is_same(who, action.who)
        && (is_write(mode) || is_write(action.mode))
}

// Each open action is on another object, or both read.
fn are_beside(actions: &[Action], object: ObjectNo, mode: Mode) -> bool
    ensures { result ≡ list_all (is_beside object.0 mode) actions.now }
{
    actions.iter().all(|action| is_beside(object, mode, action))
}

fn has_action(actions: &[Action], object: ObjectNo, who: Who) -> bool
    ensures { result ≡ list_any (is_of object.0 who) actions.now }
{
    actions.iter().any(|action| is_of(object, who, action))
}

fn is_held(actions: &[Action], object: ObjectNo, who: Who, mode: Mode) -> bool
    ensures { result ≡ list_any (is_held_against object.0 who mode) actions.now }
{
    actions
        .iter()
        .any(|action| is_held_against(object, who, mode, action))
}

/// Whether a line is as the law of exclusion says.
pub fn is_exclusive(actions: &[Action], event: &Event) -> bool
    ensures { result ≡ is_exclusive actions.now event.now }
{
    match event {
        Event::Enter { object, mode, .. } => are_beside(actions, *object, *mode),
        Event::Exit { who, object } => has_action(actions, *object, *who),
        Event::Held { who, object, mode } => is_held(actions, *object, *who, *mode),
        _ => true,
    }
}

// The first place of the subject's actions on the object, or the length where there is none.
fn place_of(actions: &[Action], object: ObjectNo, who: Who) -> usize
    ensures place { result ≡ place_of object.0 who actions.now }
    ensures within { result ≤ length actions.now }
{
    for (place, action) in actions.iter().enumerate() {
        if is_of(object, who, action) {
            return place;
        }
    }
    actions.len()
}

// The action that began last of the subject's actions on the object ends.
#[tactic(auto, using(crate::proofs::ActionClosed::closed_first, crate::proofs::ActionClosed::closed_none))]
fn close(actions: &mut Vec<Action>, object: ObjectNo, who: Who)
    ensures { actions.new.items ≡ closed object.0 who actions.old.items }
{
    let place = place_of(actions.as_slice(), object, who);
    if place < actions.len() {
        actions.remove(place);
    }
}

/// What a line changes. There must be room for one action more.
pub fn note(actions: &mut Vec<Action>, event: &Event)
    requires { vec_len actions.old < vec_capacity actions.old }
    ensures { actions.new.items ≡ actions_after actions.old.items event.now }
{
    match event {
        Event::Enter { who, object, mode } => {
            let action = Action {
                object: object.0,
                who: *who,
                mode: *mode,
            };
            actions.insert(0, action).unwrap();
        }
        Event::Exit { who, object } => close(actions, *object, *who),
        _ => {}
    }
}
