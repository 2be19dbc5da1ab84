//! Protected actions begin, and the ceiling is inherited (ISO/IEC 8652:2012, 9.5.1, D.3).
ghost use Rattle.std.specs.Prelude.{◌≡◌, OnOk};
ghost use Rattle.profile_machine.specs.Protected.{new_protected_mark, open_action, ceiling_of};
ghost use Rattle.profile_machine.specs.Protected.{begin_action_on, outer_of_body, body_of_object};
ghost use Rattle.profile_machine.specs.Values.{object_of};
ghost use Rattle.machine_frames.specs.Did.{Did};

use ann_base::{CallNo, Level, NoMemory, ObjectNo};
use machine_dispatching::inherit_running;
use machine_frames::{Effect, new_frame, object_of, push, says};
use machine_program::{Program, scope_of};
use machine_queues::object_mut;
use machine_scopes::home;
use profile_image::{ScopeNo, Value};
use profile_machine::Leaving;
use profile_machine::world::{
    Action, Beginning, Cause, Line, Located, Mark, Part, ProtectedMark, ScopeId, World,
};
use trace_text::{Mode, Who};
use world_tables::List;

/// The ceiling of the object with this number; 0 where it is not there (D.3).
pub fn ceiling_of(world: &World, o: ObjectNo) -> Level
    ensures { result ≡ ceiling_of (object_of world.now o) }
{
    match object_of(world, o) {
        Some(object) => object.ceiling,
        None => 0,
    }
}

fn new_protected_mark(o: ObjectNo, mode: Mode, call: Option<CallNo>, release: Option<u32>) -> Mark
    ensures { result ≡ new_protected_mark o mode call release }
{
    Mark::InProtected(ProtectedMark {
        object: o,
        mode,
        own_call: call,
        serves: None,
        body_left: Leaving::End,
        release,
    })
}

fn open_action(world: &mut World, name: Who, o: ObjectNo, mode: Mode) -> Result<(), NoMemory>
    ensures { OnOk result (world.new ≡ open_action name o mode world.old) }
{
    if let Some(object) = object_mut(&mut world.objects, o) {
        object.actions.push_front(Action { who: name, mode })?;
    }
    Ok(())
}

/// An action begins: `enter`, and the ceiling is inherited. `call` is the entry call for which it
/// begins, and `release` the release that the agent serves.
#[tactic(auto, unfolding(profile_machine::specs::Protected::begin_action_on))]
pub fn begin_action_on(
    p: &Program,
    effect: &mut Effect,
    name: Who,
    o: ObjectNo,
    mode: Mode,
    call: Option<CallNo>,
    release: Option<u32>,
) -> Result<(), NoMemory>
    ensures { OnOk result
        (Did (begin_action_on p.now name o mode call release) effect.old effect.new) }
{
    let enter = Line::Enter {
        who: name,
        object: o,
        mode,
    };
    says(effect, Part::Own, enter)?;
    open_action(&mut effect.world, name, o, mode)?;
    let ceiling = ceiling_of(&effect.world, o);
    inherit_running(p, effect, name, Cause::Ceiling(o), ceiling)?;
    let mark = new_protected_mark(o, mode, call, release);
    push(&mut effect.world, name, new_frame(mark, None))
}

/// The scope in use that stands round a body of the object's unit: it is found from the object.
pub fn outer_of_body(p: &Program, world: &World, scope: ScopeNo, o: ObjectNo) -> Option<ScopeId>
    ensures { result ≡ outer_of_body p.now world.now scope (object_of world.now o) }
{
    let object = object_of(world, o)?;
    let outer = scope_of(p, scope).outer?;
    home(world, outer, Some(object.located.within))
}

/// How the scope of a body begins that works on an object.
pub fn body_of_object(
    p: &Program,
    world: &World,
    scope: ScopeNo,
    o: ObjectNo,
    subject: Option<Located>,
    values: List<Value>,
) -> Beginning
    ensures { result ≡ body_of_object p.now world.now scope o subject values }
{
    Beginning {
        outer: outer_of_body(p, world, scope, o),
        object: Some(o),
        subject,
        values,
    }
}
