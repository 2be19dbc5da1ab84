//! Entry bodies that run for calls (ISO/IEC 8652:2012, 9.5.2, 9.5.3).
ghost use Rattle.std.specs.Prelude.{◌≡◌, ◌+◌, OnOk, Some};
ghost use Rattle.profile_image.specs.Program.{marks_of};
ghost use Rattle.profile_machine.specs.Calls.{edit_call};
ghost use Rattle.profile_machine.specs.Protected.{begun_call, begin_call, body_opens};
ghost use Rattle.profile_machine.specs.Protected.{body_scope_of, edit_top_protected};
ghost use Rattle.profile_machine.specs.Protected.{has_room_for_body};
ghost use Rattle.machine_frames.specs.Did.{Did};

use crate::actions::body_of_object;
use ann_base::{CallNo, NoMemory, ObjectNo};
use machine_frames::{Effect, has_room, says, task_mut};
use machine_program::{Program, entry_of, form_of, marks_of, opens_handled, scope_of};
use machine_queues::{call_mut, parameters_of, unqueued};
use machine_scopes::open_scope;
use profile_image::{EntryNo, ScopeNo};
use profile_machine::world::{Call, Line, Mark, Part, Purpose, World};
use std::alloc::Global;
use trace_text::Who;

/// The scope of the body of an entry.
pub fn body_scope_of(p: &Program, e: EntryNo) -> ScopeNo
    ensures { result ≡ body_scope_of p.now e }
{
    match entry_of(p, e).body {
        Some(body) => body.scope,
        None => ScopeNo(0),
    }
}

/// How many marks a protected action opens with this body: its own, and those of the body.
pub fn marks_of_action(p: &Program, scope: ScopeNo) -> u32
    ensures { result ≡ 1 + marks_of p.now scope }
{
    match scope_of(p, scope).first {
        Some(s) if opens_handled(form_of(p, s)) => 3,
        _ => 2,
    }
}

/// Whether there is room for the body of an entry.
pub fn has_room_for_body(p: &Program, world: &World, name: Who, e: EntryNo) -> bool
    ensures { result ≡ has_room_for_body p.now world.now name e }
{
    let scope = body_scope_of(p, e);
    has_room(world, name, marks_of(p, scope), scope_of(p, scope).size)
}

fn set_begun(world: &mut World, c: CallNo)
    ensures { world.new ≡ edit_call c begun_call world.old }
{
    if let Some(call) = call_mut(&mut world.calls, c) {
        call.begun = true;
    }
}

/// A call begins: it is out of its queue and loses its time-out.
#[tactic(auto, unfolding(profile_machine::specs::Protected::begin_call))]
pub fn begin_call(
    p: &Program,
    effect: &mut Effect,
    part: Part,
    name: Who,
    c: &Call,
) -> Result<(), NoMemory>
    ensures { OnOk result (Did (begin_call p.now part name c.now) effect.old effect.new) }
{
    unqueued(p, &mut effect.world, c);
    set_begun(&mut effect.world, c.number);
    says(
        effect,
        part,
        Line::Start {
            who: name,
            call: c.number,
        },
    )
}

fn set_serves(world: &mut World, name: Who, c: CallNo)
    ensures { world.new ≡ edit_top_protected name (λ m. record m { serves = Some c }) world.old }
{
    if let Some(task) = task_mut(world, name) {
        if let Some(frame) = task.frames.front_mut() {
            if let Mark::InProtected(action) = &mut frame.mark {
                action.serves = Some(c);
            }
        }
    }
}

/// The body of the entry opens for a call that is served.
#[tactic(auto, unfolding(profile_machine::specs::Protected::body_opens))]
pub fn body_opens(
    alloc: Global,
    p: &Program,
    effect: &mut Effect,
    name: Who,
    o: ObjectNo,
    c: &Call,
) -> Result<(), NoMemory>
    ensures { OnOk result (Did (body_opens p.now name o c.now) effect.old effect.new) }
{
    set_serves(&mut effect.world, name, c.number);
    let scope = body_scope_of(p, c.entry);
    let values = parameters_of(alloc, p, c)?;
    let body = body_of_object(p, &effect.world, scope, o, None, values);
    let purpose = Purpose::EntryBody(c.number);
    open_scope(alloc, p, name, scope, body, purpose, &mut effect.world)
}
