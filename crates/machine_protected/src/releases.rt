//! Objects are released, and who held them goes on (ISO/IEC 8652:2012, 9.5.1, 9.5.4, C.3, D.15).
ghost use Rattle.std.specs.Prelude.{◌≡◌, OnOk};
ghost use Rattle.profile_machine.specs.Protected.{is_action_of};
ghost use Rattle.profile_machine.specs.Serving.{serves_nothing, is_served_now, serve_ends};
ghost use Rattle.profile_machine.specs.Serving.{end_release, close_action, may_open_abortable};
ghost use Rattle.profile_machine.specs.Serving.{wait_or_unwind, wait_for_own, resume_own};
ghost use Rattle.profile_machine.specs.Serving.{behind_action, release_object};
ghost use Rattle.profile_image.specs.Words.{without};
ghost use Rattle.machine_frames.specs.Did.{Did};

use ann_base::{CallNo, NoMemory, ObjectNo};
use machine_calls::{frames_may_unwind, resume};
use machine_dispatching::{block, lose_running};
use machine_exclusion::is_action_of;
use machine_frames::{Effect, has_room, leaves, pass_on, pop, says};
use machine_priorities::set_deferred;
use machine_program::Program;
use machine_queues::{attempt_on, copied_call, forget_call, is_cancellable, object_mut};
use machine_sending::{is_triggering, open_abortable, wait_for_call};
use profile_machine::Leaving;
use profile_machine::world::{
    Action, Call, Cause, Line, Outcome, Part, ProtectedMark, Release, Waiting, World,
};
use trace_text::Who;
use world_tables::List;

fn serves_nothing(world: &mut World)
    ensures { world.new ≡ serves_nothing world.old }
{
    world.serving = None;
}

fn is_served_now(n: u32, serving: Option<Release>) -> bool
    ensures { result ≡ is_served_now n serving }
{
    match serving {
        None => false,
        Some(release) => n == release.number,
    }
}

/// `served`; where nothing is pending the agent blocks.
#[tactic(auto, unfolding(profile_machine::specs::Serving::serve_ends))]
fn serve_ends(effect: &mut Effect, n: u32) -> Result<(), NoMemory>
    ensures { OnOk result (Did (serve_ends n) effect.old effect.new) }
{
    says(effect, Part::Own, Line::Served { release: n })?;
    serves_nothing(&mut effect.world);
    if effect.world.releases.is_empty() {
        block(effect, Part::TheBlock, Who::Agent, Waiting::Release)
    } else {
        Ok(())
    }
}

/// The agent has served a release: `served`. Of one that it does not serve nothing ends.
#[tactic(auto, unfolding(profile_machine::specs::Serving::end_release))]
pub fn end_release(effect: &mut Effect, n: u32) -> Result<(), NoMemory>
    ensures { OnOk result (Did (end_release n) effect.old effect.new) }
{
    if is_served_now(n, effect.world.serving) {
        serve_ends(effect, n)
    } else {
        Ok(())
    }
}

fn close_actions(actions: &mut List<Action>, name: Who)
    ensures { actions.new ≡ without (is_action_of name) actions.old }
{
    actions.retain(|action| !is_action_of(name, *action));
}

fn close_action(world: &mut World, name: Who, o: ObjectNo)
    ensures { world.new ≡ close_action name o world.old }
{
    if let Some(object) = object_mut(&mut world.objects, o) {
        close_actions(&mut object.actions, name);
    }
}

// The holder's own call is still queued: whether its abortable part begins.
fn may_open_abortable(world: &World, name: Who, c: &Call) -> bool
    ensures { result ≡ may_open_abortable world.now name c.now }
{
    is_triggering(c.kind) && c.sent_with_abort && !c.attempted && has_room(world, name, 1, 0)
}

// An attempt to cancel the call: the holder is unwound, or waits for it.
#[tactic(auto, unfolding(profile_machine::specs::Serving::wait_or_unwind))]
fn wait_or_unwind(
    p: &Program,
    effect: &mut Effect,
    name: Who,
    c: &Call,
    unwinds: bool,
) -> Result<(), NoMemory>
    ensures { OnOk result (Did (wait_or_unwind p.now name c.now unwinds) effect.old effect.new) }
{
    if unwinds {
        attempt_on(p, effect, Part::Own, c)?;
        if is_cancellable(c) {
            forget_call(&mut effect.world, c.number);
            leaves(effect, name, Leaving::Abort);
            Ok(())
        } else {
            wait_for_call(effect, c)
        }
    } else {
        wait_for_call(effect, c)
    }
}

#[tactic(auto, unfolding(profile_machine::specs::Serving::wait_for_own))]
fn wait_for_own(
    p: &Program,
    effect: &mut Effect,
    name: Who,
    c: &Call,
    opens: bool,
) -> Result<(), NoMemory>
    ensures { OnOk result (Did (wait_for_own p.now name c.now opens) effect.old effect.new) }
{
    if opens {
        open_abortable(
            p,
            &mut effect.world,
            Who::Task(c.caller),
            c.statement,
            Some(c.number),
        )
    } else {
        let unwinds = frames_may_unwind(&effect.world, name);
        wait_or_unwind(p, effect, name, c, unwinds)
    }
}

// The holder goes on behind its own call, or, where that is still queued, begins its abortable
// part, is unwound, or blocks.
#[tactic(auto, unfolding(profile_machine::specs::Serving::resume_own))]
fn resume_own(
    p: &Program,
    effect: &mut Effect,
    name: Who,
    c: &Call,
    outcome: Option<Outcome>,
) -> Result<(), NoMemory>
    ensures { OnOk result (Did (resume_own p.now name c.now outcome) effect.old effect.new) }
{
    match outcome {
        Some(outcome) => resume(p, effect, Part::TheBlock, c, outcome),
        None => {
            let opens = may_open_abortable(&effect.world, name, c);
            wait_for_own(p, effect, name, c, opens)
        }
    }
}

// The task goes on as the body was left, or behind its own entry call; the agent has served its
// release.
#[tactic(auto, unfolding(profile_machine::specs::Serving::behind_action))]
fn behind_action(
    p: &Program,
    effect: &mut Effect,
    name: Who,
    m: ProtectedMark,
    release: Option<u32>,
    call: Option<CallNo>,
) -> Result<(), NoMemory>
    ensures { OnOk result (Did (behind_action p.now name m release call) effect.old effect.new) }
{
    match (release, call) {
        (Some(release), _) => end_release(effect, release),
        (None, Some(c)) => match copied_call(&effect.world, c)? {
            Some(call) => resume_own(p, effect, name, &call, call.outcome),
            None => Ok(()),
        },
        (None, None) => {
            pass_on(p, effect, name, m.body_left);
            Ok(())
        }
    }
}

// The object is released: `exit`. The ceiling is lost first, then what was deferred is set.
#[tactic(auto, unfolding(profile_machine::specs::Serving::release_object))]
pub(crate) fn release_object(
    p: &Program,
    effect: &mut Effect,
    name: Who,
    m: ProtectedMark,
) -> Result<(), NoMemory>
    ensures { OnOk result (Did (release_object p.now name m) effect.old effect.new) }
{
    let exit = Line::Exit {
        who: name,
        object: m.object,
    };
    says(effect, Part::Own, exit)?;
    pop(&mut effect.world, name);
    close_action(&mut effect.world, name, m.object);
    lose_running(p, effect, name, Cause::Ceiling(m.object))?;
    set_deferred(p, effect, name)?;
    behind_action(p, effect, name, m, m.release, m.own_call)
}
