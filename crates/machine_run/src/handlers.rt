//! The end of a sequence with handlers: a handler for the exception, or the next construct is left
//! (ISO/IEC 8652:2012, 11.4).
ghost use Rattle.std.specs.Prelude.{◌≡◌, Some};
ghost use Rattle.std.specs.List.{list_any};
ghost use Rattle.profile_machine.specs.Act.{same_exception, is_handled_by, handler_for, keeping};
ghost use Rattle.profile_machine.specs.Act.{handle_or_pass, behind_handled, end_handled};
ghost use Rattle.profile_machine.specs.Frames.{handlers_in, edit_top, with_mark};
ghost use Rattle.machine_frames.specs.Did.{Did};

use ann_base::Raised;
use machine_frames::{Effect, goes, pass_on, pop, task_mut};
use machine_program::{Program, form_of};
use profile_image::{ExceptionChoice, Handler, StatementForm, StatementNo};
use profile_machine::Leaving;
use profile_machine::world::{Mark, World};
use trace_text::Who;

/// Whether both are the same exception.
fn same_exception(a: Raised, b: Raised) -> bool
    ensures { result ≡ same_exception a b }
{
    match (a, b) {
        (Raised::Constraint, Raised::Constraint) => true,
        (Raised::Program, Raised::Program) => true,
        (Raised::Storage, Raised::Storage) => true,
        (Raised::Tasking, Raised::Tasking) => true,
        (Raised::TimerResource, Raised::TimerResource) => true,
        (Raised::GroupBudget, Raised::GroupBudget) => true,
        (Raised::DispatchingPolicy, Raised::DispatchingPolicy) => true,
        (Raised::User(a), Raised::User(b)) => a == b,
        _ => false,
    }
}

fn is_handled_by(e: Raised, choice: ExceptionChoice) -> bool
    ensures { result ≡ is_handled_by e choice }
{
    match choice {
        ExceptionChoice::Named(f) => same_exception(e, f),
        ExceptionChoice::Others => true,
    }
}

// Whether one of the choices of a handler covers the exception.
fn handles(e: Raised, handler: &Handler) -> bool
    ensures { result ≡ list_any (is_handled_by e) handler.now.choices }
{
    handler
        .choices
        .as_slice()
        .iter()
        .any(|choice| is_handled_by(e, *choice))
}

// The first statement of the first handler for this exception.
fn handler_for(e: Raised, handlers: &[Handler]) -> Option<StatementNo>
    ensures { result ≡ handler_for e handlers.now }
{
    for handler in handlers {
        if handles(e, handler) {
            return Some(handler.first);
        }
    }
    None
}

fn handlers_in(form: &StatementForm) -> &[Handler]
    ensures { result.now ≡ handlers_in form.now }
{
    match form {
        StatementForm::Handled { handlers, .. } => handlers.as_slice(),
        _ => &[],
    }
}

// The scope or accept around a handler keeps the exception that it handles, for a raise without a
// name.
fn keep(e: Raised, mark: &mut Mark)
    ensures { mark.new ≡ keeping e mark.old }
{
    match mark {
        Mark::Scope(scope) => scope.handles = Some(e),
        Mark::InAccept(accept) => accept.handles = Some(e),
        _ => {}
    }
}

fn keep_in_top(world: &mut World, name: Who, e: Raised)
    ensures { world.new ≡ edit_top name (λ f. with_mark (keeping e f.mark) f) world.old }
{
    if let Some(task) = task_mut(world, name) {
        if let Some(frame) = task.frames.front_mut() {
            keep(e, &mut frame.mark);
        }
    }
}

#[tactic(auto, unfolding(profile_machine::specs::Act::handle_or_pass))]
fn handle_or_pass(
    p: &Program,
    effect: &mut Effect,
    name: Who,
    e: Raised,
    handler: Option<StatementNo>,
)
    ensures { Did (handle_or_pass p.now name e handler) effect.old effect.new }
{
    match handler {
        Some(first) => {
            keep_in_top(&mut effect.world, name, e);
            goes(effect, name, Some(first));
        }
        None => pass_on(p, effect, name, Leaving::Exception(e)),
    }
}

#[tactic(auto, unfolding(profile_machine::specs::Act::behind_handled))]
fn behind_handled(p: &Program, effect: &mut Effect, name: Who, s: StatementNo, leaving: Leaving)
    ensures { Did (behind_handled p.now name s leaving) effect.old effect.new }
{
    match leaving {
        Leaving::Exception(e) => {
            let handler = handler_for(e, handlers_in(form_of(p, s)));
            handle_or_pass(p, effect, name, e, handler)
        }
        Leaving::End => {}
        Leaving::Return => pass_on(p, effect, name, Leaving::Return),
        Leaving::Exit(of_loop) => pass_on(p, effect, name, Leaving::Exit(of_loop)),
        Leaving::Abort => pass_on(p, effect, name, Leaving::Abort),
        Leaving::Terminate => pass_on(p, effect, name, Leaving::Terminate),
    }
}

/// A sequence with handlers has ended, in whichever way it is left.
#[tactic(auto, unfolding(profile_machine::specs::Act::end_handled))]
pub fn end_handled(p: &Program, effect: &mut Effect, name: Who, s: StatementNo, leaving: Leaving)
    ensures { Did (end_handled p.now name s leaving) effect.old effect.new }
{
    pop(&mut effect.world, name);
    behind_handled(p, effect, name, s, leaving)
}
