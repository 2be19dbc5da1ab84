//! The effect of what a task does next: a statement, or the end of what is open on top.
ghost use Rattle.std.specs.Prelude.{OnOk};
ghost use Rattle.profile_machine.specs.Act.{act_statement, act_without, act};
ghost use Rattle.profile_machine.specs.Steps.{looks};
ghost use Rattle.machine_frames.specs.Did.{Did};

use crate::calls::{call, call_main};
use crate::marks::end_top_mark;
use ann_base::NoMemory;
use machine_accepts::{accept, selective_accept};
use machine_controlled::{assign_controlled, initialize};
use machine_creation::create;
use machine_declarations::declare;
use machine_entry_calls::requeue;
use machine_frames::{Effect, goes, raises, top_of};
use machine_handlers::{
    add_member, add_to_budget, call_handler, cancel_budget, cancel_event, cancel_timer,
    remove_member, replenish, set_budget, set_event, set_timer,
};
use machine_meetings::{asynchronous_select, entry_call};
use machine_priorities::{delay_and_set_deadline, set_deadline_of, set_priority, set_quantum};
use machine_program::{Program, form_of};
use machine_returns::{return_statement, return_value};
use machine_statements::{
    assign, assign_array, block_statement, case_statement, delay_statement, delay_until_statement,
    exit_statement, first_turn, for_bounds, if_statement, later_turn, null, put_line, raise_again,
    while_turn,
};
use machine_tasking::{abort_statement, activate, end_own_activation};
use profile_image::{StatementForm, StatementNo};
use profile_machine::world::{CallKind, Part};
use std::alloc::Global;
use trace_text::Who;

/// The effect of a statement, or of another action of the text.
///
/// Errors: memory ran out.
#[tactic(auto, unfolding(profile_machine::specs::Act::act_statement))]
pub fn act_statement(
    alloc: Global,
    p: &Program,
    effect: &mut Effect,
    name: Who,
    s: StatementNo,
    form: &StatementForm,
) -> Result<(), NoMemory>
    ensures { OnOk result (Did (act_statement p.now name s form.now) effect.old effect.new) }
{
    match form {
        StatementForm::Declare(object) => declare(alloc, p, effect, name, s, *object),
        StatementForm::Initialize(object) => initialize(alloc, p, effect, name, s, *object),
        StatementForm::CreateTask { object, part } => {
            create(alloc, p, effect, name, s, *object, *part)
        }
        StatementForm::Activate(part) => activate(alloc, p, effect, name, s, *part),
        StatementForm::EndActivation => end_own_activation(p, effect, name, s),
        StatementForm::CallMain => call_main(alloc, p, effect, name, s),
        StatementForm::Handled { .. } => Ok(()),
        StatementForm::Null => {
            null(p, effect, name, s);
            Ok(())
        }
        StatementForm::Assign { target, value } => assign(p, effect, name, s, *target, *value),
        StatementForm::AssignArray { target, source } => {
            assign_array(alloc, p, effect, name, s, *target, *source)
        }
        StatementForm::AssignControlled { target, source } => {
            assign_controlled(p, effect, name, s, *target, *source)
        }
        StatementForm::If {
            condition,
            first,
            otherwise,
        } => if_statement(p, effect, name, *condition, *first, *otherwise),
        StatementForm::Case {
            selector,
            alternatives,
        } => case_statement(p, effect, name, *selector, alternatives.as_slice()),
        StatementForm::Loop { body, .. } => {
            goes(effect, name, Some(*body));
            Ok(())
        }
        StatementForm::While {
            condition,
            body,
            ..
        } => while_turn(p, effect, name, s, *condition, *body),
        StatementForm::For {
            parameter,
            reverse,
            low,
            high,
            turn,
            ..
        } => for_bounds(p, effect, name, *parameter, *reverse, *low, *high, *turn),
        StatementForm::FirstTurn {
            parameter,
            reverse,
            body,
        } => first_turn(p, effect, name, s, *parameter, *reverse, *body),
        StatementForm::LaterTurn {
            parameter,
            reverse,
            body,
        } => later_turn(p, effect, name, s, *parameter, *reverse, *body),
        StatementForm::Exit { condition, of_loop } => {
            exit_statement(p, effect, name, s, *of_loop, *condition)
        }
        StatementForm::Block(scope) => block_statement(alloc, p, effect, name, s, *scope),
        StatementForm::Return => {
            return_statement(effect, name);
            Ok(())
        }
        StatementForm::ReturnValue { function, value } => {
            return_value(p, effect, name, *function, *value)
        }
        StatementForm::Raise(exception) => raises(effect, Part::Own, name, *exception),
        StatementForm::RaiseAgain(scope) => raise_again(p, effect, name, *scope),
        StatementForm::Delay(span) => delay_statement(p, effect, name, s, *span),
        StatementForm::DelayUntil(moment) => delay_until_statement(p, effect, name, s, *moment),
        StatementForm::Call {
            callee,
            actuals,
            destination,
        } => call(
            alloc,
            p,
            effect,
            name,
            s,
            *callee,
            actuals.as_slice(),
            *destination,
        ),
        StatementForm::PutLine(pieces) => put_line(alloc, p, effect, name, s, pieces.as_slice()),
        StatementForm::EntryCall { .. } => entry_call(alloc, p, effect, name, CallKind::Plain, s),
        StatementForm::ConditionalCall { .. } => {
            entry_call(alloc, p, effect, name, CallKind::Conditional, s)
        }
        StatementForm::TimedCall { .. } => entry_call(alloc, p, effect, name, CallKind::Timed, s),
        StatementForm::AsynchronousSelect { trigger, .. } => {
            asynchronous_select(alloc, p, effect, name, s, *trigger)
        }
        StatementForm::Accept { entry, .. } => accept(alloc, p, effect, name, s, *entry),
        StatementForm::SelectiveAccept {
            alternatives,
            otherwise,
        } => selective_accept(
            alloc,
            p,
            effect,
            name,
            s,
            alternatives.as_slice(),
            *otherwise,
        ),
        StatementForm::Abort(tasks) => {
            abort_statement(alloc, p, effect, name, s, tasks.as_slice())
        }
        StatementForm::Requeue {
            entry,
            owner,
            with_abort,
        } => requeue(p, effect, name, *entry, *owner, *with_abort),
        StatementForm::SetEvent {
            event,
            setting,
            handler,
        } => set_event(p, effect, name, s, *event, *setting, *handler),
        StatementForm::CancelEvent { event, cancelled } => {
            cancel_event(p, effect, name, s, *event, *cancelled)
        }
        StatementForm::SetTimer {
            timer,
            setting,
            handler,
        } => set_timer(p, effect, name, s, *timer, *setting, *handler),
        StatementForm::CancelTimer { timer, cancelled } => {
            cancel_timer(p, effect, name, s, *timer, *cancelled)
        }
        StatementForm::AddTask { budget, task } => add_member(p, effect, name, s, *budget, *task),
        StatementForm::RemoveTask { budget, task } => {
            remove_member(p, effect, name, s, *budget, *task)
        }
        StatementForm::Replenish { budget, to } => replenish(p, effect, name, s, *budget, *to),
        StatementForm::AddToBudget { budget, interval } => {
            add_to_budget(p, effect, name, s, *budget, *interval)
        }
        StatementForm::SetBudget { budget, handler } => {
            set_budget(p, effect, name, s, *budget, *handler)
        }
        StatementForm::CancelBudget { budget, cancelled } => {
            cancel_budget(p, effect, name, s, *budget, *cancelled)
        }
        StatementForm::SetPriority { priority, task } => {
            set_priority(p, effect, name, s, *priority, *task)
        }
        StatementForm::SetQuantum { level, quantum } => {
            set_quantum(p, effect, name, s, *level, *quantum)
        }
        StatementForm::SetDeadline { deadline, task } => {
            set_deadline_of(p, effect, name, s, *deadline, *task)
        }
        StatementForm::DelayUntilAndSetDeadline { until, offset } => {
            delay_and_set_deadline(p, effect, name, s, *until, *offset)
        }
    }
}

// The agent without a rest calls the handler of the release that it serves; a task without one does
// nothing.
#[tactic(auto, unfolding(profile_machine::specs::Act::act_without))]
fn act_without(alloc: Global, p: &Program, effect: &mut Effect, name: Who) -> Result<(), NoMemory>
    ensures { OnOk result
        (Did (looks (λ w. act_without p.now name w.serving)) effect.old effect.new) }
{
    match effect.world.serving {
        Some(release) => match name {
            Who::Agent => call_handler(alloc, p, effect, release),
            Who::Task(_) => Ok(()),
        },
        None => Ok(()),
    }
}

/// The effect of what somebody does next.
///
/// Errors: memory ran out.
#[tactic(auto, unfolding(profile_machine::specs::Act::act, profile_machine::specs::Act::act_top, profile_machine::specs::Act::act_frame))]
pub fn act(alloc: Global, p: &Program, effect: &mut Effect, name: Who) -> Result<(), NoMemory>
    ensures { OnOk result (Did (act p.now name) effect.old effect.new) }
{
    match top_of(&effect.world, name) {
        None => act_without(alloc, p, effect, name),
        Some(frame) => match frame.onward {
            Some(s) => act_statement(alloc, p, effect, name, s, form_of(p, s)),
            None => end_top_mark(alloc, p, effect, name),
        },
    }
}
