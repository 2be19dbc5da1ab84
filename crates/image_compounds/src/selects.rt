//! Select statements (ISO/IEC 8652:2012, 9.7): an accept, a delay and a call have statements of
//! their own, which lead to those behind them.
ghost use Rattle.std.specs.Prelude.{◌∷◌};
ghost use Rattle.ada_image.specs.Made.{Made};
ghost use Rattle.ada_image.specs.ImageOfStatements.{asynchronous_put, call_before};
ghost use Rattle.ada_image.specs.ImageOfStatements.{conditional_call_put, delay_before};
ghost use Rattle.ada_image.specs.ImageOfStatements.{select_alternative_put};
ghost use Rattle.ada_image.specs.ImageOfStatements.{select_alternatives_put, select_put};
ghost use Rattle.ada_image.specs.ImageOfStatements.{selective_accept_put, timed_call_put};

use crate::blocks::accept_put;
use crate::branches::{inside, inside_if};
use crate::making::MakeSequence;
use ada_image::{Lists, Within};
use ada_tree::{
    Alternative, AsynchronousSelect, Call, ConditionalEntryCall, Delay, OneOrMore,
    SelectAlternative, SelectForm, SelectiveAccept, TimedEntryCall, Trigger,
};
use ann_base::NoMemory;
use image_calls::call_statement_put;
use image_expressions::optional_value;
use image_layout::{action_put, in_construct, put_at, reserved, the_action};
use image_parts::{guard_of, signs_in_alternatives, signs_in_timed_call, signs_in_trigger};
use image_signs::signs_in_actuals;
use image_statements::delay_put;
use profile_image::{
    SelectAlternative as GuardedAlternative, SelectAlternatives, SelectKind, StatementForm,
    StatementNo,
};
use std::alloc::Global;

/// An alternative of a selective accept with its guard (9.7.1).
#[tactic(auto, unfolding(ada_image::specs::ImageOfStatements::select_alternative_put, ada_image::specs::ImageOfStatements::alternative_put, ada_image::specs::ImageOfStatements::delay_before))]
fn select_alternative_put<W, Q: MakeSequence<W>>(
    alloc: Global,
    lists: &mut Lists,
    within: &Within<'_, '_>,
    alternative: &SelectAlternative<Q>,
    next: Option<StatementNo>,
) -> Result<GuardedAlternative, NoMemory>
    ensures { Made (select_alternative_put Q.making within.now alternative.now next) lists.old
        lists.new result }
{
    let guard = optional_value(lists, within, guard_of(&alternative.guard))?;
    let kind = match &alternative.alternative {
        Alternative::Accept { accept, statements } => {
            let behind = inside_if(alloc, lists, statements, within, next)?;
            let s = accept_put(alloc, lists, within, accept, behind)?;
            SelectKind::Accept(the_action(s))
        }
        Alternative::Delay { delay, statements } => {
            let s = delay_before(alloc, lists, within, delay, statements, next)?;
            SelectKind::Delay(the_action(s))
        }
        Alternative::Terminate { .. } => SelectKind::Terminate,
    };
    Ok(GuardedAlternative { guard, kind })
}

/// The alternatives of a selective accept, in the order of the text.
#[tactic(auto, unfolding(ada_image::specs::ImageOfStatements::select_alternatives_put))]
fn select_alternatives_put<W, Q: MakeSequence<W>>(
    alloc: Global,
    lists: &mut Lists,
    within: &Within<'_, '_>,
    alternatives: &OneOrMore<SelectAlternative<Q>>,
    next: Option<StatementNo>,
) -> Result<SelectAlternatives, NoMemory>
    ensures { Made
        (select_alternatives_put Q.making within.now
        (alternatives.now.first ∷ alternatives.now.others) next) lists.old lists.new result }
{
    let mut made = SelectAlternatives::new(alloc);
    let first = select_alternative_put(alloc, lists, within, &alternatives.first, next)?;
    made.push(first)?;
    for alternative in alternatives.others.as_slice() {
        let one = select_alternative_put(alloc, lists, within, alternative, next)?;
        made.push(one)?;
    }
    Ok(made)
}

/// A selective accept (9.7.1).
#[tactic(auto, unfolding(ada_image::specs::ImageOfStatements::selective_accept_put, ada_image::specs::ImageOfStatements::else_put))]
fn selective_accept_put<W, Q: MakeSequence<W>>(
    alloc: Global,
    lists: &mut Lists,
    within: &Within<'_, '_>,
    select: &SelectiveAccept<Q>,
    next: Option<StatementNo>,
) -> Result<Option<StatementNo>, NoMemory>
    ensures { Made (selective_accept_put Q.making within.now select.now next) lists.old lists.new
        result }
{
    let signs = signs_in_alternatives(within, &select.alternatives)?;
    let alternatives = select_alternatives_put(alloc, lists, within, &select.alternatives, next)?;
    let otherwise = match &select.otherwise {
        None => None,
        Some(otherwise) => inside(alloc, lists, otherwise, within, next)?,
    };
    let form = StatementForm::SelectiveAccept {
        alternatives,
        otherwise,
    };
    action_put(lists, form, signs, next)
}

/// An entry call that leads to the statements behind it.
#[tactic(auto, unfolding(ada_image::specs::ImageOfStatements::call_before))]
fn call_before<W, Q: MakeSequence<W>>(
    alloc: Global,
    lists: &mut Lists,
    within: &Within<'_, '_>,
    call: &Call,
    statements: &Option<Q>,
    next: Option<StatementNo>,
) -> Result<Option<StatementNo>, NoMemory>
    ensures { Made (call_before Q.making within.now call.now statements.now next) lists.old
        lists.new result }
{
    let behind = inside_if(alloc, lists, statements, within, next)?;
    call_statement_put(
        alloc,
        lists,
        within,
        &call.name,
        call.arguments.as_slice(),
        behind,
    )
}

/// A delay that leads to the statements behind it.
#[tactic(auto, unfolding(ada_image::specs::ImageOfStatements::delay_before))]
fn delay_before<W, Q: MakeSequence<W>>(
    alloc: Global,
    lists: &mut Lists,
    within: &Within<'_, '_>,
    delay: &Delay,
    statements: &Option<Q>,
    next: Option<StatementNo>,
) -> Result<Option<StatementNo>, NoMemory>
    ensures { Made (delay_before Q.making within.now delay.now statements.now next) lists.old
        lists.new result }
{
    let behind = inside_if(alloc, lists, statements, within, next)?;
    delay_put(lists, within, delay, behind)
}

/// A timed entry call (9.7.2).
#[tactic(auto, unfolding(ada_image::specs::ImageOfStatements::timed_call_put))]
fn timed_call_put<W, Q: MakeSequence<W>>(
    alloc: Global,
    lists: &mut Lists,
    within: &Within<'_, '_>,
    select: &TimedEntryCall<Q>,
    next: Option<StatementNo>,
) -> Result<Option<StatementNo>, NoMemory>
    ensures { Made (timed_call_put Q.making within.now select.now next) lists.old lists.new result }
{
    let signs = signs_in_timed_call(within, &select.call, &select.delay)?;
    let call = call_before(alloc, lists, within, &select.call, &select.statements, next)?;
    let behind = &select.delay_statements;
    let delay = delay_before(alloc, lists, within, &select.delay, behind, next)?;
    let form = StatementForm::TimedCall {
        call: the_action(call),
        delay: the_action(delay),
    };
    action_put(lists, form, signs, next)
}

/// A conditional entry call (9.7.3).
#[tactic(auto, unfolding(ada_image::specs::ImageOfStatements::conditional_call_put))]
fn conditional_call_put<W, Q: MakeSequence<W>>(
    alloc: Global,
    lists: &mut Lists,
    within: &Within<'_, '_>,
    select: &ConditionalEntryCall<Q>,
    next: Option<StatementNo>,
) -> Result<Option<StatementNo>, NoMemory>
    ensures { Made (conditional_call_put Q.making within.now select.now next) lists.old lists.new
        result }
{
    let signs = signs_in_actuals(within, select.call.arguments.as_slice())?;
    let call = call_before(alloc, lists, within, &select.call, &select.statements, next)?;
    let otherwise = inside(alloc, lists, &select.otherwise, within, next)?;
    let form = StatementForm::ConditionalCall {
        call: the_action(call),
        otherwise: the_action(otherwise),
    };
    action_put(lists, form, signs, next)
}

/// An asynchronous select (9.7.4). What is aborted ends inside it.
#[tactic(auto, unfolding(ada_image::specs::ImageOfStatements::asynchronous_put, ada_image::specs::ImageOfStatements::trigger_put))]
fn asynchronous_put<W, Q: MakeSequence<W>>(
    alloc: Global,
    lists: &mut Lists,
    within: &Within<'_, '_>,
    select: &AsynchronousSelect<Q>,
    next: Option<StatementNo>,
) -> Result<Option<StatementNo>, NoMemory>
    ensures { Made (asynchronous_put Q.making within.now select.now next) lists.old lists.new
        result }
{
    let signs = signs_in_trigger(within, &select.trigger)?;
    let s = reserved(lists)?;
    let behind = &select.statements;
    let trigger = match &select.trigger {
        Trigger::Call(call) => call_before(alloc, lists, within, call, behind, next)?,
        Trigger::Delay(delay) => delay_before(alloc, lists, within, delay, behind, next)?,
    };
    let inner = in_construct(within, s);
    let abortable = inside(alloc, lists, &select.abortable, &inner, None)?;
    let form = StatementForm::AsynchronousSelect {
        trigger: the_action(trigger),
        abortable: the_action(abortable),
    };
    put_at(lists, s, form, signs, next)
}

/// A select statement (9.7).
#[tactic(auto, unfolding(ada_image::specs::ImageOfStatements::select_put))]
pub fn select_put<W, Q: MakeSequence<W>>(
    alloc: Global,
    lists: &mut Lists,
    within: &Within<'_, '_>,
    form: &SelectForm<Q>,
    next: Option<StatementNo>,
) -> Result<Option<StatementNo>, NoMemory>
    ensures { Made (select_put Q.making within.now form.now next) lists.old lists.new result }
{
    match form {
        SelectForm::SelectiveAccept(select) => {
            selective_accept_put(alloc, lists, within, select, next)
        }
        SelectForm::TimedEntryCall(select) => timed_call_put(alloc, lists, within, select, next),
        SelectForm::ConditionalEntryCall(select) => {
            conditional_call_put(alloc, lists, within, select, next)
        }
        SelectForm::AsynchronousSelect(select) => {
            asynchronous_put(alloc, lists, within, select, next)
        }
    }
}
