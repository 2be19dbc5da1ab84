//! Group budgets (ISO/IEC 8652:2012, D.14.2).
ghost use Rattle.std.specs.Prelude.{OnOk};
ghost use Rattle.ann_base.specs.Answers.{Answers};
ghost use Rattle.profile_machine.specs.Handlers.{replenish, add_to_budget};
ghost use Rattle.profile_machine.specs.Handlers.{set_budget, cancel_budget};
ghost use Rattle.machine_frames.specs.Did.{Did};
ghost use Rattle.machine_handlers.specs.Settings.{amount_named, budget_setting};
ghost use Rattle.machine_handlers.specs.SettingSteps.{budget_is_cancelled};

use crate::events::answer;
use crate::settings::{Named, handler_named, is_interrupt_handler, thing_named};
use ann_base::{Moment, NoMemory, OrMemory, Raised};
use machine_frames::{Effect, goes, refused};
use machine_program::{Program, next_of};
use machine_releases::{has_room_for_release, load, raise_by, set_handler};
use machine_values::{Seen, budget_of, moment, number_of_thing, or_raised, seen_by};
use profile_image::{DeclNo, ExprNo, HandlerName, StatementNo, VariableName};
use profile_machine::world::HandlerOf;
use trace_text::Who;

// A budget with a positive amount.
#[derive(Clone, Copy)]
pub(crate) struct Filling {
    pub(crate) budget: u32,
    pub(crate) amount: Moment,
}

fn amount_named(q: &Seen<'_>, d: DeclNo, e: ExprNo) -> Result<Filling, OrMemory<Raised>>
    ensures { Answers result (amount_named q.now d e) }
{
    let budget = or_raised(number_of_thing(q, d))?;
    if !has_room_for_release(q.world) {
        return Err(OrMemory::Fault(Raised::Storage));
    }
    let amount = moment(q, e)?;
    if amount <= 0 {
        return Err(OrMemory::Fault(Raised::GroupBudget));
    }
    Ok(Filling { budget, amount })
}

/// Group_Budgets.Replenish: an amount that is not positive raises Group_Budget_Error.
///
/// Errors: memory ran out.
#[tactic(auto, using(crate::proofs::BudgetLemmas::budget_laws))]
pub fn replenish(
    p: &Program,
    effect: &mut Effect,
    name: Who,
    s: StatementNo,
    d: DeclNo,
    e: ExprNo,
) -> Result<(), NoMemory>
    ensures { OnOk result (Did (replenish p.now name s d e) effect.old effect.new) }
{
    match amount_named(&seen_by(p, &effect.world, name), d, e) {
        Ok(filling) => {
            goes(effect, name, next_of(p, s));
            load(&mut effect.world.budgets, filling.budget, filling.amount);
            Ok(())
        }
        Err(fault) => refused(effect, name, fault),
    }
}

/// Group_Budgets.Add: an amount that is not positive raises Group_Budget_Error.
///
/// Errors: memory ran out.
#[tactic(auto, using(crate::proofs::BudgetLemmas::budget_laws))]
pub fn add_to_budget(
    p: &Program,
    effect: &mut Effect,
    name: Who,
    s: StatementNo,
    d: DeclNo,
    e: ExprNo,
) -> Result<(), NoMemory>
    ensures { OnOk result (Did (add_to_budget p.now name s d e) effect.old effect.new) }
{
    match amount_named(&seen_by(p, &effect.world, name), d, e) {
        Ok(filling) => {
            goes(effect, name, next_of(p, s));
            raise_by(&mut effect.world.budgets, filling.budget, filling.amount);
            Ok(())
        }
        Err(fault) => refused(effect, name, fault),
    }
}

// A budget with its handler.
#[derive(Clone, Copy)]
pub(crate) struct BudgetSet {
    pub(crate) budget: u32,
    pub(crate) handler: Option<HandlerOf>,
}

fn budget_setting(
    q: &Seen<'_>,
    d: DeclNo,
    handler: Option<HandlerName>,
) -> Result<BudgetSet, OrMemory<Raised>>
    ensures { Answers result (budget_setting q.now d handler) }
{
    let budget = or_raised(number_of_thing(q, d))?;
    let handler = or_raised(handler_named(q, handler))?;
    if handler.is_some() && !has_room_for_release(q.world) {
        return Err(OrMemory::Fault(Raised::Storage));
    }
    if !is_interrupt_handler(q.program, q.world, handler) {
        return Err(OrMemory::Fault(Raised::Program));
    }
    Ok(BudgetSet { budget, handler })
}

/// Group_Budgets.Set_Handler.
///
/// Errors: memory ran out.
#[tactic(auto, using(crate::proofs::BudgetLemmas::budget_laws))]
pub fn set_budget(
    p: &Program,
    effect: &mut Effect,
    name: Who,
    s: StatementNo,
    d: DeclNo,
    handler: Option<HandlerName>,
) -> Result<(), NoMemory>
    ensures { OnOk result (Did (set_budget p.now name s d handler) effect.old effect.new) }
{
    match budget_setting(&seen_by(p, &effect.world, name), d, handler) {
        Ok(set) => {
            goes(effect, name, next_of(p, s));
            set_handler(&mut effect.world.budgets, set.budget, set.handler);
            Ok(())
        }
        Err(fault) => refused(effect, name, fault),
    }
}

fn budget_is_cancelled(
    p: &Program,
    effect: &mut Effect,
    name: Who,
    s: StatementNo,
    budget: Named,
) -> Result<(), NoMemory>
    ensures { OnOk result (Did (budget_is_cancelled p.now name s budget) effect.old effect.new) }
{
    let was_set = budget_of(&effect.world, budget.number).handler.is_some();
    goes(effect, name, next_of(p, s));
    set_handler(&mut effect.world.budgets, budget.number, None);
    answer(p, effect, name, budget.target, was_set)
}

/// Group_Budgets.Cancel_Handler: the variable gets whether the budget had a handler.
///
/// Errors: memory ran out.
#[tactic(auto, using(crate::proofs::BudgetLemmas::budget_laws))]
pub fn cancel_budget(
    p: &Program,
    effect: &mut Effect,
    name: Who,
    s: StatementNo,
    d: DeclNo,
    target: VariableName,
) -> Result<(), NoMemory>
    ensures { OnOk result (Did (cancel_budget p.now name s d target) effect.old effect.new) }
{
    match thing_named(&seen_by(p, &effect.world, name), d, target) {
        Ok(budget) => budget_is_cancelled(p, effect, name, s, budget),
        Err(fault) => refused(effect, name, fault),
    }
}
