//! Members of group budgets (ISO/IEC 8652:2012, D.14.2).
ghost use Rattle.std.specs.Prelude.{◌≡◌, OnOk};
ghost use Rattle.ann_base.specs.Answers.{Answers, AnswersAs};
ghost use Rattle.profile_machine.specs.Handlers.{member_of, is_the_budget, named_live};
ghost use Rattle.profile_machine.specs.Handlers.{add_member, remove_member};
ghost use Rattle.profile_machine.specs.Tasks.{edit_task};
ghost use Rattle.machine_frames.specs.Did.{Did};
ghost use Rattle.machine_handlers.specs.Settings.{member_named};
ghost use Rattle.machine_handlers.specs.SettingSteps.{member_changes};

use ann_base::{NoMemory, OrMemory, Raised};
use machine_frames::{Effect, goes, raises, refused, task_mut};
use machine_program::{Program, next_of};
use machine_values::{Seen, live_task, number_of_thing, or_raised, seen_by, task_in, value};
use profile_image::{DeclNo, ExprNo, StatementNo};
use profile_machine::world::{Part, Task, World};
use trace_text::Who;

fn set_member(world: &mut World, name: Who, budget: Option<u32>)
    ensures { world.new ≡ edit_task name (member_of budget) world.old }
{
    if let Some(task) = task_mut(world, name) {
        task.budget = budget;
    }
}

fn is_the_budget(budget: u32, member_of: Option<u32>) -> bool
    ensures { result ≡ is_the_budget budget member_of }
{
    match member_of {
        Some(of) => budget == of,
        None => false,
    }
}

// The task that an expression names.
fn named_live<'a>(q: &Seen<'a>, e: ExprNo) -> Result<&'a Task, OrMemory<Raised>>
    ensures { AnswersAs (λ t. t.now) result (named_live q.now e) }
{
    let task = task_in(value(q, e)?);
    or_raised(live_task(q.world, task))
}

// A budget with a task: who it is, and the budget of which it is a member.
#[derive(Clone, Copy)]
pub(crate) struct Member {
    pub(crate) budget: u32,
    pub(crate) who: Who,
    pub(crate) member_of: Option<u32>,
}

fn member_named(q: &Seen<'_>, d: DeclNo, e: ExprNo) -> Result<Member, OrMemory<Raised>>
    ensures { Answers result (member_named q.now d e) }
{
    let budget = or_raised(number_of_thing(q, d))?;
    let task = named_live(q, e)?;
    Ok(Member {
        budget,
        who: task.who,
        member_of: task.budget,
    })
}

// A task is a member of at most one group budget, else Group_Budget_Error is raised.
fn member_changes(
    p: &Program,
    effect: &mut Effect,
    name: Who,
    s: StatementNo,
    who: Who,
    is_right: bool,
    budget: Option<u32>,
) -> Result<(), NoMemory>
    ensures { OnOk result
        (Did (member_changes p.now name s who is_right budget) effect.old effect.new) }
{
    if is_right {
        goes(effect, name, next_of(p, s));
        set_member(&mut effect.world, who, budget);
        Ok(())
    } else {
        raises(effect, Part::Own, name, Raised::GroupBudget)
    }
}

/// Group_Budgets.Add_Task: Group_Budget_Error is raised where the task is a member of a budget.
///
/// Errors: memory ran out.
#[tactic(auto, using(crate::proofs::MemberLemmas::member_laws))]
pub fn add_member(
    p: &Program,
    effect: &mut Effect,
    name: Who,
    s: StatementNo,
    d: DeclNo,
    e: ExprNo,
) -> Result<(), NoMemory>
    ensures { OnOk result (Did (add_member p.now name s d e) effect.old effect.new) }
{
    match member_named(&seen_by(p, &effect.world, name), d, e) {
        Ok(member) => {
            let is_right = member.member_of.is_none();
            member_changes(
                p,
                effect,
                name,
                s,
                member.who,
                is_right,
                Some(member.budget),
            )
        }
        Err(fault) => refused(effect, name, fault),
    }
}

/// Group_Budgets.Remove_Task: Group_Budget_Error is raised where the task is no member of this
/// budget.
///
/// Errors: memory ran out.
#[tactic(auto, using(crate::proofs::MemberLemmas::member_laws))]
pub fn remove_member(
    p: &Program,
    effect: &mut Effect,
    name: Who,
    s: StatementNo,
    d: DeclNo,
    e: ExprNo,
) -> Result<(), NoMemory>
    ensures { OnOk result (Did (remove_member p.now name s d e) effect.old effect.new) }
{
    match member_named(&seen_by(p, &effect.world, name), d, e) {
        Ok(member) => {
            let is_right = is_the_budget(member.budget, member.member_of);
            member_changes(p, effect, name, s, member.who, is_right, None)
        }
        Err(fault) => refused(effect, name, fault),
    }
}
