//! What an action costs, in ticks (this profile's choice).
ghost use Rattle.std.specs.Prelude.{◌≡◌, Some, option_copied};
ghost use Rattle.profile_machine.specs.Cost.{of_region, has_registered, cost_of_leaving};
ghost use Rattle.profile_machine.specs.Cost.{cost_of_step, cost_of_mark, cost_of_form};
ghost use Rattle.profile_machine.specs.Cost.{cost_of_statement, cost_of_first, cost_of_top, cost};
ghost use Rattle.profile_machine.specs.Tasks.{task_at};

use ann_base::RegionNo;
use machine_frames::top_of;
use machine_program::{Program, statement_of};
use profile_image::{Statement, StatementForm, StatementNo};
use profile_machine::world::{AssignStep, Frame, Mark, Registered, Task, World};
use trace_text::Who;
use world_tables::List;

/// Whether a controlled object is of the region.
pub fn of_region(region: RegionNo, registered: Registered) -> bool
    ensures { result ≡ of_region region registered }
{
    registered.region.0 == region.0
}

/// Whether any controlled object is of the region.
pub fn has_registered(objects: &List<Registered>, region: RegionNo) -> bool
    ensures { result ≡ has_registered objects.now region }
{
    objects
        .iter()
        .any(|registered| of_region(region, *registered))
}

fn cost_of_leaving(objects: &List<Registered>, being_left: bool, region: Option<RegionNo>) -> u64
    ensures { result ≡ cost_of_leaving objects.now being_left region }
{
    match region {
        Some(region) if being_left && has_registered(objects, region) => 2,
        _ => 1,
    }
}

fn cost_of_step(step: AssignStep) -> u64
    ensures { result ≡ cost_of_step step }
{
    match step {
        AssignStep::FinalizeTarget => 2,
        AssignStep::CopyComponents => 1,
        AssignStep::AdjustTarget => 2,
        AssignStep::Assigned => 1,
    }
}

fn cost_of_mark(objects: &List<Registered>, mark: &Mark) -> u64
    ensures { result ≡ cost_of_mark objects.now mark.now }
{
    match mark {
        Mark::Scope(scope) => cost_of_leaving(objects, scope.being_left, scope.region),
        Mark::Handled(_) => 1,
        Mark::InProtected(_) => 1,
        Mark::InAccept(_) => 1,
        Mark::Abortable(_) => 1,
        Mark::InInitialize(_) => 1,
        Mark::InFinalize(_) => 1,
        Mark::InAssign(assignment) => cost_of_step(assignment.step),
    }
}

// `signs` is the number of operator signs and of calls of predefined functions.
fn cost_of_form(form: &StatementForm, signs: u32) -> u64
    ensures { result ≡ cost_of_form form.now signs }
{
    let n = u64::from(signs);
    match form {
        StatementForm::Declare(_) => 1 + n,
        StatementForm::Initialize(_) => 2,
        StatementForm::CreateTask { .. } => 2,
        StatementForm::Activate(_) => 2,
        StatementForm::EndActivation => 1,
        StatementForm::CallMain => 2,
        StatementForm::Handled { .. } => 1,
        StatementForm::Null => 1,
        StatementForm::Assign { .. } => 1 + n,
        StatementForm::AssignArray { .. } => 1 + n,
        StatementForm::AssignControlled { .. } => 1,
        StatementForm::If { .. } => 1 + n,
        StatementForm::Case { .. } => 1 + n,
        StatementForm::Loop { .. } => 1,
        StatementForm::While { .. } => 1 + n,
        StatementForm::For { .. } => 1 + n,
        StatementForm::FirstTurn { .. } => 1,
        StatementForm::LaterTurn { .. } => 1,
        StatementForm::Exit { .. } => 1 + n,
        StatementForm::Block(_) => 1,
        StatementForm::Return => 1 + n,
        StatementForm::ReturnValue { .. } => 1 + n,
        StatementForm::Raise(_) => 1,
        StatementForm::RaiseAgain(_) => 1,
        StatementForm::Delay(_) => 2 + n,
        StatementForm::DelayUntil(_) => 2 + n,
        StatementForm::Call { .. } => 2 + n,
        StatementForm::PutLine(_) => 4 + n,
        StatementForm::EntryCall { .. } => 2 + n,
        StatementForm::ConditionalCall { .. } => 2 + n,
        StatementForm::TimedCall { .. } => 2 + n,
        StatementForm::AsynchronousSelect { .. } => 2 + n,
        StatementForm::Accept { .. } => 2,
        StatementForm::SelectiveAccept { alternatives, .. } => {
            2 + n + alternatives.as_slice().len() as u64
        }
        StatementForm::Abort(_) => 2,
        StatementForm::Requeue { .. } => 2,
        StatementForm::SetEvent { .. } => 2 + n,
        StatementForm::CancelEvent { .. } => 2 + n,
        StatementForm::SetTimer { .. } => 2 + n,
        StatementForm::CancelTimer { .. } => 2 + n,
        StatementForm::AddTask { .. } => 2 + n,
        StatementForm::RemoveTask { .. } => 2 + n,
        StatementForm::Replenish { .. } => 2 + n,
        StatementForm::AddToBudget { .. } => 2 + n,
        StatementForm::SetBudget { .. } => 2 + n,
        StatementForm::CancelBudget { .. } => 2 + n,
        StatementForm::SetPriority { .. } => 2 + n,
        StatementForm::SetQuantum { .. } => 2 + n,
        StatementForm::SetDeadline { .. } => 2 + n,
        StatementForm::DelayUntilAndSetDeadline { .. } => 2 + n,
    }
}

fn cost_of_statement(statement: &Statement) -> u64
    ensures { result ≡ cost_of_statement statement.now }
{
    cost_of_form(&statement.form, statement.signs)
}

// The first item of a rest: a statement, or the top mark.
fn cost_of_first(
    p: &Program,
    objects: &List<Registered>,
    mark: &Mark,
    onward: Option<StatementNo>,
) -> u64
    ensures { result ≡ cost_of_first p.now objects.now mark.now onward }
{
    match onward {
        Some(s) => cost_of_statement(statement_of(p, s)),
        None => cost_of_mark(objects, mark),
    }
}

// The same of the top frame, if there is one.
fn cost_of_top(p: &Program, objects: &List<Registered>, top: Option<&Frame>) -> u64
    ensures { result ≡ cost_of_top p.now objects.now (option_copied top.entry) }
{
    match top {
        Some(frame) => cost_of_first(p, objects, &frame.mark, frame.onward),
        None => 2,
    }
}

/// What the action costs that the one with this name does next. The agent without a rest calls the
/// handler of the release that it serves.
pub fn cost(p: &Program, world: &World, name: Who) -> u64
    ensures { result ≡ cost p.now world.now name }
{
    cost_of_top(p, &world.registered, top_of(world, name))
}

/// The same of a task that has been found already.
pub fn cost_of_found(p: &Program, world: &World, name: Who, task: &Task) -> u64
    requires { task_at world.now name ≡ Some task.now }
    ensures { result ≡ cost p.now world.now name }
{
    cost_of_top(p, &world.registered, task.frames.front())
}
