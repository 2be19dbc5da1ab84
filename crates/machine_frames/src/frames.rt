//! The frames of a task: opening constructs, leaving them, and going on (ISO/IEC 8652:2012, 5, 6,
//! 7.6.1, 11).
ghost use Rattle.std.specs.Prelude.{◌≡◌, OnOk, option_and_then, option_copied};
ghost use Rattle.world_tables.specs.Lists.{first_of};
ghost use Rattle.profile_machine.specs.Frames.{top_of, onward_of, leaving_of, goes};
ghost use Rattle.profile_machine.specs.Frames.{leaves, raises, push, pop, new_frame};
ghost use Rattle.profile_machine.specs.Frames.{statement_of_purpose, statement_of_mark};
ghost use Rattle.profile_machine.specs.Frames.{within_of, stands_in, exit_loop, pass_on};
ghost use Rattle.profile_machine.specs.Steps.{says};
ghost use Rattle.profile_image.specs.Words.{same_option, same_statement};
ghost use Rattle.machine_frames.specs.Did.{Did};

use crate::effects::Effect;
use crate::tasks::{task_at, task_mut};
use ann_base::{NoMemory, Raised};
use machine_program::{Program, form_of, next_of};
use profile_image::{StatementForm, StatementNo};
use profile_machine::Leaving;
use profile_machine::world::{Frame, Line, Mark, Part, Purpose, Said, Task, World};
use trace_text::Who;

/// The top frame of a task, if it has one.
pub fn top_of(world: &World, name: Who) -> Option<&Frame>
    ensures { option_copied result ≡ top_of world.now name }
{
    task_at(world, name)?.frames.front()
}

/// A frame that begins with this action.
pub fn new_frame(mark: Mark, onward: Option<StatementNo>) -> Frame
    ensures { result ≡ new_frame mark onward }
{
    Frame {
        mark,
        onward,
        left_as: None,
        struck: false,
    }
}

/// The task goes on with this action, or with the end of what is open.
#[tactic(auto, unfolding(profile_machine::specs::Frames::goes))]
pub fn goes(effect: &mut Effect, name: Who, onward: Option<StatementNo>)
    ensures { Did (goes name onward) effect.old effect.new }
{
    if let Some(task) = task_mut(&mut effect.world, name) {
        if let Some(frame) = task.frames.front_mut() {
            frame.onward = onward;
        }
    }
}

/// The frame is opened on top.
pub fn push(world: &mut World, name: Who, frame: Frame) -> Result<(), NoMemory>
    ensures { OnOk result (world.new ≡ push name frame world.old) }
{
    if let Some(task) = task_mut(world, name) {
        task.frames.push_front(frame)?;
    }
    Ok(())
}

/// The top frame has ended.
pub fn pop(world: &mut World, name: Who)
    ensures { world.new ≡ pop name world.old }
{
    if let Some(task) = task_mut(world, name) {
        task.frames.pop_front();
    }
}

/// The marks are left from the top.
#[tactic(auto, unfolding(profile_machine::specs::Frames::leaves))]
pub fn leaves(effect: &mut Effect, name: Who, leaving: Leaving)
    ensures { Did (leaves name leaving) effect.old effect.new }
{
    if let Some(task) = task_mut(&mut effect.world, name) {
        if let Some(frame) = task.frames.front_mut() {
            frame.onward = None;
            frame.left_as = Some(leaving);
        }
    }
}

/// An exception is raised, and the marks are left with it (11.3).
#[tactic(auto, unfolding(profile_machine::specs::Frames::raises))]
pub fn raises(effect: &mut Effect, part: Part, name: Who, exception: Raised) -> Result<(), NoMemory>
    ensures { OnOk result (Did (raises part name exception) effect.old effect.new) }
{
    says(
        effect,
        part,
        Line::Raise {
            who: name,
            exception,
        },
    )?;
    leaves(effect, name, Leaving::Exception(exception));
    Ok(())
}

/// A line is said.
pub fn says(effect: &mut Effect, part: Part, line: Line) -> Result<(), NoMemory>
    ensures { OnOk result (Did (says part line) effect.old effect.new) }
{
    effect.said.push_back(Said { part, line })?;
    Ok(())
}

/// What a task does next.
pub fn onward_in(task: &Task) -> Option<StatementNo>
    ensures { result ≡ option_and_then (λ f. f.onward) (first_of task.now.frames) }
{
    task.frames.front()?.onward
}

/// What the task with this name does next.
pub fn onward_of(world: &World, name: Who) -> Option<StatementNo>
    ensures { result ≡ onward_of world.now name }
{
    top_of(world, name)?.onward
}

/// How a mark is left: as it is being left already, or because its statements ended.
pub fn leaving_of(frame: &Frame) -> Leaving
    ensures { result ≡ leaving_of frame.now }
{
    frame.left_as.unwrap_or(Leaving::End)
}

fn statement_of_purpose(purpose: &Purpose) -> Option<StatementNo>
    ensures { result ≡ statement_of_purpose purpose.now }
{
    match purpose {
        Purpose::Block(s) => Some(*s),
        Purpose::Subprogram(_, _) => None,
        Purpose::EntryBody(_) => None,
        Purpose::Task => None,
    }
}

/// The statement whose construct a mark is; the mark of a body has none.
pub fn statement_of_mark(mark: &Mark) -> Option<StatementNo>
    ensures { result ≡ statement_of_mark mark.now }
{
    match mark {
        Mark::Scope(scope) => statement_of_purpose(&scope.purpose),
        Mark::Handled(s) => Some(*s),
        Mark::InProtected(_) => None,
        Mark::InAccept(accept) => Some(accept.accept),
        Mark::Abortable(part) => Some(part.select),
        Mark::InInitialize(_) => None,
        Mark::InFinalize(_) => None,
        Mark::InAssign(_) => None,
    }
}

/// The innermost construct that is open round a loop, by its statement.
pub fn within_of(form: &StatementForm) -> Option<StatementNo>
    ensures { result ≡ within_of form.now }
{
    match form {
        StatementForm::Loop { within, .. } => *within,
        StatementForm::While { within, .. } => *within,
        StatementForm::For { within, .. } => *within,
        _ => None,
    }
}

fn same_place(a: Option<StatementNo>, b: Option<StatementNo>) -> bool
    ensures { result ≡ same_option same_statement a b }
{
    match (a, b) {
        (None, None) => true,
        (Some(a), Some(b)) => a.0 == b.0,
        _ => false,
    }
}

/// Whether the loop stands directly in what is open on top, or nothing is open.
pub fn stands_in(p: &Program, of_loop: StatementNo, world: &World, name: Who) -> bool
    ensures { result ≡ stands_in p.now of_loop (top_of world.now name) }
{
    match top_of(world, name) {
        Some(frame) => same_place(
            within_of(form_of(p, of_loop)),
            statement_of_mark(&frame.mark),
        ),
        None => true,
    }
}

/// An exit goes on behind its loop, once the marks inside the loop are left (5.7).
#[tactic(auto, unfolding(profile_machine::specs::Frames::exit_loop))]
pub fn exit_loop(p: &Program, effect: &mut Effect, name: Who, of_loop: StatementNo)
    ensures { Did (exit_loop p.now name of_loop) effect.old effect.new }
{
    if stands_in(p, of_loop, &effect.world, name) {
        goes(effect, name, next_of(p, of_loop));
    } else {
        leaves(effect, name, Leaving::Exit(of_loop));
    }
}

/// A mark has ended, and the task goes on as the mark was left.
#[tactic(auto, unfolding(profile_machine::specs::Frames::pass_on))]
pub fn pass_on(p: &Program, effect: &mut Effect, name: Who, leaving: Leaving)
    ensures { Did (pass_on p.now name leaving) effect.old effect.new }
{
    match leaving {
        Leaving::End => {}
        Leaving::Return => leaves(effect, name, Leaving::Return),
        Leaving::Exit(of_loop) => exit_loop(p, effect, name, of_loop),
        Leaving::Exception(exception) => leaves(effect, name, Leaving::Exception(exception)),
        Leaving::Abort => leaves(effect, name, Leaving::Abort),
        Leaving::Terminate => leaves(effect, name, Leaving::Terminate),
    }
}
