//! From the lines of a run to the lines of a trace: numbers become names.
//!
//! The names are lent by the program, the texts by the lines of the run: nothing is copied.
//!
//! A line has names and texts of at most 1,000 bytes. Those of a legal program are not longer, and
//! are names and texts as a trace has them; of any other program the line is answered as want of
//! memory.
ghost use Rattle.std.specs.Prelude.{◌≡◌, IfOk};
ghost use Rattle.trace_text.specs.Text.{IsName, IsExceptionName, IsPutText, IsEntryPrintable};
ghost use Rattle.trace_text.specs.Text.{IsFinishedPrintable, IsEndedPrintable, IsPrintable};
ghost use Rattle.profile_machine.specs.Lines.{exception_name, created_name};
ghost use Rattle.profile_machine.specs.Lines.{name_of_entry, finished_how, event_of};
ghost use Rattle.trace_text.specs.declared.events.Event.TheVariants as written;
ghost use Rattle.profile_machine.specs.declared.world.lines.Line.TheVariants as line;
ghost use Rattle.machine_ticks.specs.Stops.{ended_by};
ghost use Rattle.machine_ticks.specs.Ticks.{tick_event};
ghost use Rattle.trace_text.specs.Lent.{entry_lent, finished_lent, ended_lent, event_lent};

use crate::{Stopped, TickLine};
use ann_base::{CallNo, Level, Name, NoMemory, Raised, RegionNo, TaskNo};
use machine_program::{Program, declaration_of, entry_of, main_procedure, subprogram_of};
use profile_image::{DeclNo, EntryNo};
use profile_machine::world::{HandlerOf, Line, MeetingEnd, Owner};
use trace_fields::{exception_lent, name_lent, text_lent};
use trace_text::{
    Created, Ended, EndedRef, EntryNameRef, EventRef, FinishedRef, NameRef, TextRef, Who,
};
use world_tables::List;

fn name(bytes: &[u8]) -> Result<NameRef<'_>, NoMemory>
    ensures text { IfOk result (λ name. name ≡ bytes.now) }
    ensures name { IfOk result IsName }
{
    name_lent(bytes).ok_or(NoMemory)
}

fn exception(bytes: &[u8]) -> Result<NameRef<'_>, NoMemory>
    ensures text { IfOk result (λ name. name ≡ bytes.now) }
    ensures name { IfOk result IsExceptionName }
{
    exception_lent(bytes).ok_or(NoMemory)
}

fn exception_name(p: &Program, raised: Raised) -> Result<NameRef<'_>, NoMemory>
    ensures text { IfOk result (λ name. name ≡ exception_name p.now raised) }
    ensures name { IfOk result IsExceptionName }
{
    match raised {
        Raised::Constraint => exception(b"constraint_error"),
        Raised::Program => exception(b"program_error"),
        Raised::Storage => exception(b"storage_error"),
        Raised::Tasking => exception(b"tasking_error"),
        Raised::TimerResource => exception(b"timer_resource_error"),
        Raised::GroupBudget => exception(b"group_budget_error"),
        Raised::DispatchingPolicy => exception(b"dispatching_policy_error"),
        Raised::User(d) => exception(declaration_of(p, DeclNo(d)).expanded.as_slice()),
    }
}

fn put_text(text: &List<u8>) -> Result<TextRef<'_>, NoMemory>
    ensures text { IfOk result (λ put. put ≡ text.now) }
    ensures put { IfOk result IsPutText }
{
    let (front, rest) = text.as_slices();
    text_lent(front, rest).ok_or(NoMemory)
}

fn created_name(p: &Program, declared: Option<DeclNo>) -> Result<NameRef<'_>, NoMemory>
    ensures text { IfOk result (λ name. name ≡ created_name p.now declared) }
    ensures name { IfOk result IsName }
{
    match declared {
        None => name(main_procedure(p).name.as_slice()),
        Some(d) => name(declaration_of(p, d).expanded.as_slice()),
    }
}

fn name_of_entry(p: &Program, owner: Owner, e: EntryNo) -> Result<EntryNameRef<'_>, NoMemory>
    ensures text { IfOk result (λ name. entry_lent name ≡ name_of_entry p.now owner e) }
    ensures printable { IfOk result (λ name. IsEntryPrintable (entry_lent name)) }
{
    let name = name(entry_of(p, e).name.as_slice())?;
    match owner {
        Owner::Task(t) => Ok(EntryNameRef::OfTask(t, name)),
        Owner::Object(o) => Ok(EntryNameRef::OfObject(o, name)),
    }
}

fn finished_how(p: &Program, how: MeetingEnd) -> Result<FinishedRef<'_>, NoMemory>
    ensures text { IfOk result (λ finished. finished_lent finished ≡ finished_how p.now how) }
    ensures printable { IfOk result (λ how. IsFinishedPrintable (finished_lent how)) }
{
    match how {
        MeetingEnd::Ok => Ok(FinishedRef::Ok),
        MeetingEnd::Raised(raised) => Ok(FinishedRef::Raised(exception_name(p, raised)?)),
        MeetingEnd::Requeue => Ok(FinishedRef::Requeue),
    }
}

/// What a line of a tock says.
pub fn tick_event(line: TickLine) -> EventRef<'static>
    ensures event { event_lent result ≡ tick_event line }
    ensures printable { IsPrintable (event_lent result) }
{
    match line {
        TickLine::Run(who) => EventRef::Run { who },
        TickLine::Idle => EventRef::Idle,
        TickLine::Serve(release) => EventRef::Serve { release },
    }
}

/// Why a run ends, with the name of the exception, which the program lends.
///
/// Errors: the exception has no name that a line can have.
pub fn why_lent(p: &Program, stopped: Stopped) -> Result<EndedRef<'_>, NoMemory>
    ensures why { IfOk result (λ why. ended_lent why ≡ ended_by p.now stopped) }
    ensures printable { IfOk result (λ why. IsEndedPrintable (ended_lent why)) }
{
    match stopped {
        Stopped::Completed => Ok(EndedRef::Completed),
        Stopped::Exception(raised) => Ok(EndedRef::Exception(exception_name(p, raised)?)),
        Stopped::Stuck => Ok(EndedRef::Stuck),
        Stopped::Bound => Ok(EndedRef::Bound),
    }
}

/// The same, with a name of its own.
///
/// Errors: the exception has no name that a line can have.
pub fn ended_by(p: &Program, stopped: Stopped) -> Result<Ended, NoMemory>
    ensures why { IfOk result (λ why. why ≡ ended_by p.now stopped) }
    ensures printable { IfOk result IsEndedPrintable }
{
    match stopped {
        Stopped::Completed => Ok(Ended::Completed),
        Stopped::Exception(raised) => {
            let name = exception_name(p, raised)?;
            Ok(Ended::Exception(Name::from_bytes(name.as_bytes())))
        }
        Stopped::Stuck => Ok(Ended::Stuck),
        Stopped::Bound => Ok(Ended::Bound),
    }
}

fn created(
    p: &Program,
    what: Created,
    declared: Option<DeclNo>,
    level: Level,
) -> Result<EventRef<'_>, NoMemory>
    ensures event { IfOk result
        (λ event. event_lent event ≡ event_of p.now (line.New what declared level)) }
    ensures printable { IfOk result (λ event. IsPrintable (event_lent event)) }
{
    let name = created_name(p, declared)?;
    Ok(EventRef::New { what, name, level })
}

fn raised(p: &Program, who: Who, exception: Raised) -> Result<EventRef<'_>, NoMemory>
    ensures event { IfOk result
        (λ event. event_lent event ≡ event_of p.now (line.Raise who exception)) }
    ensures printable { IfOk result (λ event. IsPrintable (event_lent event)) }
{
    let exception = exception_name(p, exception)?;
    Ok(EventRef::Raise { who, exception })
}

fn put(who: Who, text: &List<u8>) -> Result<EventRef<'_>, NoMemory>
    ensures event { IfOk result (λ event. event_lent event ≡ written.Put who text.now) }
    ensures printable { IfOk result (λ event. IsPrintable (event_lent event)) }
{
    let text = put_text(text)?;
    Ok(EventRef::Put { who, text })
}

fn called(
    p: &Program,
    task: TaskNo,
    call: CallNo,
    owner: Owner,
    entry: EntryNo,
    priority: Level,
) -> Result<EventRef<'_>, NoMemory>
    ensures event { IfOk result
        (λ event. event_lent event ≡ event_of p.now (line.Call task call owner entry priority)) }
    ensures printable { IfOk result (λ event. IsPrintable (event_lent event)) }
{
    let entry = name_of_entry(p, owner, entry)?;
    Ok(EventRef::Call {
        task,
        call,
        entry,
        priority,
    })
}

fn finished(p: &Program, who: Who, call: CallNo, how: MeetingEnd) -> Result<EventRef<'_>, NoMemory>
    ensures event { IfOk result
        (λ event. event_lent event ≡ event_of p.now (line.Finish who call how)) }
    ensures printable { IfOk result (λ event. IsPrintable (event_lent event)) }
{
    let how = finished_how(p, how)?;
    Ok(EventRef::Finish { who, call, how })
}

fn initialized(
    p: &Program,
    who: Who,
    object: u32,
    region: RegionNo,
    declared: DeclNo,
) -> Result<EventRef<'_>, NoMemory>
    ensures event { IfOk result
        (λ event. event_lent event ≡ event_of p.now (line.Init who object region declared)) }
    ensures printable { IfOk result (λ event. IsPrintable (event_lent event)) }
{
    let name = name(declaration_of(p, declared).name.as_slice())?;
    Ok(EventRef::Init {
        who,
        object,
        region,
        name,
    })
}

fn released(p: &Program, release: u32, handler: HandlerOf) -> Result<EventRef<'_>, NoMemory>
    ensures event { IfOk result
        (λ event. event_lent event ≡ event_of p.now (line.Release release handler)) }
    ensures printable { IfOk result (λ event. IsPrintable (event_lent event)) }
{
    let name = name(subprogram_of(p, handler.procedure).name.as_slice())?;
    Ok(EventRef::Release {
        release,
        object: handler.object,
        handler: name,
    })
}

/// What a line of an effect says, with the names of the program.
///
/// Errors: a name or text is not one that a line can have.
pub fn event_of<'a>(p: &'a Program, line: &'a Line) -> Result<EventRef<'a>, NoMemory>
    ensures event { IfOk result (λ event. event_lent event ≡ event_of p.now line.now) }
    ensures printable { IfOk result (λ event. IsPrintable (event_lent event)) }
{
    match line {
        Line::New {
            what,
            declared,
            level,
        } => created(p, *what, *declared, *level),
        Line::Ready {
            who,
            level,
            end,
            deadline,
        } => Ok(EventRef::Ready {
            who: *who,
            level: *level,
            end: *end,
            deadline: *deadline,
        }),
        Line::Block { who, waits } => Ok(EventRef::Block {
            who: *who,
            waits: *waits,
        }),
        Line::Base { task, level } => Ok(EventRef::Base {
            task: *task,
            level: *level,
        }),
        Line::Deadline { task, deadline } => Ok(EventRef::Deadline {
            task: *task,
            deadline: *deadline,
        }),
        Line::Quantum { task } => Ok(EventRef::Quantum { task: *task }),
        Line::Done { task } => Ok(EventRef::Done { task: *task }),
        Line::Raise { who, exception } => raised(p, *who, *exception),
        Line::Put { who, text } => put(*who, text),
        Line::Call {
            task,
            call,
            owner,
            entry,
            priority,
        } => called(p, *task, *call, *owner, *entry, *priority),
        Line::Start { who, call } => Ok(EventRef::Start {
            who: *who,
            call: *call,
        }),
        Line::Finish { who, call, how } => finished(p, *who, *call, *how),
        Line::Cancel { task, call } => Ok(EventRef::Cancel {
            task: *task,
            call: *call,
        }),
        Line::Gone { task, call } => Ok(EventRef::Gone {
            task: *task,
            call: *call,
        }),
        Line::Enter { who, object, mode } => Ok(EventRef::Enter {
            who: *who,
            object: *object,
            mode: *mode,
        }),
        Line::Exit { who, object } => Ok(EventRef::Exit {
            who: *who,
            object: *object,
        }),
        Line::Held { who, object, mode } => Ok(EventRef::Held {
            who: *who,
            object: *object,
            mode: *mode,
        }),
        Line::Abort { task, victim } => Ok(EventRef::Abort {
            task: *task,
            victim: *victim,
        }),
        Line::Trigger { task } => Ok(EventRef::Trigger { task: *task }),
        Line::Leave { who, region, how } => Ok(EventRef::Leave {
            who: *who,
            region: *region,
            how: *how,
        }),
        Line::Init {
            who,
            object,
            region,
            declared,
        } => initialized(p, *who, *object, *region, *declared),
        Line::Final { who, object } => Ok(EventRef::Final {
            who: *who,
            object: *object,
        }),
        Line::Left { who, region } => Ok(EventRef::Left {
            who: *who,
            region: *region,
        }),
        Line::Replace { who, object } => Ok(EventRef::Replace {
            who: *who,
            object: *object,
        }),
        Line::Release { release, handler } => released(p, *release, *handler),
        Line::Served { release } => Ok(EventRef::Served { release: *release }),
        Line::Interrupt { number } => Ok(EventRef::Interrupt { number: *number }),
        Line::Port { number, value } => Ok(EventRef::Port {
            number: *number,
            value: *value,
        }),
        Line::Mask { number } => Ok(EventRef::Mask { number: *number }),
        Line::Unmask { number } => Ok(EventRef::Unmask { number: *number }),
        Line::Masked { number } => Ok(EventRef::Masked { number: *number }),
    }
}
