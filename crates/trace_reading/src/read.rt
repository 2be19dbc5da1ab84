//! How a line is read.
ghost use Rattle.std.specs.Prelude.{◌≡◌, ℕ, ◌<◌, [], ◌∷◌, ◌++◌, IfSome, IfOk, Ok, codes, decimal};
ghost use Rattle.std.specs.Result.{result_ok};
ghost use Rattle.trace_text.specs.Text.{IsPrintable, IsPrintableLine, words_of, spaced, line_text};
ghost use Rattle.trace_text.specs.Text.{task_text, object_text, who_text, created_text};
ghost use Rattle.trace_text.specs.Words.{word_text};
ghost use Rattle.trace_reading.specs.Lines.{lead_text, lead_in, created_in, ready_in, call_in};
ghost use Rattle.trace_reading.specs.Lines.{finish_in, enter_in, held_in, leave_in, init_in};
ghost use Rattle.trace_reading.specs.Lines.{release_in, port_in, end_in, who_in, task_line_in};
ghost use Rattle.trace_reading.specs.Lines.{agent_line_in, object_line_in, bare_in, led_in};
ghost use Rattle.trace_reading.specs.Lines.{event_in, moment_and_event_in, line_in};
ghost use Rattle.trace_text.specs.declared.events.Event.{Event};

use ann_base::{CallNo, ObjectNo, RegionNo, TaskNo};
use trace_fields::{
    deadline_of, ended, entry_at, event_word_at, finished_of, handler_of, last, last_exception,
    last_long, last_mode, last_moment, last_object, last_short, last_task, last_text, last_waits,
    leaves_of, long_at, name_at, name_of, number_of, object_at, object_of, queue_end_at, short_at,
    split_at_mark, task_of, value_of, word_at, word_of,
};
use trace_text::{Created, Ended, Event, Who, Word};

/// No moment and printable event have this line.
#[derive(Clone, Copy, Debug)]
pub struct BadLine;

// What a line begins with, behind its tick: its subject, or its word where it has none.
pub enum Lead {
    Task(TaskNo),
    Object(ObjectNo),
    Agent,
    Bare(Word),
}

fn created(what: Created, bytes: &[u8]) -> Option<Event>
    ensures read { result ≡ created_in what bytes.now }
    ensures spelt { IfSome result
        (λ event.
        spaced (created_text what ∷ codes "new" ∷ []) ++ bytes.now ≡ spaced (words_of event)) }
    ensures printable { IfSome result IsPrintable }
{
    let (name, rest) = name_at(bytes)?;
    let level = last_short(rest)?;
    Some(Event::New { what, name, level })
}

fn ready(who: Who, bytes: &[u8]) -> Option<Event>
    ensures read { result ≡ ready_in who bytes.now }
    ensures spelt { IfSome result
        (λ event.
        spaced (who_text who ∷ codes "ready" ∷ []) ++ bytes.now ≡ spaced (words_of event)) }
    ensures printable { IfSome result IsPrintable }
{
    let (level, rest) = short_at(bytes)?;
    let (end, rest) = queue_end_at(rest)?;
    let deadline = deadline_of(rest)?;
    Some(Event::Ready {
        who,
        level,
        end,
        deadline,
    })
}

fn call(task: TaskNo, bytes: &[u8]) -> Option<Event>
    ensures read { result ≡ call_in task bytes.now }
    ensures spelt { IfSome result
        (λ event.
        spaced (task_text task ∷ codes "call" ∷ []) ++ bytes.now ≡ spaced (words_of event)) }
    ensures printable { IfSome result IsPrintable }
{
    let (call, rest) = long_at(bytes)?;
    let (entry, rest) = entry_at(rest)?;
    let priority = last_short(rest)?;
    Some(Event::Call {
        task,
        call: CallNo(call),
        entry,
        priority,
    })
}

fn finish(who: Who, bytes: &[u8]) -> Option<Event>
    ensures read { result ≡ finish_in who bytes.now }
    ensures spelt { IfSome result
        (λ event.
        spaced (who_text who ∷ codes "finish" ∷ []) ++ bytes.now ≡ spaced (words_of event)) }
    ensures printable { IfSome result IsPrintable }
{
    let (call, rest) = long_at(bytes)?;
    let how = finished_of(last(rest)?)?;
    Some(Event::Finish {
        who,
        call: CallNo(call),
        how,
    })
}

fn enter(who: Who, bytes: &[u8]) -> Option<Event>
    ensures read { result ≡ enter_in who bytes.now }
    ensures spelt { IfSome result
        (λ event.
        spaced (who_text who ∷ codes "enter" ∷ []) ++ bytes.now ≡ spaced (words_of event)) }
    ensures printable { IfSome result IsPrintable }
{
    let (object, rest) = object_at(bytes)?;
    let mode = last_mode(rest)?;
    Some(Event::Enter { who, object, mode })
}

fn held(who: Who, bytes: &[u8]) -> Option<Event>
    ensures read { result ≡ held_in who bytes.now }
    ensures spelt { IfSome result
        (λ event.
        spaced (who_text who ∷ codes "held" ∷ []) ++ bytes.now ≡ spaced (words_of event)) }
    ensures printable { IfSome result IsPrintable }
{
    let (object, rest) = object_at(bytes)?;
    let mode = last_mode(rest)?;
    Some(Event::Held { who, object, mode })
}

fn leave(who: Who, bytes: &[u8]) -> Option<Event>
    ensures read { result ≡ leave_in who bytes.now }
    ensures spelt { IfSome result
        (λ event.
        spaced (who_text who ∷ codes "leave" ∷ []) ++ bytes.now ≡ spaced (words_of event)) }
    ensures printable { IfSome result IsPrintable }
{
    let (region, rest) = long_at(bytes)?;
    let how = leaves_of(last(rest)?)?;
    Some(Event::Leave {
        who,
        region: RegionNo(region),
        how,
    })
}

fn init(who: Who, bytes: &[u8]) -> Option<Event>
    ensures read { result ≡ init_in who bytes.now }
    ensures spelt { IfSome result
        (λ event.
        spaced (who_text who ∷ codes "init" ∷ []) ++ bytes.now ≡ spaced (words_of event)) }
    ensures printable { IfSome result IsPrintable }
{
    let (object, rest) = long_at(bytes)?;
    let (region, rest) = long_at(rest)?;
    let name = name_of(last(rest)?)?;
    Some(Event::Init {
        who,
        object,
        region: RegionNo(region),
        name,
    })
}

fn release(bytes: &[u8]) -> Option<Event>
    ensures read { result ≡ release_in bytes.now }
    ensures spelt { IfSome result
        (λ event. spaced (codes "release" ∷ []) ++ bytes.now ≡ spaced (words_of event)) }
    ensures printable { IfSome result IsPrintable }
{
    let (release, rest) = long_at(bytes)?;
    let (object, handler) = handler_of(last(rest)?)?;
    Some(Event::Release {
        release,
        object,
        handler,
    })
}

fn port(bytes: &[u8]) -> Option<Event>
    ensures read { result ≡ port_in bytes.now }
    ensures spelt { IfSome result
        (λ event. spaced (codes "port" ∷ []) ++ bytes.now ≡ spaced (words_of event)) }
    ensures printable { IfSome result IsPrintable }
{
    let (number, rest) = short_at(bytes)?;
    let value = value_of(last(rest)?)?;
    Some(Event::Port { number, value })
}

fn end(bytes: &[u8]) -> Option<Event>
    ensures read { result ≡ end_in bytes.now }
    ensures spelt { IfSome result
        (λ event. spaced (codes "end" ∷ []) ++ bytes.now ≡ spaced (words_of event)) }
    ensures printable { IfSome result IsPrintable }
{
    let (why, rest) = word_at(bytes)?;
    if why == b"exception".as_slice() {
        let name = last_exception(rest)?;
        return Some(Event::End {
            why: Ended::Exception(name),
        });
    }
    ended(rest)?;
    if why == b"completed".as_slice() {
        return Some(Event::End {
            why: Ended::Completed,
        });
    }
    if why == b"stuck".as_slice() {
        return Some(Event::End { why: Ended::Stuck });
    }
    if why == b"bound".as_slice() {
        return Some(Event::End { why: Ended::Bound });
    }
    None
}

// What a task or the agent does.
fn who_line(who: Who, word: Word, bytes: &[u8]) -> Option<Event>
    ensures read { result ≡ who_in who word bytes.now }
    ensures spelt { IfSome result
        (λ event.
        spaced (who_text who ∷ word_text word ∷ []) ++ bytes.now ≡ spaced (words_of event)) }
    ensures printable { IfSome result IsPrintable }
{
    match word {
        Word::Ready => ready(who, bytes),
        Word::Block => Some(Event::Block {
            who,
            waits: last_waits(bytes)?,
        }),
        Word::Run => {
            ended(bytes)?;
            Some(Event::Run { who })
        }
        Word::Raise => Some(Event::Raise {
            who,
            exception: last_exception(bytes)?,
        }),
        Word::Put => Some(Event::Put {
            who,
            text: last_text(bytes)?,
        }),
        Word::Start => Some(Event::Start {
            who,
            call: CallNo(last_long(bytes)?),
        }),
        Word::Finish => finish(who, bytes),
        Word::Enter => enter(who, bytes),
        Word::Exit => Some(Event::Exit {
            who,
            object: last_object(bytes)?,
        }),
        Word::Held => held(who, bytes),
        Word::Leave => leave(who, bytes),
        Word::Init => init(who, bytes),
        Word::Final => Some(Event::Final {
            who,
            object: last_long(bytes)?,
        }),
        Word::Left => Some(Event::Left {
            who,
            region: RegionNo(last_long(bytes)?),
        }),
        Word::Replace => Some(Event::Replace {
            who,
            object: last_long(bytes)?,
        }),
        _ => None,
    }
}

// What a task does.
fn task_line(task: TaskNo, word: Word, bytes: &[u8]) -> Option<Event>
    ensures read { result ≡ task_line_in task word bytes.now }
    ensures spelt { IfSome result
        (λ event.
        spaced (task_text task ∷ word_text word ∷ []) ++ bytes.now ≡ spaced (words_of event)) }
    ensures printable { IfSome result IsPrintable }
{
    match word {
        Word::New => created(Created::Task(task), bytes),
        Word::Base => Some(Event::Base {
            task,
            level: last_short(bytes)?,
        }),
        Word::Deadline => Some(Event::Deadline {
            task,
            deadline: last_moment(bytes)?,
        }),
        Word::Quantum => {
            ended(bytes)?;
            Some(Event::Quantum { task })
        }
        Word::Done => {
            ended(bytes)?;
            Some(Event::Done { task })
        }
        Word::Call => call(task, bytes),
        Word::Cancel => Some(Event::Cancel {
            task,
            call: CallNo(last_long(bytes)?),
        }),
        Word::Gone => Some(Event::Gone {
            task,
            call: CallNo(last_long(bytes)?),
        }),
        Word::Abort => Some(Event::Abort {
            task,
            victim: last_task(bytes)?,
        }),
        Word::Trigger => {
            ended(bytes)?;
            Some(Event::Trigger { task })
        }
        _ => who_line(Who::Task(task), word, bytes),
    }
}

// What the agent does.
fn agent_line(word: Word, bytes: &[u8]) -> Option<Event>
    ensures read { result ≡ agent_line_in word bytes.now }
    ensures spelt { IfSome result
        (λ event.
        spaced (codes "agent" ∷ word_text word ∷ []) ++ bytes.now ≡ spaced (words_of event)) }
    ensures printable { IfSome result IsPrintable }
{
    match word {
        Word::Serve => Some(Event::Serve {
            release: last_long(bytes)?,
        }),
        Word::Served => Some(Event::Served {
            release: last_long(bytes)?,
        }),
        _ => who_line(Who::Agent, word, bytes),
    }
}

// A protected object is created.
fn object_line(object: ObjectNo, word: Word, bytes: &[u8]) -> Option<Event>
    ensures read { result ≡ object_line_in object word bytes.now }
    ensures spelt { IfSome result
        (λ event.
        spaced (object_text object ∷ word_text word ∷ []) ++ bytes.now ≡ spaced (words_of event)) }
    ensures printable { IfSome result IsPrintable }
{
    match word {
        Word::New => created(Created::Object(object), bytes),
        _ => None,
    }
}

// A line without a subject.
fn bare_line(word: Word, bytes: &[u8]) -> Option<Event>
    ensures read { result ≡ bare_in word bytes.now }
    ensures spelt { IfSome result
        (λ event. spaced (word_text word ∷ []) ++ bytes.now ≡ spaced (words_of event)) }
    ensures printable { IfSome result IsPrintable }
{
    match word {
        Word::Idle => {
            ended(bytes)?;
            Some(Event::Idle)
        }
        Word::Release => release(bytes),
        Word::Interrupt => Some(Event::Interrupt {
            number: last_short(bytes)?,
        }),
        Word::Port => port(bytes),
        Word::Mask => Some(Event::Mask {
            number: last_short(bytes)?,
        }),
        Word::Unmask => Some(Event::Unmask {
            number: last_short(bytes)?,
        }),
        Word::Masked => Some(Event::Masked {
            number: last_short(bytes)?,
        }),
        Word::End => end(bytes),
        _ => None,
    }
}

// The subject, or the word of a line that has none.
fn lead_of(bytes: &[u8]) -> Option<Lead>
    ensures read { result ≡ lead_in bytes.now }
    ensures spelt { IfSome result (λ lead. bytes.now ≡ lead_text lead) }
{
    if bytes == b"agent".as_slice() {
        return Some(Lead::Agent);
    }
    if let Some(task) = task_of(bytes) {
        return Some(Lead::Task(task));
    }
    if let Some(object) = object_of(bytes) {
        return Some(Lead::Object(object));
    }
    Some(Lead::Bare(word_of(bytes)?))
}

// The line behind its subject, or behind its word where it has none.
fn led_line(lead: Lead, bytes: &[u8]) -> Option<Event>
    ensures read { result ≡ led_in lead bytes.now }
    ensures spelt { IfSome result
        (λ event. spaced (lead_text lead ∷ []) ++ bytes.now ≡ spaced (words_of event)) }
    ensures printable { IfSome result IsPrintable }
{
    match lead {
        Lead::Task(task) => {
            let (word, rest) = event_word_at(bytes)?;
            task_line(task, word, rest)
        }
        Lead::Object(object) => {
            let (word, rest) = event_word_at(bytes)?;
            object_line(object, word, rest)
        }
        Lead::Agent => {
            let (word, rest) = event_word_at(bytes)?;
            agent_line(word, rest)
        }
        Lead::Bare(word) => bare_line(word, bytes),
    }
}

// The words behind the tick.
fn event_of(bytes: &[u8]) -> Option<Event>
    ensures read { result ≡ event_in bytes.now }
    ensures spelt { IfSome result (λ event. bytes.now ≡ spaced (words_of event)) }
    ensures printable { IfSome result IsPrintable }
{
    let (word, rest) = word_at(bytes)?;
    led_line(lead_of(word)?, rest)
}

// A line without its line feed.
fn moment_and_event(bytes: &[u8]) -> Option<(u64, Event)>
    ensures read { result ≡ moment_and_event_in bytes.now }
    ensures spelt { IfSome result (λ line. bytes.now ≡ decimal line.0 ++ spaced (words_of line.1)) }
    ensures printable { IfSome result (λ line. IsPrintable line.1) }
{
    let (tick, rest) = split_at_mark(bytes, b' ');
    let tick = number_of(tick, u64::MAX)?;
    Some((tick, event_of(rest)?))
}

fn line_of(line: &[u8]) -> Option<(u64, Event)>
    ensures read { result ≡ line_in line.now }
    ensures spelt { IfSome result (λ read. line.now ≡ line_text read.0 read.1) }
    ensures printable { IfSome result (λ read. IsPrintable read.1) }
{
    match line {
        [bytes @ .., b'\n'] => moment_and_event(bytes),
        _ => None,
    }
}

/// The tick and the printable event whose line this is, with its line feed.
///
/// # Errors
///
/// `BadLine` exactly where no tick and printable event have this line.
pub fn read_line(line: &[u8]) -> Result<(u64, Event), BadLine>
    ensures read { result_ok result ≡ line_in line.now }
    ensures line { IfOk result (λ read. line.now ≡ line_text read.0 read.1) }
    ensures printable { IfOk result (λ read. IsPrintable read.1) }
    // What has this line is read, so nothing has a line that is bad.
    ensures only { (tick : ℕ) (event : Event) → IsPrintableLine tick event
        → line.now ≡ line_text tick event → result ≡ Ok (tick, event) }
{
    line_of(line).ok_or(BadLine)
}
