//! How a line is written.
ghost use Rattle.std.specs.Prelude.{◌≡◌, ◌+◌, ◌≤◌, ◌∷◌, [], ◌++◌, length};
ghost use Rattle.std.specs.Prelude.{decimal, codes, ◌<◌, ◌^◌, FitsSigned};
ghost use Rattle.std.specs.Int.{w32, w64};
ghost use Rattle.std.specs.Fmt.{signed_decimal};
ghost use Rattle.trace_text.specs.Text.{task_text, object_text, who_text, created_text};
ghost use Rattle.trace_text.specs.Text.{mode_text, entry_text, finished_text, ended_words};
ghost use Rattle.trace_text.specs.Text.{deadline_words, words_of, spaced, line_text, IsPrintable};
ghost use Rattle.trace_text.specs.Text.{IsWithin, IsWhoWithin, IsCreatedWithin, IsEntryWithin};
ghost use Rattle.trace_text.specs.Text.{IsFinishedWithin, IsEndedWithin, IsDeadlineWithin};
ghost use Rattle.trace_text.specs.Lent.{entry_lent, finished_lent, ended_lent, event_lent};
ghost use Rattle.ann_base.specs.declared.names.TheConstants.{NAME_BYTES};
ghost use Rattle.line_writing.specs.declared.buffer.TheConstants.{BUFFER_BYTES};
ghost use Rattle.trace_text.specs.declared.lines.TheConstants.{LINE_BYTES};
ghost use Rattle.line_writing.specs.declared.write.TheConstants.{WORDS_BYTES};

use crate::buffer::LineBuffer;
use ann_base::{Moment, ObjectNo, TaskNo};
use itoa::Buffer;
use trace_text::{
    Created, EndedRef, EntryNameRef, EventRef, FinishedRef, Mode, TextRef, Who, leaves_bytes,
    mode_bytes, queue_end_bytes, waits_bytes,
};

// The most bytes that its words have, each behind a space: a line without its tick and its line
// feed.
const WORDS_BYTES: usize = 1_079;

/// Appends the line of a printable event at a tick: the tick, the words with single spaces between,
/// a line feed. A line has at most LINE_BYTES bytes, and so many must be free.
pub fn write_line(now: u64, event: &EventRef<'_>, buffer: &mut LineBuffer)
    requires room { length buffer.old + LINE_BYTES ≤ BUFFER_BYTES }
    requires printable { IsPrintable (event_lent event.now) }
    ensures line { buffer.new ≡ buffer.old ++ line_text now (event_lent event.now) }
    ensures short { length (line_text now (event_lent event.now)) ≤ LINE_BYTES }
    ensures within { IsWithin (event_lent event.now) }
{
    let mut digits = Buffer::new();
    buffer.append(digits.format(now).as_bytes());
    push_event(event, buffer);
    buffer.append(b"\n");
}

// The words of the event, each behind a space.
fn push_event(event: &EventRef<'_>, buffer: &mut LineBuffer)
    requires { length buffer.old + WORDS_BYTES ≤ BUFFER_BYTES }
    ensures words { buffer.new ≡ buffer.old ++ spaced (words_of (event_lent event.now)) }
    ensures longer { length buffer.new ≤ length buffer.old + WORDS_BYTES }
    ensures within { IsWithin (event_lent event.now) }
{
    match event {
        EventRef::New { what, name, level } => {
            push_created(*what, buffer);
            push_word(b"new", buffer);
            push_word(name.as_bytes(), buffer);
            push_short(*level, buffer);
        }
        EventRef::Ready {
            who,
            level,
            end,
            deadline,
        } => {
            push_subject(*who, b"ready", buffer);
            push_short(*level, buffer);
            push_word(queue_end_bytes(*end), buffer);
            push_deadline(*deadline, buffer);
        }
        EventRef::Block { who, waits } => push_two(*who, b"block", waits_bytes(*waits), buffer),
        EventRef::Run { who } => push_subject(*who, b"run", buffer),
        EventRef::Idle => push_word(b"idle", buffer),
        EventRef::Base { task, level } => {
            push_of_task(*task, b"base", buffer);
            push_short(*level, buffer);
        }
        EventRef::Deadline { task, deadline } => {
            push_of_task(*task, b"deadline", buffer);
            push_moment(*deadline, buffer);
        }
        EventRef::Quantum { task } => push_of_task(*task, b"quantum", buffer),
        EventRef::Done { task } => push_of_task(*task, b"done", buffer),
        EventRef::Raise { who, exception } => push_two(
            *who,
            b"raise",
            exception.as_bytes(),
            buffer,
        ),
        EventRef::Put { who, text } => push_put(*who, text, buffer),
        EventRef::Call {
            task,
            call,
            entry,
            priority,
        } => {
            push_call(*task, b"call", call.0, buffer);
            push_entry(entry, buffer);
            push_short(*priority, buffer);
        }
        EventRef::Start { who, call } => push_counted(*who, b"start", call.0, buffer),
        EventRef::Finish { who, call, how } => {
            push_counted(*who, b"finish", call.0, buffer);
            push_word(finished_word(how), buffer);
        }
        EventRef::Cancel { task, call } => push_call(*task, b"cancel", call.0, buffer),
        EventRef::Gone { task, call } => push_call(*task, b"gone", call.0, buffer),
        EventRef::Enter { who, object, mode } => push_action(
            *who, b"enter", *object, *mode, buffer,
        ),
        EventRef::Exit { who, object } => {
            push_subject(*who, b"exit", buffer);
            push_object(*object, buffer);
        }
        EventRef::Held { who, object, mode } => push_action(*who, b"held", *object, *mode, buffer),
        EventRef::Abort { task, victim } => {
            push_of_task(*task, b"abort", buffer);
            push_task(*victim, buffer);
        }
        EventRef::Trigger { task } => push_of_task(*task, b"trigger", buffer),
        EventRef::Leave { who, region, how } => {
            push_counted(*who, b"leave", region.0, buffer);
            push_word(leaves_bytes(*how), buffer);
        }
        EventRef::Init {
            who,
            object,
            region,
            name,
        } => {
            push_counted(*who, b"init", *object, buffer);
            push_number(region.0, buffer);
            push_word(name.as_bytes(), buffer);
        }
        EventRef::Final { who, object } => push_counted(*who, b"final", *object, buffer),
        EventRef::Left { who, region } => push_counted(*who, b"left", region.0, buffer),
        EventRef::Replace { who, object } => push_counted(*who, b"replace", *object, buffer),
        EventRef::Release {
            release,
            object,
            handler,
        } => {
            push_word(b"release", buffer);
            push_number(*release, buffer);
            push_object(*object, buffer);
            push_part(handler.as_bytes(), buffer);
        }
        EventRef::Serve { release } => push_counted(Who::Agent, b"serve", *release, buffer),
        EventRef::Served { release } => push_counted(Who::Agent, b"served", *release, buffer),
        EventRef::Interrupt { number } => push_of_line(b"interrupt", *number, buffer),
        EventRef::Port { number, value } => {
            push_of_line(b"port", *number, buffer);
            push_value(*value, buffer);
        }
        EventRef::Mask { number } => push_of_line(b"mask", *number, buffer),
        EventRef::Unmask { number } => push_of_line(b"unmask", *number, buffer),
        EventRef::Masked { number } => push_of_line(b"masked", *number, buffer),
        EventRef::End { why } => {
            push_word(b"end", buffer);
            push_ended(why, buffer);
        }
    }
}

// Who, and what happens.
fn push_subject(who: Who, word: &[u8], buffer: &mut LineBuffer)
    requires { length buffer.old + length word.now + 13 ≤ BUFFER_BYTES }
    ensures words { buffer.new ≡ buffer.old ++ spaced (who_text who ∷ word.now ∷ []) }
    ensures longer { length buffer.new ≤ length buffer.old + length word.now + 13 }
    ensures within { IsWhoWithin who }
{
    push_who(who, buffer);
    push_word(word, buffer);
}

// Who, what happens, and a word more.
fn push_two(who: Who, word: &[u8], last: &[u8], buffer: &mut LineBuffer)
    requires { length buffer.old + length word.now + length last.now + 14 ≤ BUFFER_BYTES }
    ensures words { buffer.new ≡ buffer.old ++ spaced (who_text who ∷ word.now ∷ last.now ∷ []) }
    ensures longer { length buffer.new
        ≤ length buffer.old + length word.now + length last.now + 14 }
    ensures within { IsWhoWithin who }
{
    push_subject(who, word, buffer);
    push_word(last, buffer);
}

// Who puts, and what.
fn push_put(who: Who, text: &TextRef<'_>, buffer: &mut LineBuffer)
    requires { length buffer.old + 1017 ≤ BUFFER_BYTES }
    ensures words { buffer.new ≡ buffer.old ++ spaced (who_text who ∷ codes "put" ∷ text.now ∷ []) }
    ensures longer { length buffer.new ≤ length buffer.old + 1017 }
    ensures within { IsWhoWithin who × (length text.now ≤ NAME_BYTES) }
{
    let (front, rest) = text.parts();
    push_two(who, b"put", front, buffer);
    buffer.append(rest);
}

// Who, what happens, and the number of a call, a region, an object or a release.
fn push_counted(who: Who, word: &[u8], number: u32, buffer: &mut LineBuffer)
    requires { length buffer.old + length word.now + 24 ≤ BUFFER_BYTES }
    ensures words { buffer.new
        ≡ buffer.old ++ spaced (who_text who ∷ word.now ∷ decimal number ∷ []) }
    ensures longer { length buffer.new ≤ length buffer.old + length word.now + 24 }
    ensures within { IsWhoWithin who × (number < 2 ^ 32) }
{
    push_subject(who, word, buffer);
    push_number(number, buffer);
}

// Who begins or finds a protected action, on which object.
fn push_action(who: Who, word: &[u8], object: ObjectNo, mode: Mode, buffer: &mut LineBuffer)
    requires { length buffer.old + length word.now + 31 ≤ BUFFER_BYTES }
    ensures words { buffer.new
        ≡ buffer.old
        ++ spaced (who_text who ∷ word.now ∷ object_text object ∷ mode_text mode ∷ []) }
    ensures longer { length buffer.new ≤ length buffer.old + length word.now + 31 }
    ensures within { IsWhoWithin who × (object.0 < 2 ^ 32) }
{
    push_subject(who, word, buffer);
    push_object(object, buffer);
    push_word(mode_bytes(mode), buffer);
}

// A task, and what happens.
fn push_of_task(task: TaskNo, word: &[u8], buffer: &mut LineBuffer)
    requires { length buffer.old + length word.now + 13 ≤ BUFFER_BYTES }
    ensures words { buffer.new ≡ buffer.old ++ spaced (task_text task ∷ word.now ∷ []) }
    ensures longer { length buffer.new ≤ length buffer.old + length word.now + 13 }
    ensures within { task.0 < 2 ^ 32 }
{
    push_task(task, buffer);
    push_word(word, buffer);
}

// A task, what happens, and the number of its call.
fn push_call(task: TaskNo, word: &[u8], call: u32, buffer: &mut LineBuffer)
    requires { length buffer.old + length word.now + 24 ≤ BUFFER_BYTES }
    ensures words { buffer.new
        ≡ buffer.old ++ spaced (task_text task ∷ word.now ∷ decimal call ∷ []) }
    ensures longer { length buffer.new ≤ length buffer.old + length word.now + 24 }
    ensures within { (task.0 < 2 ^ 32) × (call < 2 ^ 32) }
{
    push_of_task(task, word, buffer);
    push_number(call, buffer);
}

// What happens on a line of interrupts or a port.
fn push_of_line(word: &[u8], number: u8, buffer: &mut LineBuffer)
    requires { length buffer.old + length word.now + 5 ≤ BUFFER_BYTES }
    ensures words { buffer.new ≡ buffer.old ++ spaced (word.now ∷ decimal number ∷ []) }
    ensures longer { length buffer.new ≤ length buffer.old + length word.now + 5 }
    ensures within { number < 2 ^ 8 }
{
    push_word(word, buffer);
    push_short(number, buffer);
}

// A word behind a space.
fn push_word(word: &[u8], buffer: &mut LineBuffer)
    requires { length buffer.old + length word.now + 1 ≤ BUFFER_BYTES }
    ensures word { buffer.new ≡ buffer.old ++ 32 ∷ word.now }
    ensures longer { length buffer.new ≡ length buffer.old + length word.now + 1 }
{
    buffer.append(b" ");
    buffer.append(word);
}

// A number of a byte.
fn push_short(number: u8, buffer: &mut LineBuffer)
    requires { length buffer.old + 4 ≤ BUFFER_BYTES }
    ensures number { buffer.new ≡ buffer.old ++ 32 ∷ decimal number }
    ensures longer { length buffer.new ≤ length buffer.old + 4 }
    ensures within { number < 2 ^ 8 }
{
    let mut digits = Buffer::new();
    push_word(digits.format(number).as_bytes(), buffer);
}

fn push_number(number: u32, buffer: &mut LineBuffer)
    requires { length buffer.old + 11 ≤ BUFFER_BYTES }
    ensures number { buffer.new ≡ buffer.old ++ 32 ∷ decimal number }
    ensures longer { length buffer.new ≤ length buffer.old + 11 }
    ensures within { number < 2 ^ 32 }
{
    let mut digits = Buffer::new();
    push_word(digits.format(number).as_bytes(), buffer);
}

fn push_moment(moment: Moment, buffer: &mut LineBuffer)
    requires { length buffer.old + 21 ≤ BUFFER_BYTES }
    ensures moment { buffer.new ≡ buffer.old ++ 32 ∷ signed_decimal moment }
    ensures longer { length buffer.new ≤ length buffer.old + 21 }
    ensures within { FitsSigned w64 moment }
{
    let mut digits = Buffer::new();
    push_word(digits.format(moment).as_bytes(), buffer);
}

fn push_deadline(deadline: Option<Moment>, buffer: &mut LineBuffer)
    requires { length buffer.old + 21 ≤ BUFFER_BYTES }
    ensures deadline { buffer.new ≡ buffer.old ++ spaced (deadline_words deadline) }
    ensures longer { length buffer.new ≤ length buffer.old + 21 }
    ensures within { IsDeadlineWithin deadline }
{
    match deadline {
        None => {}
        Some(deadline) => push_moment(deadline, buffer),
    }
}

// A letter and a number behind a space.
fn push_numbered(letter: &[u8], number: u32, buffer: &mut LineBuffer)
    requires letter { length letter.now ≡ 1 }
    requires room { length buffer.old + 12 ≤ BUFFER_BYTES }
    ensures numbered { buffer.new ≡ buffer.old ++ 32 ∷ (letter.now ++ decimal number) }
    ensures longer { length buffer.new ≤ length buffer.old + 12 }
    ensures within { number < 2 ^ 32 }
{
    let mut digits = Buffer::new();
    push_word(letter, buffer);
    buffer.append(digits.format(number).as_bytes());
}

fn push_task(task: TaskNo, buffer: &mut LineBuffer)
    requires { length buffer.old + 12 ≤ BUFFER_BYTES }
    ensures task { buffer.new ≡ buffer.old ++ 32 ∷ task_text task }
    ensures longer { length buffer.new ≤ length buffer.old + 12 }
    ensures within { task.0 < 2 ^ 32 }
{
    push_numbered(b"t", task.0, buffer);
}

fn push_object(object: ObjectNo, buffer: &mut LineBuffer)
    requires { length buffer.old + 12 ≤ BUFFER_BYTES }
    ensures object { buffer.new ≡ buffer.old ++ 32 ∷ object_text object }
    ensures longer { length buffer.new ≤ length buffer.old + 12 }
    ensures within { object.0 < 2 ^ 32 }
{
    push_numbered(b"p", object.0, buffer);
}

fn push_who(who: Who, buffer: &mut LineBuffer)
    requires { length buffer.old + 12 ≤ BUFFER_BYTES }
    ensures who { buffer.new ≡ buffer.old ++ 32 ∷ who_text who }
    ensures longer { length buffer.new ≤ length buffer.old + 12 }
    ensures within { IsWhoWithin who }
{
    match who {
        Who::Task(task) => push_task(task, buffer),
        Who::Agent => push_word(b"agent", buffer),
    }
}

fn push_created(what: Created, buffer: &mut LineBuffer)
    requires { length buffer.old + 12 ≤ BUFFER_BYTES }
    ensures created { buffer.new ≡ buffer.old ++ 32 ∷ created_text what }
    ensures longer { length buffer.new ≤ length buffer.old + 12 }
    ensures within { IsCreatedWithin what }
{
    match what {
        Created::Task(task) => push_task(task, buffer),
        Created::Object(object) => push_object(object, buffer),
    }
}

// The value of a port.
fn push_value(value: i32, buffer: &mut LineBuffer)
    requires { length buffer.old + 12 ≤ BUFFER_BYTES }
    ensures value { buffer.new ≡ buffer.old ++ 32 ∷ signed_decimal value }
    ensures longer { length buffer.new ≤ length buffer.old + 12 }
    ensures within { FitsSigned w32 value }
{
    let mut digits = Buffer::new();
    push_word(digits.format(value).as_bytes(), buffer);
}

// A point and a name.
fn push_part(name: &[u8], buffer: &mut LineBuffer)
    requires { length buffer.old + length name.now + 1 ≤ BUFFER_BYTES }
    ensures part { buffer.new ≡ buffer.old ++ 46 ∷ name.now }
    ensures longer { length buffer.new ≡ length buffer.old + length name.now + 1 }
{
    buffer.append(b".");
    buffer.append(name);
}

fn push_entry(entry: &EntryNameRef<'_>, buffer: &mut LineBuffer)
    requires { length buffer.old + 1013 ≤ BUFFER_BYTES }
    ensures entry { buffer.new ≡ buffer.old ++ 32 ∷ entry_text (entry_lent entry.now) }
    ensures longer { length buffer.new ≤ length buffer.old + 1013 }
    ensures within { IsEntryWithin (entry_lent entry.now) }
{
    match entry {
        EntryNameRef::OfTask(task, name) => {
            push_task(*task, buffer);
            push_part(name.as_bytes(), buffer);
        }
        EntryNameRef::OfObject(object, name) => {
            push_object(*object, buffer);
            push_part(name.as_bytes(), buffer);
        }
    }
}

fn push_ended(why: &EndedRef<'_>, buffer: &mut LineBuffer)
    requires { length buffer.old + 1011 ≤ BUFFER_BYTES }
    ensures ended { buffer.new ≡ buffer.old ++ spaced (ended_words (ended_lent why.now)) }
    ensures longer { length buffer.new ≤ length buffer.old + 1011 }
    ensures within { IsEndedWithin (ended_lent why.now) }
{
    match why {
        EndedRef::Completed => push_word(b"completed", buffer),
        EndedRef::Exception(name) => {
            push_word(b"exception", buffer);
            push_word(name.as_bytes(), buffer);
        }
        EndedRef::Stuck => push_word(b"stuck", buffer),
        EndedRef::Bound => push_word(b"bound", buffer),
    }
}

fn finished_word<'a>(how: &FinishedRef<'a>) -> &'a [u8]
    ensures word { result.now ≡ finished_text (finished_lent how.now) }
    ensures short { length result.now ≤ NAME_BYTES }
    ensures within { IsFinishedWithin (finished_lent how.now) }
{
    match how {
        FinishedRef::Ok => b"ok",
        FinishedRef::Raised(name) => name.as_bytes(),
        FinishedRef::Requeue => b"requeue",
    }
}
