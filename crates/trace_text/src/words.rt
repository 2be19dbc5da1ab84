//! The words of lines: the event words in the order in which summaries count them, and the words of
//! their arguments.
ghost use Rattle.std.specs.Prelude.{◌≡◌, ◌≤◌, length};
ghost use Rattle.trace_text.specs.Text.{queue_end_text, waits_text, mode_text, leaves_text};
ghost use Rattle.trace_text.specs.Summary.{word_of};
ghost use Rattle.trace_text.specs.Words.{word_text};

use crate::events::{Event, Leaves, Mode, QueueEnd, Waits};

/// The word of a line that says what happened.
#[derive(Clone, Copy)]
pub enum Word {
    /// `new`.
    New,
    /// `ready`.
    Ready,
    /// `block`.
    Block,
    /// `run`.
    Run,
    /// `idle`.
    Idle,
    /// `base`.
    Base,
    /// `deadline`.
    Deadline,
    /// `quantum`.
    Quantum,
    /// `done`.
    Done,
    /// `raise`.
    Raise,
    /// `put`.
    Put,
    /// `call`.
    Call,
    /// `start`.
    Start,
    /// `finish`.
    Finish,
    /// `cancel`.
    Cancel,
    /// `gone`.
    Gone,
    /// `enter`.
    Enter,
    /// `exit`.
    Exit,
    /// `held`.
    Held,
    /// `abort`.
    Abort,
    /// `trigger`.
    Trigger,
    /// `leave`.
    Leave,
    /// `init`.
    Init,
    /// `final`.
    Final,
    /// `left`.
    Left,
    /// `replace`.
    Replace,
    /// `release`.
    Release,
    /// `serve`.
    Serve,
    /// `served`.
    Served,
    /// `interrupt`.
    Interrupt,
    /// `port`.
    Port,
    /// `mask`.
    Mask,
    /// `unmask`.
    Unmask,
    /// `masked`.
    Masked,
    /// `end`.
    End,
}

/// All event words, in the order of a summary.
pub const EVENT_WORDS: [Word; 35] = [
    Word::New,
    Word::Ready,
    Word::Block,
    Word::Run,
    Word::Idle,
    Word::Base,
    Word::Deadline,
    Word::Quantum,
    Word::Done,
    Word::Raise,
    Word::Put,
    Word::Call,
    Word::Start,
    Word::Finish,
    Word::Cancel,
    Word::Gone,
    Word::Enter,
    Word::Exit,
    Word::Held,
    Word::Abort,
    Word::Trigger,
    Word::Leave,
    Word::Init,
    Word::Final,
    Word::Left,
    Word::Replace,
    Word::Release,
    Word::Serve,
    Word::Served,
    Word::Interrupt,
    Word::Port,
    Word::Mask,
    Word::Unmask,
    Word::Masked,
    Word::End,
];

/// The spelling of a word.
pub fn word_bytes(word: Word) -> &'static [u8]
    ensures word { result.now ≡ word_text word }
    ensures short { length result.now ≤ 9 }
{
    match word {
        Word::New => b"new",
        Word::Ready => b"ready",
        Word::Block => b"block",
        Word::Run => b"run",
        Word::Idle => b"idle",
        Word::Base => b"base",
        Word::Deadline => b"deadline",
        Word::Quantum => b"quantum",
        Word::Done => b"done",
        Word::Raise => b"raise",
        Word::Put => b"put",
        Word::Call => b"call",
        Word::Start => b"start",
        Word::Finish => b"finish",
        Word::Cancel => b"cancel",
        Word::Gone => b"gone",
        Word::Enter => b"enter",
        Word::Exit => b"exit",
        Word::Held => b"held",
        Word::Abort => b"abort",
        Word::Trigger => b"trigger",
        Word::Leave => b"leave",
        Word::Init => b"init",
        Word::Final => b"final",
        Word::Left => b"left",
        Word::Replace => b"replace",
        Word::Release => b"release",
        Word::Serve => b"serve",
        Word::Served => b"served",
        Word::Interrupt => b"interrupt",
        Word::Port => b"port",
        Word::Mask => b"mask",
        Word::Unmask => b"unmask",
        Word::Masked => b"masked",
        Word::End => b"end",
    }
}

/// The word of an end of a queue.
pub fn queue_end_bytes(end: QueueEnd) -> &'static [u8]
    ensures word { result.now ≡ queue_end_text end }
    ensures short { length result.now ≤ 4 }
{
    match end {
        QueueEnd::Head => b"head",
        QueueEnd::Tail => b"tail",
    }
}

/// The word of what is waited for.
pub fn waits_bytes(waits: Waits) -> &'static [u8]
    ensures word { result.now ≡ waits_text waits }
    ensures short { length result.now ≤ 10 }
{
    match waits {
        Waits::Activation => b"activation",
        Waits::Delay => b"delay",
        Waits::Entry => b"entry",
        Waits::Accept => b"accept",
        Waits::Select => b"select",
        Waits::Dependents => b"dependents",
        Waits::Call => b"call",
        Waits::Release => b"release",
    }
}

/// The word of a mode.
pub fn mode_bytes(mode: Mode) -> &'static [u8]
    ensures word { result.now ≡ mode_text mode }
    ensures short { length result.now ≤ 5 }
{
    match mode {
        Mode::Read => b"read",
        Mode::Write => b"write",
    }
}

/// The word of how a scope is left.
pub fn leaves_bytes(how: Leaves) -> &'static [u8]
    ensures word { result.now ≡ leaves_text how }
    ensures short { length result.now ≤ 9 }
{
    match how {
        Leaves::End => b"end",
        Leaves::Return => b"return",
        Leaves::Exit => b"exit",
        Leaves::Exception => b"exception",
        Leaves::Abort => b"abort",
        Leaves::Terminate => b"terminate",
    }
}

/// The word of an event's line.
pub fn event_word(event: &Event) -> Word
    ensures { result ≡ word_of event.now }
{
    match event {
        Event::New { .. } => Word::New,
        Event::Ready { .. } => Word::Ready,
        Event::Block { .. } => Word::Block,
        Event::Run { .. } => Word::Run,
        Event::Idle => Word::Idle,
        Event::Base { .. } => Word::Base,
        Event::Deadline { .. } => Word::Deadline,
        Event::Quantum { .. } => Word::Quantum,
        Event::Done { .. } => Word::Done,
        Event::Raise { .. } => Word::Raise,
        Event::Put { .. } => Word::Put,
        Event::Call { .. } => Word::Call,
        Event::Start { .. } => Word::Start,
        Event::Finish { .. } => Word::Finish,
        Event::Cancel { .. } => Word::Cancel,
        Event::Gone { .. } => Word::Gone,
        Event::Enter { .. } => Word::Enter,
        Event::Exit { .. } => Word::Exit,
        Event::Held { .. } => Word::Held,
        Event::Abort { .. } => Word::Abort,
        Event::Trigger { .. } => Word::Trigger,
        Event::Leave { .. } => Word::Leave,
        Event::Init { .. } => Word::Init,
        Event::Final { .. } => Word::Final,
        Event::Left { .. } => Word::Left,
        Event::Replace { .. } => Word::Replace,
        Event::Release { .. } => Word::Release,
        Event::Serve { .. } => Word::Serve,
        Event::Served { .. } => Word::Served,
        Event::Interrupt { .. } => Word::Interrupt,
        Event::Port { .. } => Word::Port,
        Event::Mask { .. } => Word::Mask,
        Event::Unmask { .. } => Word::Unmask,
        Event::Masked { .. } => Word::Masked,
        Event::End { .. } => Word::End,
    }
}
