//! The lines of a trace: what each says, its text, and the laws that a list of lines keeps.
#![tactic(auto)]

mod events;
mod laws;
mod lent;
mod lines;
mod words;

pub use events::{
    Action, Created, Ended, Entry, EntryName, Event, Finished, Leaves, Mode, QueueEnd, Waits, Who,
};
pub use laws::tests_tell;
pub use lent::{EndedRef, EntryNameRef, EventRef, FinishedRef, NameRef, TextRef};
pub use lines::{LAST_TICK, LINE_BYTES};
pub use words::{
    EVENT_WORDS, Word, event_word, leaves_bytes, mode_bytes, queue_end_bytes, waits_bytes,
    word_bytes,
};
