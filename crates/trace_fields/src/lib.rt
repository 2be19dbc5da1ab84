//! How the words and fields of a line of a trace are read: exactly those that `trace_text` writes,
//! each as what it was written from.
#![tactic(auto)]

mod fields;
mod words;

pub use fields::{
    deadline_of, ended, entry_at, event_word_at, exception_lent, exception_of, finished_of,
    handler_of, last, last_exception, last_long, last_mode, last_moment, last_object, last_short,
    last_task, last_text, last_waits, long_at, name_at, name_lent, name_of, number_of, object_at,
    object_of, queue_end_at, short_at, split_at_mark, task_of, text_lent, text_of, value_of,
    word_at,
};
pub use words::{leaves_of, word_of};
