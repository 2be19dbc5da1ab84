//! How words are recognized.
ghost use Rattle.std.specs.Prelude.{◌≡◌, IfSome};
ghost use Rattle.trace_text.specs.Text.{queue_end_text, waits_text, mode_text, leaves_text};
ghost use Rattle.trace_text.specs.Words.{word_text};
ghost use Rattle.trace_fields.specs.Spelt.{word_in, waits_in, mode_in, leaves_in, queue_end_in};

use trace_text::{
    EVENT_WORDS, Leaves, Mode, QueueEnd, Waits, Word, leaves_bytes, mode_bytes, queue_end_bytes,
    waits_bytes, word_bytes,
};

const WAITS: [Waits; 8] = [
    Waits::Activation,
    Waits::Delay,
    Waits::Entry,
    Waits::Accept,
    Waits::Select,
    Waits::Dependents,
    Waits::Call,
    Waits::Release,
];

const LEAVES: [Leaves; 6] = [
    Leaves::End,
    Leaves::Return,
    Leaves::Exit,
    Leaves::Exception,
    Leaves::Abort,
    Leaves::Terminate,
];

/// The word that is spelt so.
pub fn word_of(bytes: &[u8]) -> Option<Word>
    ensures read { result ≡ word_in bytes.now }
    ensures spelt { IfSome result (λ word. bytes.now ≡ word_text word) }
{
    EVENT_WORDS
        .iter()
        .copied()
        .find(|word| word_bytes(*word) == bytes)
}

/// What is waited for.
pub fn waits_of(bytes: &[u8]) -> Option<Waits>
    ensures read { result ≡ waits_in bytes.now }
    ensures spelt { IfSome result (λ waits. bytes.now ≡ waits_text waits) }
{
    WAITS
        .iter()
        .copied()
        .find(|waits| waits_bytes(*waits) == bytes)
}

/// How a scope is left.
pub fn leaves_of(bytes: &[u8]) -> Option<Leaves>
    ensures read { result ≡ leaves_in bytes.now }
    ensures spelt { IfSome result (λ how. bytes.now ≡ leaves_text how) }
{
    LEAVES
        .iter()
        .copied()
        .find(|how| leaves_bytes(*how) == bytes)
}

/// The mode of a protected action.
pub fn mode_of(bytes: &[u8]) -> Option<Mode>
    ensures read { result ≡ mode_in bytes.now }
    ensures spelt { IfSome result (λ mode. bytes.now ≡ mode_text mode) }
{
    [Mode::Read, Mode::Write]
        .iter()
        .copied()
        .find(|mode| mode_bytes(*mode) == bytes)
}

/// The end of a queue.
pub fn queue_end_of(bytes: &[u8]) -> Option<QueueEnd>
    ensures read { result ≡ queue_end_in bytes.now }
    ensures spelt { IfSome result (λ end. bytes.now ≡ queue_end_text end) }
{
    [QueueEnd::Head, QueueEnd::Tail]
        .iter()
        .copied()
        .find(|end| queue_end_bytes(*end) == bytes)
}
