//! How the fields of a line are read.
ghost use Rattle.std.specs.Prelude.{◌≡◌, ◌+◌, ◌<◌, ◌≤◌, ◌^◌, ◌∷◌, [], ◌++◌, false};
ghost use Rattle.std.specs.Prelude.{length, IfSome, IsTrue, MatchOption, decimal};
ghost use Rattle.std.specs.List.{list_all};
ghost use Rattle.std.specs.Char.{is_ascii_digit};
ghost use Rattle.std.specs.Str.Parse.{digits_value};
ghost use Rattle.std.specs.Fmt.{signed_decimal};
ghost use Rattle.trace_text.specs.Text.{IsName, IsExceptionName, IsPutText};
ghost use Rattle.trace_text.specs.Text.{IsEntryPrintable, IsFinishedPrintable, is_name_from};
ghost use Rattle.trace_text.specs.Text.{is_name_byte, is_text_byte, task_text, object_text};
ghost use Rattle.trace_text.specs.Text.{entry_text, finished_text, queue_end_text};
ghost use Rattle.trace_text.specs.Text.{waits_text, mode_text, deadline_words, spaced};
ghost use Rattle.trace_text.specs.Words.{word_text};
ghost use Rattle.trace_fields.specs.Spelt.{queue_end_in, word_in, waits_in, mode_in};
ghost use Rattle.trace_fields.specs.Reading.{ReadsAs, place_of, front_of, rest_of, behind};
ghost use Rattle.trace_fields.specs.Reading.{word_at, field, last_field, ended, is_number};
ghost use Rattle.trace_fields.specs.Reading.{number_in, negative_of, signed_in, short_in};
ghost use Rattle.trace_fields.specs.Reading.{long_in, moment_in, value_in, task_in, object_in};
ghost use Rattle.trace_fields.specs.Reading.{name_in, text_in, exception_in, finished_in};
ghost use Rattle.trace_fields.specs.Reading.{part_in, entry_in, handler_in, deadline_in};

use crate::words::{mode_of, queue_end_of, waits_of, word_of};
use ann_base::{Moment, NAME_BYTES, Name, ObjectNo, TaskNo};
use trace_text::{EntryName, Finished, Mode, NameRef, QueueEnd, TextRef, Waits, Word};

// The first place of a byte, or the length where there is none.
fn place_of(bytes: &[u8], mark: u8) -> usize
    ensures place { result ≡ place_of mark bytes.now }
    ensures within { result ≤ length bytes.now }
{
    for (place, byte) in bytes.iter().enumerate() {
        if *byte == mark {
            return place;
        }
    }
    bytes.len()
}

/// The bytes before the first such byte, and those from it on.
pub fn split_at_mark(bytes: &[u8], mark: u8) -> (&[u8], &[u8])
    ensures front { result.0.now ≡ front_of mark bytes.now }
    ensures rest { result.1.now ≡ rest_of mark bytes.now }
    ensures whole { bytes.now ≡ result.0.now ++ result.1.now }
{
    bytes.split_at(place_of(bytes, mark))
}

// The bytes behind such a byte.
fn behind(bytes: &[u8], mark: u8) -> Option<&[u8]>
    ensures read { ReadsAs (λ rest. rest.now) result (behind mark bytes.now) }
    ensures spelt { IfSome result (λ rest. bytes.now ≡ mark ∷ rest.now) }
{
    match bytes {
        [first, rest @ ..] if *first == mark => Some(rest),
        _ => None,
    }
}

/// The last word, all that stands behind a space.
pub fn last(bytes: &[u8]) -> Option<&[u8]>
    ensures read { ReadsAs (λ word. word.now) result (behind 32 bytes.now) }
    ensures spelt { IfSome result (λ word. bytes.now ≡ 32 ∷ word.now) }
{
    behind(bytes, b' ')
}

/// The word behind a space, and what follows it.
pub fn word_at(bytes: &[u8]) -> Option<(&[u8], &[u8])>
    ensures read { ReadsAs (λ word. (word.0.now, word.1.now)) result (word_at bytes.now) }
    ensures spelt { IfSome result (λ word. bytes.now ≡ (32 ∷ word.0.now) ++ word.1.now) }
{
    let words = behind(bytes, b' ')?;
    Some(split_at_mark(words, b' '))
}

/// Nothing follows.
pub fn ended(bytes: &[u8]) -> Option<()>
    ensures read { ReadsAs (λ nothing. nothing) result (ended bytes.now) }
    ensures spelt { IfSome result (λ _. bytes.now ≡ []) }
{
    match bytes {
        [] => Some(()),
        _ => None,
    }
}

// A lower-case letter, a digit or an underscore.
fn is_name_byte(byte: u8) -> bool
    ensures { result ≡ is_name_byte byte }
{
    (b'a'..=b'z').contains(&byte) || (b'0'..=b'9').contains(&byte) || byte == b'_'
}

// Words of such bytes with single points between.
fn is_name(bytes: &[u8]) -> bool
    ensures { result ≡ is_name_from false bytes.now }
{
    let mut begun = false;
    for byte in bytes {
        if is_name_byte(*byte) {
            begun = true;
        } else if *byte == b'.' && begun {
            begun = false;
        } else {
            return false;
        }
    }
    begun
}

/// A name, lent.
pub fn name_lent(bytes: &[u8]) -> Option<NameRef<'_>>
    ensures read { result ≡ name_in bytes.now }
    ensures spelt { IfSome result (λ name. bytes.now ≡ name) }
    ensures name { IfSome result IsName }
{
    if is_name(bytes) && bytes.len() <= NAME_BYTES {
        Some(NameRef::new(bytes))
    } else {
        None
    }
}

/// A name.
pub fn name_of(bytes: &[u8]) -> Option<Name>
    ensures read { result ≡ name_in bytes.now }
    ensures spelt { IfSome result (λ name. bytes.now ≡ name) }
    ensures name { IfSome result IsName }
{
    match name_lent(bytes) {
        Some(name) => Some(Name::from_bytes(name.as_bytes())),
        None => None,
    }
}

// A space or another character of ASCII that is seen.
fn is_text_byte(byte: u8) -> bool
    ensures { result ≡ is_text_byte byte }
{
    (b' '..=b'~').contains(&byte)
}

fn are_text_bytes(bytes: &[u8]) -> bool
    ensures { result ≡ list_all is_text_byte bytes.now }
{
    bytes.iter().all(|byte| is_text_byte(*byte))
}

/// What Put_Line puts, in two parts, lent.
pub fn text_lent<'a>(front: &'a [u8], rest: &'a [u8]) -> Option<TextRef<'a>>
    ensures read { result ≡ text_in (front.now ++ rest.now) }
    ensures spelt { IfSome result (λ text. front.now ++ rest.now ≡ text) }
    ensures text { IfSome result IsPutText }
{
    if are_text_bytes(front) && are_text_bytes(rest) && front.len() + rest.len() <= NAME_BYTES {
        Some(TextRef::new(front, rest))
    } else {
        None
    }
}

/// What Put_Line puts.
pub fn text_of(bytes: &[u8]) -> Option<Name>
    ensures read { result ≡ text_in bytes.now }
    ensures spelt { IfSome result (λ text. bytes.now ≡ text) }
    ensures text { IfSome result IsPutText }
{
    if are_text_bytes(bytes) && bytes.len() <= NAME_BYTES {
        Some(Name::from_bytes(bytes))
    } else {
        None
    }
}

/// The name of an exception, lent.
pub fn exception_lent(bytes: &[u8]) -> Option<NameRef<'_>>
    ensures read { result ≡ exception_in bytes.now }
    ensures spelt { IfSome result (λ name. bytes.now ≡ name) }
    ensures name { IfSome result IsExceptionName }
{
    if bytes == b"ok".as_slice() || bytes == b"requeue".as_slice() {
        return None;
    }
    name_lent(bytes)
}

/// The name of an exception.
pub fn exception_of(bytes: &[u8]) -> Option<Name>
    ensures read { result ≡ exception_in bytes.now }
    ensures spelt { IfSome result (λ name. bytes.now ≡ name) }
    ensures name { IfSome result IsExceptionName }
{
    match exception_lent(bytes) {
        Some(name) => Some(Name::from_bytes(name.as_bytes())),
        None => None,
    }
}

/// How a call ends.
pub fn finished_of(bytes: &[u8]) -> Option<Finished>
    ensures read { result ≡ finished_in bytes.now }
    ensures spelt { IfSome result (λ how. bytes.now ≡ finished_text how) }
    ensures printable { IfSome result IsFinishedPrintable }
{
    if bytes == b"ok".as_slice() {
        return Some(Finished::Ok);
    }
    if bytes == b"requeue".as_slice() {
        return Some(Finished::Requeue);
    }
    Some(Finished::Raised(name_of(bytes)?))
}

fn are_digits(bytes: &[u8]) -> bool
    ensures { result ≡ list_all is_ascii_digit bytes.now }
{
    bytes.iter().all(|byte| byte.is_ascii_digit())
}

// Digits without a leading zero.
fn is_number(bytes: &[u8]) -> bool
    ensures { result ≡ is_number bytes.now }
{
    are_digits(bytes) && !bytes.is_empty() && (bytes[0] != b'0' || bytes.len() == 1)
}

// The number of such digits, where it has 64 bits.
fn number_from_digits(bytes: &[u8]) -> Option<u64>
    requires { IsTrue (is_number bytes.now) }
    ensures read { MatchOption result (2 ^ 64 ≤ digits_value 10 bytes.now)
        (λ number. number ≡ digits_value 10 bytes.now) }
    ensures spelt { IfSome result (λ number. bytes.now ≡ decimal number) }
{
    match str::from_utf8(bytes) {
        Ok(text) => text.parse().ok(),
        Err(_) => None,
    }
}

/// A number of at most so much.
pub fn number_of(bytes: &[u8], most: u64) -> Option<u64>
    ensures read { result ≡ number_in most bytes.now }
    ensures spelt { IfSome result (λ number. bytes.now ≡ decimal number) }
    ensures small { IfSome result (λ number. number ≤ most) }
{
    if !is_number(bytes) {
        return None;
    }
    let number = number_from_digits(bytes)?;
    if number <= most { Some(number) } else { None }
}

/// A number of a byte.
pub fn short_of(bytes: &[u8]) -> Option<u8>
    ensures read { result ≡ short_in bytes.now }
    ensures spelt { IfSome result (λ number. bytes.now ≡ decimal number) }
{
    Some(number_of(bytes, u8::MAX as u64)? as u8)
}

/// A number of 32 bits.
pub fn long_of(bytes: &[u8]) -> Option<u32>
    ensures read { result ≡ long_in bytes.now }
    ensures spelt { IfSome result (λ number. bytes.now ≡ decimal number) }
{
    Some(number_of(bytes, u32::MAX as u64)? as u32)
}

// The negative of a number but 0.
fn negative_of(size: u64) -> Option<i64>
    requires { size ≤ 2 ^ 63 }
    ensures read { result ≡ negative_of size }
    ensures spelt { IfSome result (λ number. signed_decimal number ≡ 45 ∷ decimal size) }
{
    if size == 0 {
        return None;
    }
    Some(-1 - (size - 1) as i64)
}

// A number of at most so much, or of at least its negative less one.
fn signed_of(bytes: &[u8], most: u64) -> Option<i64>
    requires { most < 2 ^ 63 }
    ensures read { result ≡ signed_in most bytes.now }
    ensures spelt { IfSome result (λ number. bytes.now ≡ signed_decimal number) }
{
    match bytes {
        [b'-', digits @ ..] => {
            let size = number_of(digits, most + 1)?;
            negative_of(size)
        }
        _ => Some(number_of(bytes, most)? as i64),
    }
}

/// A moment.
pub fn moment_of(bytes: &[u8]) -> Option<Moment>
    ensures read { result ≡ moment_in bytes.now }
    ensures spelt { IfSome result (λ moment. bytes.now ≡ signed_decimal moment) }
{
    signed_of(bytes, i64::MAX as u64)
}

/// The value of a port.
pub fn value_of(bytes: &[u8]) -> Option<i32>
    ensures read { result ≡ value_in bytes.now }
    ensures spelt { IfSome result (λ value. bytes.now ≡ signed_decimal value) }
{
    let value = signed_of(bytes, i32::MAX as u64)?;
    i32::try_from(value).ok()
}

/// `tN`.
pub fn task_of(bytes: &[u8]) -> Option<TaskNo>
    ensures read { result ≡ task_in bytes.now }
    ensures spelt { IfSome result (λ task. bytes.now ≡ task_text task) }
{
    Some(TaskNo(long_of(behind(bytes, b't')?)?))
}

/// `pN`.
pub fn object_of(bytes: &[u8]) -> Option<ObjectNo>
    ensures read { result ≡ object_in bytes.now }
    ensures spelt { IfSome result (λ object. bytes.now ≡ object_text object) }
{
    Some(ObjectNo(long_of(behind(bytes, b'p')?)?))
}

// The name behind a point.
fn part_of(rest: &[u8]) -> Option<Name>
    ensures read { result ≡ part_in rest.now }
    ensures spelt { IfSome result (λ name. rest.now ≡ 46 ∷ name) }
    ensures name { IfSome result IsName }
{
    name_of(behind(rest, b'.')?)
}

/// `tN.NAME` or `pN.NAME`.
pub fn entry_of(bytes: &[u8]) -> Option<EntryName>
    ensures read { result ≡ entry_in bytes.now }
    ensures spelt { IfSome result (λ entry. bytes.now ≡ entry_text entry) }
    ensures printable { IfSome result IsEntryPrintable }
{
    let (owner, rest) = split_at_mark(bytes, b'.');
    let name = part_of(rest)?;
    if let Some(task) = task_of(owner) {
        return Some(EntryName::OfTask(task, name));
    }
    Some(EntryName::OfObject(object_of(owner)?, name))
}

/// `pN.NAME`.
pub fn handler_of(bytes: &[u8]) -> Option<(ObjectNo, Name)>
    ensures read { result ≡ handler_in bytes.now }
    ensures spelt { IfSome result (λ handler. bytes.now ≡ object_text handler.0 ++ 46 ∷ handler.1) }
    ensures name { IfSome result (λ handler. IsName handler.1) }
{
    let (owner, rest) = split_at_mark(bytes, b'.');
    let name = part_of(rest)?;
    Some((object_of(owner)?, name))
}

/// A number behind a space, and what follows it.
pub fn short_at(bytes: &[u8]) -> Option<(u8, &[u8])>
    ensures read { ReadsAs (λ x. (x.0, x.1.now)) result (field short_in bytes.now) }
    ensures spelt { IfSome result (λ x. bytes.now ≡ (32 ∷ decimal x.0) ++ x.1.now) }
{
    let (word, rest) = word_at(bytes)?;
    Some((short_of(word)?, rest))
}

/// A number behind a space, and what follows it.
pub fn long_at(bytes: &[u8]) -> Option<(u32, &[u8])>
    ensures read { ReadsAs (λ x. (x.0, x.1.now)) result (field long_in bytes.now) }
    ensures spelt { IfSome result (λ x. bytes.now ≡ (32 ∷ decimal x.0) ++ x.1.now) }
{
    let (word, rest) = word_at(bytes)?;
    Some((long_of(word)?, rest))
}

/// A number of a byte, all that stands behind a space.
pub fn last_short(bytes: &[u8]) -> Option<u8>
    ensures read { result ≡ last_field short_in bytes.now }
    ensures spelt { IfSome result (λ number. bytes.now ≡ 32 ∷ decimal number) }
{
    short_of(last(bytes)?)
}

/// A number of 32 bits, all that stands behind a space.
pub fn last_long(bytes: &[u8]) -> Option<u32>
    ensures read { result ≡ last_field long_in bytes.now }
    ensures spelt { IfSome result (λ number. bytes.now ≡ 32 ∷ decimal number) }
{
    long_of(last(bytes)?)
}

/// A moment, all that stands behind a space.
pub fn last_moment(bytes: &[u8]) -> Option<Moment>
    ensures read { result ≡ last_field moment_in bytes.now }
    ensures spelt { IfSome result (λ moment. bytes.now ≡ 32 ∷ signed_decimal moment) }
{
    moment_of(last(bytes)?)
}

/// A task, all that stands behind a space.
pub fn last_task(bytes: &[u8]) -> Option<TaskNo>
    ensures read { result ≡ last_field task_in bytes.now }
    ensures spelt { IfSome result (λ task. bytes.now ≡ 32 ∷ task_text task) }
{
    task_of(last(bytes)?)
}

/// A protected object, all that stands behind a space.
pub fn last_object(bytes: &[u8]) -> Option<ObjectNo>
    ensures read { result ≡ last_field object_in bytes.now }
    ensures spelt { IfSome result (λ object. bytes.now ≡ 32 ∷ object_text object) }
{
    object_of(last(bytes)?)
}

/// What Put_Line puts, all that stands behind a space.
pub fn last_text(bytes: &[u8]) -> Option<Name>
    ensures read { result ≡ last_field text_in bytes.now }
    ensures spelt { IfSome result (λ text. bytes.now ≡ 32 ∷ text) }
    ensures text { IfSome result IsPutText }
{
    text_of(last(bytes)?)
}

/// The name of an exception, all that stands behind a space.
pub fn last_exception(bytes: &[u8]) -> Option<Name>
    ensures read { result ≡ last_field exception_in bytes.now }
    ensures spelt { IfSome result (λ name. bytes.now ≡ 32 ∷ name) }
    ensures name { IfSome result IsExceptionName }
{
    exception_of(last(bytes)?)
}

/// What is waited for, all that stands behind a space.
pub fn last_waits(bytes: &[u8]) -> Option<Waits>
    ensures read { result ≡ last_field waits_in bytes.now }
    ensures spelt { IfSome result (λ waits. bytes.now ≡ 32 ∷ waits_text waits) }
{
    waits_of(last(bytes)?)
}

/// The mode of a protected action, all that stands behind a space.
pub fn last_mode(bytes: &[u8]) -> Option<Mode>
    ensures read { result ≡ last_field mode_in bytes.now }
    ensures spelt { IfSome result (λ mode. bytes.now ≡ 32 ∷ mode_text mode) }
{
    mode_of(last(bytes)?)
}

/// A deadline behind a space, where anything follows.
pub fn deadline_of(bytes: &[u8]) -> Option<Option<Moment>>
    ensures read { result ≡ deadline_in bytes.now }
    ensures spelt { IfSome result (λ deadline. bytes.now ≡ spaced (deadline_words deadline)) }
{
    if bytes.is_empty() {
        return Some(None);
    }
    Some(Some(last_moment(bytes)?))
}

/// An end of a queue behind a space, and what follows it.
pub fn queue_end_at(bytes: &[u8]) -> Option<(QueueEnd, &[u8])>
    ensures read { ReadsAs (λ x. (x.0, x.1.now)) result (field queue_end_in bytes.now) }
    ensures spelt { IfSome result (λ x. bytes.now ≡ (32 ∷ queue_end_text x.0) ++ x.1.now) }
{
    let (word, rest) = word_at(bytes)?;
    Some((queue_end_of(word)?, rest))
}

/// A protected object behind a space, and what follows it.
pub fn object_at(bytes: &[u8]) -> Option<(ObjectNo, &[u8])>
    ensures read { ReadsAs (λ x. (x.0, x.1.now)) result (field object_in bytes.now) }
    ensures spelt { IfSome result (λ x. bytes.now ≡ (32 ∷ object_text x.0) ++ x.1.now) }
{
    let (word, rest) = word_at(bytes)?;
    Some((object_of(word)?, rest))
}

/// A name behind a space, and what follows it.
pub fn name_at(bytes: &[u8]) -> Option<(Name, &[u8])>
    ensures read { ReadsAs (λ x. (x.0, x.1.now)) result (field name_in bytes.now) }
    ensures spelt { IfSome result (λ x. bytes.now ≡ (32 ∷ x.0) ++ x.1.now) }
    ensures name { IfSome result (λ x. IsName x.0) }
{
    let (word, rest) = word_at(bytes)?;
    Some((name_of(word)?, rest))
}

/// An entry behind a space, and what follows it.
pub fn entry_at(bytes: &[u8]) -> Option<(EntryName, &[u8])>
    ensures read { ReadsAs (λ x. (x.0, x.1.now)) result (field entry_in bytes.now) }
    ensures spelt { IfSome result (λ x. bytes.now ≡ (32 ∷ entry_text x.0) ++ x.1.now) }
    ensures printable { IfSome result (λ x. IsEntryPrintable x.0) }
{
    let (word, rest) = word_at(bytes)?;
    Some((entry_of(word)?, rest))
}

/// An event word behind a space, and what follows it.
pub fn event_word_at(bytes: &[u8]) -> Option<(Word, &[u8])>
    ensures read { ReadsAs (λ x. (x.0, x.1.now)) result (field word_in bytes.now) }
    ensures spelt { IfSome result (λ x. bytes.now ≡ (32 ∷ word_text x.0) ++ x.1.now) }
{
    let (word, rest) = word_at(bytes)?;
    Some((word_of(word)?, rest))
}
