//! Reading a table.
ghost use Rattle.std.specs.Prelude.{◌≡◌, ◌≤◌, [], length, MatchOption, OnOk, IfOk, IfSome};
ghost use Rattle.std.specs.List.{list_all};
ghost use Rattle.ann_base.specs.Answers.{Answers, AnswersAs};
ghost use Rattle.text_lines.specs.Lines.{line_in, words_of};
ghost use Rattle.sched_tests.specs.Reading.{is_name_byte, is_name, words_in, are_fields};
ghost use Rattle.sched_tests.specs.Reading.{six_words, duty_in, duty_of, is_taken, is_silent};
ghost use Rattle.sched_tests.specs.Reading.{with_duty, at_line, read_line, table_of};
ghost use Rattle.sched_tests.specs.Tables.{IsDuty, IsTable};

use crate::duties::{
    Duty, LONGEST, MOST_DUTIES, MOST_PRIORITY, NAME_LENGTH, TABLE_BYTES, Table, TableFault,
    TableFaultKind,
};
use ann_base::{Name, OrMemory};
use std::alloc::Global;
use text_lines::{TextLine, line_at, next_word, number_in};

/// The six words of a duty.
#[derive(Clone, Copy)]
pub struct Words<'a> {
    name: &'a [u8],
    cost: &'a [u8],
    period: &'a [u8],
    deadline: &'a [u8],
    blocking: &'a [u8],
    priority: &'a [u8],
}

fn is_name_byte(byte: u8) -> bool
    ensures { result ≡ is_name_byte byte }
{
    matches!(byte, b'0'..=b'9' | b'A'..=b'Z' | b'a'..=b'z' | b'_')
}

fn are_name_bytes(word: &[u8]) -> bool
    ensures { result ≡ list_all is_name_byte word.now }
{
    word.iter().all(|byte| is_name_byte(*byte))
}

fn is_name(word: &[u8]) -> bool
    ensures { result ≡ is_name word.now }
{
    !word.is_empty() && word.len() <= NAME_LENGTH && are_name_bytes(word)
}

/// No word is empty, and the first is a name.
fn are_fields(words: &Words<'_>) -> bool
    ensures { result ≡ are_fields (words_in words.now) }
{
    is_name(words.name)
        && !words.cost.is_empty()
        && !words.period.is_empty()
        && !words.deadline.is_empty()
        && !words.blocking.is_empty()
        && !words.priority.is_empty()
}

/// Six words, with one space between two of them.
fn six_words(text: &[u8]) -> Option<Words<'_>>
    ensures { MatchOption result (six_words (words_of text.now) ≡ None)
        (λ words. six_words (words_of text.now) ≡ Some (words_in words)) }
{
    let (name, rest) = next_word(text)?;
    let (cost, rest) = next_word(rest)?;
    let (period, rest) = next_word(rest)?;
    let (deadline, rest) = next_word(rest)?;
    let (blocking, priority) = next_word(rest)?;
    match next_word(priority) {
        Some(_) => None,
        None => Some(Words {
            name,
            cost,
            period,
            deadline,
            blocking,
            priority,
        }),
    }
}

/// The duty that these words say, where each number is in its range.
fn duty_in(words: &Words<'_>) -> Option<Duty>
    requires { length words.now.name.now ≤ NAME_LENGTH }
    ensures read { result ≡ duty_in (words_in words.now) }
    ensures limits { IfSome result IsDuty }
{
    let cost = number_in(words.cost, 1, LONGEST)?;
    let period = number_in(words.period, 1, LONGEST)?;
    let deadline = number_in(words.deadline, 1, LONGEST)?;
    let blocking = number_in(words.blocking, 0, LONGEST)?;
    let priority = number_in(words.priority, 0, MOST_PRIORITY)?;
    if deadline <= period {
        Some(Duty {
            name: Name::from_bytes(words.name),
            cost,
            period,
            deadline,
            blocking,
            priority: priority as u8,
        })
    } else {
        None
    }
}

/// The duty that a line says, or why it is refused.
fn duty_of(text: &[u8]) -> Result<Duty, TableFaultKind>
    ensures read { result ≡ duty_of text.now }
    ensures limits { IfOk result IsDuty }
{
    match six_words(text) {
        None => Err(TableFaultKind::BadLine),
        Some(words) if are_fields(&words) => match duty_in(&words) {
            None => Err(TableFaultKind::BadNumber),
            Some(duty) => Ok(duty),
        },
        Some(_) => Err(TableFaultKind::BadLine),
    }
}

/// Whether a duty has this name.
fn is_taken(duties: &[Duty], name: &[u8]) -> bool
    ensures { result ≡ is_taken duties.now name.now }
{
    duties.iter().any(|duty| duty.name.as_bytes() == name)
}

/// Whether a line is empty or a comment.
fn is_silent(text: &[u8]) -> bool
    ensures { result ≡ is_silent text.now }
{
    match text {
        [] => true,
        [first, second, ..] => *first == b'-' && *second == b'-',
        _ => false,
    }
}

/// Adds a duty; it is refused where its name is taken, or where there are 200.
fn add_duty(duties: &mut Vec<Duty>, number: u32, duty: Duty) -> Result<(), OrMemory<TableFault>>
    requires table { IsTable duties.old.items }
    requires limits { IsDuty duty }
    ensures added { AnswersAs (λ _. duties.new.items) result
        (at_line number (with_duty duties.old.items (Ok duty))) }
    ensures table { OnOk result (IsTable duties.new.items) }
{
    if is_taken(duties.as_slice(), duty.name.as_bytes()) {
        return Err(OrMemory::Fault(TableFault {
            line: number,
            kind: TableFaultKind::Twice,
        }));
    }
    if duties.len() >= MOST_DUTIES {
        return Err(OrMemory::Fault(TableFault {
            line: number,
            kind: TableFaultKind::TooMany,
        }));
    }
    duties.push(duty)?;
    Ok(())
}

/// Adds what a line says; nothing is read past a line that is refused.
fn read_line(duties: &mut Vec<Duty>, line: TextLine<'_>) -> Result<(), OrMemory<TableFault>>
    requires { IsTable duties.old.items }
    ensures read { AnswersAs (λ _. duties.new.items) result
        (read_line (Ok duties.old.items) (line_in line.entry)) }
    ensures table { OnOk result (IsTable duties.new.items) }
    ensures short { OnOk result (line.entry.stop ≤ TABLE_BYTES) }
{
    if line.stop > TABLE_BYTES {
        return Err(OrMemory::Fault(TableFault {
            line: line.number,
            kind: TableFaultKind::TooMany,
        }));
    }
    if is_silent(line.text) {
        return Ok(());
    }
    match duty_of(line.text) {
        Ok(duty) => add_duty(duties, line.number, duty),
        Err(kind) => Err(OrMemory::Fault(TableFault {
            line: line.number,
            kind,
        })),
    }
}

/// The table that these bytes say. A fault is that of the first line that is refused, or that there
/// is no duty.
pub fn read_table(alloc: Global, bytes: &[u8]) -> Result<Table, OrMemory<TableFault>>
    ensures exact { Answers result (table_of bytes.now) }
    ensures limits { IfOk result IsTable }
{
    let mut duties = Vec::new(alloc);
    let mut number = 0;
    let mut start = 0;
    while start < bytes.len() {
        number += 1;
        let line = line_at(bytes, number, start);
        read_line(&mut duties, line)?;
        start = line.stop;
    }
    if duties.is_empty() {
        return Err(OrMemory::Fault(TableFault {
            line: 0,
            kind: TableFaultKind::Empty,
        }));
    }
    Ok(Table { duties })
}
