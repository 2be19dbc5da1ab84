//! Reading a script.
ghost use Rattle.std.specs.Prelude.{◌≡◌, ◌≤◌, Ok, OnOk, IfOk};
ghost use Rattle.ann_base.specs.Answers.{Answers, AnswersAs};
ghost use Rattle.text_lines.specs.Lines.{line_in};
ghost use Rattle.event_script.specs.Entries.{IsEntry, entry_of};
ghost use Rattle.event_script.specs.Items.{IsScript};
ghost use Rattle.event_script.specs.Script.{is_silent, is_version, with_entry};
ghost use Rattle.event_script.specs.Script.{at_line, read_line, script_of};
ghost use Rattle.event_script.specs.declared.faults.TheConstants.{SCRIPT_BYTES};

use crate::entries::{Entry, entry_of};
use crate::faults::{MOST_ITEMS, SCRIPT_BYTES, ScriptFault, ScriptFaultKind};
use crate::items::put_entry;
use ann_base::{Moment, OrMemory};
use profile_image::Item;
use std::alloc::Global;
use text_lines::{TextLine, line_at};
use world_tables::List;

/// What was read of a script: whether it is of the second version, the last tick of a line, and the
/// items in the order in which they come.
#[derive(Drop)]
pub struct Reading {
    is_second: bool,
    last: u32,
    items: List<(Moment, Item)>,
}

/// Whether a line is empty or a comment.
fn is_silent(text: &[u8]) -> bool
    ensures { result ≡ is_silent text.now }
{
    match text {
        [] => true,
        [first, second, ..] => *first == b'-' && *second == b'-',
        _ => false,
    }
}

/// Whether a line is the first of all, and says that the script is of the second version.
fn is_version(line: &TextLine<'_>) -> bool
    ensures { result ≡ is_version (line_in line.now) }
{
    line.number == 1 && line.text == b"version 2".as_slice()
}

/// Adds what a line says; it is refused where its tick is too low, or where there would be too many
/// items.
#[tactic(auto, using(crate::proofs::InOrder::put_entry_keeps))]
fn add_entry(reading: &mut Reading, line: u32, entry: Entry) -> Result<(), OrMemory<ScriptFault>>
    requires script { IsScript reading.old.items }
    requires limits { IsEntry entry }
    ensures added { AnswersAs (λ _. reading.new) result
        (at_line line (with_entry reading.old (Ok entry))) }
    ensures script { OnOk result (IsScript reading.new.items) }
{
    if entry.tick < reading.last {
        return Err(OrMemory::Fault(ScriptFault {
            line,
            kind: ScriptFaultKind::BackInTime,
        }));
    }
    if reading.items.len() + entry.count as usize > MOST_ITEMS {
        return Err(OrMemory::Fault(ScriptFault {
            line,
            kind: ScriptFaultKind::TooMany,
        }));
    }
    reading.last = entry.tick;
    put_entry(&mut reading.items, entry)?;
    Ok(())
}

/// Adds what a line says that is neither empty nor a comment.
fn read_text(reading: &mut Reading, line: TextLine<'_>) -> Result<(), OrMemory<ScriptFault>>
    requires { IsScript reading.old.items }
    ensures read { AnswersAs (λ _. reading.new) result
        (at_line line.entry.number
        (with_entry reading.old (entry_of reading.old.is_second line.entry.text.now))) }
    ensures script { OnOk result (IsScript reading.new.items) }
{
    match entry_of(reading.is_second, line.text) {
        Ok(entry) => add_entry(reading, line.number, entry),
        Err(kind) => Err(OrMemory::Fault(ScriptFault {
            line: line.number,
            kind,
        })),
    }
}

/// Adds what a line says; nothing is read past a line that is refused.
fn read_line(reading: &mut Reading, line: TextLine<'_>) -> Result<(), OrMemory<ScriptFault>>
    requires { IsScript reading.old.items }
    ensures read { AnswersAs (λ _. reading.new) result
        (read_line (Ok reading.old) (line_in line.entry)) }
    ensures script { OnOk result (IsScript reading.new.items) }
    ensures short { OnOk result (line.entry.stop ≤ SCRIPT_BYTES) }
{
    if line.stop > SCRIPT_BYTES {
        return Err(OrMemory::Fault(ScriptFault {
            line: line.number,
            kind: ScriptFaultKind::TooMany,
        }));
    }
    if is_silent(line.text) {
        return Ok(());
    }
    if is_version(&line) {
        reading.is_second = true;
        return Ok(());
    }
    read_text(reading, line)
}

/// The items of a script, each with its moment, in the order in which they come.
///
/// Errors: the first line that is refused; memory ran out.
#[tactic(auto, using(crate::proofs::InOrder::no_items))]
pub fn read_script(
    alloc: Global,
    bytes: &[u8],
) -> Result<List<(Moment, Item)>, OrMemory<ScriptFault>>
    ensures exact { Answers result (script_of bytes.now) }
    ensures limits { IfOk result IsScript }
{
    let mut reading = Reading {
        is_second: false,
        last: 0,
        items: List::new(alloc),
    };
    let mut number = 0;
    let mut start = 0;
    while start < bytes.len() {
        number += 1;
        let line = line_at(bytes, number, start);
        read_line(&mut reading, line)?;
        start = line.stop;
    }
    Ok(reading.items)
}
