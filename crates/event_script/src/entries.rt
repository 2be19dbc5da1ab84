//! What a line says.
ghost use Rattle.std.specs.Prelude.{◌≡◌, ◌≤◌, IfOk};
ghost use Rattle.text_lines.specs.Lines.{words_of};
ghost use Rattle.profile_image.specs.declared.script_items.Item.TheVariants as item;
ghost use Rattle.text_lines.specs.Numerals.{number_in};
ghost use Rattle.event_script.specs.declared.faults.TheConstants.{LAST_TICK, MOST_ITEMS};
ghost use Rattle.event_script.specs.Words.{one_word, two_words};
ghost use Rattle.event_script.specs.Numbers.{tick_in, number_of, value_in};
ghost use Rattle.event_script.specs.Entries.{IsTickAndNumber, IsEntry, at_tick, once_at};
ghost use Rattle.event_script.specs.Entries.{once, with_item, port_at, port_line};
ghost use Rattle.event_script.specs.Entries.{ends_in_time, every_number, every_at, is_every};
ghost use Rattle.event_script.specs.Entries.{every_with, every_line, entry_by, entry_of};

use crate::faults::{LAST_TICK, MOST_ITEMS, ScriptFaultKind};
use crate::numbers::{number_of, tick_in, value_in};
use crate::words::{Keyword, keyword_of, one_word, two_words};
use profile_image::Item;
use text_lines::{next_word, number_in};

/// What a line says: an item that comes so many times, first at a tick, and then once in each
/// period.
#[derive(Clone, Copy)]
pub struct Entry {
    pub tick: u32,
    pub period: u32,
    pub count: u32,
    pub item: Item,
}

/// The tick of a line, and the number of its interrupt or port.
#[derive(Clone, Copy)]
pub struct TickAndNumber {
    pub tick: u32,
    pub number: u8,
}

/// An item that comes once.
fn at_tick(tick: u32, item: Item) -> Entry
    ensures { result ≡ at_tick tick item }
{
    Entry {
        tick,
        period: 0,
        count: 1,
        item,
    }
}

fn once_at(tick: &[u8], number: &[u8]) -> Result<TickAndNumber, ScriptFaultKind>
    ensures read { result ≡ once_at (tick_in tick.now) (number_of number.now) }
    ensures limits { IfOk result IsTickAndNumber }
{
    let tick = tick_in(tick).ok_or(ScriptFaultKind::BadNumber)?;
    let number = number_of(number)?;
    Ok(TickAndNumber { tick, number })
}

/// A tick, and one word more: a number.
fn once(tick: &[u8], rest: &[u8]) -> Result<TickAndNumber, ScriptFaultKind>
    ensures read { result ≡ once tick.now (one_word (words_of rest.now)) }
    ensures limits { IfOk result IsTickAndNumber }
{
    let number = one_word(rest).ok_or(ScriptFaultKind::BadLine)?;
    once_at(tick, number)
}

fn interrupt_line(tick: &[u8], rest: &[u8]) -> Result<Entry, ScriptFaultKind>
    ensures read { result
        ≡ with_item item.Interrupt (once tick.now (one_word (words_of rest.now))) }
    ensures limits { IfOk result IsEntry }
{
    let once = once(tick, rest)?;
    Ok(at_tick(once.tick, Item::Interrupt(once.number)))
}

fn mask_line(tick: &[u8], rest: &[u8]) -> Result<Entry, ScriptFaultKind>
    ensures read { result ≡ with_item item.Mask (once tick.now (one_word (words_of rest.now))) }
    ensures limits { IfOk result IsEntry }
{
    let once = once(tick, rest)?;
    Ok(at_tick(once.tick, Item::Mask(once.number)))
}

fn unmask_line(tick: &[u8], rest: &[u8]) -> Result<Entry, ScriptFaultKind>
    ensures read { result ≡ with_item item.Unmask (once tick.now (one_word (words_of rest.now))) }
    ensures limits { IfOk result IsEntry }
{
    let once = once(tick, rest)?;
    Ok(at_tick(once.tick, Item::Unmask(once.number)))
}

fn port_at(value: &[u8], tick: &[u8], number: &[u8]) -> Result<Entry, ScriptFaultKind>
    ensures read { result
        ≡ port_at (value_in value.now) (once_at (tick_in tick.now) (number_of number.now)) }
    ensures limits { IfOk result IsEntry }
{
    let value = value_in(value).ok_or(ScriptFaultKind::BadNumber)?;
    let once = once_at(tick, number)?;
    Ok(at_tick(once.tick, Item::Port(once.number, value)))
}

fn port_line(tick: &[u8], rest: &[u8]) -> Result<Entry, ScriptFaultKind>
    ensures read { result ≡ port_line tick.now (two_words (words_of rest.now)) }
    ensures limits { IfOk result IsEntry }
{
    let (number, value) = two_words(rest).ok_or(ScriptFaultKind::BadLine)?;
    port_at(value, tick, number)
}

/// Whether the last of so many items comes in time.
fn ends_in_time(tick: u32, period: u32, count: u32) -> bool
    requires { 1 ≤ count }
    ensures { result ≡ ends_in_time tick period count }
{
    tick as u64 + (count - 1) as u64 * period as u64 <= LAST_TICK as u64
}

fn every_number(tick: u32, period: u32, count: u32, number: &[u8]) -> Result<Entry, ScriptFaultKind>
    requires limits { (tick ≤ LAST_TICK) × (period ≤ LAST_TICK) × (1 ≤ count)
        × (count ≤ MOST_ITEMS) }
    ensures read { result ≡ every_number tick period count (number_of number.now) }
    ensures limits { IfOk result IsEntry }
{
    if !ends_in_time(tick, period, count) {
        return Err(ScriptFaultKind::BadNumber);
    }
    let number = number_of(number)?;
    Ok(Entry {
        tick,
        period,
        count,
        item: Item::Interrupt(number),
    })
}

fn every_at(
    tick: &[u8],
    period: &[u8],
    count: &[u8],
    number: &[u8],
) -> Result<Entry, ScriptFaultKind>
    ensures read { result
        ≡ every_at (tick_in tick.now) (number_in 1 LAST_TICK period.now)
        (number_in 1 MOST_ITEMS count.now) (number_of number.now) }
    ensures limits { IfOk result IsEntry }
{
    let tick = tick_in(tick).ok_or(ScriptFaultKind::BadNumber)?;
    let period = number_in(period, 1, LAST_TICK).ok_or(ScriptFaultKind::BadNumber)?;
    let count = number_in(count, 1, MOST_ITEMS as u32).ok_or(ScriptFaultKind::BadNumber)?;
    every_number(tick, period, count, number)
}

/// Whether these may be the words of a line that begins with `TICK every`.
fn is_every(period: &[u8], count: &[u8], keyword: &[u8]) -> bool
    ensures { result ≡ is_every period.now count.now keyword.now }
{
    !period.is_empty() && !count.is_empty() && keyword == b"interrupt".as_slice()
}

fn every_with(
    tick: &[u8],
    period: &[u8],
    count: &[u8],
    rest: &[u8],
) -> Result<Entry, ScriptFaultKind>
    ensures read { result
        ≡ every_with tick.now period.now count.now (two_words (words_of rest.now)) }
    ensures limits { IfOk result IsEntry }
{
    let (keyword, number) = two_words(rest).ok_or(ScriptFaultKind::BadLine)?;
    if is_every(period, count, keyword) {
        every_at(tick, period, count, number)
    } else {
        Err(ScriptFaultKind::BadLine)
    }
}

fn every_line(tick: &[u8], rest: &[u8]) -> Result<Entry, ScriptFaultKind>
    ensures read { result ≡ every_line tick.now (words_of rest.now) }
    ensures limits { IfOk result IsEntry }
{
    let (period, rest) = next_word(rest).ok_or(ScriptFaultKind::BadLine)?;
    let (count, rest) = next_word(rest).ok_or(ScriptFaultKind::BadLine)?;
    every_with(tick, period, count, rest)
}

fn entry_by(keyword: Option<Keyword>, tick: &[u8], rest: &[u8]) -> Result<Entry, ScriptFaultKind>
    ensures read { result ≡ entry_by keyword tick.now (words_of rest.now) }
    ensures limits { IfOk result IsEntry }
{
    match keyword {
        None => Err(ScriptFaultKind::BadLine),
        Some(Keyword::Interrupt) => interrupt_line(tick, rest),
        Some(Keyword::Port) => port_line(tick, rest),
        Some(Keyword::Every) => every_line(tick, rest),
        Some(Keyword::Mask) => mask_line(tick, rest),
        Some(Keyword::Unmask) => unmask_line(tick, rest),
    }
}

/// What a line says that is not empty and no comment, or why it is refused.
#[tactic(auto, using(crate::proofs::Endings::no_more_words))]
pub fn entry_of(is_second: bool, text: &[u8]) -> Result<Entry, ScriptFaultKind>
    ensures read { result ≡ entry_of is_second text.now }
    ensures limits { IfOk result IsEntry }
{
    let (tick, rest) = next_word(text).ok_or(ScriptFaultKind::BadLine)?;
    let (keyword, rest) = next_word(rest).ok_or(ScriptFaultKind::BadLine)?;
    if tick.is_empty() {
        Err(ScriptFaultKind::BadLine)
    } else {
        entry_by(keyword_of(is_second, keyword), tick, rest)
    }
}
