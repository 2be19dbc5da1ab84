//! Writing what the tests of a table tell.
ghost use Rattle.std.specs.Prelude.{◌≡◌, ◌≤◌, [], ◌∷◌, ◌++◌, ◌||◌, not, codes, decimal};
ghost use Rattle.std.specs.Prelude.{is_some, None, Some, OnOk, OnErr, IfOk, IfSome};
ghost use Rattle.std.specs.List.{slice_get};
ghost use Rattle.ann_base.specs.Outside.{Rose, extended};
ghost use Rattle.outside_bytes.specs.Pieces.{HoldsPrefix};
ghost use Rattle.sched_tests.specs.Demand.{first_over_of};
ghost use Rattle.sched_tests.specs.Reports.{response_line, rta_text};
ghost use Rattle.sched_tests.specs.Reports.{is_missed, busy_text, demand_text};
ghost use Rattle.commands.specs.declared.requests.TableTest.TheVariants as test;
ghost use Rattle.commands.specs.Tests.{HoldsBeyond};

use crate::words::{write_labelled, write_words};
use ann_base::{Failed, Sink};
use itoa::Buffer;
use sched_tests::{LONGEST, Table, busy, first_over, response};

/// Writes the response time of each duty, line by line in the order of the table, and answers
/// whether one of them misses. After a failure a prefix of the lines was written.
pub fn write_responses<K: Sink>(out: &mut K, table: &Table) -> Result<bool, Failed>
    ensures written { OnOk result
        (K.held out.new ≡ extended (K.held out.old) (rta_text table.now)) }
    ensures missed { IfOk result (λ missed. is_missed table.now 0 table.now ≡ missed) }
    ensures monotone { K.faults out.old ≤ K.faults out.new }
    ensures cause { OnErr result (Rose (K.faults out.old) (K.faults out.new)) }
    ensures prefix { OnErr result
        (HoldsPrefix (K.held out.old) (K.held out.new) (rta_text table.now)) }
{
    let mut missed = false;
    for place in 0..table.len() {
        let time = response(table, place);
        write_duty(out, table, place, time)?;
        missed = or_misses(missed, time);
    }
    Ok(missed)
}

/// Whether a duty has missed, or the one with this response time does.
fn or_misses(missed: bool, time: Option<u32>) -> bool
    ensures { result ≡ missed || not (is_some time) }
{
    missed || time.is_none()
}

/// Writes the line of the duty at a place, which has this response time.
fn write_duty<K: Sink>(
    out: &mut K,
    table: &Table,
    place: u32,
    time: Option<u32>,
) -> Result<(), Failed>
    ensures written { OnOk result
        (IfSome (slice_get table.now place)
        (λ duty. K.held out.new ≡ extended (K.held out.old) (response_line duty.name time))) }
    ensures monotone { K.faults out.old ≤ K.faults out.new }
    ensures cause { OnErr result (Rose (K.faults out.old) (K.faults out.new)) }
    ensures prefix { OnErr result
        (IfSome (slice_get table.now place)
        (λ duty. HoldsPrefix (K.held out.old) (K.held out.new) (response_line duty.name time))) }
{
    match table.duty(place) {
        Some(duty) => write_response(out, duty.name.as_bytes(), time),
        None => Ok(()),
    }
}

/// Writes the line of a duty: its name, and its response time or that it misses.
fn write_response<K: Sink>(out: &mut K, name: &[u8], time: Option<u32>) -> Result<(), Failed>
    ensures written { OnOk result
        (K.held out.new ≡ extended (K.held out.old) (response_line name.now time)) }
    ensures monotone { K.faults out.old ≤ K.faults out.new }
    ensures cause { OnErr result (Rose (K.faults out.old) (K.faults out.new)) }
    ensures prefix { OnErr result
        (HoldsPrefix (K.held out.old) (K.held out.new) (response_line name.now time)) }
{
    match time {
        None => write_words(out, name, b"miss"),
        Some(ticks) => {
            let mut digits = Buffer::new();
            write_words(out, name, digits.format(ticks).as_bytes())
        }
    }
}

/// Writes what the demand test tells, and answers whether a window is overrun. Where a busy period
/// is written, no window of any length is overrun. After a failure a prefix of it was written.
pub fn write_demand<K: Sink>(out: &mut K, table: &Table) -> Result<bool, Failed>
    ensures written { OnOk result
        (K.held out.new ≡ extended (K.held out.old) (demand_text table.now)) }
    ensures over { IfOk result (λ over. is_some (first_over_of table.now) ≡ over) }
    ensures beyond { OnOk result (HoldsBeyond test.Demand table.now) }
    ensures monotone { K.faults out.old ≤ K.faults out.new }
    ensures cause { OnErr result (Rose (K.faults out.old) (K.faults out.new)) }
    ensures prefix { OnErr result
        (HoldsPrefix (K.held out.old) (K.held out.new) (demand_text table.now)) }
{
    match first_over(table) {
        Some((window, demand)) => {
            write_over(out, window, demand)?;
            Ok(true)
        }
        None => {
            write_within(out, busy(table))?;
            Ok(false)
        }
    }
}

/// Writes the first window that is overrun, with its demand.
fn write_over<K: Sink>(out: &mut K, window: u32, demand: u64) -> Result<(), Failed>
    ensures written { OnOk result
        (K.held out.new
        ≡ extended (K.held out.old)
        (codes "over " ++ decimal window ++ 32 ∷ (decimal demand ++ 10 ∷ []))) }
    ensures monotone { K.faults out.old ≤ K.faults out.new }
    ensures cause { OnErr result (Rose (K.faults out.old) (K.faults out.new)) }
    ensures prefix { OnErr result
        (HoldsPrefix (K.held out.old) (K.held out.new)
        (codes "over " ++ decimal window ++ 32 ∷ (decimal demand ++ 10 ∷ []))) }
{
    let (mut length, mut asked) = (Buffer::new(), Buffer::new());
    let length = length.format(window).as_bytes();
    let asked = asked.format(demand).as_bytes();
    write_labelled(out, b"over ", length, asked)
}

/// Writes that no window up to the longest one is overrun, and the busy period.
fn write_within<K: Sink>(out: &mut K, busy: Option<u32>) -> Result<(), Failed>
    ensures written { OnOk result
        (K.held out.new
        ≡ extended (K.held out.old)
        (codes "within " ++ decimal LONGEST ++ 10 ∷ (codes "busy " ++ busy_text busy ++ 10 ∷ []))) }
    ensures monotone { K.faults out.old ≤ K.faults out.new }
    ensures cause { OnErr result (Rose (K.faults out.old) (K.faults out.new)) }
    ensures prefix { OnErr result
        (HoldsPrefix (K.held out.old) (K.held out.new)
        (codes "within " ++ decimal LONGEST ++ 10 ∷ (codes "busy " ++ busy_text busy ++ 10 ∷ []))) }
{
    let mut digits = Buffer::new();
    write_words(out, b"within", digits.format(LONGEST).as_bytes())?;
    write_busy(out, busy)
}

/// Writes the busy period, or that there is none.
fn write_busy<K: Sink>(out: &mut K, busy: Option<u32>) -> Result<(), Failed>
    ensures written { OnOk result
        (K.held out.new ≡ extended (K.held out.old) (codes "busy " ++ busy_text busy ++ 10 ∷ [])) }
    ensures monotone { K.faults out.old ≤ K.faults out.new }
    ensures cause { OnErr result (Rose (K.faults out.old) (K.faults out.new)) }
    ensures prefix { OnErr result
        (HoldsPrefix (K.held out.old) (K.held out.new)
        (codes "busy " ++ busy_text busy ++ 10 ∷ [])) }
{
    match busy {
        None => write_words(out, b"busy", b"none"),
        Some(window) => {
            let mut digits = Buffer::new();
            write_words(out, b"busy", digits.format(window).as_bytes())
        }
    }
}
