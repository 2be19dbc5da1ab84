//! The processor demand under earliest deadline first.
ghost use Rattle.std.specs.Prelude.{◌≡◌, ◌<◌, ◌≤◌, ◌+◌, ◌*◌, ◌^◌, length};
ghost use Rattle.std.specs.Prelude.{slice_index, EachIndex, IfSome};
ghost use Rattle.std.specs.Option.{option_map};
ghost use Rattle.sched_tests.specs.Demand.{deadlines_in, demand, busy_demand, IsOver, IsFirstOver};
ghost use Rattle.sched_tests.specs.Demand.{first_over_of, IsBusyPeriod, busy_of, NeverOverBeyond};
ghost use Rattle.sched_tests.specs.Chunks.{HasDueOf, HasDue, IsChunkEnd};
ghost use Rattle.sched_tests.specs.Least.{IsNever};
ghost use Rattle.sched_tests.specs.Tables.{IsDuty, IsTable};

use crate::duties::{Duty, LONGEST, MOST_DUTIES, Table};
use crate::responses::asked_in;

/// How many windows are looked at together.
const CHUNK: usize = 4000;

/// How many such chunks there are up to the longest window.
const CHUNKS: u32 = 2500;

/// Where the look at the windows of a chunk ends.
enum ChunkEnd {
    /// At the first window that is overrun, with its demand.
    Over(u32, u64),
    /// At the end of the chunk, with the demand there.
    Within(u64),
}

/// What all duties ask for in a window.
fn busy_demand(duties: &[Duty], window: u32) -> u64
    requires table { IsTable duties.now }
    requires window { window ≤ LONGEST }
    ensures { result ≡ busy_demand duties.now window }
{
    let mut total = 0;
    for duty in duties {
        total += asked_in(duty, window);
    }
    total
}

/// The least window in which no more is asked for than there is time for.
fn busy_window(duties: &[Duty]) -> Option<u32>
    requires { IsTable duties.now }
    ensures { IsBusyPeriod duties.now result }
{
    let mut window = 1;
    while window <= LONGEST {
        let asked = busy_demand(duties, window);
        if asked <= window as u64 {
            return Some(window);
        }
        if asked > LONGEST as u64 {
            return None;
        }
        window = asked as u32;
    }
    None
}

/// The length of the busy period: the least window from 1 to 10,000,000 in which no more is asked
/// for than there is time for. None exactly where there is none. Where no window up to it is
/// overrun, no window of any length is.
pub fn busy(table: &Table) -> Option<u32>
    ensures least { IsBusyPeriod table.now result }
    ensures same { result ≡ busy_of table.now }
    ensures beyond { IfSome result (NeverOverBeyond table.now) }
{
    busy_window(table.duties.as_slice())
}

/// How many windows behind this one end before a deadline of the duty.
fn before_next_deadline(duty: &Duty, window: u32) -> u32
    requires duty { IsDuty duty.now }
    requires window { window ≤ LONGEST }
    ensures { window + result + 1
        ≡ duty.now.deadline + deadlines_in window duty.now * duty.now.period }
{
    if window < duty.deadline {
        duty.deadline - window - 1
    } else {
        duty.period - (window - duty.deadline) % duty.period - 1
    }
}

/// Adds the duty's cost at each window behind the base that ends with one of its deadlines.
fn add_due(due: &mut [u64], duty: &Duty, base: u32)
    requires duty { IsDuty duty.now }
    requires base { base ≤ LONGEST }
    requires short { length due.old ≤ CHUNK }
    requires room { EachIndex due.old (λ k. slice_index due.old k + LONGEST < 2 ^ 64) }
    ensures due { HasDueOf base duty.now due.old due.new }
    ensures bounded { EachIndex due.new
        (λ k. slice_index due.new k ≤ slice_index due.old k + LONGEST) }
{
    let cost = duty.cost as u64;
    let period = duty.period as usize;
    let mut at = before_next_deadline(duty, base) as usize;
    while at < due.len() {
        due[at] += cost;
        at += period;
    }
}

/// What becomes due with each window of the chunk behind the base.
fn add_all_due(due: &mut [u64], duties: &[Duty], base: u32)
    requires table { IsTable duties.now }
    requires base { base ≤ LONGEST }
    requires short { length due.old ≤ CHUNK }
    requires zero { EachIndex due.old (λ k. slice_index due.old k ≡ 0) }
    ensures due { HasDue base duties.now due.new }
    ensures bounded { EachIndex due.new (λ k. slice_index due.new k ≤ MOST_DUTIES * LONGEST) }
{
    for duty in duties {
        add_due(due, duty, base);
    }
}

/// Looks at the windows of the chunk behind the base, in which so much has to be done.
fn look_at_chunk(duties: &[Duty], base: u32, before: u64) -> ChunkEnd
    requires table { IsTable duties.now }
    requires base { base + CHUNK ≤ LONGEST }
    requires before { before ≡ demand duties.now base }
    requires small { before ≤ base }
    requires within { IsNever (IsOver duties.now) base }
    ensures { IsChunkEnd duties.now base result }
{
    let mut due = [0u64; CHUNK];
    add_all_due(&mut due, duties, base);
    let mut total = before;
    let mut window = base;
    for rise in due.iter() {
        total += *rise;
        window += 1;
        if total > window as u64 {
            return ChunkEnd::Over(window, total);
        }
    }
    ChunkEnd::Within(total)
}

/// The least window that is overrun, and its demand.
fn first_overrun(duties: &[Duty]) -> Option<(u32, u64)>
    requires { IsTable duties.now }
    ensures least { IsFirstOver duties.now (option_map (λ over. over.0) result) }
    ensures demand { IfSome result (λ over. over.1 ≡ demand duties.now over.0) }
{
    let mut total = 0;
    for chunk in 0..CHUNKS {
        match look_at_chunk(duties, chunk * CHUNK as u32, total) {
            ChunkEnd::Over(window, demand) => return Some((window, demand)),
            ChunkEnd::Within(demand) => total = demand,
        }
    }
    None
}

/// The least window from 1 to 10,000,000 in which more has to be done than there is time for, and
/// its demand. None exactly where there is none.
pub fn first_over(table: &Table) -> Option<(u32, u64)>
    ensures least { IsFirstOver table.now (option_map (λ over. over.0) result) }
    ensures same { option_map (λ over. over.0) result ≡ first_over_of table.now }
    ensures demand { IfSome result (λ over. over.1 ≡ demand table.now over.0) }
{
    first_overrun(table.duties.as_slice())
}
