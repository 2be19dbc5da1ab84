//! Response times under fixed priorities.
ghost use Rattle.std.specs.Prelude.{◌≡◌, ℕ, ◌<◌, ◌≤◌, ◌+◌, ◌*◌, drop, length, nat_le};
ghost use Rattle.sched_tests.specs.Response.{asked_in, interference, need};
ghost use Rattle.sched_tests.specs.Response.{IsEnough, IsResponse, response_of};
ghost use Rattle.sched_tests.specs.Floors.{once_of, share_of};
ghost use Rattle.sched_tests.specs.Tables.{IsDuty, IsTable};

use crate::duties::{Duty, LONGEST, Table};

/// The whole processor, as a share.
const SCALE: u64 = 4_294_967_296;

/// What a duty asks for in a window that begins with its release.
pub fn asked_in(duty: &Duty, window: u32) -> u64
    requires duty { IsDuty duty.now }
    requires window { window ≤ LONGEST }
    ensures asked { result ≡ asked_in window duty.now }
    ensures bounded { result ≤ LONGEST * LONGEST }
{
    duty.cost as u64 * window.div_ceil(duty.period) as u64
}

/// Whether a duty comes before one of this priority: its own is at least as high.
fn interferes(duty: &Duty, priority: u8) -> bool
    ensures { result ≡ nat_le priority duty.now.priority }
{
    duty.priority >= priority
}

/// What these duties ask for in a window, of those that have at least this priority.
fn interference(duties: &[Duty], priority: u8, window: u32) -> u64
    requires table { IsTable duties.now }
    requires window { window ≤ LONGEST }
    ensures asked { result ≡ interference window priority duties.now }
    ensures bounded { result ≤ length duties.now * (LONGEST * LONGEST) }
{
    let mut total = 0;
    for duty in duties {
        if interferes(duty, priority) {
            total += asked_in(duty, window);
        }
    }
    total
}

/// The duties behind this place.
fn behind(duties: &[Duty], place: usize) -> &[Duty]
    requires { place < length duties.now }
    ensures { result.now ≡ drop (place + 1) duties.now }
{
    &duties[place + 1..]
}

/// What is needed in a window: the cost and the blocking of the duty at this place, and what the
/// others of at least its priority ask for.
fn need(duties: &[Duty], place: usize, window: u32) -> u64
    requires table { IsTable duties.now }
    requires place { place < length duties.now }
    requires window { window ≤ LONGEST }
    ensures { result ≡ need duties.now place window }
{
    let own = &duties[place];
    let above = interference(&duties[..place], own.priority, window);
    let below = interference(behind(duties, place), own.priority, window);
    own.cost as u64 + own.blocking as u64 + above + below
}

/// What duties ask for at the least in any window from a given one on: a cost, and a share of the
/// window in parts of `SCALE`.
#[derive(Clone, Copy)]
struct Floor {
    once: u64,
    share: u64,
}

/// The least that these duties ask for, of those that have at least this priority: the ones whose
/// period is as long as the window ask once, and the others for their share of it.
fn floor_of(duties: &[Duty], priority: u8, window: u32) -> Floor
    requires { IsTable duties.now }
    ensures once { result.once ≡ once_of window priority duties.now }
    ensures share { result.share ≡ share_of window priority duties.now }
    ensures small { result.once ≤ length duties.now * LONGEST }
    ensures bounded { result.share ≤ length duties.now * (LONGEST * SCALE) }
{
    let mut once = 0;
    let mut share = 0;
    for duty in duties {
        if interferes(duty, priority) {
            if window <= duty.period {
                once += duty.cost as u64;
            } else {
                share += duty.cost as u64 * SCALE / duty.period as u64;
            }
        }
    }
    Floor { once, share }
}

/// A length below which no window from this one on is enough for the duty at this place. Where the
/// duties above it take almost the whole processor, it lies far beyond what is needed in the
/// window.
fn shortest_from(duties: &[Duty], place: usize, window: u32) -> u64
    requires table { IsTable duties.now }
    requires place { place < length duties.now }
    requires window { 1 ≤ window }
    ensures { (k : ℕ) → window ≤ k → k < result → ¬ (IsEnough duties.now place k) }
{
    let own = &duties[place];
    let above = floor_of(&duties[..place], own.priority, window);
    let below = floor_of(behind(duties, place), own.priority, window);
    let once = own.cost as u64 + own.blocking as u64 + above.once + below.once;
    let share = above.share + below.share;
    if share < SCALE {
        (once * SCALE).div_ceil(SCALE - share)
    } else {
        u64::MAX
    }
}

/// The least window, of at most the deadline, that is enough for the duty at this place.
fn least_enough(duties: &[Duty], place: usize) -> Option<u32>
    requires table { IsTable duties.now }
    requires place { place < length duties.now }
    ensures { IsResponse duties.now place result }
{
    let deadline = duties[place].deadline;
    let mut window = 1;
    while window <= deadline {
        let needed = need(duties, place, window);
        if needed <= window as u64 {
            return Some(window);
        }
        let shortest = shortest_from(duties, place, window);
        let next = needed.max(shortest);
        if next > deadline as u64 {
            return None;
        }
        window = next as u32;
    }
    None
}

/// The response time of the duty at this place: the least window, of at most its deadline, that is
/// no shorter than what is needed in it. None exactly where there is none: it may miss its
/// deadline.
pub fn response(table: &Table, place: u32) -> Option<u32>
    requires { place < length table.now }
    ensures least { IsResponse table.now place result }
    ensures same { result ≡ response_of table.now place }
{
    least_enough(table.duties.as_slice(), place as usize)
}
