//! The numbers of the releases of handlers.
ghost use Rattle.std.specs.Prelude.{◌≡◌, ◌+◌, ◌==◌, ◌&&◌};
ghost use Rattle.trace_text.specs.Laws.{is_in_order};
ghost use Rattle.trace_lines.specs.Seen.{Seen};
ghost use Rattle.trace_laws.specs.Watched.{counts_after, other_than, releases_in};

use trace_text::Event;

/// How many releases there were, how many began and how many ended, and the one that is being
/// served.
#[derive(Clone, Copy, PartialEq, Eq)]
pub struct Counts {
    pub released: u32,
    pub begun: u32,
    pub served: u32,
    pub serving: Option<u32>,
}

// The number behind a count.
fn is_next(number: u32, count: u32) -> bool
    ensures { result ≡ (number == count + 1) }
{
    number as u64 == count as u64 + 1
}

// No release is being served any more, if it was this one.
fn other_than(number: u32, serving: Option<u32>) -> Option<u32>
    ensures { result ≡ other_than number serving }
{
    let other = serving?;
    if number == other { None } else { Some(other) }
}

/// Whether a line bears the number that is next, and no release is served too early.
pub fn is_in_order(counts: &Counts, event: &Event) -> bool
    ensures { (seen : Seen) → result ≡ is_in_order (releases_in seen counts.now) event.now }
{
    match event {
        Event::Release { release, .. } => is_next(*release, counts.released),
        Event::Serve { release } => {
            is_next(*release, counts.begun)
                && *release <= counts.released
                && counts.serving.is_none()
        }
        Event::Served { release } => {
            is_next(*release, counts.served) && *release <= counts.released
        }
        _ => true,
    }
}

/// What a line changes.
pub fn note(counts: &mut Counts, event: &Event)
    ensures { counts.new ≡ counts_after counts.old event.now }
{
    match event {
        Event::Release { release, .. } => counts.released = *release,
        Event::Serve { release } => {
            counts.begun = *release;
            counts.serving = Some(*release);
        }
        Event::Served { release } => {
            counts.served = *release;
            counts.serving = other_than(*release, counts.serving);
        }
        _ => {}
    }
}
