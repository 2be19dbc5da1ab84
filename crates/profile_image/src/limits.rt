//! The limits of a run, and the numbers that the standard leaves open (docs/LANGUAGE.md).
use ann_base::Moment;

/// The first Integer (3.5.4; this profile's choice: it has 32 bits).
pub const INTEGER_FIRST: i32 = i32::MIN;

/// The last Integer.
pub const INTEGER_LAST: i32 = i32::MAX;

/// The first moment of Time, and the first value of Duration, in ticks (9.6, D.8; this profile's
/// choice): half of the first number of 64 bits, so that a sum of two has room.
pub const TIME_FIRST: Moment = -4_611_686_018_427_387_904;

/// The last moment of Time, and the last value of Duration, in ticks (9.6, D.8; this profile's
/// choice).
pub const TIME_LAST: Moment = 4_611_686_018_427_387_903;

/// How many tasks are live at most.
pub const MOST_LIVE_TASKS: usize = 256;

/// How many marks a task has open at most.
pub const MOST_MARKS_OF_TASK: usize = 1_000;

/// How many marks all tasks have open at most.
pub const MOST_MARKS: usize = 65_536;

/// How many cells all scopes in use have at most.
pub const MOST_CELLS: usize = 65_536;

/// How many releases of handlers are pending at most.
pub const MOST_RELEASES: usize = 65_536;

/// How many timers there are at most (D.14.1).
pub const MOST_TIMERS: usize = 256;

/// The number of the last port, and of the last interrupt (C.3.1); the first of each is 0.
pub const LAST_OUTSIDE_LINE: u32 = 15;

/// The quantum of a level until it is set, in ticks (D.2.5).
pub const DEFAULT_QUANTUM: u64 = 1_000;

/// The longest quantum, in ticks (D.2.5).
pub const LAST_QUANTUM: Moment = 1_000_000_000;

/// How many cells a protected object has of its own, before those of its components.
pub const PROTECTED_CELLS: u32 = 16;

/// How many cells a controlled object has of its own, before those of its components.
pub const CONTROLLED_CELLS: u32 = 1;
