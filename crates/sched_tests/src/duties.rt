//! A table of duties, and why a text is refused as one.
ghost use Rattle.std.specs.Prelude.{◌≡◌, ◌<◌, length};
ghost use Rattle.std.specs.List.{slice_get};
ghost use Rattle.std.specs.Option.{option_copied};
ghost use Rattle.sched_tests.specs.Tables.{kind_number};

use ann_base::Name;
use std::marker::Model;
use thiserror::Error;

/// The most bytes that the text of a table has.
pub const TABLE_BYTES: usize = 65_536;

/// The most duties of a table.
pub const MOST_DUTIES: usize = 200;

/// The most letters, digits and underscores of a name.
pub const NAME_LENGTH: usize = 80;

/// The longest time of a table, and the longest window that the tests look at, in ticks.
pub const LONGEST: u32 = 10_000_000;

/// The highest priority of a duty.
pub const MOST_PRIORITY: u32 = 98;

/// What one periodic task has to do, and by when. Times are in ticks.
#[derive(Drop)]
pub struct Duty {
    /// Its name, of 1 to 80 letters, digits and underscores.
    pub name: Name,
    /// C: the most execution time of one release.
    pub cost: u32,
    /// T: the least time from one release to the next.
    pub period: u32,
    /// D: the time after a release by which its work is to be done, at most the period.
    pub deadline: u32,
    /// B: the most time for which duties of lower priority hold it up.
    pub blocking: u32,
    /// Its base priority; a greater number is a higher priority.
    pub priority: u8,
}

/// Why a line of a table is refused.
#[derive(Clone, Copy, Debug, Error)]
pub enum TableFaultKind {
    /// It is not a name and five words with single spaces.
    #[error("not a name and five numbers")]
    BadLine,
    /// A word is no number of the allowed range, or the deadline is above the period.
    #[error("a number is out of range")]
    BadNumber,
    /// A duty above has the same name.
    #[error("a name stands twice")]
    Twice,
    /// It is one duty too many, or has a byte past the last that is allowed.
    #[error("too many duties or bytes")]
    TooMany,
    /// There is no duty in the whole table.
    #[error("no duty")]
    Empty,
}

impl TableFaultKind {
    /// The number by which a note tells this kind, from 1 to 5.
    pub fn number(self) -> u8
        ensures { result ≡ kind_number self }
    {
        match self {
            TableFaultKind::BadLine => 1,
            TableFaultKind::BadNumber => 2,
            TableFaultKind::Twice => 3,
            TableFaultKind::TooMany => 4,
            TableFaultKind::Empty => 5,
        }
    }
}

/// The first line of a text that is refused, and why.
#[derive(Clone, Copy, Debug, Error)]
#[error("line {line} of the table: {kind}")]
pub struct TableFault {
    /// The line's number, from 1; 0 where the whole table has no duty.
    pub line: u32,
    /// Why it is refused.
    pub kind: TableFaultKind,
}

/// Duties in the order of their lines, at most 200, each within the limits. Contracts see the list.
#[derive(Drop)]
pub struct Table {
    pub(crate) duties: Vec<Duty>,
}

impl Model for Table {
    ghost use Rattle.std.specs.Prelude.{List};
    ghost use Rattle.sched_tests.specs.declared.duties.Duty.{Duty};

    ghost Value = { List Duty };

    ghost use Rattle.sched_tests.specs.Tables.{IsTable};

    ghost view = { λ table. table.duties.items };

    ghost invariant = { λ table. IsTable table.duties.items };
}

impl Table {
    /// How many duties there are.
    pub fn len(&self) -> u32
        ensures { result ≡ length self.now }
    {
        self.duties.len() as u32
    }

    /// The duty at this place, counted from 0; none past the last.
    pub fn duty(&self, place: u32) -> Option<&Duty>
        ensures { option_copied result ≡ slice_get self.now place }
    {
        self.duties.as_slice().get(place as usize)
    }
}
