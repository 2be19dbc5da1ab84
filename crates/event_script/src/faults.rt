//! What a script may have, and why a text is refused as one.
ghost use Rattle.std.specs.Prelude.{◌≡◌};
ghost use Rattle.event_script.specs.Script.{kind_number};

use thiserror::Error;

/// The most bytes that the text of a script has.
pub const SCRIPT_BYTES: usize = 8_388_608;

/// The most items of a script.
pub const MOST_ITEMS: usize = 100_000;

/// The last tick at which an item comes, and the longest period.
pub const LAST_TICK: u32 = trace_text::LAST_TICK as u32;

/// Why a line of a script is refused.
#[derive(Clone, Copy, Debug, Error)]
pub enum ScriptFaultKind {
    /// It has none of the forms of a line, whatever words stand for its numbers.
    #[error("not a line of a script")]
    BadLine,
    /// A word is no number of the allowed range, or the last item would come too late.
    #[error("a number is out of range")]
    BadNumber,
    /// Its tick is below that of a line above.
    #[error("a tick below that of a line above")]
    BackInTime,
    /// There is no interrupt and no port of its number.
    #[error("no interrupt and no port has this number")]
    NoSuchLine,
    /// It has an item too many, or a byte past the last that is allowed.
    #[error("too many items or bytes")]
    TooMany,
}

impl ScriptFaultKind {
    /// The number by which a note tells this kind, from 1 to 5.
    pub fn number(self) -> u8
        ensures { result ≡ kind_number self }
    {
        match self {
            ScriptFaultKind::BadLine => 1,
            ScriptFaultKind::BadNumber => 2,
            ScriptFaultKind::BackInTime => 3,
            ScriptFaultKind::NoSuchLine => 4,
            ScriptFaultKind::TooMany => 5,
        }
    }
}

/// The first line of a text that is refused, and why.
#[derive(Clone, Copy, Debug, Error)]
#[error("line {line} of the script: {kind}")]
pub struct ScriptFault {
    /// The line's number, from 1.
    pub line: u32,
    /// Why it is refused.
    pub kind: ScriptFaultKind,
}
