//! Why a source is refused, and where.
ghost use Rattle.std.specs.Prelude.{◌≡◌};
ghost use Rattle.ada_verdicts.specs.Refusals.{letter_of, number_of};

use ann_base::Place;

/// Why a source is refused. Each has a letter and a number, which are printed: F for the form of a
/// source, L for its legality.
#[derive(Clone, Copy)]
pub enum Code {
    /// F1: a byte that no token, separator or comment has there (2.1, 2.2).
    BadByte,
    /// F2: not a numeric literal of this profile (2.4).
    BadNumber,
    /// F3: a string literal that does not end on its line (2.6).
    OpenText,
    /// F4: more bytes than a source may have.
    TooLong,
    /// F5: a token that cannot stand here, or the source ends too early.
    Unexpected,
    /// F6: nesting that is too deep.
    TooDeep,
    /// F7: a name without a visible declaration (8.3).
    Unknown,
    /// F8: the second declaration of a name in one region (8.3).
    Twice,
    /// F9: two use clauses make different declarations of a name visible (8.4).
    Ambiguous,
    /// L1 to L39: the rule of legality with this number is broken. L40: a form that no image has.
    Rule(u32),
}

impl Code {
    /// F or L.
    pub fn letter(self) -> u8
        ensures { result ≡ letter_of self }
    {
        match self {
            Code::Rule(_) => b'L',
            _ => b'F',
        }
    }

    /// The number after the letter.
    pub fn number(self) -> u32
        ensures { result ≡ number_of self }
    {
        match self {
            Code::BadByte => 1,
            Code::BadNumber => 2,
            Code::OpenText => 3,
            Code::TooLong => 4,
            Code::Unexpected => 5,
            Code::TooDeep => 6,
            Code::Unknown => 7,
            Code::Twice => 8,
            Code::Ambiguous => 9,
            Code::Rule(number) => number,
        }
    }
}

/// A refusal of a source: its reason, and the place where it stands.
#[derive(Clone, Copy)]
pub struct Refusal {
    pub place: Place,
    pub code: Code,
}
