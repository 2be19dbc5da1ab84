//! The delimiters (ISO/IEC 8652:2012, 2.2).
ghost use Rattle.std.specs.Prelude.{◌≡◌, ◌≢◌, ◌<◌, ℕ, length, slice_index_or, IfSome, IfNone};
ghost use Rattle.ada_lex.specs.declared.delimiters.Delimiter.{Delimiter};
ghost use Rattle.ada_lex.specs.DelimiterLetters.{delimiter_letters};

/// A delimiter of this profile.
#[derive(Clone, Copy, PartialEq, Eq)]
pub enum Delimiter {
    /// `=>`
    Arrow,
    /// `..`
    Dots,
    /// `:=`
    Becomes,
    /// `/=`
    NotEqual,
    /// `>=`
    AtLeast,
    /// `<=`
    AtMost,
    /// `&`
    Ampersand,
    /// `'`
    Apostrophe,
    /// `(`
    OpenBracket,
    /// `)`
    CloseBracket,
    /// `*`
    Asterisk,
    /// `+`
    Plus,
    /// `,`
    Comma,
    /// `-`
    Minus,
    /// `.`
    Point,
    /// `/`
    Solidus,
    /// `:`
    Colon,
    /// `;`
    Semicolon,
    /// `<`
    Less,
    /// `=`
    Equal,
    /// `>`
    Greater,
    /// `|`
    Bar,
}

const ALL: [Delimiter; 22] = [
    Delimiter::Arrow,
    Delimiter::Dots,
    Delimiter::Becomes,
    Delimiter::NotEqual,
    Delimiter::AtLeast,
    Delimiter::AtMost,
    Delimiter::Ampersand,
    Delimiter::Apostrophe,
    Delimiter::OpenBracket,
    Delimiter::CloseBracket,
    Delimiter::Asterisk,
    Delimiter::Plus,
    Delimiter::Comma,
    Delimiter::Minus,
    Delimiter::Point,
    Delimiter::Solidus,
    Delimiter::Colon,
    Delimiter::Semicolon,
    Delimiter::Less,
    Delimiter::Equal,
    Delimiter::Greater,
    Delimiter::Bar,
];

impl Delimiter {
    /// The bytes of a delimiter (2.2).
    pub fn letters(self) -> &'static [u8]
        ensures { result.now ≡ delimiter_letters self }
    {
        match self {
            Delimiter::Arrow => b"=>",
            Delimiter::Dots => b"..",
            Delimiter::Becomes => b":=",
            Delimiter::NotEqual => b"/=",
            Delimiter::AtLeast => b">=",
            Delimiter::AtMost => b"<=",
            Delimiter::Ampersand => b"&",
            Delimiter::Apostrophe => b"'",
            Delimiter::OpenBracket => b"(",
            Delimiter::CloseBracket => b")",
            Delimiter::Asterisk => b"*",
            Delimiter::Plus => b"+",
            Delimiter::Comma => b",",
            Delimiter::Minus => b"-",
            Delimiter::Point => b".",
            Delimiter::Solidus => b"/",
            Delimiter::Colon => b":",
            Delimiter::Semicolon => b";",
            Delimiter::Less => b"<",
            Delimiter::Equal => b"=",
            Delimiter::Greater => b">",
            Delimiter::Bar => b"|",
        }
    }
}

fn first_of(entries: &[Delimiter], spelling: &[u8]) -> Option<Delimiter>
    ensures found { IfSome result (λ entry. delimiter_letters entry ≡ spelling.now) }
    ensures none { IfNone result
        ((k : ℕ) → k < length entries.now
        → delimiter_letters (slice_index_or entries.now k Delimiter.Arrow) ≢ spelling.now) }
{
    for entry in entries {
        if entry.letters() == spelling {
            return Some(*entry);
        }
    }
    None
}

/// The delimiter that is spelt so; None where there is none.
pub fn delimiter_of(spelling: &[u8]) -> Option<Delimiter>
    ensures found { IfSome result (λ entry. delimiter_letters entry ≡ spelling.now) }
    ensures none { IfNone result ((entry : Delimiter) → delimiter_letters entry ≢ spelling.now) }
{
    first_of(&ALL, spelling)
}
