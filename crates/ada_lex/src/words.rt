//! The reserved words (ISO/IEC 8652:2012, 2.9).
ghost use Rattle.std.specs.Prelude.{◌≡◌, ◌≢◌, ◌<◌, ℕ, map, length, slice_index_or, IfSome, IfNone};
ghost use Rattle.std.specs.Char.{to_ascii_lowercase};
ghost use Rattle.std.specs.Str.{bytes_eq};
ghost use Rattle.ada_lex.specs.declared.words.Reserved.{Reserved};
ghost use Rattle.ada_lex.specs.ReservedLetters.{word_letters};
ghost use Rattle.ada_lex.specs.Reserved.{is_reserved};

/// A reserved word.
#[derive(Clone, Copy, PartialEq, Eq)]
pub enum Reserved {
    Abort,
    Abs,
    Abstract,
    Accept,
    Access,
    Aliased,
    All,
    And,
    Array,
    At,
    Begin,
    Body,
    Case,
    Constant,
    Declare,
    Delay,
    Delta,
    Digits,
    Do,
    Else,
    Elsif,
    End,
    Entry,
    Exception,
    Exit,
    For,
    Function,
    Generic,
    Goto,
    If,
    In,
    Interface,
    Is,
    Limited,
    Loop,
    Mod,
    New,
    Not,
    Null,
    Of,
    Or,
    Others,
    Out,
    Overriding,
    Package,
    Pragma,
    Private,
    Procedure,
    Protected,
    Raise,
    Range,
    Record,
    Rem,
    Renames,
    Requeue,
    Return,
    Reverse,
    Select,
    Separate,
    Some,
    Subtype,
    Synchronized,
    Tagged,
    Task,
    Terminate,
    Then,
    TypeWord,
    Until,
    Use,
    When,
    While,
    With,
    Xor,
}

const ALL: [Reserved; 73] = [
    Reserved::Abort,
    Reserved::Abs,
    Reserved::Abstract,
    Reserved::Accept,
    Reserved::Access,
    Reserved::Aliased,
    Reserved::All,
    Reserved::And,
    Reserved::Array,
    Reserved::At,
    Reserved::Begin,
    Reserved::Body,
    Reserved::Case,
    Reserved::Constant,
    Reserved::Declare,
    Reserved::Delay,
    Reserved::Delta,
    Reserved::Digits,
    Reserved::Do,
    Reserved::Else,
    Reserved::Elsif,
    Reserved::End,
    Reserved::Entry,
    Reserved::Exception,
    Reserved::Exit,
    Reserved::For,
    Reserved::Function,
    Reserved::Generic,
    Reserved::Goto,
    Reserved::If,
    Reserved::In,
    Reserved::Interface,
    Reserved::Is,
    Reserved::Limited,
    Reserved::Loop,
    Reserved::Mod,
    Reserved::New,
    Reserved::Not,
    Reserved::Null,
    Reserved::Of,
    Reserved::Or,
    Reserved::Others,
    Reserved::Out,
    Reserved::Overriding,
    Reserved::Package,
    Reserved::Pragma,
    Reserved::Private,
    Reserved::Procedure,
    Reserved::Protected,
    Reserved::Raise,
    Reserved::Range,
    Reserved::Record,
    Reserved::Rem,
    Reserved::Renames,
    Reserved::Requeue,
    Reserved::Return,
    Reserved::Reverse,
    Reserved::Select,
    Reserved::Separate,
    Reserved::Some,
    Reserved::Subtype,
    Reserved::Synchronized,
    Reserved::Tagged,
    Reserved::Task,
    Reserved::Terminate,
    Reserved::Then,
    Reserved::TypeWord,
    Reserved::Until,
    Reserved::Use,
    Reserved::When,
    Reserved::While,
    Reserved::With,
    Reserved::Xor,
];

impl Reserved {
    /// The letters of a reserved word, in lower case (2.9).
    pub fn letters(self) -> &'static [u8]
        ensures { result.now ≡ word_letters self }
    {
        match self {
            Reserved::Abort => b"abort",
            Reserved::Abs => b"abs",
            Reserved::Abstract => b"abstract",
            Reserved::Accept => b"accept",
            Reserved::Access => b"access",
            Reserved::Aliased => b"aliased",
            Reserved::All => b"all",
            Reserved::And => b"and",
            Reserved::Array => b"array",
            Reserved::At => b"at",
            Reserved::Begin => b"begin",
            Reserved::Body => b"body",
            Reserved::Case => b"case",
            Reserved::Constant => b"constant",
            Reserved::Declare => b"declare",
            Reserved::Delay => b"delay",
            Reserved::Delta => b"delta",
            Reserved::Digits => b"digits",
            Reserved::Do => b"do",
            Reserved::Else => b"else",
            Reserved::Elsif => b"elsif",
            Reserved::End => b"end",
            Reserved::Entry => b"entry",
            Reserved::Exception => b"exception",
            Reserved::Exit => b"exit",
            Reserved::For => b"for",
            Reserved::Function => b"function",
            Reserved::Generic => b"generic",
            Reserved::Goto => b"goto",
            Reserved::If => b"if",
            Reserved::In => b"in",
            Reserved::Interface => b"interface",
            Reserved::Is => b"is",
            Reserved::Limited => b"limited",
            Reserved::Loop => b"loop",
            Reserved::Mod => b"mod",
            Reserved::New => b"new",
            Reserved::Not => b"not",
            Reserved::Null => b"null",
            Reserved::Of => b"of",
            Reserved::Or => b"or",
            Reserved::Others => b"others",
            Reserved::Out => b"out",
            Reserved::Overriding => b"overriding",
            Reserved::Package => b"package",
            Reserved::Pragma => b"pragma",
            Reserved::Private => b"private",
            Reserved::Procedure => b"procedure",
            Reserved::Protected => b"protected",
            Reserved::Raise => b"raise",
            Reserved::Range => b"range",
            Reserved::Record => b"record",
            Reserved::Rem => b"rem",
            Reserved::Renames => b"renames",
            Reserved::Requeue => b"requeue",
            Reserved::Return => b"return",
            Reserved::Reverse => b"reverse",
            Reserved::Select => b"select",
            Reserved::Separate => b"separate",
            Reserved::Some => b"some",
            Reserved::Subtype => b"subtype",
            Reserved::Synchronized => b"synchronized",
            Reserved::Tagged => b"tagged",
            Reserved::Task => b"task",
            Reserved::Terminate => b"terminate",
            Reserved::Then => b"then",
            Reserved::TypeWord => b"type",
            Reserved::Until => b"until",
            Reserved::Use => b"use",
            Reserved::When => b"when",
            Reserved::While => b"while",
            Reserved::With => b"with",
            Reserved::Xor => b"xor",
        }
    }

    /// Whether a word is this reserved one, in any case (2.3).
    pub fn is_spelt(self, word: &[u8]) -> bool
        ensures { result ≡ bytes_eq (map to_ascii_lowercase word.now) (word_letters self) }
    {
        word.eq_ignore_ascii_case(self.letters())
    }
}

fn first_of(entries: &[Reserved], spelling: &[u8]) -> Option<Reserved>
    ensures found { IfSome result
        (λ entry. word_letters entry ≡ map to_ascii_lowercase spelling.now) }
    ensures none { IfNone result
        ((k : ℕ) → k < length entries.now
        → word_letters (slice_index_or entries.now k Reserved.Abort)
        ≢ map to_ascii_lowercase spelling.now) }
{
    for entry in entries {
        if entry.is_spelt(spelling) {
            return Some(*entry);
        }
    }
    None
}

/// The reserved word that is spelt so, in any case; None where there is none.
pub fn reserved_word(spelling: &[u8]) -> Option<Reserved>
    ensures found { IfSome result
        (λ entry. word_letters entry ≡ map to_ascii_lowercase spelling.now) }
    ensures none { IfNone result
        ((entry : Reserved) → word_letters entry ≢ map to_ascii_lowercase spelling.now) }
{
    first_of(&ALL, spelling)
}

/// Whether the word is a reserved one, in any case (2.9).
pub fn is_reserved(word: &[u8]) -> bool
    ensures test { result ≡ is_reserved word.now }
    ensures any_case { result ≡ is_reserved (map to_ascii_lowercase word.now) }
{
    reserved_word(word).is_some()
}
