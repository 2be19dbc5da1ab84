//! How far the token, the separators or the comment at the front of some bytes reach.
ghost use Rattle.std.specs.Prelude.{◌≡◌, ◌+◌, ◌-◌, ◌^◌, ◌<◌, ◌≤◌, ◌*◌, take, drop};
ghost use Rattle.std.specs.Prelude.{length, position, true, option_to_list, IfSome, IfOk};
ghost use Rattle.std.specs.Option.{SomeIff};
ghost use Rattle.std.specs.Result.{result_map_both};
ghost use Rattle.ada_lex.specs.declared.lexing.TheConstants.{MAX_SOURCE};
ghost use Rattle.ada_lex.specs.declared.scan.TheConstants.{MAX_WORD};
ghost use Rattle.ada_lex.specs.Shapes.{begins_with, goes_on, run_length, value_of, text_length};
ghost use Rattle.ada_lex.specs.Shapes.{is_no_text, is_delimiter, is_double_delimiter};
ghost use Rattle.ada_lex.specs.Shapes.{is_separator, delimiter_length, gap_length};
ghost use Rattle.ada_lex.specs.Reading.{behind, behind_all, spoils_number};
ghost use Rattle.ada_lex.specs.Reading.{fraction_length, fault_in_word, kind_of};
ghost use Rattle.ada_lex.specs.Reading.{word_at, number_at, text_at, token_at, piece_at};

use crate::tokens::{Kind, LexFault, Token};
use ann_base::Place;

/// What a run of bytes consists of.
#[derive(Clone, Copy)]
pub(crate) enum Run {
    /// Letters, digits and single underscores: the rest of a word.
    Letters,
    /// Digits and single underscores: the whole part of a number.
    Whole,
    /// Digits: the decimals of a number.
    Decimals,
    /// Whatever stands before the end of the line.
    Line,
}

/// Where one stands in a source.
#[derive(Clone, Copy)]
pub(crate) struct Spot {
    pub(crate) offset: u32,
    pub(crate) place: Place,
}

/// The most bytes of a word.
const MAX_WORD: usize = 80;

fn goes_on(run: Run, bytes: &[u8]) -> bool
    ensures { result ≡ goes_on run bytes.now }
{
    match (run, bytes) {
        (_, []) => false,
        (Run::Letters, [b'_', next, ..]) => next.is_ascii_alphanumeric(),
        (Run::Letters, [b, ..]) => b.is_ascii_alphanumeric(),
        (Run::Whole, [b'_', next, ..]) => next.is_ascii_digit(),
        (Run::Whole, [b, ..]) | (Run::Decimals, [b, ..]) => b.is_ascii_digit(),
        (Run::Line, [b, ..]) => *b != b'\n',
    }
}

/// The bytes from an offset on.
pub(crate) fn tail(bytes: &[u8], at: usize) -> &[u8]
    requires { at ≤ length bytes.now }
    ensures { result.now ≡ drop at bytes.now }
{
    bytes.split_at(at).1
}

/// The bytes before an offset.
pub(crate) fn front(bytes: &[u8], end: usize) -> &[u8]
    requires { end ≤ length bytes.now }
    ensures { result.now ≡ take end bytes.now }
{
    bytes.split_at(end).0
}

pub(crate) fn run_length(run: Run, bytes: &[u8]) -> usize
    ensures length { result ≡ run_length run bytes.now }
    ensures within { result ≤ length bytes.now }
{
    let mut n = 0;
    while n < bytes.len() && goes_on(run, tail(bytes, n)) {
        n += 1;
    }
    n
}

fn is_separator(b: u8) -> bool
    ensures { result ≡ is_separator b }
{
    matches!(b, b' ' | b'\t' | b'\x0C' | b'\r' | b'\n')
}

fn is_delimiter(b: u8) -> bool
    ensures { result ≡ is_delimiter b }
{
    matches!(b, b'&'..=b'/' | b':'..=b'>' | b'|')
}

fn is_double_delimiter(a: u8, b: u8) -> bool
    ensures { result ≡ is_double_delimiter a b }
{
    match (a, b) {
        (b'=', b'>') | (b'.', b'.') => true,
        (b':' | b'/' | b'>' | b'<', b'=') => true,
        _ => false,
    }
}

/// How many bytes of separators or of a comment stand at the front: a separator by itself, a
/// comment up to the end of its line, 0 where neither stands there (2.2, 2.7).
pub(crate) fn gap_length(bytes: &[u8]) -> usize
    ensures length { result ≡ gap_length bytes.now }
    ensures within { result ≤ length bytes.now }
{
    match bytes {
        [] => 0,
        [b, ..] if is_separator(*b) => 1,
        [b'-', b'-', ..] => run_length(Run::Line, bytes),
        _ => 0,
    }
}

fn delimiter_length(bytes: &[u8]) -> usize
    ensures length { result ≡ delimiter_length bytes.now }
    ensures within { result ≤ length bytes.now }
{
    match bytes {
        [a, b, ..] if is_double_delimiter(*a, *b) => 2,
        [a, ..] if is_delimiter(*a) => 1,
        _ => 0,
    }
}

/// The place so many bytes further on its line.
fn place_on(place: Place, n: usize) -> Place
    requires { place.column + n < 2 ^ 32 }
    ensures line { result.line ≡ place.line }
    ensures column { result.column ≡ place.column + n }
{
    Place {
        line: place.line,
        column: place.column + n as u32,
    }
}

fn fault_in_word(n: usize, rest: &[u8]) -> Option<usize>
    requires { n < 2 ^ 32 }
    ensures fault { result ≡ fault_in_word n rest.now }
    ensures small { IfSome result (λ k. k ≤ MAX_WORD) }
{
    match rest {
        _ if n > MAX_WORD => Some(MAX_WORD),
        [b'_', b'_', ..] => Some(MAX_WORD.min(n + 1)),
        [b'_', ..] => Some(MAX_WORD.min(n)),
        _ => None,
    }
}

#[tactic(auto, unfolding(crate::specs::Reading::word_at))]
fn word_at(place: Place, bytes: &[u8]) -> Result<usize, LexFault>
    requires short { length bytes.now ≤ MAX_SOURCE }
    requires column { place.column + length bytes.now ≤ MAX_SOURCE + 1 }
    ensures exact { result ≡ word_at place bytes.now }
    ensures within { IfOk result (λ n. n ≤ length bytes.now) }
{
    let n = run_length(Run::Letters, bytes);
    match fault_in_word(n, tail(bytes, n)) {
        None => Ok(n),
        Some(k) => Err(LexFault::BadByte(place_on(place, k))),
    }
}

fn fraction_length(bytes: &[u8]) -> usize
    ensures length { result ≡ fraction_length bytes.now }
    ensures within { result ≤ length bytes.now }
{
    match bytes {
        [b'.', next, ..] if next.is_ascii_digit() => 1 + run_length(Run::Decimals, tail(bytes, 1)),
        _ => 0,
    }
}

fn spoils_number(b: u8) -> bool
    ensures { result ≡ spoils_number b }
{
    b.is_ascii_alphabetic() || b == b'_' || b == b'#'
}

/// The value with one more digit, where it is below 2 to the power of 128.
fn with_digit(value: u128, digit: u8) -> Option<u128>
    ensures { SomeIff result (value * 10 + (digit - 48) < 2 ^ 128) (value * 10 + (digit - 48)) }
{
    match value.checked_mul(10) {
        None => None,
        Some(tens) => tens.checked_add(u128::from(digit.saturating_sub(b'0'))),
    }
}

/// The value of digits, underscores aside, where it is below 2 to the power of 128.
pub(crate) fn value_of(digits: &[u8]) -> Option<u128>
    ensures { SomeIff result (value_of digits.now < 2 ^ 128) (value_of digits.now) }
{
    let mut value: u128 = 0;
    for digit in digits {
        if *digit != b'_' {
            match with_digit(value, *digit) {
                None => return None,
                Some(more) => value = more,
            }
        }
    }
    Some(value)
}

fn spoils_front(bytes: &[u8]) -> bool
    ensures { result ≡ begins_with spoils_number bytes.now }
{
    match bytes {
        [] => false,
        [b, ..] => spoils_number(*b),
    }
}

#[tactic(auto, unfolding(crate::specs::Reading::number_at))]
fn number_at(place: Place, bytes: &[u8]) -> Result<usize, LexFault>
    requires { length bytes.now ≤ MAX_SOURCE }
    ensures exact { result ≡ number_at place bytes.now }
    ensures within { IfOk result (λ n. n ≤ length bytes.now) }
{
    let whole = run_length(Run::Whole, bytes);
    let n = whole + fraction_length(tail(bytes, whole));
    if spoils_front(tail(bytes, n)) || value_of(front(bytes, whole)).is_none() {
        Err(LexFault::BadNumber(place))
    } else {
        Ok(n)
    }
}

fn text_length(bytes: &[u8]) -> Option<usize>
    ensures length { result ≡ text_length bytes.now }
    ensures within { IfSome result (λ n. n ≤ length bytes.now) }
{
    let mut n = 0;
    while n < bytes.len() {
        let b = bytes[n];
        if b == b'"' {
            if n + 1 < bytes.len() && bytes[n + 1] == b'"' {
                n += 2;
            } else {
                return Some(n + 1);
            }
        } else if b == b'\n' {
            return None;
        } else {
            n += 1;
        }
    }
    None
}

/// The first byte that no text may hold.
fn first_bad(bytes: &[u8]) -> Option<usize>
    ensures bad { result ≡ position is_no_text bytes.now }
    ensures within { IfSome result (λ k. k < length bytes.now) }
{
    bytes.iter().position(|b| !(32 <= *b && *b <= 126))
}

#[tactic(auto, unfolding(crate::specs::Reading::text_at))]
fn text_at(place: Place, bytes: &[u8]) -> Result<usize, LexFault>
    requires some { 0 < length bytes.now }
    requires short { length bytes.now ≤ MAX_SOURCE }
    requires column { place.column + length bytes.now ≤ MAX_SOURCE + 1 }
    ensures exact { result ≡ text_at place bytes.now }
    ensures within { IfOk result (λ n. n ≤ length bytes.now) }
{
    match text_length(tail(bytes, 1)) {
        None => Err(LexFault::OpenString(place)),
        Some(n) => match first_bad(front(bytes, n + 1)) {
            None => Ok(n + 1),
            Some(k) => Err(LexFault::BadByte(place_on(place, k))),
        },
    }
}

/// The kind of the token that begins with this byte.
pub(crate) fn kind_of(b: u8) -> Kind
    ensures { result ≡ kind_of b }
{
    if b.is_ascii_alphabetic() {
        Kind::Word
    } else if b.is_ascii_digit() {
        Kind::Number
    } else if b == b'"' {
        Kind::Text
    } else {
        Kind::Delimiter
    }
}

/// How many bytes the token of this kind at the front has.
pub(crate) fn token_at(kind: Kind, place: Place, bytes: &[u8]) -> Result<usize, LexFault>
    requires some { 0 < length bytes.now }
    requires short { length bytes.now ≤ MAX_SOURCE }
    requires column { place.column + length bytes.now ≤ MAX_SOURCE + 1 }
    ensures exact { result ≡ token_at kind place bytes.now }
    ensures within { IfOk result (λ n. n ≤ length bytes.now) }
{
    match kind {
        Kind::Word => word_at(place, bytes),
        Kind::Number => number_at(place, bytes),
        Kind::Text => text_at(place, bytes),
        Kind::Delimiter => match delimiter_length(bytes) {
            0 => Err(LexFault::BadByte(place)),
            n => Ok(n),
        },
    }
}

/// What stands at the front: one token or none, and how many bytes it or the gap has.
#[tactic(auto, unfolding(crate::specs::Reading::piece_at))]
pub(crate) fn piece_at(spot: Spot, bytes: &[u8]) -> Result<(Option<Token>, usize), LexFault>
    requires some { 0 < length bytes.now }
    requires offset { spot.offset + length bytes.now ≤ MAX_SOURCE }
    requires column { spot.place.column ≤ spot.offset + 1 }
    ensures exact { result_map_both (λ p. (option_to_list p.0, p.1)) (λ fault. fault) result
        ≡ piece_at spot bytes.now }
    ensures nonempty { IfOk result (λ p. 0 < p.1) }
    ensures within { IfOk result (λ p. p.1 ≤ length bytes.now) }
{
    let gap = gap_length(bytes);
    if gap > 0 {
        return Ok((None, gap));
    }
    let kind = kind_of(bytes[0]);
    let n = token_at(kind, spot.place, bytes)?;
    let token = Token {
        kind,
        first: spot.offset,
        end: spot.offset + n as u32,
        place: spot.place,
    };
    Ok((Some(token), n))
}

impl Spot {
    fn behind_byte(self, b: u8) -> Spot
        requires offset { self.offset < MAX_SOURCE }
        requires line { self.place.line ≤ self.offset + 1 }
        requires column { self.place.column ≤ self.offset + 1 }
        ensures spot { result ≡ behind self b }
        ensures offset { result.offset ≡ self.offset + 1 }
        ensures line { result.place.line ≤ result.offset + 1 }
        ensures column { result.place.column ≤ result.offset + 1 }
    {
        let place = if b == b'\n' {
            Place {
                line: self.place.line + 1,
                column: 1,
            }
        } else {
            Place {
                line: self.place.line,
                column: self.place.column + 1,
            }
        };
        Spot {
            offset: self.offset + 1,
            place,
        }
    }

    /// The spot behind these bytes.
    pub(crate) fn behind(self, bytes: &[u8]) -> Spot
        requires offset { self.offset + length bytes.now ≤ MAX_SOURCE }
        requires line { self.place.line ≤ self.offset + 1 }
        requires column { self.place.column ≤ self.offset + 1 }
        ensures spot { result ≡ behind_all bytes.now self }
        ensures offset { result.offset ≡ self.offset + length bytes.now }
        ensures line { result.place.line ≤ result.offset + 1 }
        ensures column { result.place.column ≤ result.offset + 1 }
    {
        let mut spot = self;
        for b in bytes {
            spot = spot.behind_byte(*b);
        }
        spot
    }
}
