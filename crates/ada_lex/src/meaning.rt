//! What the tokens of a source mean.
ghost use Rattle.std.specs.Prelude.{◌≡◌, ◌<◌, ◌^◌, ◌-◌, ◌↔◌, map, drop, IsTrue, IfOk};
ghost use Rattle.std.specs.Option.{SomeIff};
ghost use Rattle.std.specs.Char.{to_ascii_lowercase};
ghost use Rattle.ada_lex.specs.Meaning.{IsInside, spelling_of, whole_of, decimals_of, undoubled};

use crate::scan::{Run, front, run_length, tail, value_of};
use crate::tokens::Token;
use ann_base::NoMemory;
use std::alloc::Global;

/// The bytes of a token in its source.
pub fn spelling(source: &[u8], token: Token) -> &[u8]
    requires { IsInside source.now token }
    ensures { result.now ≡ spelling_of source.now token }
{
    &source[token.first as usize..token.end as usize]
}

/// Whether two words are the same, in any case (2.3).
pub fn same_word(a: &[u8], b: &[u8]) -> bool
    ensures { IsTrue result ↔ (map to_ascii_lowercase a.now ≡ map to_ascii_lowercase b.now) }
{
    a.eq_ignore_ascii_case(b)
}

/// The word in lower case.
pub fn lower_case(alloc: Global, word: &[u8]) -> Result<Vec<u8>, NoMemory>
    ensures { IfOk result (λ v. v.items ≡ map to_ascii_lowercase word.now) }
{
    Ok(word.iter().map(|b| b.to_ascii_lowercase()).collect(alloc)?)
}

/// The value of a number's whole part; None where it is 2 to the power of 128 or more, which no
/// token's is.
pub fn whole_value(number: &[u8]) -> Option<u128>
    ensures { SomeIff result (whole_of number.now < 2 ^ 128) (whole_of number.now) }
{
    value_of(front(number, run_length(Run::Whole, number)))
}

/// The digits behind a number's point; none where it has no point.
pub fn decimals(number: &[u8]) -> &[u8]
    ensures { result.now ≡ decimals_of number.now }
{
    let whole = run_length(Run::Whole, number);
    if whole < number.len() {
        tail(number, whole + 1)
    } else {
        tail(number, whole)
    }
}

/// The value of a text: its bytes between the quotation marks, a doubled mark as one (2.6).
pub fn text_value(alloc: Global, text: &[u8]) -> Result<Vec<u8>, NoMemory>
    ensures { IfOk result (λ v. v.items ≡ undoubled (drop 1 text.now)) }
{
    let mut value = Vec::new(alloc);
    let mut n = 1;
    while n + 1 < text.len() {
        let b = text[n];
        value.push(b)?;
        if b == b'"' {
            n += 2;
        } else {
            n += 1;
        }
    }
    Ok(value)
}
