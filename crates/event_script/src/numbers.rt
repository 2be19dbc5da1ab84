//! The numbers of a line.
ghost use Rattle.std.specs.Prelude.{◌≡◌, ◌≤◌, IfSome, IfOk};
ghost use Rattle.event_script.specs.Numbers.{tick_in, number_of, negative_in, natural_in, value_in};
ghost use Rattle.event_script.specs.declared.faults.TheConstants.{LAST_TICK};
ghost use Rattle.profile_image.specs.declared.limits.TheConstants.{LAST_OUTSIDE_LINE};

use crate::faults::{LAST_TICK, ScriptFaultKind};
use profile_image::{INTEGER_LAST, LAST_OUTSIDE_LINE};
use text_lines::{is_numeral, number_in};

/// The greatest value of a port, which is the last Integer.
const MOST_VALUE: u32 = INTEGER_LAST as u32;

/// The tick that a word is.
pub fn tick_in(word: &[u8]) -> Option<u32>
    ensures read { result ≡ tick_in word.now }
    ensures limits { IfSome result (λ tick. tick ≤ LAST_TICK) }
{
    number_in(word, 0, LAST_TICK)
}

/// The number of an interrupt or of a port.
pub fn number_of(word: &[u8]) -> Result<u8, ScriptFaultKind>
    ensures read { result ≡ number_of word.now }
    ensures limits { IfOk result (λ number. number ≤ LAST_OUTSIDE_LINE) }
{
    if !is_numeral(word) {
        return Err(ScriptFaultKind::BadNumber);
    }
    let number = number_in(word, 0, LAST_OUTSIDE_LINE).ok_or(ScriptFaultKind::NoSuchLine)?;
    Ok(number as u8)
}

fn negative_in(digits: &[u8]) -> Option<i32>
    ensures { result ≡ negative_in digits.now }
{
    let value = number_in(digits, 1, MOST_VALUE + 1)?;
    Some((-(value as i64)) as i32)
}

fn natural_in(word: &[u8]) -> Option<i32>
    ensures { result ≡ natural_in word.now }
{
    let value = number_in(word, 0, MOST_VALUE)?;
    Some(value as i32)
}

/// The value of a port that a word is.
pub fn value_in(word: &[u8]) -> Option<i32>
    ensures { result ≡ value_in word.now }
{
    match word {
        [] => None,
        [first, digits @ ..] => {
            if *first == b'-' {
                negative_in(digits)
            } else {
                natural_in(word)
            }
        }
    }
}
