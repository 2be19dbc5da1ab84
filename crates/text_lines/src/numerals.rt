//! Numerals: whole numbers in plain decimal.
ghost use Rattle.std.specs.Prelude.{◌≡◌, ◌<◌, ◌≤◌, IsTrue, MatchOption, IfSome};
ghost use Rattle.std.specs.List.{list_all};
ghost use Rattle.std.specs.Char.{is_ascii_digit};
ghost use Rattle.text_lines.specs.Numerals.{is_numeral, numeral_value, number_in};

fn are_digits(word: &[u8]) -> bool
    ensures { result ≡ list_all is_ascii_digit word.now }
{
    word.iter().all(|byte| byte.is_ascii_digit())
}

/// Whether a word is digits without a leading zero, or the digit 0.
pub fn is_numeral(word: &[u8]) -> bool
    ensures { result ≡ is_numeral word.now }
{
    !word.is_empty() && are_digits(word) && (word[0] != b'0' || word.len() == 1)
}

/// The number of digits; none where it is above the most.
fn numeral_up_to(word: &[u8], most: u32) -> Option<u32>
    requires { IsTrue (list_all is_ascii_digit word.now) }
    ensures { MatchOption result (most < numeral_value word.now)
        (λ value. (value ≡ numeral_value word.now) × (value ≤ most)) }
{
    let mut value = 0;
    for digit in word {
        value = value * 10 + (*digit - b'0') as u64;
        if value > most as u64 {
            return None;
        }
    }
    Some(value as u32)
}

/// The number of a word, where it is a numeral of the range.
pub fn number_in(word: &[u8], low: u32, high: u32) -> Option<u32>
    ensures read { result ≡ number_in low high word.now }
    ensures range { IfSome result (λ number. (low ≤ number) × (number ≤ high)) }
{
    if !is_numeral(word) {
        return None;
    }
    let value = numeral_up_to(word, high)?;
    if low <= value { Some(value) } else { None }
}
