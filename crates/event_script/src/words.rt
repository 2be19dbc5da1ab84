//! The words of a line.
ghost use Rattle.std.specs.Prelude.{◌≡◌, Some, None, MatchOption};
ghost use Rattle.text_lines.specs.Lines.{words_of};
ghost use Rattle.event_script.specs.Words.{keyword_of, keyword_of_second_version};
ghost use Rattle.event_script.specs.Words.{one_word, two_words};

use text_lines::next_word;

/// What the second word of a line says.
#[derive(Clone, Copy)]
pub enum Keyword {
    /// An interrupt comes.
    Interrupt,
    /// A port is set.
    Port,
    /// An interrupt comes again and again.
    Every,
    /// An interrupt is kept from here on.
    Mask,
    /// It is delivered again.
    Unmask,
}

fn keyword_of_second_version(word: &[u8]) -> Option<Keyword>
    ensures { result ≡ keyword_of_second_version word.now }
{
    if word == b"every".as_slice() {
        Some(Keyword::Every)
    } else if word == b"mask".as_slice() {
        Some(Keyword::Mask)
    } else if word == b"unmask".as_slice() {
        Some(Keyword::Unmask)
    } else {
        None
    }
}

/// The keyword that a word is, in a script of the second version or of the first.
pub fn keyword_of(is_second: bool, word: &[u8]) -> Option<Keyword>
    ensures { result ≡ keyword_of is_second word.now }
{
    if word == b"interrupt".as_slice() {
        Some(Keyword::Interrupt)
    } else if word == b"port".as_slice() {
        Some(Keyword::Port)
    } else if is_second {
        keyword_of_second_version(word)
    } else {
        None
    }
}

/// The word that a text is.
pub fn one_word(text: &[u8]) -> Option<&[u8]>
    ensures { MatchOption result (one_word (words_of text.now) ≡ None)
        (λ word. one_word (words_of text.now) ≡ Some word.now) }
{
    match next_word(text) {
        Some(_) => None,
        None => { if text.is_empty() { None } else { Some(text) } }
    }
}

/// The two words that a text is.
pub fn two_words(text: &[u8]) -> Option<(&[u8], &[u8])>
    ensures { MatchOption result (two_words (words_of text.now) ≡ None)
        (λ words. two_words (words_of text.now) ≡ Some (words.0.now, words.1.now)) }
{
    let (first, rest) = next_word(text)?;
    let second = one_word(rest)?;
    if first.is_empty() {
        None
    } else {
        Some((first, second))
    }
}
