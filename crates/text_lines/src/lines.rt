//! The lines of a text, and the words of a line.
ghost use Rattle.std.specs.Prelude.{◌≡◌, ◌<◌, ◌≤◌, ◌+◌, ◌∷◌, ◌==◌, []};
ghost use Rattle.std.specs.Prelude.{drop, length, MatchOption, position};
ghost use Rattle.std.specs.Str.Lines.{strip_carriage_return};
ghost use Rattle.text_lines.specs.Lines.{IsLineAt, words_of};

/// A line of a text: its number, its text without its end, and the offset behind its end.
#[derive(Clone, Copy)]
pub struct TextLine<'a> {
    pub number: u32,
    pub text: &'a [u8],
    pub stop: usize,
}

/// The place of the first such byte.
fn place_of(bytes: &[u8], mark: u8) -> Option<usize>
    ensures { result ≡ position (λ byte. byte == mark) bytes.now }
{
    bytes.iter().position(|byte| *byte == mark)
}

/// The text without a carriage return at its end.
fn without_carriage_return(text: &[u8]) -> &[u8]
    ensures { result.now ≡ strip_carriage_return text.now }
{
    match text {
        [front @ .., b'\r'] => front,
        _ => text,
    }
}

/// The bytes from an offset on.
fn rest_from(bytes: &[u8], start: usize) -> &[u8]
    requires { start ≤ length bytes.now }
    ensures { result.now ≡ drop start bytes.now }
{
    &bytes[start..]
}

/// The line of this number, which begins at this offset.
pub fn line_at(bytes: &[u8], number: u32, start: usize) -> TextLine<'_>
    requires { start < length bytes.now }
    ensures number { result.number ≡ number }
    ensures stop { (start < result.stop) × (result.stop ≤ length bytes.now) }
    ensures line { IsLineAt bytes.now number start result.stop result.text.now }
{
    let rest = rest_from(bytes, start);
    match place_of(rest, b'\n') {
        None => TextLine {
            number,
            text: rest,
            stop: bytes.len(),
        },
        Some(place) => TextLine {
            number,
            text: without_carriage_return(&rest[..place]),
            stop: start + place + 1,
        },
    }
}

/// The word before the first space, and what stands behind it; none where there is no space.
pub fn next_word(text: &[u8]) -> Option<(&[u8], &[u8])>
    ensures { MatchOption result (words_of text.now ≡ text.now ∷ [])
        (λ cut. words_of text.now ≡ cut.0.now ∷ words_of cut.1.now) }
{
    let place = place_of(text, b' ')?;
    Some((&text[..place], rest_from(text, place + 1)))
}
