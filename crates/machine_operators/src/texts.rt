//! 'Image of a value (ISO/IEC 8652:2012, 3.5).
ghost use Rattle.std.specs.Prelude.{◌≡◌, [], IfOk, slice_index_or};
ghost use Rattle.profile_machine.specs.Operators.{text_of_whole, text_of_truth, text_of_literal};

use ann_base::NoMemory;
use itoa::Buffer;
use profile_image::{Text, Value};
use std::alloc::Global;

/// The digits of an Integer; one that is not negative begins with a space.
pub fn text_of_whole(alloc: Global, value: Value) -> Result<Vec<u8>, NoMemory>
    ensures { IfOk result (λ text. text.items ≡ text_of_whole value) }
{
    let mut text = Vec::new(alloc);
    if let Value::Whole(n) = value {
        let mut buffer = Buffer::new();
        text.push(if n < 0 { b'-' } else { b' ' })?;
        text.extend_from_slice(buffer.format(n.unsigned_abs()).as_bytes())?;
    }
    Ok(text)
}

/// A Boolean in capital letters.
pub fn text_of_truth(value: Value) -> &'static [u8]
    ensures { result.now ≡ text_of_truth value }
{
    match value {
        Value::Truth(true) => b"TRUE",
        Value::Truth(false) => b"FALSE",
        _ => b"",
    }
}

/// A literal of an enumeration type in capital letters.
pub fn text_of_literal(literals: &[Text], value: Value) -> &[u8]
    ensures { result.now ≡ text_of_literal literals.now value }
{
    match value {
        Value::Literal(n) => literal_at(literals, n),
        _ => &[],
    }
}

fn literal_at(literals: &[Text], place: u32) -> &[u8]
    ensures { result.now ≡ slice_index_or literals.now place [] }
{
    match literals.get(place as usize) {
        Some(text) => text.as_slice(),
        None => &[],
    }
}
