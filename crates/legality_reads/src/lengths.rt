//! The lengths of lines (ISO/IEC 8652:2012, 3.5, A.10.7; this profile's own).
ghost use Rattle.std.specs.Prelude.{◌≡◌};
ghost use Rattle.ada_regions.specs.Names.{denoted_by};
ghost use Rattle.ada_regions.specs.Subtypes.{mark_denoted};
ghost use Rattle.ada_regions.specs.Words.{and_then};
ghost use Rattle.ada_legality.specs.Reading.{short_length, longest, length_of_image};
ghost use Rattle.ada_legality.specs.Reading.{length_by_mark, image_length, both_lengths};
ghost use Rattle.ada_legality.specs.Reading.{length_if_joined, type_of_prefix};

use ada_entities::denoted_by;
use ada_legality::Known;
use ada_regions::{AdaType, Names, Subtype};
use ada_subtypes::mark_denoted;
use ada_tree::{AddingOperator, Attribute, Name};
use ann_base::NAME_BYTES;
use legality_types::discrete_if;
use profile_image::Text;

/// A length that is short enough for a line.
pub(crate) fn short_length(bytes: usize) -> Option<u32>
    ensures { result ≡ short_length bytes }
{
    if bytes <= NAME_BYTES {
        Some(bytes as u32)
    } else {
        None
    }
}

/// The length of the longest text.
#[tactic(auto, using(std::proofs::lemmas::List::drop_all), unfolding(ada_legality::specs::Reading::longest))]
fn longest(texts: &[Text]) -> usize
    ensures { result ≡ longest texts.now }
{
    let mut most = 0;
    let mut place = texts.len();
    while place > 0 {
        place -= 1;
        most = texts[place].as_slice().len().max(most);
    }
    most
}

/// The greatest length of an Image.
#[tactic(auto, unfolding(ada_legality::specs::Reading::length_of_image, ada_legality::specs::Reading::longest))]
fn length_of_image(names: &Names<'_>, t: AdaType) -> usize
    ensures { result ≡ length_of_image names.now t }
{
    match t {
        AdaType::Integer => 11,
        AdaType::Boolean => 5,
        AdaType::Enumeration(enumeration) => {
            match names.enumerations.get(enumeration.0 as usize) {
                None => 0,
                Some(literals) => longest(literals.as_slice()),
            }
        }
        _ => 0,
    }
}

/// The subtype that a name denotes, if it denotes one.
fn mark_named(known: &Known<'_, '_>, name: &Name) -> Option<Subtype>
    ensures { result
        ≡ and_then (denoted_by known.now.names name.now) (mark_denoted known.now.names) }
{
    let denoted = denoted_by(known.names.get(), name)?;
    mark_denoted(known.names.get(), denoted)
}

/// The greatest length of an Image, by the subtype's name.
#[tactic(auto, unfolding(ada_legality::specs::Reading::length_by_mark))]
fn length_by_mark(known: &Known<'_, '_>, name: &Name) -> usize
    ensures { result ≡ length_by_mark known.now name.now }
{
    match mark_named(known, name) {
        None => 0,
        Some(subtype) => length_of_image(known.names.get(), subtype.of_type),
    }
}

/// The length of an attribute that is an Image.
#[tactic(auto, unfolding(ada_legality::specs::Reading::image_length))]
pub fn image_length(known: &Known<'_, '_>, name: &Name, attribute: Attribute) -> Option<u32>
    ensures { result ≡ image_length known.now name.now attribute }
{
    match attribute {
        Attribute::Image => short_length(length_by_mark(known, name)),
        _ => None,
    }
}

/// Two lengths together.
#[tactic(auto, unfolding(ada_legality::specs::Reading::both_lengths))]
pub(crate) fn both_lengths(a: Option<u32>, b: Option<u32>) -> Option<u32>
    ensures { result ≡ both_lengths a b }
{
    let a = a?;
    let b = b?;
    short_length(a as usize + b as usize)
}

/// A length behind `&`.
pub(crate) fn length_if_joined(operator: AddingOperator, bytes: Option<u32>) -> Option<u32>
    ensures { result ≡ length_if_joined operator bytes }
{
    match operator {
        AddingOperator::Plus => None,
        AddingOperator::Minus => None,
        AddingOperator::Concatenation => bytes,
    }
}

/// The type of Image's argument.
#[tactic(auto, unfolding(ada_legality::specs::Reading::type_of_prefix))]
pub fn type_of_prefix(known: &Known<'_, '_>, name: &Name) -> Option<AdaType>
    ensures { result ≡ type_of_prefix known.now name.now }
{
    let subtype = mark_named(known, name)?;
    discrete_if(subtype.of_type)
}
