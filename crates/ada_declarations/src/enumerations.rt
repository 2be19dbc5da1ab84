//! Enumeration types and their literals (ISO/IEC 8652:2012, 3.5.1).
ghost use Rattle.std.specs.Prelude.{◌≡◌, map, position, IfOk, OnOk};
ghost use Rattle.std.specs.List.{position_from};
ghost use Rattle.std.specs.Str.{bytes_eq};
ghost use Rattle.ada_regions.specs.Words.{all_of};
ghost use Rattle.ada_regions.specs.Declaring.{text_of, newest_enumeration};
ghost use Rattle.ada_regions.specs.Declaring.{enumeration_subtype, enumeration_declared};
ghost use Rattle.ada_regions.specs.Declaring.{position_of_literal, literal_declared};

use crate::entering::{entered_here, number};
use ada_entities::copy;
use ada_regions::{AdaType, EntityKind, Names, Subtype};
use ada_tree::{Identifier, OneOrMore};
use ann_base::NoMemory;
use profile_image::{Constraint, EnumerationNo, ImageList, Text};
use std::alloc::Global;

/// The names of identifiers, each a text of its own.
fn texts_of(alloc: Global, names: &OneOrMore<Identifier>) -> Result<ImageList<Text>, NoMemory>
    ensures { IfOk result (λ texts. texts ≡ map text_of (all_of names.now)) }
{
    let mut texts = ImageList::new(alloc);
    texts.push(copy(alloc, names.first.text.as_slice())?)?;
    for name in names.others.as_slice() {
        texts.push(copy(alloc, name.text.as_slice())?)?;
    }
    Ok(texts)
}

/// The subtype of an enumeration type.
fn enumeration_subtype(
    enumeration: EnumerationNo,
    literals: &OneOrMore<Identifier>,
) -> Result<Subtype, NoMemory>
    ensures { IfOk result (λ subtype. subtype ≡ enumeration_subtype enumeration literals.now) }
{
    let high = number(literals.others.as_slice().len())?;
    Ok(Subtype {
        of_type: AdaType::Enumeration(enumeration),
        range: Constraint::Literal { low: 0, high },
    })
}

/// An enumeration type is declared; its literals are declared behind it.
#[tactic(auto, unfolding(ada_regions::specs::Declaring::enumeration_declared))]
pub fn enumeration_declared(
    alloc: Global,
    names: &mut Names<'_>,
    identifier: &Identifier,
    literals: &OneOrMore<Identifier>,
) -> Result<(), NoMemory>
    ensures { OnOk result (names.new ≡ enumeration_declared identifier.now literals.now names.old) }
{
    let enumeration = EnumerationNo(number(names.enumerations.len())?);
    let subtype = enumeration_subtype(enumeration, literals)?;
    let texts = texts_of(alloc, literals)?;
    names.enumerations.push_back(texts)?;
    let kind = EntityKind::Mark(Some(subtype));
    entered_here(alloc, names, identifier, kind, None)
}

/// Where the newest enumeration type stands.
fn newest(names: &Names<'_>) -> usize
    ensures { result ≡ (newest_enumeration names.now).0 }
{
    names.enumerations.len().saturating_sub(1)
}

/// The first place of a name among others.
fn first_place(texts: &[Text], name: &[u8]) -> Option<usize>
    ensures { result ≡ position_from (bytes_eq name.now) 0 texts.now }
{
    texts.iter().position(|text| name == text.as_slice())
}

/// Where a name stands among others.
#[tactic(auto, using(crate::proofs::Places::found_place))]
fn place_among(texts: &[Text], name: &[u8]) -> Option<usize>
    ensures { result ≡ position (bytes_eq name.now) texts.now }
{
    first_place(texts, name)
}

/// The position of a literal of the newest enumeration type.
#[tactic(auto, unfolding(ada_regions::specs::Declaring::position_of_literal))]
fn position_of_literal(names: &Names<'_>, name: &[u8]) -> usize
    ensures { result ≡ position_of_literal names.now name.now }
{
    match names.enumerations.get(newest(names)) {
        None => 0,
        Some(texts) => match place_among(texts.as_slice(), name) {
            None => 0,
            Some(place) => place,
        },
    }
}

/// A literal of the newest enumeration type is declared.
#[tactic(auto, unfolding(ada_regions::specs::Declaring::literal_declared))]
pub fn literal_declared(
    alloc: Global,
    names: &mut Names<'_>,
    identifier: &Identifier,
) -> Result<(), NoMemory>
    ensures { OnOk result (names.new ≡ literal_declared identifier.now names.old) }
{
    let enumeration = EnumerationNo(number(newest(names))?);
    let position = number(position_of_literal(names, identifier.text.as_slice()))?;
    let kind = EntityKind::Literal {
        enumeration,
        position,
    };
    entered_here(alloc, names, identifier, kind, None)
}
