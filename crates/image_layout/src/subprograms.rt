//! Formal parameters and enumeration types of the image (ISO/IEC 8652:2012, 3.5.1, 6.1).
ghost use Rattle.std.specs.Prelude.{◌≡◌, IfOk, map};
ghost use Rattle.std.specs.Char.{to_ascii_uppercase};
ghost use Rattle.ada_image.specs.Layout.{enumeration_made, formal_made};

use crate::first_values::first_value;
use crate::subtypes::{range_of_cells, subtype_is_thing};
use ada_regions::{Formal, Names};
use ann_base::NoMemory;
use profile_image::{Constraint, Enumeration, Formal as FormalCell, ImageList, Text, Value};
use std::alloc::Global;

/// The cell of a formal parameter.
#[tactic(auto, unfolding(ada_image::specs::Layout::formal_made))]
pub fn formal_made(names: &Names<'_>, formal: &Formal) -> FormalCell
    ensures { result ≡ formal_made names.now formal.now }
{
    if subtype_is_thing(formal.subtype) {
        FormalCell {
            constraint: Constraint::Free,
            initial: Value::Whole(0),
        }
    } else {
        FormalCell {
            constraint: range_of_cells(names, formal.subtype),
            initial: first_value(names, formal.subtype),
        }
    }
}

/// The cells of formal parameters.
pub fn formals_made(
    alloc: Global,
    names: &Names<'_>,
    formals: &[Formal],
) -> Result<ImageList<FormalCell>, NoMemory>
    ensures { IfOk result (λ made. made ≡ map (formal_made names.now) formals.now) }
{
    let mut made = ImageList::new(alloc);
    for formal in formals {
        made.push(formal_made(names, formal))?;
    }
    Ok(made)
}

/// Letters in upper case, as 'Image gives them (3.5).
fn upper(alloc: Global, text: &[u8]) -> Result<Text, NoMemory>
    ensures { IfOk result (λ upper. upper ≡ map to_ascii_uppercase text.now) }
{
    let mut upper = ImageList::new(alloc);
    for byte in text {
        upper.push(byte.to_ascii_uppercase())?;
    }
    Ok(upper)
}

fn all_upper(alloc: Global, literals: &[Text]) -> Result<ImageList<Text>, NoMemory>
    ensures { IfOk result (λ made. made ≡ map (map to_ascii_uppercase) literals.now) }
{
    let mut made = ImageList::new(alloc);
    for literal in literals {
        made.push(upper(alloc, literal.as_slice())?)?;
    }
    Ok(made)
}

/// An enumeration type of the image (3.5.1).
#[tactic(auto, unfolding(ada_image::specs::Layout::enumeration_made))]
fn enumeration_made(alloc: Global, literals: &[Text]) -> Result<Enumeration, NoMemory>
    ensures { IfOk result (λ made. made ≡ enumeration_made literals.now) }
{
    Ok(Enumeration {
        literals: all_upper(alloc, literals)?,
    })
}

/// All enumeration types of the image.
pub fn enumerations_made(
    alloc: Global,
    names: &Names<'_>,
) -> Result<ImageList<Enumeration>, NoMemory>
    ensures { IfOk result (λ made. made ≡ map enumeration_made names.now.enumerations) }
{
    let mut made = ImageList::new(alloc);
    for literals in names.enumerations.iter() {
        made.push(enumeration_made(alloc, literals.as_slice())?)?;
    }
    Ok(made)
}
