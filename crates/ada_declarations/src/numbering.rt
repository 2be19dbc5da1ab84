//! The numbers that declarations have in the image.
ghost use Rattle.std.specs.Prelude.{◌≡◌, None, IfOk, OnOk};
ghost use Rattle.ada_regions.specs.Declaring.{next_declaration, numbered_declaration};
ghost use Rattle.ada_regions.specs.Declaring.{numbered, with_region};

use crate::entering::number;
use ada_entities::{copy, expanded};
use ada_regions::{ExpressionOf, Names, NumberedDeclaration, Sort, Subtype};
use ada_tree::{Expression, Identifier};
use ann_base::NoMemory;
use profile_image::DeclNo;
use std::alloc::Global;

/// The number of the next declaration.
pub(crate) fn next_declaration(names: &Names<'_>) -> Result<DeclNo, NoMemory>
    ensures { IfOk result (λ number. number ≡ next_declaration names.now) }
{
    Ok(DeclNo(number(names.declarations.len())?))
}

/// An initial value that is there.
pub(crate) fn initial_of<'t>(initial: &'t Option<Expression>) -> Option<ExpressionOf<'t>>
    ensures { result ≡ initial.now }
{
    let expression = initial.as_ref()?;
    Some(ExpressionOf::new(expression))
}

/// A declaration of the image without an initial value.
pub(crate) fn numbered_declaration<'t>(
    alloc: Global,
    names: &Names<'t>,
    identifier: &Identifier,
    sort: Sort,
    scope: u32,
    subtype: Option<Subtype>,
) -> Result<NumberedDeclaration<'t>, NoMemory>
    ensures { IfOk result
        (λ declaration.
        declaration ≡ numbered_declaration names.now identifier.now sort scope subtype None) }
{
    let name = copy(alloc, identifier.text.as_slice())?;
    let expanded = expanded(alloc, &names.frames, identifier.text.as_slice())?;
    Ok(NumberedDeclaration {
        name,
        expanded,
        sort,
        scope,
        subtype,
        initial: None,
        task: None,
    })
}

/// A declaration without an initial value gets the next number.
#[tactic(auto, unfolding(ada_regions::specs::Declaring::numbered))]
pub(crate) fn numbered(
    alloc: Global,
    names: &mut Names<'_>,
    identifier: &Identifier,
    sort: Sort,
    scope: u32,
    subtype: Option<Subtype>,
) -> Result<(), NoMemory>
    ensures { OnOk result (names.new ≡ numbered identifier.now sort scope subtype None names.old) }
{
    let declaration = numbered_declaration(alloc, names, identifier, sort, scope, subtype)?;
    names.declarations.push_back(declaration)?;
    Ok(())
}

/// A region gets the next number, and is opened later.
pub fn with_region(names: &mut Names<'_>) -> Result<(), NoMemory>
    ensures { OnOk result (names.new ≡ with_region names.old) }
{
    let next = names.regions.checked_add(1).ok_or(NoMemory)?;
    names.regions = next;
    Ok(())
}
