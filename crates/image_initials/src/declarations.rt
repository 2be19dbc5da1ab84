//! The declarations of the image, by number (ISO/IEC 8652:2012, 3.1).
ghost use Rattle.std.specs.Prelude.{◌≡◌, [], IfOk, option_copied, take};
ghost use Rattle.ada_image.specs.ImageOfUnits.{declaration_made};
ghost use Rattle.ada_image.specs.ImageOfUnits.{declarations_made, numbered_object};
ghost use Rattle.ada_image.specs.Made.{Made};

use crate::initial_values::initial_made;
use crate::kinds::{kind_of_sort, range_of_sort};
use ada_entities::copy;
use ada_image::{Lists, Within};
use ada_regions::{Names, NumberedDeclaration};
use ada_tree::Expression;
use ann_base::NoMemory;
use image_layout::{cells_of_declaration, index_range};
use image_scopes::{place_behind, scope_no};
use profile_image::{Declaration, ImageList, Initial};
use std::alloc::Global;

/// A declaration of the image with its initial value, where so many stand before it in the table.
#[tactic(auto, unfolding(ada_image::specs::ImageOfUnits::numbered_object))]
fn numbered_object(
    alloc: Global,
    names: &Names<'_>,
    before: usize,
    declaration: &NumberedDeclaration<'_>,
    initial: Initial,
) -> Result<Declaration, NoMemory>
    ensures { IfOk result
        (λ made.
        made
        ≡ numbered_object names.now (take before names.now.declarations) declaration.now initial) }
{
    Ok(Declaration {
        name: copy(alloc, declaration.name.as_slice())?,
        expanded: copy(alloc, declaration.expanded.as_slice())?,
        kind: kind_of_sort(
            declaration.sort,
            declaration.subtype,
            declaration.task,
            initial,
        ),
        scope: scope_no(declaration.scope),
        place: place_behind(names, before, declaration)?,
        cells: cells_of_declaration(names, declaration)?,
        constraint: range_of_sort(names, declaration.sort, declaration.subtype),
        index: index_range(names, declaration.subtype),
    })
}

/// The initial value in the text, if there is one.
fn initial_of<'d>(declaration: &'d NumberedDeclaration<'_>) -> Option<&'d Expression>
    ensures { option_copied result ≡ declaration.now.initial }
{
    let initial = declaration.initial.as_ref()?;
    Some(initial.get())
}

/// A declaration is made: its initial value, and what it is.
#[tactic(auto, unfolding(ada_image::specs::ImageOfUnits::declaration_made))]
fn declaration_made(
    alloc: Global,
    lists: &mut Lists,
    within: &Within<'_, '_>,
    before: usize,
    declaration: &NumberedDeclaration<'_>,
) -> Result<Declaration, NoMemory>
    ensures { Made
        (declaration_made within.now (take before within.now.names.declarations) declaration.now)
        lists.old lists.new result }
{
    let initial = initial_made(lists, within, declaration.subtype, initial_of(declaration))?;
    numbered_object(alloc, within.names.get(), before, declaration, initial)
}

/// All declarations are made, in the order of the text.
#[tactic(auto, unfolding(ada_image::specs::ImageOfUnits::declarations_made))]
pub fn declarations_made(
    alloc: Global,
    lists: &mut Lists,
    within: &Within<'_, '_>,
) -> Result<ImageList<Declaration>, NoMemory>
    ensures { Made (declarations_made within.now [] within.now.names.declarations) lists.old
        lists.new result }
{
    let names = within.names.get();
    let mut made = ImageList::new(alloc);
    let mut before = 0;
    for declaration in names.declarations.iter() {
        let one = declaration_made(alloc, lists, within, before, declaration)?;
        made.push(one)?;
        before += 1;
    }
    Ok(made)
}
