//! The elaboration of library units (ISO/IEC 8652:2012, 10.2): each leads to that of the later
//! units.
ghost use Rattle.std.specs.Prelude.{◌++◌, [], unwrap_or};
ghost use Rattle.ada_image.specs.Made.{Made};
ghost use Rattle.ada_image.specs.ImageOfDeclarations.{sequence_put, inner_bodies_put};
ghost use Rattle.ada_image.specs.ImageOfUnits.{package_declaration_put};
ghost use Rattle.ada_image.specs.ImageOfUnits.{package_statements_put, package_body_put};
ghost use Rattle.ada_image.specs.ImageOfUnits.{package_put, packages_put, actions_made};

use ada_image::{Lists, SequencePlace, Within};
use ada_tree::{LibraryPackage, Package, PackageBody, PackageDeclaration, Sequence, Unit};
use ann_base::NoMemory;
use image_bodies::{body_put, inner_bodies_put};
use image_compounds::MakeSequence;
use image_layout::{action_put, first_put};
use image_library::{
    declaration_makes_tasks, has_body, package_declarations_put, package_part, part_of,
};
use image_objects::{activation_put, declarations_put};
use profile_image::{StatementForm, StatementNo};
use std::alloc::Global;

/// The bodies among the private declarations of a package; none where `private` does not stand
/// there.
#[tactic(auto, unfolding(ada_image::specs::ImageOfDeclarations::inner_bodies_put))]
fn private_bodies_put(
    alloc: Global,
    lists: &mut Lists,
    within: &Within<'_, '_>,
    declaration: &PackageDeclaration,
) -> Result<(), NoMemory>
    ensures { Made
        (inner_bodies_put sequence_put within.now (unwrap_or declaration.now.private []))
        lists.old lists.new result }
{
    match &declaration.private {
        None => Ok(()),
        Some(declarations) => inner_bodies_put(alloc, lists, within, declarations.as_slice()),
    }
}

/// The bodies in the declaration of a package.
#[tactic(auto, using(crate::proofs::Parts::bodies_behind))]
fn package_bodies_put(
    alloc: Global,
    lists: &mut Lists,
    within: &Within<'_, '_>,
    declaration: &PackageDeclaration,
) -> Result<(), NoMemory>
    ensures { Made
        (inner_bodies_put sequence_put within.now
        (declaration.now.declarations ++ unwrap_or declaration.now.private [])) lists.old
        lists.new result }
{
    inner_bodies_put(alloc, lists, within, declaration.declarations.as_slice())?;
    private_bodies_put(alloc, lists, within, declaration)
}

/// The declaration of a package (7.1). Where it has a body, its tasks are activated there.
#[tactic(auto, unfolding(ada_image::specs::ImageOfUnits::package_declaration_put))]
fn package_declaration_put(
    alloc: Global,
    lists: &mut Lists,
    packages: &[LibraryPackage],
    within: &Within<'_, '_>,
    declaration: &PackageDeclaration,
    next: Option<StatementNo>,
) -> Result<Option<StatementNo>, NoMemory>
    ensures { Made (package_declaration_put packages.now within.now declaration.now next)
        lists.old lists.new result }
{
    let name = declaration.name.text.as_slice();
    let part = part_of(packages, name)?;
    let activates = !has_body(packages, name) && declaration_makes_tasks(within, declaration);
    package_bodies_put(alloc, lists, within, declaration)?;
    let first = activation_put(lists, activates.then_some(part), next)?;
    package_declarations_put(alloc, lists, within, part, declaration, first)
}

/// The statements of the body of a package, or the activation of its tasks alone.
#[tactic(auto, unfolding(ada_image::specs::ImageOfUnits::package_statements_put))]
fn package_statements_put(
    alloc: Global,
    lists: &mut Lists,
    within: &Within<'_, '_>,
    part: Option<u32>,
    sequence: &Option<Sequence>,
    next: Option<StatementNo>,
) -> Result<Option<StatementNo>, NoMemory>
    ensures { Made (package_statements_put within.now part sequence.now next) lists.old lists.new
        result }
{
    match sequence {
        None => activation_put(lists, part, next),
        Some(sequence) => {
            let place = SequencePlace::BehindDeclarations(part);
            sequence.sequence_put(alloc, lists, place, within, next)
        }
    }
}

/// The body of a package (7.2).
#[tactic(auto, unfolding(ada_image::specs::ImageOfUnits::package_body_put))]
fn package_body_put(
    alloc: Global,
    lists: &mut Lists,
    packages: &[LibraryPackage],
    within: &Within<'_, '_>,
    body: &PackageBody,
    next: Option<StatementNo>,
) -> Result<Option<StatementNo>, NoMemory>
    ensures { Made (package_body_put packages.now within.now body.now next) lists.old lists.new
        result }
{
    let part = part_of(packages, body.name.text.as_slice())?;
    let activated = package_part(packages, within, body)?;
    let declarations = body.declarations.as_slice();
    inner_bodies_put(alloc, lists, within, declarations)?;
    let sequence = &body.sequence;
    let first = package_statements_put(alloc, lists, within, activated, sequence, next)?;
    declarations_put(alloc, lists, within, part, declarations, first)
}

/// A package (7.1, 7.2).
#[tactic(auto, unfolding(ada_image::specs::ImageOfUnits::package_put))]
fn package_put(
    alloc: Global,
    lists: &mut Lists,
    packages: &[LibraryPackage],
    within: &Within<'_, '_>,
    unit: &Package,
    next: Option<StatementNo>,
) -> Result<Option<StatementNo>, NoMemory>
    ensures { Made (package_put packages.now within.now unit.now next) lists.old lists.new result }
{
    match unit {
        Package::Declaration(declaration) => {
            package_declaration_put(alloc, lists, packages, within, declaration, next)
        }
        Package::Body(body) => package_body_put(alloc, lists, packages, within, body, next),
    }
}

/// The packages of a source, each leading to the next (10.2).
#[tactic(auto, using(std::proofs::lemmas::List::drop_all, image_layout::proofs::Drops::one_before), unfolding(ada_image::specs::ImageOfUnits::packages_put))]
fn packages_put(
    alloc: Global,
    lists: &mut Lists,
    within: &Within<'_, '_>,
    packages: &[LibraryPackage],
    next: Option<StatementNo>,
) -> Result<Option<StatementNo>, NoMemory>
    ensures { Made (packages_put packages.now within.now packages.now next) lists.old lists.new
        result }
{
    let mut later = next;
    let mut place = packages.len();
    while place > 0 {
        place -= 1;
        later = package_put(
            alloc,
            lists,
            packages,
            within,
            &packages[place].package,
            later,
        )?;
    }
    Ok(later)
}

/// All actions: the call of the main procedure, that procedure, and the packages (10.2).
#[tactic(auto, unfolding(ada_image::specs::ImageOfUnits::actions_made))]
pub(crate) fn actions_made(
    alloc: Global,
    lists: &mut Lists,
    unit: &Unit,
    within: &Within<'_, '_>,
) -> Result<(), NoMemory>
    ensures { Made (actions_made unit.now within.now) lists.old lists.new result }
{
    let call = action_put(lists, StatementForm::CallMain, 0, None)?;
    let main = &unit.main;
    body_put(
        alloc,
        lists,
        within,
        main.place,
        None,
        false,
        &main.body.sequence,
    )?;
    let first = packages_put(alloc, lists, within, unit.packages.as_slice(), call)?;
    first_put(lists, 0, first)
}
