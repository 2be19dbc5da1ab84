//! The actions of the declarations of library packages, and whether these make tasks (ISO/IEC
//! 8652:2012, 7.1, 7.2, 9.2, 10.2).
ghost use Rattle.std.specs.Prelude.{◌≡◌, ◌++◌, [], unwrap_or, IfOk};
ghost use Rattle.ada_image.specs.Made.{Made};
ghost use Rattle.ada_image.specs.ImageOfDeclarations.{declarations_put, make_tasks};
ghost use Rattle.ada_image.specs.ImageOfUnits.{declared_by_package, package_part};

use crate::packages::part_of;
use ada_image::{Lists, Within};
use ada_tree::{LibraryPackage, Package, PackageBody, PackageDeclaration};
use ann_base::NoMemory;
use image_objects::{declarations_put, make_tasks};
use profile_image::StatementNo;
use std::alloc::Global;

/// The actions of the private declarations of a package.
#[tactic(auto, unfolding(ada_image::specs::ImageOfDeclarations::declarations_put))]
fn private_declarations_put(
    alloc: Global,
    lists: &mut Lists,
    within: &Within<'_, '_>,
    part: u32,
    declaration: &PackageDeclaration,
    next: Option<StatementNo>,
) -> Result<Option<StatementNo>, NoMemory>
    ensures { Made (declarations_put within.now part (unwrap_or declaration.now.private []) next)
        lists.old lists.new result }
{
    match &declaration.private {
        None => Ok(next),
        Some(declarations) => {
            declarations_put(alloc, lists, within, part, declarations.as_slice(), next)
        }
    }
}

/// The actions of the declarations of a package.
#[tactic(auto, using(crate::proofs::Parts::declarations_behind))]
pub fn package_declarations_put(
    alloc: Global,
    lists: &mut Lists,
    within: &Within<'_, '_>,
    part: u32,
    declaration: &PackageDeclaration,
    next: Option<StatementNo>,
) -> Result<Option<StatementNo>, NoMemory>
    ensures { Made
        (declarations_put within.now part
        (declaration.now.declarations ++ unwrap_or declaration.now.private []) next) lists.old
        lists.new result }
{
    let behind = private_declarations_put(alloc, lists, within, part, declaration, next)?;
    declarations_put(
        alloc,
        lists,
        within,
        part,
        declaration.declarations.as_slice(),
        behind,
    )
}

/// Whether the private declarations of a package make tasks.
#[tactic(auto, unfolding(ada_image::specs::ImageOfDeclarations::make_tasks))]
fn private_makes_tasks(within: &Within<'_, '_>, declaration: &PackageDeclaration) -> bool
    ensures { result ≡ make_tasks within.now (unwrap_or declaration.now.private []) }
{
    match &declaration.private {
        None => false,
        Some(declarations) => make_tasks(within, declarations.as_slice()),
    }
}

/// Whether the declaration of a package makes tasks.
#[tactic(auto, using(crate::proofs::Parts::tasks_behind))]
pub fn declaration_makes_tasks(within: &Within<'_, '_>, declaration: &PackageDeclaration) -> bool
    ensures { result
        ≡ make_tasks within.now
        (declaration.now.declarations ++ unwrap_or declaration.now.private []) }
{
    make_tasks(within, declaration.declarations.as_slice())
        || private_makes_tasks(within, declaration)
}

/// Whether the declaration of the package with this name makes tasks.
#[tactic(auto, unfolding(ada_image::specs::ImageOfUnits::declared_by_package, ada_image::specs::ImageOfUnits::declares_package, ada_image::specs::ImageOfUnits::declarations_of_package, ada_image::specs::ImageOfDeclarations::make_tasks))]
fn declared_tasks(within: &Within<'_, '_>, packages: &[LibraryPackage], name: &[u8]) -> bool
    ensures { result ≡ make_tasks within.now (declared_by_package packages.now name.now) }
{
    for library in packages {
        if let Package::Declaration(declaration) = &library.package {
            if declaration.name.text.as_slice() == name {
                return declaration_makes_tasks(within, declaration);
            }
        }
    }
    false
}

/// The part whose tasks the body of a package activates.
#[tactic(auto, unfolding(ada_image::specs::ImageOfUnits::package_part))]
pub fn package_part(
    packages: &[LibraryPackage],
    within: &Within<'_, '_>,
    body: &PackageBody,
) -> Result<Option<u32>, NoMemory>
    ensures { IfOk result (λ part. part ≡ package_part packages.now within.now body.now) }
{
    let name = body.name.text.as_slice();
    let part = part_of(packages, name)?;
    let activates = make_tasks(within, body.declarations.as_slice())
        || declared_tasks(within, packages, name);
    Ok(activates.then_some(part))
}
