//! Library packages (ISO/IEC 8652:2012, 7.1, 7.2, 10.2): each has a number, the same for its
//! declaration and its body, from 1 on.
ghost use Rattle.std.specs.Prelude.{◌≡◌, IfOk};
ghost use Rattle.ada_image.specs.ImageOfUnits.{name_of_package, is_body_of, has_body};
ghost use Rattle.ada_image.specs.ImageOfUnits.{is_declaration, part_from, part_of};

use ada_tree::{Identifier, LibraryPackage, Package};
use ann_base::NoMemory;
use image_layout::added;

/// The name of a package.
fn name_of_package(unit: &Package) -> &Identifier
    ensures { result.now ≡ name_of_package unit.now }
{
    match unit {
        Package::Declaration(declaration) => &declaration.name,
        Package::Body(body) => &body.name,
    }
}

/// Whether it is the body of the package with this name.
fn is_body_of(name: &[u8], unit: &Package) -> bool
    ensures { result ≡ is_body_of name.now unit.now }
{
    match unit {
        Package::Declaration(_) => false,
        Package::Body(body) => body.name.text.as_slice() == name,
    }
}

/// Whether the package with this name has a body (7.2).
#[tactic(auto, unfolding(ada_image::specs::ImageOfUnits::has_body))]
pub fn has_body(packages: &[LibraryPackage], name: &[u8]) -> bool
    ensures { result ≡ has_body packages.now name.now }
{
    packages
        .iter()
        .any(|library| is_body_of(name, &library.package))
}

/// Whether it is the declaration of a package.
fn is_declaration(unit: &Package) -> bool
    ensures { result ≡ is_declaration unit.now }
{
    match unit {
        Package::Declaration(_) => true,
        Package::Body(_) => false,
    }
}

/// The part of the package with this name; 0 where no declaration has it.
#[tactic(auto, unfolding(ada_image::specs::ImageOfUnits::part_of, ada_image::specs::ImageOfUnits::part_from))]
pub fn part_of(packages: &[LibraryPackage], name: &[u8]) -> Result<u32, NoMemory>
    ensures { IfOk result (λ part. part ≡ part_of packages.now name.now) }
{
    let mut number = 1u32;
    for library in packages {
        if is_declaration(&library.package) {
            if name_of_package(&library.package).text.as_slice() == name {
                return Ok(number);
            }
            number = added(number, 1)?;
        }
    }
    Ok(0)
}
