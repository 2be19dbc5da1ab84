//! Whole sources (ISO/IEC 8652:2012, 7.1, 7.2, 10.1, 10.2).
ghost use Rattle.std.specs.Prelude.{◌≡◌, unwrap_or, []};
ghost use Rattle.ada_image.specs.BuiltSequences.{declarations_built, sequence_built};
ghost use Rattle.ada_image.specs.BuiltUnits.{package_built, packages_built, unit_built};

use crate::bodies::declarations_built;
use crate::branches::sequence_if_built;
use crate::forms::SequenceHasForm;
use ada_regions::Names;
use ada_tree::{Declaration, LibraryPackage, Package, Sequence, Unit};
use sqlite_items::Items;

/// The declarations behind `private`, where it stands there.
fn private_built(private: &Option<Items<Declaration<Sequence>>>, names: &Names<'_>) -> bool
    ensures { result ≡ declarations_built sequence_built (unwrap_or private.now []) names.now }
{
    match private {
        None => true,
        Some(private) => declarations_built(private.as_slice(), names),
    }
}

/// A package's declaration or its body (7.1, 7.2).
#[tactic(auto, using(crate::proofs::DeclarationLists::declarations_joined))]
fn package_built(library_unit: &Package, names: &Names<'_>) -> bool
    ensures { result ≡ package_built library_unit.now names.now }
{
    match library_unit {
        Package::Declaration(declared) => {
            declarations_built(declared.declarations.as_slice(), names)
                && private_built(&declared.private, names)
        }
        Package::Body(body) => {
            declarations_built(body.declarations.as_slice(), names)
                && sequence_if_built(&body.sequence, names)
        }
    }
}

/// The packages of a source.
fn packages_built(packages: &[LibraryPackage], names: &Names<'_>) -> bool
    ensures { result ≡ packages_built packages.now names.now }
{
    packages
        .iter()
        .all(|library| package_built(&library.package, names))
}

/// Whether each expression, call, assignment and other part of a source has a form in an image,
/// given what its names denote.
pub fn unit_built(unit: &Unit, names: &Names<'_>) -> bool
    ensures { result ≡ unit_built unit.now names.now }
{
    packages_built(unit.packages.as_slice(), names) && unit.main.body.sequence.is_built(names)
}
