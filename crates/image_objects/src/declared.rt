//! What a defining name declares (ISO/IEC 8652:2012, 3.1).
ghost use Rattle.std.specs.Prelude.{◌≡◌, option_copied};
ghost use Rattle.ada_regions.specs.TypeKinds.{is_task_type, is_controlled_type};
ghost use Rattle.ada_image.specs.Layout.{subtype_is};
ghost use Rattle.ada_image.specs.ImageOfDeclarations.{kind_declared, number_declared};
ghost use Rattle.ada_image.specs.ImageOfDeclarations.{subtype_declared_as, subprogram_of_kind};
ghost use Rattle.ada_image.specs.ImageOfDeclarations.{subprogram_declared_as};

use ada_entities::{entity_denoted, kind_at};
use ada_image::Within;
use ada_regions::{EntityKind, Subtype, is_controlled_type, is_task_type, subtype_of_kind};
use ada_tree::Identifier;
use image_names::object_number;
use profile_image::{DeclNo, SubprogramNo};

#[tactic(auto, unfolding(ada_image::specs::ImageOfDeclarations::kind_declared))]
fn kind_declared<'n>(within: &Within<'n, '_>, identifier: &Identifier) -> Option<&'n EntityKind>
    ensures { option_copied result ≡ kind_declared within.now identifier.now }
{
    let entity = entity_denoted(within.names.get(), identifier.place)?;
    kind_at(within.names.get(), entity)
}

/// The number of the object that a name declares.
#[tactic(auto, unfolding(ada_image::specs::ImageOfDeclarations::number_declared))]
pub(crate) fn number_declared(within: &Within<'_, '_>, identifier: &Identifier) -> DeclNo
    ensures { result ≡ number_declared within.now identifier.now }
{
    match kind_declared(within, identifier) {
        None => DeclNo(0),
        Some(kind) => object_number(kind).unwrap_or(DeclNo(0)),
    }
}

/// The subtype of what a name declares, if it has one.
#[tactic(auto, unfolding(ada_image::specs::ImageOfDeclarations::subtype_declared_as))]
pub(crate) fn subtype_declared_as(
    within: &Within<'_, '_>,
    identifier: &Identifier,
) -> Option<Subtype>
    ensures { result ≡ subtype_declared_as within.now identifier.now }
{
    let kind = kind_declared(within, identifier)?;
    subtype_of_kind(kind)
}

/// Whether objects of a subtype are tasks (9.1).
pub(crate) fn has_task_type(subtype: Option<Subtype>) -> bool
    ensures { result ≡ subtype_is is_task_type subtype }
{
    match subtype {
        None => false,
        Some(subtype) => is_task_type(subtype.of_type),
    }
}

/// Whether objects of a subtype are controlled (7.6).
pub(crate) fn has_controlled_type(subtype: Option<Subtype>) -> bool
    ensures { result ≡ subtype_is is_controlled_type subtype }
{
    match subtype {
        None => false,
        Some(subtype) => is_controlled_type(subtype.of_type),
    }
}

fn subprogram_of_kind(kind: &EntityKind) -> Option<SubprogramNo>
    ensures { result ≡ subprogram_of_kind kind.now }
{
    match kind {
        EntityKind::Subprogram { number, .. } => Some(*number),
        _ => None,
    }
}

/// The subprogram that a name declares.
#[tactic(auto, unfolding(ada_image::specs::ImageOfDeclarations::subprogram_declared_as))]
pub fn subprogram_declared_as(
    within: &Within<'_, '_>,
    identifier: &Identifier,
) -> Option<SubprogramNo>
    ensures { result ≡ subprogram_declared_as within.now identifier.now }
{
    let kind = kind_declared(within, identifier)?;
    subprogram_of_kind(kind)
}
