//! The declarations of what has cells (ISO/IEC 8652:2012, 3.3.1, 5.5).
ghost use Rattle.std.specs.Prelude.{◌≡◌, ◌++◌, OnOk};
ghost use Rattle.ada_regions.specs.Words.{and_then};
ghost use Rattle.ada_legality.specs.Attributes.{kind_of_identifier};
ghost use Rattle.ada_legality.specs.SimpleStatements.{number_of_kind, cells_noted};

use ada_legality::{Finding, Known};
use ada_regions::EntityKind;
use ada_tree::Identifier;
use ann_base::{NoMemory, Place};
use legality_entities::kind_of_identifier;
use legality_types::note;
use profile_image::DeclNo;
use world_tables::List;

/// The number of what has cells.
fn number_of_kind(kind: &EntityKind) -> Option<DeclNo>
    ensures { result ≡ number_of_kind kind.now }
{
    match kind {
        EntityKind::Object { declaration, .. } => Some(*declaration),
        EntityKind::LoopParameter(declaration) => Some(*declaration),
        _ => None,
    }
}

/// The number of what an identifier declares.
fn number_of_identifier(known: &Known<'_, '_>, name: &Identifier) -> Option<DeclNo>
    ensures { result ≡ and_then (kind_of_identifier known.now name.now) number_of_kind }
{
    let kind = kind_of_identifier(known, name)?;
    number_of_kind(kind)
}

/// The declaration of what has cells.
#[tactic(auto, unfolding(ada_legality::specs::SimpleStatements::cells_noted))]
pub fn cells_noted(
    found: &mut List<Finding>,
    known: &Known<'_, '_>,
    name: &Identifier,
    place: Place,
) -> Result<(), NoMemory>
    ensures { OnOk result (found.new ≡ found.old ++ cells_noted known.now name.now place) }
{
    match number_of_identifier(known, name) {
        None => Ok(()),
        Some(number) => note(
            found,
            Finding::Cells {
                number: number.0,
                place,
            },
        ),
    }
}
