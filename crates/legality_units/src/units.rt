//! Units that may be used (ISO/IEC 8652:2012, 10.1.2, 10.1.6): under a with clause for them, or for
//! one that stands in them.
ghost use Rattle.std.specs.Prelude.{◌≡◌};
ghost use Rattle.std.specs.List.{list_any};
ghost use Rattle.ada_regions.specs.declared.entities.Denoted.TheVariants as denotes;
ghost use Rattle.ada_regions.specs.SelectedNames.{frame_owned_by};
ghost use Rattle.ada_regions.specs.Visibility.{same_denoted};
ghost use Rattle.ada_legality.specs.UnitsUsed.{is_usable_unit};

use ada_predefined::same_unit;
use ada_regions::{Denoted, Frame, Names, PredefinedUnit};
use ada_visibility::is_withed;
use world_tables::List;

/// Whether a with clause names the entity.
#[tactic(auto, unfolding(ada_regions::specs::Visibility::same_denoted))]
fn is_entity_of(entity: u32, clause: Denoted) -> bool
    ensures { result ≡ same_denoted (denotes.Entity entity) clause }
{
    match clause {
        Denoted::Entity(other) => entity == other,
        Denoted::Unit(_) => false,
        Denoted::Item { .. } => false,
    }
}

/// Whether a package is under one of these with clauses.
fn is_entity_withed(withs: &List<Denoted>, entity: u32) -> bool
    ensures { result ≡ list_any (same_denoted (denotes.Entity entity)) withs.now }
{
    withs.iter().any(|clause| is_entity_of(entity, *clause))
}

/// Whether a region is that of the entity.
fn frame_owned_by(entity: u32, frame: &Frame) -> bool
    ensures { result ≡ frame_owned_by entity frame.now }
{
    match frame.owner {
        None => false,
        Some(owner) => owner == entity,
    }
}

/// Whether the region of a package is open.
fn is_open(frames: &List<Frame>, entity: u32) -> bool
    ensures { result ≡ list_any (frame_owned_by entity) frames.now }
{
    frames.iter().any(|frame| frame_owned_by(entity, frame))
}

/// A unit may be used where these with clauses hold: a package in itself, and Standard, always.
#[tactic(auto, unfolding(ada_legality::specs::UnitsUsed::is_usable_unit))]
pub(crate) fn is_usable_unit(names: &Names<'_>, denoted: Denoted) -> bool
    ensures { result ≡ is_usable_unit names.now denoted }
{
    match denoted {
        Denoted::Unit(unit) => {
            same_unit(unit, PredefinedUnit::Standard) || is_withed(&names.withs, unit)
        }
        Denoted::Entity(entity) => {
            is_entity_withed(&names.withs, entity) || is_open(&names.frames, entity)
        }
        Denoted::Item { .. } => true,
    }
}
