//! What a barrier is built of (ISO/IEC 8652:2012, 9.5.2; this profile's own).
ghost use Rattle.std.specs.Prelude.{◌≡◌};
ghost use Rattle.ada_legality.specs.Reading.{is_own_component, is_truth, denotes_barrier_part};

use ada_legality::Known;
use ada_regions::{AdaType, ComponentOwner, Denoted, EntityKind, Predefined};
use legality_entities::{denoted_kind, innermost_unit, is_literal_kind, is_type};

/// A component of the object around.
#[tactic(auto, unfolding(ada_legality::specs::Reading::is_own_component))]
fn is_own_component(known: &Known<'_, '_>, kind: &EntityKind) -> bool
    ensures { result ≡ is_own_component known.now kind.now }
{
    match kind {
        EntityKind::Component { owner, .. } => match owner {
            ComponentOwner::Protected(unit) => {
                is_type(AdaType::Protected(*unit), innermost_unit(known))
            }
            ComponentOwner::Controlled(_) => false,
        },
        _ => false,
    }
}

/// False or True.
fn is_truth(item: Predefined) -> bool
    ensures { result ≡ is_truth item }
{
    match item {
        Predefined::Truth(_) => true,
        _ => false,
    }
}

/// A component of the object, or a literal.
#[tactic(auto, unfolding(ada_legality::specs::Reading::denotes_barrier_part))]
pub(crate) fn denotes_barrier_part(known: &Known<'_, '_>, denoted: Denoted) -> bool
    ensures { result ≡ denotes_barrier_part known.now denoted }
{
    match denoted {
        Denoted::Item { item, .. } => is_truth(item),
        _ => match denoted_kind(known.names.get(), denoted) {
            None => false,
            Some(kind) => is_own_component(known, kind) || is_literal_kind(kind),
        },
    }
}
