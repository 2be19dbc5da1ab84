//! Subtype indications and array types (ISO/IEC 8652:2012, 3.2.2, 3.6).
ghost use Rattle.std.specs.Prelude.{◌≡◌};
ghost use Rattle.ada_regions.specs.Subtypes.{mark_of_kind, mark_denoted, constrained};
ghost use Rattle.ada_regions.specs.Subtypes.{indicated_subtype, array_type};

use crate::ranges::range_between;
use crate::statics::{static_value, subtype_of_item};
use ada_entities::{denoted_by, kind_at};
use ada_regions::{ArrayType, Denoted, EntityKind, Names, Subtype};
use ada_tree::{Constraint as Indicated, Expression, SubtypeIndication};
use profile_image::Constraint;

fn mark_of_kind(kind: &EntityKind) -> Option<Subtype>
    ensures { result ≡ mark_of_kind kind.now }
{
    match kind {
        EntityKind::Mark(subtype) => *subtype,
        _ => None,
    }
}

/// The subtype that a subtype mark denotes, if it denotes one.
#[tactic(auto, unfolding(ada_regions::specs::Subtypes::mark_denoted))]
pub fn mark_denoted(names: &Names<'_>, denoted: Denoted) -> Option<Subtype>
    ensures { result ≡ mark_denoted names.now denoted }
{
    match denoted {
        Denoted::Entity(entity) => mark_of_kind(kind_at(names, entity)?),
        Denoted::Unit(_) => None,
        Denoted::Item { item, .. } => subtype_of_item(item),
    }
}

/// A subtype with the range that an indication gives it.
#[tactic(auto, unfolding(ada_regions::specs::Subtypes::constrained))]
fn constrained(names: &Names<'_>, constraint: &Option<Indicated>, subtype: Subtype) -> Subtype
    ensures { result ≡ constrained names.now constraint.now subtype }
{
    match constraint {
        None => subtype,
        Some(Indicated::Access(_)) => subtype,
        Some(Indicated::Range { low, high }) => Subtype {
            of_type: subtype.of_type,
            range: range_between(
                static_value(names, low),
                static_value(names, high),
                subtype.range,
            ),
        },
    }
}

/// The subtype that an indication denotes, where its name is that of a type.
#[tactic(auto, unfolding(ada_regions::specs::Subtypes::indicated_subtype))]
pub fn indicated_subtype(names: &Names<'_>, indication: &SubtypeIndication) -> Option<Subtype>
    ensures { result ≡ indicated_subtype names.now indication.now }
{
    let denoted = denoted_by(names, &indication.name)?;
    let subtype = mark_denoted(names, denoted)?;
    Some(constrained(names, &indication.constraint, subtype))
}

/// An array type (3.6).
#[tactic(auto, unfolding(ada_regions::specs::Subtypes::array_type))]
pub fn array_type(
    names: &Names<'_>,
    low: &Expression,
    high: &Expression,
    component: &SubtypeIndication,
) -> ArrayType
    ensures { result ≡ array_type names.now low.now high.now component.now }
{
    ArrayType {
        index: range_between(
            static_value(names, low),
            static_value(names, high),
            Constraint::Free,
        ),
        component: indicated_subtype(names, component),
    }
}
