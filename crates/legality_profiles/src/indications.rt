//! Subtype indications and modes that are the same (ISO/IEC 8652:2012, 6.3.1).
ghost use Rattle.std.specs.Prelude.{◌≡◌};
ghost use Rattle.ada_legality.specs.CallStatements.{has_range};
ghost use Rattle.ada_legality.specs.Profiles.{mode_of_parameter, range_of_indication};
ghost use Rattle.ada_legality.specs.Profiles.{same_ends, same_indication};
ghost use Rattle.ada_legality.specs.Profiles.{same_indication_if, same_pairs, same_ranges};
ghost use Rattle.ada_legality.specs.SimpleStatements.{same_mode};

use ada_legality::Span;
use ada_regions::{Mode, Names};
use ada_subtypes::{indicated_subtype, mode_of};
use ada_tree::{Constraint, Parameter, SubtypeIndication};
use legality_choices::{ends_of, same_number};
use legality_entities::same_named;

fn same_ends(a: Span, b: Span) -> bool
    ensures { result ≡ same_ends a b }
{
    same_number(a.low, b.low) && same_number(a.high, b.high)
}

/// Whether two ranges are the same, or both are none.
fn same_pairs(a: Option<Span>, b: Option<Span>) -> bool
    ensures { result ≡ same_pairs a b }
{
    match a {
        None => match b {
            None => true,
            Some(_) => false,
        },
        Some(a) => match b {
            None => false,
            Some(b) => same_ends(a, b),
        },
    }
}

/// The range of the subtype that is indicated.
#[tactic(auto, unfolding(ada_legality::specs::Profiles::range_of_indication))]
fn range_of_indication(names: &Names<'_>, indication: &SubtypeIndication) -> Option<Span>
    ensures { result ≡ range_of_indication names.now indication.now }
{
    let subtype = indicated_subtype(names, indication)?;
    ends_of(subtype.range)
}

/// Whether a range stands behind a subtype mark (3.5).
pub fn has_range(constraint: &Option<Constraint>) -> bool
    ensures { result ≡ has_range constraint.now }
{
    match constraint {
        None => false,
        Some(Constraint::Access(_)) => false,
        Some(Constraint::Range { .. }) => true,
    }
}

/// Whether the same ranges stand behind two marks, or none.
#[tactic(auto, unfolding(ada_legality::specs::Profiles::same_ranges))]
fn same_ranges(names: &Names<'_>, a: &SubtypeIndication, b: &SubtypeIndication) -> bool
    ensures { result ≡ same_ranges names.now a.now b.now }
{
    if has_range(&a.constraint) {
        has_range(&b.constraint)
            && same_pairs(range_of_indication(names, a), range_of_indication(names, b))
    } else {
        !has_range(&b.constraint)
    }
}

/// Whether two subtype indications name the same declaration, with the same range.
#[tactic(auto, unfolding(ada_legality::specs::Profiles::same_indication))]
pub fn same_indication(names: &Names<'_>, a: &SubtypeIndication, b: &SubtypeIndication) -> bool
    ensures { result ≡ same_indication names.now a.now b.now }
{
    same_named(names, &a.name, &b.name) && same_ranges(names, a, b)
}

/// Whether two results are indicated alike, or both are none.
#[tactic(auto, unfolding(ada_legality::specs::Profiles::same_indication_if))]
pub(crate) fn same_indication_if(
    names: &Names<'_>,
    a: &Option<SubtypeIndication>,
    b: &Option<SubtypeIndication>,
) -> bool
    ensures { result ≡ same_indication_if names.now a.now b.now }
{
    match a {
        None => match b {
            None => true,
            Some(_) => false,
        },
        Some(a) => match b {
            None => false,
            Some(b) => same_indication(names, a, b),
        },
    }
}

/// The mode of a parameter (6.2).
pub(crate) fn mode_of_parameter(parameter: &Parameter) -> Mode
    ensures { result ≡ mode_of_parameter parameter.now }
{
    mode_of(parameter.is_in, parameter.is_out)
}

/// Whether two modes are the same.
pub fn same_mode(a: Mode, b: Mode) -> bool
    ensures { result ≡ same_mode a b }
{
    match (a, b) {
        (Mode::In, Mode::In) => true,
        (Mode::Out, Mode::Out) => true,
        (Mode::InOut, Mode::InOut) => true,
        _ => false,
    }
}
