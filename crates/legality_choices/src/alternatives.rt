//! The alternatives of selective accepts (ISO/IEC 8652:2012, 9.7.1, D.7).
ghost use Rattle.std.specs.Prelude.{◌≡◌, ◌++◌, slice_get, OnOk, Some};
ghost use Rattle.ada_legality.specs.CallStatements.{beyond};
ghost use Rattle.ada_legality.specs.Numbers.{size_in};
ghost use Rattle.ada_legality.specs.SimpleStatements.{is_accept_alternative, is_delay_alternative};
ghost use Rattle.ada_legality.specs.SimpleStatements.{is_delay_until_alternative};
ghost use Rattle.ada_legality.specs.SimpleStatements.{is_terminate_alternative, any_is, has_delay};
ghost use Rattle.ada_legality.specs.SimpleStatements.{has_mixed_delays, terminates, excludes};
ghost use Rattle.ada_legality.specs.SimpleStatements.{is_selective_accept, terminates_forbidden};
ghost use Rattle.ada_legality.specs.SimpleStatements.{beyond_restriction, selective_accept_judged};

use ada_legality::{
    AlternativeKind, AlternativePart, Finding, Known, MOST_ALTERNATIVES, Number, Rule,
};
use ann_base::{NoMemory, Place};
use legality_types::{broken_if, broken_unless};
use world_tables::List;

fn is_accept_alternative(kind: AlternativeKind) -> bool
    ensures { result ≡ is_accept_alternative kind }
{
    match kind {
        AlternativeKind::Accept => true,
        _ => false,
    }
}

fn is_delay_alternative(kind: AlternativeKind) -> bool
    ensures { result ≡ is_delay_alternative kind }
{
    match kind {
        AlternativeKind::Delay => true,
        _ => false,
    }
}

fn is_delay_until_alternative(kind: AlternativeKind) -> bool
    ensures { result ≡ is_delay_until_alternative kind }
{
    match kind {
        AlternativeKind::DelayUntil => true,
        _ => false,
    }
}

fn is_terminate_alternative(kind: AlternativeKind) -> bool
    ensures { result ≡ is_terminate_alternative kind }
{
    match kind {
        AlternativeKind::Terminate => true,
        _ => false,
    }
}

/// An accept statement stands there.
fn has_accept(parts: &[AlternativePart]) -> bool
    ensures { result ≡ any_is is_accept_alternative parts.now }
{
    parts.iter().any(|part| is_accept_alternative(part.kind))
}

/// A `delay` stands there.
fn has_relative_delay(parts: &[AlternativePart]) -> bool
    ensures { result ≡ any_is is_delay_alternative parts.now }
{
    parts.iter().any(|part| is_delay_alternative(part.kind))
}

/// A `delay until` stands there.
fn has_absolute_delay(parts: &[AlternativePart]) -> bool
    ensures { result ≡ any_is is_delay_until_alternative parts.now }
{
    parts
        .iter()
        .any(|part| is_delay_until_alternative(part.kind))
}

/// A delay stands there.
#[tactic(auto, unfolding(ada_legality::specs::SimpleStatements::has_delay))]
fn has_delay(parts: &[AlternativePart]) -> bool
    ensures { result ≡ has_delay parts.now }
{
    has_relative_delay(parts) || has_absolute_delay(parts)
}

/// Both kinds of delay stand there.
#[tactic(auto, unfolding(ada_legality::specs::SimpleStatements::has_mixed_delays))]
fn has_mixed_delays(parts: &[AlternativePart]) -> bool
    ensures { result ≡ has_mixed_delays parts.now }
{
    has_relative_delay(parts) && has_absolute_delay(parts)
}

/// How many alternatives are `terminate`.
#[tactic(auto, unfolding(ada_legality::specs::SimpleStatements::terminates))]
fn terminates(parts: &[AlternativePart]) -> usize
    ensures { result ≡ terminates parts.now }
{
    parts
        .iter()
        .filter(|part| is_terminate_alternative(part.kind))
        .count()
}

/// No two of delay, terminate and else stand there.
#[tactic(auto, unfolding(ada_legality::specs::SimpleStatements::excludes))]
fn excludes(delays: bool, terminates: bool, otherwise: bool) -> bool
    ensures { result ≡ excludes delays terminates otherwise }
{
    !(delays && terminates) && (!(delays && otherwise) && !(terminates && otherwise))
}

/// An accept stands there; delays are of one kind; terminate stands once; delay, terminate and else
/// exclude one another.
#[tactic(auto, unfolding(ada_legality::specs::SimpleStatements::is_selective_accept))]
fn is_selective_accept(parts: &[AlternativePart], otherwise: bool) -> bool
    ensures { result ≡ is_selective_accept parts.now otherwise }
{
    let terminates = terminates(parts);
    has_accept(parts)
        && (!has_mixed_delays(parts)
            && (terminates <= 1 && excludes(has_delay(parts), 0 < terminates, otherwise)))
}

/// Where terminate alternatives stand that a restriction forbids.
#[tactic(auto, unfolding(ada_legality::specs::SimpleStatements::terminates_forbidden))]
fn terminates_forbidden(
    found: &mut List<Finding>,
    forbidden: bool,
    parts: &[AlternativePart],
) -> Result<(), NoMemory>
    ensures { OnOk result (found.new ≡ found.old ++ terminates_forbidden forbidden parts.now) }
{
    for part in parts {
        let broken = forbidden && is_terminate_alternative(part.kind);
        broken_if(found, Rule::Restriction, broken, part.own_place)?;
    }
    Ok(())
}

/// The alternative at a place.
fn part_at(parts: &[AlternativePart], place: usize) -> Option<AlternativePart>
    ensures { result ≡ slice_get parts.now place }
{
    let part = parts.get(place)?;
    Some(*part)
}

/// The alternative with which there are more than so many.
fn beyond(
    found: &mut List<Finding>,
    rule: Rule,
    most: usize,
    parts: &[AlternativePart],
) -> Result<(), NoMemory>
    ensures { OnOk result (found.new ≡ found.old ++ beyond rule (λ p. p.place) most parts.now) }
{
    match part_at(parts, most) {
        None => Ok(()),
        Some(part) => broken_if(found, rule, true, part.place),
    }
}

/// The alternative behind so many.
#[tactic(auto, using(std::proofs::lemmas::Option::slice_get_past))]
fn part_behind(parts: &[AlternativePart], most: Number) -> Option<AlternativePart>
    ensures { result ≡ slice_get parts.now (size_in most) }
{
    match most.place_below(parts.len()) {
        None => None,
        Some(place) => part_at(parts, place),
    }
}

/// The alternative with which there are more than a restriction allows.
fn beyond_allowed(
    found: &mut List<Finding>,
    most: Number,
    parts: &[AlternativePart],
) -> Result<(), NoMemory>
    ensures { OnOk result
        (found.new ≡ found.old ++ beyond_restriction (λ p. p.place) (Some most) parts.now) }
{
    if most.is_negative() {
        Ok(())
    } else {
        match part_behind(parts, most) {
            None => Ok(()),
            Some(part) => broken_if(found, Rule::Restriction, true, part.place),
        }
    }
}

/// The same, where a restriction limits them.
fn beyond_restriction(
    found: &mut List<Finding>,
    most: Option<Number>,
    parts: &[AlternativePart],
) -> Result<(), NoMemory>
    ensures { OnOk result
        (found.new ≡ found.old ++ beyond_restriction (λ p. p.place) most parts.now) }
{
    match most {
        None => Ok(()),
        Some(most) => beyond_allowed(found, most, parts),
    }
}

/// The alternatives of a selective accept: 64 at most (this profile's own).
#[tactic(auto, unfolding(ada_legality::specs::SimpleStatements::selective_accept_judged))]
pub fn selective_accept_judged(
    found: &mut List<Finding>,
    known: &Known<'_, '_>,
    place: Place,
    parts: &[AlternativePart],
    otherwise: bool,
) -> Result<(), NoMemory>
    ensures { OnOk result
        (found.new ≡ found.old ++ selective_accept_judged known.now place parts.now otherwise) }
{
    let kept = is_selective_accept(parts, otherwise);
    broken_unless(found, Rule::SelectiveAccept, kept, place)?;
    beyond(found, Rule::Limit, MOST_ALTERNATIVES, parts)?;
    beyond_restriction(found, known.in_force.max_select_alternatives, parts)?;
    terminates_forbidden(found, known.in_force.no_terminate_alternatives, parts)
}
