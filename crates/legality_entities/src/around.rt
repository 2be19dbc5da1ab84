//! What stands around a construct (ISO/IEC 8652:2012, clauses 6, 7, 9).
ghost use Rattle.std.specs.Prelude.{◌≡◌, ◌||◌, find, option_copied};
ghost use Rattle.ada_legality.specs.Values.{unit_around, type_around, is_entity};
ghost use Rattle.ada_legality.specs.Values.{is_type, stands_in_unit, stands_in_type};
ghost use Rattle.ada_legality.specs.Words.{is_body, is_accept, body_around, sequence_around};
ghost use Rattle.ada_legality.specs.SimpleStatements.{same_entities};
ghost use Rattle.ada_legality.specs.Attributes.{is_task_body, in_own_task, single_object};
ghost use Rattle.ada_legality.specs.Attributes.{is_protected_body, innermost_unit, is_type_in};

use ada_legality::{Around, Known, same_type};
use ada_regions::AdaType;
use world_tables::List;

/// The entity of the unit whose body is open.
pub fn unit_around(around: Around) -> Option<u32>
    ensures { result ≡ unit_around around }
{
    match around {
        Around::Task(unit) => unit.entity,
        Around::Protected(unit) => unit.entity,
        _ => None,
    }
}

/// The type of that unit.
pub fn type_around(around: Around) -> Option<AdaType>
    ensures { result ≡ type_around around }
{
    match around {
        Around::Task(unit) => unit.of_type,
        Around::Protected(unit) => unit.of_type,
        _ => None,
    }
}

/// Whether it is this entity.
pub fn is_entity(entity: u32, other: Option<u32>) -> bool
    ensures { result ≡ is_entity entity other }
{
    match other {
        None => false,
        Some(other) => entity == other,
    }
}

/// Whether it is this type.
pub fn is_type(t: AdaType, other: Option<AdaType>) -> bool
    ensures { result ≡ is_type t other }
{
    match other {
        None => false,
        Some(other) => same_type(t, other),
    }
}

/// Whether both are one type.
pub fn is_type_in(t: Option<AdaType>, other: Option<AdaType>) -> bool
    ensures { result ≡ is_type_in t other }
{
    match t {
        None => false,
        Some(t) => is_type(t, other),
    }
}

/// Whether a construct stands in the body of this unit.
#[tactic(auto, unfolding(ada_legality::specs::Values::stands_in_unit))]
pub fn stands_in_unit(known: &Known<'_, '_>, entity: u32) -> bool
    ensures { result ≡ stands_in_unit known.now entity }
{
    known
        .around
        .iter()
        .any(|around| is_entity(entity, unit_around(*around)))
}

/// Whether a construct stands in the body of a unit of this type.
#[tactic(auto, unfolding(ada_legality::specs::Values::stands_in_type))]
pub fn stands_in_type(known: &Known<'_, '_>, t: AdaType) -> bool
    ensures { result ≡ stands_in_type known.now t }
{
    known
        .around
        .iter()
        .any(|around| is_type(t, type_around(*around)))
}

/// A body.
pub fn is_body(around: Around) -> bool
    ensures { result ≡ is_body around }
{
    match around {
        Around::Package => true,
        Around::Main => true,
        Around::Subprogram(_) => true,
        Around::Task(_) => true,
        Around::Protected(_) => true,
        Around::Entry(_) => true,
        Around::Accept(_) => false,
        Around::Loop(_) => false,
        Around::Handler => false,
        Around::AsynchronousSelect => false,
    }
}

/// An accept statement.
pub fn is_accept(around: Around) -> bool
    ensures { result ≡ is_accept around }
{
    match around {
        Around::Accept(_) => true,
        _ => false,
    }
}

fn body_found(outer: &List<Around>) -> Option<&Around>
    ensures { option_copied result ≡ find is_body outer.now }
{
    outer.iter().find(|around| is_body(**around))
}

/// The innermost body.
pub fn body_around(outer: &List<Around>) -> Option<Around>
    ensures { result ≡ body_around outer.now }
{
    let around = body_found(outer)?;
    Some(*around)
}

fn has_sequence(around: Around) -> bool
    ensures { result ≡ (is_body around || is_accept around) }
{
    is_body(around) || is_accept(around)
}

fn sequence_found(outer: &List<Around>) -> Option<&Around>
    ensures { option_copied result ≡ find (λ a. is_body a || is_accept a) outer.now }
{
    outer.iter().find(|around| has_sequence(**around))
}

/// The innermost body or accept statement.
pub fn sequence_around(outer: &List<Around>) -> Option<Around>
    ensures { result ≡ sequence_around outer.now }
{
    let around = sequence_found(outer)?;
    Some(*around)
}

fn is_task_body(t: AdaType, around: Around) -> bool
    ensures { result ≡ is_task_body t around }
{
    match around {
        Around::Task(unit) => is_type(t, unit.of_type),
        _ => false,
    }
}

/// Whether a construct stands in the body of a task of this type itself (9.9).
#[tactic(auto, unfolding(ada_legality::specs::Attributes::in_own_task))]
pub fn in_own_task(t: AdaType, outer: &List<Around>) -> bool
    ensures { result ≡ in_own_task t outer.now }
{
    match body_around(outer) {
        None => false,
        Some(around) => is_task_body(t, around),
    }
}

fn body_of_type_found(outer: &List<Around>, t: AdaType) -> Option<&Around>
    ensures { option_copied result ≡ find (λ a. is_type t (type_around a)) outer.now }
{
    outer
        .iter()
        .find(|around| is_type(t, type_around(**around)))
}

/// The object of a protected unit's own operation: the unit itself, where that is a single object
/// (C.3.1).
#[tactic(auto, unfolding(ada_legality::specs::Attributes::single_object))]
pub fn single_object(outer: &List<Around>, t: AdaType) -> Option<u32>
    ensures { result ≡ single_object outer.now t }
{
    let around = body_of_type_found(outer, t)?;
    unit_around(*around)
}

fn is_protected_body(around: Around) -> bool
    ensures { result ≡ is_protected_body around }
{
    match around {
        Around::Protected(_) => true,
        _ => false,
    }
}

fn protected_body_found(outer: &List<Around>) -> Option<&Around>
    ensures { option_copied result ≡ find is_protected_body outer.now }
{
    outer.iter().find(|around| is_protected_body(**around))
}

/// The type of the protected unit in whose body a construct stands (9.4).
#[tactic(auto, unfolding(ada_legality::specs::Attributes::innermost_unit))]
pub fn innermost_unit(known: &Known<'_, '_>) -> Option<AdaType>
    ensures { result ≡ innermost_unit known.now }
{
    let around = protected_body_found(&known.around)?;
    type_around(*around)
}

/// Two entities are the same.
pub fn same_entities(a: Option<u32>, b: Option<u32>) -> bool
    ensures { result ≡ same_entities a b }
{
    match (a, b) {
        (Some(a), Some(b)) => a == b,
        _ => false,
    }
}
