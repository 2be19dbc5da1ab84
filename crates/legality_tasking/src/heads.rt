//! The heads of units' and entries' bodies (ISO/IEC 8652:2012, 9.1, 9.4, 9.5.2, D.7).
ghost use Rattle.std.specs.Prelude.{◌≡◌, ◌++◌, OnOk};
ghost use Rattle.ada_legality.specs.Declarations.{barrier_found, barrier_judged, entry_body_judged};
ghost use Rattle.ada_legality.specs.Declarations.{entry_profile_if, is_simple_barrier, is_unit_of};
ghost use Rattle.ada_legality.specs.Declarations.{unit_body_judged, unit_here};

use crate::tasks::type_of_identifier;
use ada_completions::is_unit;
use ada_entities::entity_denoted;
use ada_legality::{Asked, BodyKind, Finding, Known, Read, Rule, Shape, UnitAround};
use ada_regions::{AdaType, UnitKind};
use ada_tree::{EntryHead, Expression, Identifier, Name, Parameter};
use ann_base::NoMemory;
use legality_expressions::Readable;
use legality_names::is_own_entry;
use legality_profiles::{body_noted, entry_body_profile_judged};
use legality_reads::expected;
use legality_types::{broken_if, broken_unless};
use std::alloc::Global;
use world_tables::List;

/// The unit that an identifier names.
#[tactic(auto, unfolding(ada_legality::specs::Declarations::unit_here))]
pub fn unit_here(known: &Known<'_, '_>, name: &Identifier) -> UnitAround
    ensures { result ≡ unit_here known.now name.now }
{
    UnitAround {
        entity: entity_denoted(known.names.get(), name.place),
        of_type: type_of_identifier(known, name),
    }
}

/// A body's name is that of a unit of its kind.
#[tactic(auto, unfolding(ada_legality::specs::Declarations::is_unit_of))]
fn is_unit_of(kind: UnitKind, known: &Known<'_, '_>, name: &Identifier) -> bool
    ensures { result ≡ is_unit_of kind known.now name.now }
{
    match entity_denoted(known.names.get(), name.place) {
        None => false,
        Some(entity) => is_unit(known.names.get(), kind, entity),
    }
}

/// The body of a task or a protected unit.
#[tactic(auto, unfolding(ada_legality::specs::Declarations::unit_body_judged))]
pub fn unit_body_judged(
    found: &mut List<Finding>,
    known: &Known<'_, '_>,
    kind: UnitKind,
    of_kind: BodyKind,
    name: &Identifier,
) -> Result<(), NoMemory>
    ensures { OnOk result
        (found.new ≡ found.old ++ unit_body_judged kind of_kind name.now known.now) }
{
    let kept = is_unit_of(kind, known, name);
    broken_unless(found, Rule::KindOfName, kept, name.place)?;
    body_noted(found, known, of_kind, name)
}

/// A component or a literal alone.
fn is_simple_barrier(shape: Shape) -> bool
    ensures { result ≡ is_simple_barrier shape }
{
    match shape {
        Shape::Name(name) => name.is_simple_barrier,
        Shape::Number => false,
        Shape::Other => false,
    }
}

/// A barrier, which is read (9.5.2; this profile's own).
#[tactic(auto, unfolding(ada_legality::specs::Declarations::barrier_judged))]
fn barrier_judged(
    found: &mut List<Finding>,
    known: &Known<'_, '_>,
    read: &Read,
) -> Result<(), NoMemory>
    ensures { OnOk result (found.new ≡ found.old ++ barrier_judged known.now read.now) }
{
    broken_unless(found, Rule::EntryBarrier, read.built_as_barrier, read.place)?;
    let broken = known.in_force.simple_barriers && !is_simple_barrier(read.shape);
    broken_if(found, Rule::Restriction, broken, read.place)?;
    expected(found, Asked::ForCondition, Some(AdaType::Boolean), read)
}

/// A barrier.
#[tactic(auto, unfolding(ada_legality::specs::Declarations::barrier_found))]
pub fn barrier_found(
    alloc: Global,
    found: &mut List<Finding>,
    known: &Known<'_, '_>,
    barrier: &Expression,
) -> Result<(), NoMemory>
    ensures { OnOk result (found.new ≡ found.old ++ barrier_found barrier.now known.now) }
{
    let read = barrier.read(alloc, found, known)?;
    barrier_judged(found, known, &read)
}

/// The profile of an entry's body, where it is one of the unit around.
fn entry_profile_if(
    alloc: Global,
    found: &mut List<Finding>,
    known: &Known<'_, '_>,
    is_own: bool,
    parameters: &[Parameter],
    entity: Option<u32>,
) -> Result<(), NoMemory>
    ensures { OnOk result
        (found.new ≡ found.old ++ entry_profile_if is_own known.now parameters.now entity) }
{
    if is_own {
        entry_body_profile_judged(alloc, found, known, parameters, entity)
    } else {
        Ok(())
    }
}

/// The name and the profile of an entry's body.
#[tactic(auto, unfolding(ada_legality::specs::Declarations::entry_body_judged))]
pub fn entry_body_judged(
    alloc: Global,
    found: &mut List<Finding>,
    known: &Known<'_, '_>,
    head: &EntryHead,
) -> Result<(), NoMemory>
    ensures { OnOk result (found.new ≡ found.old ++ entry_body_judged head.now known.now) }
{
    let name = &head.name;
    let is_own = is_own_entry(known, name);
    broken_unless(found, Rule::KindOfName, is_own, name.place)?;
    body_noted(found, known, BodyKind::ProtectedEntry, name)?;
    let entity = entity_denoted(known.names.get(), name.place);
    let parameters = head.parameters.as_slice();
    entry_profile_if(alloc, found, known, is_own, parameters, entity)
}
