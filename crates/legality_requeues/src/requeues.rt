//! Aborts and requeues (ISO/IEC 8652:2012, 9.5.4, 9.8, D.7).
ghost use Rattle.std.specs.Prelude.{◌≡◌, ◌++◌, ◌&&◌, OnOk, is_some, not, option_copied};
ghost use Rattle.std.specs.Prelude.{option_map, slice_get, unwrap_or, false};
ghost use Rattle.std.specs.List.{flat_map, list_all};
ghost use Rattle.ada_regions.specs.Words.{all_of, and_then};
ghost use Rattle.ann_base.specs.Lists.{is_empty};
ghost use Rattle.ada_regions.specs.Names.{kind_at};
ghost use Rattle.ada_legality.specs.Attributes.{unit_type_of_entry};
ghost use Rattle.ada_legality.specs.Types.{same_type_if};
ghost use Rattle.ada_legality.specs.Values.{denotes_value, is_denoted, kind_of_name};
ghost use Rattle.ada_legality.specs.Words.{any_in_body, is_accept};
ghost use Rattle.ada_legality.specs.ReadExpressions.{unless_denoted};
ghost use Rattle.ada_legality.specs.SimpleStatements.{is_task_or_unclear, is_task_name};
ghost use Rattle.ada_legality.specs.SimpleStatements.{abort_found, entry_of, accept_or_entry};
ghost use Rattle.ada_legality.specs.SimpleStatements.{names_unit_around, is_of_same_object};
ghost use Rattle.ada_legality.specs.SimpleStatements.{is_task_entry, is_possible_target};
ghost use Rattle.ada_legality.specs.SimpleStatements.{type_of_formal, same_mode, same_formals};
ghost use Rattle.ada_legality.specs.SimpleStatements.{formals_of_entry, formals_fit, requeues_from};
ghost use Rattle.ada_legality.specs.SimpleStatements.{is_right_requeue, requeue_found};
ghost use Rattle.legality_requeues.specs.Formals.{same_along, same_beside};

use ada_entities::{denoted_by, kind_at};
use ada_legality::{Around, Finding, Known, Rule};
use ada_regions::{AdaType, Denoted, EntityKind, Formal};
use ada_tree::{Name, OneOrMore};
use ann_base::{NoMemory, Place};
use legality_entities::{
    innermost_unit, is_accept, is_body, is_type_in, kind_of_name, names_entry, sequence_around,
    stands_in_unit, task_type_of_entry, unit_type_of_entry,
};
use legality_names::{denotes_value, is_task_object, object_prefix};
use legality_profiles::same_mode;
use legality_types::{broken_if, broken_unless, same_type_if};
use legality_values::{is_unclear_object, place_of};
use world_tables::List;

/// A task object, or one whose own declaration names no type.
fn is_task_or_unclear(known: &Known<'_, '_>, denoted: Denoted) -> bool
    ensures { result ≡ is_task_or_unclear known.now denoted }
{
    is_task_object(known, denoted) || is_unclear_object(known, denoted)
}

/// Task objects are aborted.
#[tactic(auto, unfolding(ada_legality::specs::SimpleStatements::is_task_name))]
fn is_task_name(known: &Known<'_, '_>, name: &Name) -> bool
    ensures { result ≡ is_task_name known.now name.now }
{
    match denoted_by(known.names.get(), name) {
        None => false,
        Some(denoted) => is_task_or_unclear(known, denoted),
    }
}

/// A name denotes a value.
fn names_value(known: &Known<'_, '_>, name: &Name) -> bool
    ensures { result ≡ is_denoted (denotes_value known.now) known.now name.now }
{
    match denoted_by(known.names.get(), name) {
        None => false,
        Some(denoted) => denotes_value(known, denoted),
    }
}

/// A name that denotes no value.
fn unless_value(
    found: &mut List<Finding>,
    known: &Known<'_, '_>,
    name: &Name,
) -> Result<(), NoMemory>
    ensures { OnOk result
        (found.new ≡ found.old ++ unless_denoted (denotes_value known.now) known.now name.now) }
{
    let kept = names_value(known, name);
    broken_unless(found, Rule::KindOfName, kept, place_of(name))
}

/// The names that denote no values.
fn unless_values(
    found: &mut List<Finding>,
    known: &Known<'_, '_>,
    names: &OneOrMore<Name>,
) -> Result<(), NoMemory>
    ensures { OnOk result
        (found.new
        ≡ found.old
        ++ flat_map (unless_denoted (denotes_value known.now) known.now) (all_of names.now)) }
{
    unless_value(found, known, &names.first)?;
    for name in names.others.as_slice() {
        unless_value(found, known, name)?;
    }
    Ok(())
}

/// Names are all those of tasks.
fn all_task_names(known: &Known<'_, '_>, names: &[Name]) -> bool
    ensures { result ≡ list_all (is_task_name known.now) names.now }
{
    names.iter().all(|name| is_task_name(known, name))
}

/// All names are those of tasks.
fn are_task_names(known: &Known<'_, '_>, names: &OneOrMore<Name>) -> bool
    ensures { result ≡ list_all (is_task_name known.now) (all_of names.now) }
{
    is_task_name(known, &names.first) && all_task_names(known, names.others.as_slice())
}

/// An abort.
#[tactic(auto, unfolding(ada_legality::specs::SimpleStatements::abort_found))]
pub fn abort_found(
    found: &mut List<Finding>,
    known: &Known<'_, '_>,
    place: Place,
    names: &OneOrMore<Name>,
) -> Result<(), NoMemory>
    ensures { OnOk result
        (found.new ≡ found.old ++ abort_found place (all_of names.now) known.now) }
{
    let broken = known.in_force.no_abort_statements;
    broken_if(found, Rule::Restriction, broken, place)?;
    let kept = are_task_names(known, names);
    broken_unless(found, Rule::AbortedTask, kept, place)?;
    unless_values(found, known, names)
}

/// The entity of an accept statement or an entry body.
fn entry_of(around: Around) -> Option<Option<u32>>
    ensures { result ≡ entry_of around }
{
    match around {
        Around::Entry(entity) => Some(entity),
        Around::Accept(entity) => Some(entity),
        _ => None,
    }
}

/// The accept statement or entry body in which a statement stands.
#[tactic(auto, unfolding(ada_legality::specs::SimpleStatements::accept_or_entry))]
fn accept_or_entry(known: &Known<'_, '_>) -> Option<Option<u32>>
    ensures { result ≡ accept_or_entry known.now }
{
    let around = sequence_around(&known.around)?;
    entry_of(around)
}

/// The entry is of the object itself: by its own name, or behind its unit's.
#[tactic(auto, unfolding(ada_legality::specs::SimpleStatements::names_unit_around))]
fn names_unit_around(known: &Known<'_, '_>, name: &Name) -> bool
    ensures { result ≡ names_unit_around known.now name.now }
{
    match object_prefix(known, name) {
        None => true,
        Some(entity) => stands_in_unit(known, entity),
    }
}

/// The type of the unit of an entry that a name denotes.
fn unit_type_of_name(known: &Known<'_, '_>, name: &Name) -> Option<AdaType>
    ensures { result ≡ and_then (kind_of_name known.now name.now) unit_type_of_entry }
{
    let kind = kind_of_name(known, name)?;
    unit_type_of_entry(kind)
}

/// An entry of the object in whose entry body the requeue stands.
#[tactic(auto, unfolding(ada_legality::specs::SimpleStatements::is_of_same_object))]
fn is_of_same_object(known: &Known<'_, '_>, name: &Name) -> bool
    ensures { result ≡ is_of_same_object known.now name.now }
{
    is_type_in(unit_type_of_name(known, name), innermost_unit(known))
        && names_unit_around(known, name)
}

/// An entry of a task.
#[tactic(auto, unfolding(ada_legality::specs::SimpleStatements::is_task_entry))]
fn is_task_entry(known: &Known<'_, '_>, name: &Name) -> bool
    ensures { result ≡ is_task_entry known.now name.now }
{
    match kind_of_name(known, name) {
        None => false,
        Some(kind) => task_type_of_entry(kind).is_some(),
    }
}

/// An accept statement stands around, inside the innermost body.
#[tactic(auto, unfolding(ada_legality::specs::Words::any_in_body))]
fn stands_in_accept(outer: &List<Around>) -> bool
    ensures { result ≡ any_in_body is_accept outer.now }
{
    for around in outer.iter() {
        if is_body(*around) {
            return false;
        }
        if is_accept(*around) {
            return true;
        }
    }
    false
}

/// An entry to which a requeue may lead.
#[tactic(auto, unfolding(ada_legality::specs::SimpleStatements::is_possible_target))]
fn is_possible_target(known: &Known<'_, '_>, name: &Name) -> bool
    ensures { result ≡ is_possible_target known.now name.now }
{
    if stands_in_accept(&known.around) {
        is_task_entry(known, name)
    } else {
        is_of_same_object(known, name)
    }
}

fn type_of_formal(formal: &Formal) -> Option<AdaType>
    ensures { result ≡ type_of_formal formal.now }
{
    Some(formal.subtype?.of_type)
}

/// Two formals have one mode and one type.
fn same_formal(a: &Formal, b: &Formal) -> bool
    ensures { result
        ≡ (same_mode a.now.mode b.now.mode
        && same_type_if (type_of_formal a.now) (type_of_formal b.now)) }
{
    same_mode(a.mode, b.mode) && same_type_if(type_of_formal(a), type_of_formal(b))
}

/// The formal at a place, if there is one.
fn formal_at(formals: &[Formal], at: usize) -> Option<&Formal>
    ensures { option_copied result ≡ slice_get formals.now at }
{
    formals.get(at)
}

/// A formal is like that at a place, if there is one.
fn same_beside(formal: &Formal, others: &[Formal], at: usize) -> bool
    ensures { result ≡ same_beside formal.now (slice_get others.now at) }
{
    match formal_at(others, at) {
        None => false,
        Some(other) => same_formal(formal, other),
    }
}

/// No formal stands at a place.
fn none_at(formals: &[Formal], at: usize) -> bool
    ensures { result ≡ not (is_some (slice_get formals.now at)) }
{
    match formal_at(formals, at) {
        None => true,
        Some(_) => false,
    }
}

/// As many formals, of the same modes and types, one at a time.
fn same_along(a: &[Formal], b: &[Formal]) -> bool
    ensures { result ≡ same_along a.now b.now 0 }
{
    let mut at = 0;
    for formal in a {
        if !same_beside(formal, b, at) {
            return false;
        }
        at += 1;
    }
    none_at(b, at)
}

/// As many formals, of the same modes and types.
#[tactic(auto, using(crate::proofs::FormalsBeside::same_is))]
fn same_formals(a: &[Formal], b: &[Formal]) -> bool
    ensures { result ≡ same_formals a.now b.now }
{
    same_along(a, b)
}

/// The formals of an entry.
fn formals_of_entry(kind: &EntityKind) -> Option<&[Formal]>
    ensures { option_copied result ≡ formals_of_entry kind.now }
{
    match kind {
        EntityKind::Entry { formals, .. } => Some(formals.as_slice()),
        _ => None,
    }
}

/// The formals of the entry that a name denotes.
fn formals_of_name<'n>(known: &'n Known<'_, '_>, name: &Name) -> Option<&'n [Formal]>
    ensures { option_copied result ≡ and_then (kind_of_name known.now name.now) formals_of_entry }
{
    let kind = kind_of_name(known, name)?;
    formals_of_entry(kind)
}

/// The formals of the entry with this entity.
fn formals_of_entity<'n>(known: &'n Known<'_, '_>, entity: Option<u32>) -> Option<&'n [Formal]>
    ensures { option_copied result
        ≡ and_then (and_then entity (kind_at known.now.names)) formals_of_entry }
{
    let entity = entity?;
    let kind = kind_at(known.names.get(), entity)?;
    formals_of_entry(kind)
}

fn is_empty<T>(items: &[T]) -> bool
    ensures { result ≡ is_empty items.now }
{
    match items {
        [] => true,
        [_, ..] => false,
    }
}

/// The entry of the requeue's accept statement or entry body has the same formals.
fn own_entry_has(known: &Known<'_, '_>, own: Option<u32>, target: &[Formal]) -> bool
    ensures { result
        ≡ unwrap_or
        (option_map (same_formals target.now)
        (and_then (and_then own (kind_at known.now.names)) formals_of_entry)) false }
{
    match formals_of_entity(known, own) {
        None => false,
        Some(own) => same_formals(target, own),
    }
}

/// The target has no formals, or the same as the entry of the requeue's accept statement or entry
/// body.
#[tactic(auto, unfolding(ada_legality::specs::SimpleStatements::formals_fit))]
fn target_fits(known: &Known<'_, '_>, name: &Name, own: Option<u32>) -> bool
    ensures { result
        ≡ formals_fit (and_then (kind_of_name known.now name.now) formals_of_entry)
        (and_then (and_then own (kind_at known.now.names)) formals_of_entry) }
{
    match formals_of_name(known, name) {
        None => false,
        Some(target) => is_empty(target) || own_entry_has(known, own, target),
    }
}

/// A requeue from this entry may lead there.
#[tactic(auto, unfolding(ada_legality::specs::SimpleStatements::requeues_from))]
fn requeues_from(known: &Known<'_, '_>, name: &Name, own: Option<u32>) -> bool
    ensures { result ≡ requeues_from known.now name.now own }
{
    is_possible_target(known, name) && target_fits(known, name, own)
}

/// A requeue stands where it may, and leads where it may.
#[tactic(auto, unfolding(ada_legality::specs::SimpleStatements::is_right_requeue))]
fn is_right_requeue(known: &Known<'_, '_>, name: &Name) -> bool
    ensures { result ≡ is_right_requeue known.now name.now }
{
    match accept_or_entry(known) {
        None => false,
        Some(own) => requeues_from(known, name, own),
    }
}

/// A requeue; a source with Max_Entry_Queue_Length has none (this profile's own).
#[tactic(auto, unfolding(ada_legality::specs::SimpleStatements::requeue_found))]
pub fn requeue_found(
    found: &mut List<Finding>,
    known: &Known<'_, '_>,
    place: Place,
    name: &Name,
) -> Result<(), NoMemory>
    ensures { OnOk result (found.new ≡ found.old ++ requeue_found place name.now known.now) }
{
    let kept = is_right_requeue(known, name) && !known.in_force.has_longest_queue;
    broken_unless(found, Rule::RequeueStatement, kept, place)?;
    let kept = names_entry(known, name);
    broken_unless(found, Rule::KindOfName, kept, place_of(name))
}
