//! What use clauses make visible (ISO/IEC 8652:2012, 8.4).
ghost use Rattle.std.specs.Prelude.{◌≡◌, ◌<◌, ◌≤◌, ◌-◌, cond, drop};
ghost use Rattle.std.specs.Prelude.{eqb, length, find, option_copied};
ghost use Rattle.std.specs.List.{list_any};
ghost use Rattle.world_tables.specs.Tables.{item_at};
ghost use Rattle.ada_regions.specs.declared.entities.Sought.{Sought};
ghost use Rattle.ada_regions.specs.Words.{and_then};
ghost use Rattle.std.specs.Option.{option_or};
ghost use Rattle.ada_regions.specs.PredefinedUnits.{parent_unit, child_unit};
ghost use Rattle.ada_regions.specs.Visibility.{is_unit_or_parent, stands_under, is_withed_by};
ghost use Rattle.ada_regions.specs.Visibility.{some_if_withed, exports_name, exported_from};
ghost use Rattle.ada_regions.specs.Visibility.{item_of, visible_in, same_denoted, joined};
ghost use Rattle.ada_regions.specs.Visibility.{joined_if, used_in, used_around};

use crate::direct::{bound, item_of};
use ada_entities::{binds, region_of_entity};
use ada_predefined::{child_unit, parent_unit, same_unit};
use ada_regions::{Binding, Denoted, Names, PredefinedUnit, Sought, UseClause};
use world_tables::List;

fn is_unit_or_parent(unit: PredefinedUnit, other: Option<PredefinedUnit>) -> bool
    ensures { result ≡ is_unit_or_parent unit other }
{
    match other {
        None => false,
        Some(other) => same_unit(unit, other),
    }
}

/// The unit in which the unit stands in which this one stands.
fn grandparent(unit: PredefinedUnit) -> Option<PredefinedUnit>
    ensures { result ≡ and_then (parent_unit unit) parent_unit }
{
    let parent = parent_unit(unit)?;
    parent_unit(parent)
}

/// Whether a unit is another one, or one in which that stands (10.1.2).
#[tactic(auto, unfolding(ada_regions::specs::Visibility::stands_under))]
fn stands_under(unit: PredefinedUnit, other: PredefinedUnit) -> bool
    ensures { result ≡ stands_under unit other }
{
    same_unit(unit, other)
        || is_unit_or_parent(unit, parent_unit(other))
        || is_unit_or_parent(unit, grandparent(other))
}

fn is_withed_by(unit: PredefinedUnit, clause: Denoted) -> bool
    ensures { result ≡ is_withed_by unit clause }
{
    match clause {
        Denoted::Entity(_) => false,
        Denoted::Unit(other) => stands_under(unit, other),
        Denoted::Item { .. } => false,
    }
}

/// Whether a unit is under one of these with clauses.
pub fn is_withed(withs: &List<Denoted>, unit: PredefinedUnit) -> bool
    ensures { result ≡ list_any (is_withed_by unit) withs.now }
{
    withs.iter().any(|clause| is_withed_by(unit, *clause))
}

/// A unit that is under a with clause.
fn some_if_withed(withs: &List<Denoted>, unit: PredefinedUnit) -> Option<Denoted>
    ensures { result ≡ some_if_withed withs.now unit }
{
    if is_withed(withs, unit) {
        Some(Denoted::Unit(unit))
    } else {
        None
    }
}

fn exports_name(name: &[u8], binding: &Binding) -> bool
    ensures { result ≡ exports_name name.now binding.now }
{
    binding.exported && binds(name, binding)
}

/// The binding of a name among those of a region that is visible from outside it.
fn exported_among<'n>(bound: &'n List<Binding>, name: &[u8]) -> Option<&'n Binding>
    ensures { option_copied result ≡ find (exports_name name.now) bound.now }
{
    bound.iter().find(|binding| exports_name(name, binding))
}

/// The binding of a name in a region that is visible from outside it.
fn exported_binding<'n>(names: &'n Names<'_>, name: &[u8], region: u32) -> Option<&'n Binding>
    ensures { option_copied result
        ≡ and_then (item_at region names.now.bindings) (find (exports_name name.now)) }
{
    let bound = names.bindings.get(region)?;
    exported_among(bound, name)
}

/// What a region has under a name that is visible from outside it.
#[tactic(auto, unfolding(ada_regions::specs::Visibility::exported_from))]
pub(crate) fn exported_from(names: &Names<'_>, name: &[u8], region: u32) -> Option<Denoted>
    ensures { result ≡ exported_from names.now name.now region }
{
    let binding = exported_binding(names, name, region)?;
    bound(binding)
}

/// What a use clause for a predefined unit makes visible.
fn visible_in_unit(names: &Names<'_>, name: &[u8], unit: PredefinedUnit) -> Option<Denoted>
    ensures { result
        ≡ option_or (item_of names.now.last_priority unit name.now)
        (and_then (child_unit unit name.now) (some_if_withed names.now.withs)) }
{
    match item_of(names.last_priority, unit, name) {
        Some(item) => Some(item),
        None => some_if_withed(&names.withs, child_unit(unit, name)?),
    }
}

/// What a use clause for a package makes visible.
#[tactic(auto, unfolding(ada_regions::specs::Visibility::visible_in))]
fn visible_in(names: &Names<'_>, name: &[u8], used: Denoted) -> Option<Denoted>
    ensures { result ≡ visible_in names.now name.now used }
{
    match used {
        Denoted::Entity(entity) => { exported_from(names, name, region_of_entity(names, entity)?) }
        Denoted::Unit(unit) => visible_in_unit(names, name, unit),
        Denoted::Item { .. } => None,
    }
}

/// Whether both are the same entity, unit, or item of one unit.
#[tactic(auto, unfolding(ada_regions::specs::Visibility::same_denoted))]
fn same_denoted(one: Denoted, other: Denoted) -> bool
    ensures { result ≡ same_denoted one other }
{
    match (one, other) {
        (Denoted::Entity(a), Denoted::Entity(b)) => a == b,
        (Denoted::Unit(a), Denoted::Unit(b)) => same_unit(a, b),
        (Denoted::Item { unit: a, .. }, Denoted::Item { unit: b, .. }) => same_unit(a, b),
        _ => false,
    }
}

fn joined(denoted: Denoted, others: Sought) -> Sought
    ensures { result ≡ joined denoted others }
{
    match others {
        Sought::Unknown => Sought::Found(denoted),
        Sought::Found(other) => {
            if same_denoted(denoted, other) {
                Sought::Found(other)
            } else {
                Sought::Ambiguous
            }
        }
        Sought::Ambiguous => Sought::Ambiguous,
    }
}

fn joined_if(denoted: Option<Denoted>, others: Sought) -> Sought
    ensures { result ≡ joined_if denoted others }
{
    match denoted {
        None => others,
        Some(denoted) => joined(denoted, others),
    }
}

/// What one use clause makes visible, if it is one of this region, joined to what those behind it
/// do.
fn used_by(
    names: &Names<'_>,
    name: &[u8],
    region: u32,
    clause: &UseClause,
    others: Sought,
) -> Sought
    ensures { result
        ≡ cond (eqb clause.now.region region)
        (joined_if (visible_in names.now name.now clause.now.used) others) others }
{
    if clause.region == region {
        joined_if(visible_in(names, name, clause.used), others)
    } else {
        others
    }
}

/// What the last use clause before a place makes visible, if it is one of this region, joined to
/// what those from the place on do.
#[tactic(auto, using(crate::proofs::Drops::used_in_before))]
fn used_before(names: &Names<'_>, name: &[u8], region: u32, place: usize, behind: Sought) -> Sought
    requires some { 0 < place }
    requires inside { place ≤ length names.now.uses }
    ensures { (others : Sought)
        → behind ≡ used_in names.now name.now region (drop place names.now.uses) others
        → result ≡ used_in names.now name.now region (drop (place - 1) names.now.uses) others }
{
    match names.uses.get(place - 1) {
        Some(clause) => used_by(names, name, region, clause, behind),
        None => behind,
    }
}

/// What the packages that clauses of a region name make visible, joined to what others do.
#[tactic(auto, using(std::proofs::lemmas::List::drop_all))]
pub(crate) fn used_in(names: &Names<'_>, name: &[u8], region: u32, others: Sought) -> Sought
    ensures { result ≡ used_in names.now name.now region names.now.uses others }
{
    let mut found = others;
    let mut place = names.uses.len();
    while place > 0 {
        found = used_before(names, name, region, place, found);
        place -= 1;
    }
    found
}

/// What clauses of the region of the last frame before a place make visible, joined to what those
/// of the frames from the place outwards do.
#[tactic(auto, using(crate::proofs::Drops::used_around_before))]
fn used_in_frame(names: &Names<'_>, name: &[u8], place: usize, outside: Sought) -> Sought
    requires some { 0 < place }
    requires inside { place ≤ length names.now.frames }
    ensures { outside ≡ used_around names.now name.now (drop place names.now.frames)
        → result ≡ used_around names.now name.now (drop (place - 1) names.now.frames) }
{
    match names.frames.get(place - 1) {
        Some(frame) => used_in(names, name, frame.region, outside),
        None => outside,
    }
}

/// What clauses of the open regions make visible.
#[tactic(auto, using(std::proofs::lemmas::List::drop_all))]
pub(crate) fn used_around(names: &Names<'_>, name: &[u8]) -> Sought
    ensures { result ≡ used_around names.now name.now names.now.frames }
{
    let mut found = Sought::Unknown;
    let mut place = names.frames.len();
    while place > 0 {
        found = used_in_frame(names, name, place, found);
        place -= 1;
    }
    found
}
