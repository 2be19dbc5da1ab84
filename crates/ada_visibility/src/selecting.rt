//! What expanded names and selected components denote (ISO/IEC 8652:2012, 4.1.3).
ghost use Rattle.std.specs.Prelude.{◌≡◌, OnOk, option_copied, option_map, find};
ghost use Rattle.std.specs.Option.{option_or};
ghost use Rattle.ada_regions.specs.PredefinedUnits.{child_unit};
ghost use Rattle.ada_regions.specs.Visibility.{item_of};
ghost use Rattle.ada_regions.specs.SelectedNames.{region_of_type, region_of_subtype};
ghost use Rattle.ada_regions.specs.SelectedNames.{region_selected, exported_by};
ghost use Rattle.ada_regions.specs.SelectedNames.{is_owned_by, frame_owned_by};
ghost use Rattle.ada_regions.specs.SelectedNames.{declared_inside, selected_from_entity};
ghost use Rattle.ada_regions.specs.SelectedNames.{selected, selection_answered};
ghost use Rattle.ada_regions.specs.SelectedNames.{parts_resolved, name_resolved};

use crate::direct::{bound, item_of};
use crate::seeking::resolved;
use crate::use_clauses::exported_from;
use ada_entities::{binding_in, denoted_at, entity_at, noted, told};
use ada_predefined::child_unit;
use ada_regions::{
    AdaType, Denoted, Entity, EntityKind, Frame, NameFault, Names, PredefinedUnit, Subtype,
};
use ada_tree::{Identifier, Name};
use ann_base::NoMemory;
use std::alloc::Global;

/// The region of a type's declaration.
#[tactic(auto, unfolding(ada_regions::specs::SelectedNames::region_of_type))]
fn region_of_type(names: &Names<'_>, of_type: AdaType) -> Option<u32>
    ensures { result ≡ region_of_type names.now of_type }
{
    match of_type {
        AdaType::Derived(number) => Some(names.controlled_types.get(number.0 as usize)?.region),
        AdaType::Task(number) => Some(names.task_units.get(number.0 as usize)?.region),
        AdaType::Protected(number) => Some(names.protected_units.get(number.0 as usize)?.region),
        _ => None,
    }
}

fn region_of_subtype(names: &Names<'_>, subtype: Option<Subtype>) -> Option<u32>
    ensures { result ≡ region_of_subtype names.now subtype }
{
    let subtype = subtype?;
    region_of_type(names, subtype.of_type)
}

/// The region whose exported names stand behind an entity's name.
#[tactic(auto, unfolding(ada_regions::specs::SelectedNames::region_selected))]
fn region_selected(names: &Names<'_>, own: Option<u32>, kind: &EntityKind) -> Option<u32>
    ensures { result ≡ region_selected names.now own kind.now }
{
    match kind {
        EntityKind::Package => own,
        EntityKind::Object { subtype, .. } => region_of_subtype(names, *subtype),
        EntityKind::Parameter { subtype, .. } => region_of_subtype(names, *subtype),
        EntityKind::Component { subtype, .. } => region_of_subtype(names, *subtype),
        _ => None,
    }
}

#[tactic(auto, unfolding(ada_regions::specs::SelectedNames::exported_by))]
fn exported_by(names: &Names<'_>, name: &[u8], entity: &Entity) -> Option<Denoted>
    ensures { result ≡ exported_by names.now name.now entity.now }
{
    let region = region_selected(names, entity.region, &entity.kind)?;
    exported_from(names, name, region)
}

fn is_owned_by(entity: u32, owner: Option<u32>) -> bool
    ensures { result ≡ is_owned_by entity owner }
{
    match owner {
        None => false,
        Some(owner) => owner == entity,
    }
}

/// The innermost frame of a construct that is open.
fn frame_of<'n>(names: &'n Names<'_>, entity: u32) -> Option<&'n Frame>
    ensures { option_copied result ≡ find (frame_owned_by entity) names.now.frames }
{
    names
        .frames
        .iter()
        .find(|frame| is_owned_by(entity, frame.owner))
}

/// What is declared under a name in the region of a frame.
#[tactic(auto, unfolding(ada_regions::specs::SelectedNames::declared_inside))]
fn declared_inside(names: &Names<'_>, name: &[u8], frame: &Frame) -> Option<Denoted>
    ensures { result ≡ declared_inside names.now name.now frame.now }
{
    let binding = binding_in(&names.bindings, frame.region, name)?;
    bound(binding)
}

/// What stands under a name behind an entity that is open, or one that is not.
fn selected_from_entity(names: &Names<'_>, name: &[u8], entity: u32) -> Option<Denoted>
    ensures { result
        ≡ selected_from_entity names.now name.now entity
        (find (frame_owned_by entity) names.now.frames) }
{
    match frame_of(names, entity) {
        Some(frame) => declared_inside(names, name, frame),
        None => exported_by(names, name, entity_at(names, entity)?),
    }
}

fn selected_from_unit(last: u8, name: &[u8], unit: PredefinedUnit) -> Option<Denoted>
    ensures { result
        ≡ option_or (item_of last unit name.now)
        (option_map Denoted.Unit (child_unit unit name.now)) }
{
    match item_of(last, unit, name) {
        Some(item) => Some(item),
        None => Some(Denoted::Unit(child_unit(unit, name)?)),
    }
}

/// What stands under a name behind what is denoted.
#[tactic(auto, unfolding(ada_regions::specs::SelectedNames::selected))]
pub fn selected(names: &Names<'_>, name: &[u8], prefix: Denoted) -> Option<Denoted>
    ensures { result ≡ selected names.now name.now prefix }
{
    match prefix {
        Denoted::Entity(entity) => selected_from_entity(names, name, entity),
        Denoted::Unit(unit) => selected_from_unit(names.last_priority, name, unit),
        Denoted::Item { .. } => None,
    }
}

fn selection_answered(
    alloc: Global,
    names: &mut Names<'_>,
    identifier: &Identifier,
    selection: Option<Denoted>,
) -> Result<(), NoMemory>
    ensures { OnOk result (names.new ≡ selection_answered identifier.now selection names.old) }
{
    match selection {
        Some(denoted) => noted(alloc, names, identifier.place, denoted),
        None => {
            told(names, NameFault::Unknown(identifier.place));
            Ok(())
        }
    }
}

/// The further parts of a name, behind what those before them denote; nothing is asked of parts
/// behind an unknown one.
#[tactic(auto, using(crate::proofs::Parts::none_resolved))]
fn parts_resolved(
    alloc: Global,
    names: &mut Names<'_>,
    prefix: Option<Denoted>,
    parts: &[Identifier],
) -> Result<(), NoMemory>
    ensures { OnOk result (names.new ≡ parts_resolved prefix parts.now names.old) }
{
    let mut before = prefix;
    for part in parts {
        let denoted = match before {
            Some(denoted) => denoted,
            None => return Ok(()),
        };
        let selection = selected(names, part.text.as_slice(), denoted);
        selection_answered(alloc, names, part, selection)?;
        before = selection;
    }
    Ok(())
}

/// A name is used.
#[tactic(auto, unfolding(ada_regions::specs::SelectedNames::name_resolved))]
pub fn name_resolved(alloc: Global, names: &mut Names<'_>, name: &Name) -> Result<(), NoMemory>
    ensures { OnOk result (names.new ≡ name_resolved name.now names.old) }
{
    resolved(alloc, names, &name.parts.first)?;
    let prefix = denoted_at(names, name.parts.first.place);
    parts_resolved(alloc, names, prefix, name.parts.others.as_slice())
}
