//! Array types, controlled types and subtypes (ISO/IEC 8652:2012, 3.2.2, 3.6, 7.6).
ghost use Rattle.std.specs.Prelude.{◌≡◌, OnOk};
ghost use Rattle.ada_regions.specs.Words.{and_then};
ghost use Rattle.ada_regions.specs.Names.{denoted_by};
ghost use Rattle.ada_regions.specs.Subtypes.{mark_denoted};
ghost use Rattle.ada_regions.specs.Declaring.{is_limited_root, is_limited_parent};
ghost use Rattle.ada_regions.specs.Declaring.{numbered_controlled, array_declared};
ghost use Rattle.ada_regions.specs.Declaring.{derived_declared, subtype_declared};

use crate::entering::{entered_here, number};
use crate::numbering::with_region;
use ada_entities::{denoted_by, enclosure_here};
use ada_regions::{AdaType, EntityKind, Names, NumberedControlled, Subtype, free_subtype};
use ada_subtypes::{array_type, indicated_subtype, mark_denoted};
use ada_tree::{Expression, Identifier, Name, SubtypeIndication};
use ann_base::NoMemory;
use profile_image::ControlledNo;
use std::alloc::Global;

/// An array type is declared.
#[tactic(auto, unfolding(ada_regions::specs::Declaring::array_declared))]
pub fn array_declared(
    alloc: Global,
    names: &mut Names<'_>,
    identifier: &Identifier,
    low: &Expression,
    high: &Expression,
    component: &SubtypeIndication,
) -> Result<(), NoMemory>
    ensures { OnOk result
        (names.new ≡ array_declared identifier.now low.now high.now component.now names.old) }
{
    let array = number(names.arrays.len())?;
    let of_type = array_type(names, low, high, component);
    names.arrays.push_back(of_type)?;
    let kind = EntityKind::Mark(Some(free_subtype(AdaType::Array(array))));
    entered_here(alloc, names, identifier, kind, None)
}

fn is_limited_root(of_type: AdaType) -> bool
    ensures { result ≡ is_limited_root of_type }
{
    match of_type {
        AdaType::LimitedControlled => true,
        _ => false,
    }
}

fn is_limited_parent(parent: Option<Subtype>) -> bool
    ensures { result ≡ is_limited_parent parent }
{
    match parent {
        None => true,
        Some(parent) => is_limited_root(parent.of_type),
    }
}

/// The subtype that the name of a parent denotes.
fn parent_of(names: &Names<'_>, parent: &Name) -> Option<Subtype>
    ensures { result ≡ and_then (denoted_by names.now parent.now) (mark_denoted names.now) }
{
    let denoted = denoted_by(names, parent)?;
    mark_denoted(names, denoted)
}

#[tactic(auto, unfolding(ada_regions::specs::Declaring::numbered_controlled))]
fn numbered_controlled(names: &Names<'_>, parent: &Name) -> NumberedControlled
    ensures { result ≡ numbered_controlled names.now parent.now }
{
    NumberedControlled {
        region: names.regions,
        part: enclosure_here(names).part,
        is_limited: is_limited_parent(parent_of(names, parent)),
    }
}

/// A controlled type is declared.
#[tactic(auto, unfolding(ada_regions::specs::Declaring::derived_declared))]
pub fn derived_declared(
    alloc: Global,
    names: &mut Names<'_>,
    identifier: &Identifier,
    parent: &Name,
) -> Result<(), NoMemory>
    ensures { OnOk result (names.new ≡ derived_declared identifier.now parent.now names.old) }
{
    let derived = ControlledNo(number(names.controlled_types.len())?);
    let region = names.regions;
    let controlled = numbered_controlled(names, parent);
    names.controlled_types.push_back(controlled)?;
    with_region(names)?;
    let kind = EntityKind::Mark(Some(free_subtype(AdaType::Derived(derived))));
    entered_here(alloc, names, identifier, kind, Some(region))
}

/// A subtype is declared.
#[tactic(auto, unfolding(ada_regions::specs::Declaring::subtype_declared))]
pub fn subtype_declared(
    alloc: Global,
    names: &mut Names<'_>,
    identifier: &Identifier,
    indication: &SubtypeIndication,
) -> Result<(), NoMemory>
    ensures { OnOk result (names.new ≡ subtype_declared identifier.now indication.now names.old) }
{
    let kind = EntityKind::Mark(indicated_subtype(names, indication));
    entered_here(alloc, names, identifier, kind, None)
}
