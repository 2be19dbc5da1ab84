//! Type declarations (ISO/IEC 8652:2012, 3.2.1, 3.6, 7.6).
ghost use Rattle.std.specs.Prelude.{◌≡◌, ◌++◌, IfOk, OnOk, false, int_le, option_map, unwrap_or};
ghost use Rattle.ada_legality.specs.CallStatements.{found_if};
ghost use Rattle.ada_legality.specs.declared.limits.TheConstants.{MOST_COMPONENTS};
ghost use Rattle.ada_legality.specs.Declarations.{array_found, array_judged};
ghost use Rattle.ada_legality.specs.Declarations.{components_found, components_from_to};
ghost use Rattle.ada_legality.specs.Declarations.{definition_found, is_controlled_root};
ghost use Rattle.ada_legality.specs.Declarations.{is_other_component, is_too_long};

use crate::components::components_found;
use ada_entities::denoted_by;
use ada_legality::{Finding, IndicationUse, Known, MOST_COMPONENTS, Number, Read, Rule};
use ada_regions::AdaType;
use ada_subtypes::mark_denoted;
use ada_tree::{Component, Expression, Name, OneOrMore, SubtypeIndication, TypeDefinition};
use ann_base::{NoMemory, Place};
use legality_choices::static_number;
use legality_expressions::Readable;
use legality_parts::{bounds_judged, indication_found, type_of_mark};
use legality_types::{broken_if, broken_unless, is_root_controlled, is_scalar, type_of_bounds};
use legality_values::place_of;
use std::alloc::Global;
use world_tables::List;

/// The components of an array are scalars (this profile's own).
fn is_other_component(t: AdaType) -> bool
    ensures { result ≡ is_other_component t }
{
    !(is_scalar(t) || is_root_controlled(t))
}

/// More components lie from one number to another than there may be.
fn lie_apart(low: Option<Number>, high: Option<Number>) -> bool
    ensures { result ≡ int_le MOST_COMPONENTS (components_from_to low high) }
{
    match low {
        None => false,
        Some(low) => match high {
            None => false,
            Some(high) => low.is_before(MOST_COMPONENTS as u16, high),
        },
    }
}

/// An array has more components than it may.
#[tactic(auto, unfolding(ada_legality::specs::Declarations::is_too_long))]
fn is_too_long(
    known: &Known<'_, '_>,
    t: AdaType,
    low: &Expression,
    low_read: &Read,
    high: &Expression,
    high_read: &Read,
) -> Result<bool, NoMemory>
    ensures { IfOk result
        (λ long. long ≡ is_too_long known.now t low.now low_read.now high.now high_read.now) }
{
    let first = static_number(known, t, low, low_read.typed)?;
    let last = static_number(known, t, high, high_read.typed)?;
    Ok(lie_apart(first, last))
}

/// The component of an array is no scalar.
fn is_other_component_if(t: Option<AdaType>) -> bool
    ensures { result ≡ unwrap_or (option_map is_other_component t) false }
{
    match t {
        None => false,
        Some(t) => is_other_component(t),
    }
}

/// An array type that is too long, or not of scalars.
#[tactic(auto, unfolding(ada_legality::specs::Declarations::array_judged))]
fn array_judged(
    found: &mut List<Finding>,
    known: &Known<'_, '_>,
    place: Place,
    component: Option<AdaType>,
    too_long: bool,
) -> Result<(), NoMemory>
    ensures { OnOk result
        (found.new ≡ found.old ++ array_judged known.now place component too_long) }
{
    let broken = is_other_component_if(component) || too_long;
    broken_if(found, Rule::StaticBounds, broken, place)
}

/// An array type.
#[tactic(auto, unfolding(ada_legality::specs::Declarations::array_found))]
fn array_found(
    alloc: Global,
    found: &mut List<Finding>,
    known: &Known<'_, '_>,
    place: Place,
    low: &Expression,
    high: &Expression,
    component: &SubtypeIndication,
) -> Result<(), NoMemory>
    ensures { OnOk result
        (found.new ≡ found.old ++ array_found place low.now high.now component.now known.now) }
{
    let first = low.read(alloc, found, known)?;
    let last = high.read(alloc, found, known)?;
    let t = type_of_bounds(first.typed, last.typed);
    let too_long = is_too_long(known, t, low, &first, high, &last)?;
    array_judged(
        found,
        known,
        place,
        type_of_mark(known, component),
        too_long,
    )?;
    bounds_judged(found, known, t, low, &first, high, &last)?;
    let purpose = IndicationUse::ForArrayComponent;
    indication_found(alloc, found, known, purpose, component)
}

/// A derived type has a parent of controlled types.
#[tactic(auto, unfolding(ada_legality::specs::Declarations::is_controlled_root))]
fn is_controlled_root(known: &Known<'_, '_>, name: &Name) -> bool
    ensures { result ≡ is_controlled_root known.now name.now }
{
    match denoted_by(known.names.get(), name) {
        None => false,
        Some(denoted) => match mark_denoted(known.names.get(), denoted) {
            None => false,
            Some(subtype) => is_root_controlled(subtype.of_type),
        },
    }
}

/// The components of a derived type, where it has some.
fn components_if(
    alloc: Global,
    found: &mut List<Finding>,
    known: &Known<'_, '_>,
    components: &Option<OneOrMore<Component>>,
) -> Result<(), NoMemory>
    ensures { OnOk result
        (found.new ≡ found.old ++ found_if components_found components.now known.now) }
{
    match components {
        None => Ok(()),
        Some(components) => components_found(alloc, found, known, components),
    }
}

/// A type's definition.
#[tactic(auto, unfolding(ada_legality::specs::Declarations::definition_found))]
pub fn definition_found(
    alloc: Global,
    found: &mut List<Finding>,
    known: &Known<'_, '_>,
    place: Place,
    definition: &TypeDefinition,
) -> Result<(), NoMemory>
    ensures { OnOk result
        (found.new ≡ found.old ++ definition_found place definition.now known.now) }
{
    match definition {
        TypeDefinition::Enumeration { .. } => Ok(()),
        TypeDefinition::Array {
            low,
            high,
            component,
        } => array_found(alloc, found, known, place, low, high, component),
        TypeDefinition::Derived { parent, components } => {
            let kept = is_controlled_root(known, parent);
            broken_unless(found, Rule::KindOfName, kept, place_of(parent))?;
            components_if(alloc, found, known, components)
        }
    }
}
