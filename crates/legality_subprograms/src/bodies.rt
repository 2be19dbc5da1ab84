//! The heads of subprograms' bodies (ISO/IEC 8652:2012, 6.3).
ghost use Rattle.std.specs.Prelude.{◌≡◌, ◌++◌, OnOk, option_map};
ghost use Rattle.ada_legality.specs.CallStatements.{type_of_mark};
ghost use Rattle.ada_legality.specs.Declarations.{function_noted, subprogram_body_judged};
ghost use Rattle.ada_legality.specs.Declarations.{subprogram_here};

use crate::overriding::{overriding_judged, place_of_specification};
use ada_entities::entity_denoted;
use ada_legality::{BodyKind, Finding, Known, SubprogramAround};
use ada_regions::AdaType;
use ada_tree::{SubprogramSpecification, SubtypeIndication};
use ann_base::NoMemory;
use legality_parts::type_of_mark;
use legality_profiles::{body_noted, body_profile_judged};
use legality_types::note;
use std::alloc::Global;
use world_tables::List;

/// The type of a function's result, where it is known.
fn result_here(
    known: &Known<'_, '_>,
    result_of: &Option<SubtypeIndication>,
) -> Option<Option<AdaType>>
    ensures { result ≡ option_map (type_of_mark known.now) result_of.now }
{
    let indication = result_of.as_ref()?;
    Some(type_of_mark(known, indication))
}

/// What is known of a subprogram in its body.
#[tactic(auto, unfolding(ada_legality::specs::Declarations::subprogram_here))]
pub fn subprogram_here(
    known: &Known<'_, '_>,
    specification: &SubprogramSpecification,
) -> SubprogramAround
    ensures { result ≡ subprogram_here known.now specification.now }
{
    SubprogramAround {
        place: specification.place,
        begins: place_of_specification(specification),
        result: result_here(known, &specification.result),
    }
}

/// A function's own statements have a return.
fn function_noted(
    found: &mut List<Finding>,
    specification: &SubprogramSpecification,
) -> Result<(), NoMemory>
    ensures { OnOk result (found.new ≡ found.old ++ function_noted specification.now) }
{
    if specification.result.is_some() {
        note(
            found,
            Finding::Function {
                function: specification.place,
                place: place_of_specification(specification),
            },
        )
    } else {
        Ok(())
    }
}

/// The name and the profile of a subprogram's body.
#[tactic(auto, unfolding(ada_legality::specs::Declarations::subprogram_body_judged))]
pub fn subprogram_body_judged(
    alloc: Global,
    found: &mut List<Finding>,
    known: &Known<'_, '_>,
    specification: &SubprogramSpecification,
    unit: Option<u32>,
) -> Result<(), NoMemory>
    ensures { OnOk result
        (found.new ≡ found.old ++ subprogram_body_judged specification.now unit known.now) }
{
    body_noted(found, known, BodyKind::Subprogram, &specification.name)?;
    function_noted(found, specification)?;
    let entity = entity_denoted(known.names.get(), specification.name.place);
    body_profile_judged(alloc, found, known, specification, entity)?;
    overriding_judged(found, known, specification, unit)
}
