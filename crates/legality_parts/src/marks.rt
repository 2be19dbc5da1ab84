//! Subtype indications and parameters (ISO/IEC 8652:2012, 3.2.2, 3.7, 6.1, 9.4).
ghost use Rattle.std.specs.Prelude.{◌≡◌, ◌++◌, OnOk};
ghost use Rattle.ada_legality.specs.ReadExpressions.{is_unclear_mark};
ghost use Rattle.ada_legality.specs.Values.{is_kind};
ghost use Rattle.ada_legality.specs.CallStatements.{type_of_mark, constraint_found, has_range};
ghost use Rattle.ada_legality.specs.CallStatements.{has_access, may_be_indicated, range_fits};
ghost use Rattle.ada_legality.specs.CallStatements.{type_fits_indication, is_fitting_mark};
ghost use Rattle.ada_legality.specs.CallStatements.{may_have_access, has_other_discriminant};
ghost use Rattle.ada_legality.specs.CallStatements.{component_judged, mark_judged, mark_judged_if};
ghost use Rattle.ada_legality.specs.CallStatements.{indication_found, parameter_found};

use crate::bounds::bounds_if;
use ada_legality::{Finding, IndicationUse, Known, Rule};
use ada_regions::{AdaType, is_controlled_type};
use ada_subtypes::indicated_subtype;
use ada_tree::{Constraint as Indicated, Name, Parameter, SubtypeIndication};
use ann_base::NoMemory;
use legality_entities::kind_of_name;
use legality_types::{
    broken_if, broken_unless, has_ranges, is_event_timer_or_budget, is_root_controlled, is_scalar,
    is_scalar_or_array, is_timer,
};
use legality_values::{is_unclear_mark, place_of};
use std::alloc::Global;
use world_tables::List;

/// The type that is indicated.
#[tactic(auto, unfolding(ada_legality::specs::CallStatements::type_of_mark))]
pub fn type_of_mark(known: &Known<'_, '_>, indication: &SubtypeIndication) -> Option<AdaType>
    ensures { result ≡ type_of_mark known.now indication.now }
{
    let subtype = indicated_subtype(known.names.get(), indication)?;
    Some(subtype.of_type)
}

/// What restricts a subtype mark.
fn constraint_found(
    alloc: Global,
    found: &mut List<Finding>,
    known: &Known<'_, '_>,
    t: Option<AdaType>,
    constraint: &Option<Indicated>,
) -> Result<(), NoMemory>
    ensures { OnOk result (found.new ≡ found.old ++ constraint_found t constraint.now known.now) }
{
    match constraint {
        None => Ok(()),
        Some(Indicated::Access(_)) => Ok(()),
        Some(Indicated::Range { low, high }) => bounds_if(alloc, found, known, t, low, high),
    }
}

/// A range stands behind the mark.
fn has_range(constraint: &Option<Indicated>) -> bool
    ensures { result ≡ has_range constraint.now }
{
    match constraint {
        None => false,
        Some(Indicated::Access(_)) => false,
        Some(Indicated::Range { .. }) => true,
    }
}

/// A discriminant stands behind the mark.
fn has_access(constraint: &Option<Indicated>) -> bool
    ensures { result ≡ has_access constraint.now }
{
    match constraint {
        None => false,
        Some(Indicated::Access(_)) => true,
        Some(Indicated::Range { .. }) => false,
    }
}

/// Which types may be indicated there.
#[tactic(auto, unfolding(ada_legality::specs::CallStatements::may_be_indicated))]
fn may_be_indicated(purpose: IndicationUse, t: AdaType) -> bool
    ensures { result ≡ may_be_indicated purpose t }
{
    match purpose {
        IndicationUse::ForResult => is_scalar(t),
        IndicationUse::ForComponent => is_scalar_or_array(t),
        IndicationUse::ForParameter { in_unit, overrides } => {
            is_scalar(t)
                || ((in_unit && is_event_timer_or_budget(t))
                    || (overrides && is_controlled_type(t)))
        }
        _ => true,
    }
}

/// A range stands behind a type of which one may be taken alone.
fn range_fits(constraint: &Option<Indicated>, t: AdaType) -> bool
    ensures { result ≡ range_fits constraint.now t }
{
    !has_range(constraint) || has_ranges(t)
}

/// A type may be indicated there.
#[tactic(auto, unfolding(ada_legality::specs::CallStatements::type_fits_indication))]
fn type_fits_indication(purpose: IndicationUse, constraint: &Option<Indicated>, t: AdaType) -> bool
    ensures { result ≡ type_fits_indication purpose constraint.now t }
{
    !is_root_controlled(t) && (range_fits(constraint, t) && may_be_indicated(purpose, t))
}

/// A name is that of a subtype whose own definition names no type.
fn names_unclear_mark(known: &Known<'_, '_>, name: &Name) -> bool
    ensures { result ≡ is_kind is_unclear_mark known.now name.now }
{
    match kind_of_name(known, name) {
        None => false,
        Some(kind) => is_unclear_mark(kind),
    }
}

/// A mark whose own definition names no type is broken there.
#[tactic(auto, unfolding(ada_legality::specs::CallStatements::is_fitting_mark))]
fn is_fitting_mark(
    known: &Known<'_, '_>,
    purpose: IndicationUse,
    indication: &SubtypeIndication,
    t: Option<AdaType>,
) -> bool
    ensures { result ≡ is_fitting_mark known.now purpose indication.now t }
{
    names_unclear_mark(known, &indication.name)
        || match t {
            None => false,
            Some(t) => type_fits_indication(purpose, &indication.constraint, t),
        }
}

/// A discriminant is that of a Timer alone, in its object's declaration.
fn may_have_access(purpose: IndicationUse, t: AdaType) -> bool
    ensures { result ≡ may_have_access purpose t }
{
    match purpose {
        IndicationUse::ForObject => is_timer(t),
        _ => false,
    }
}

/// A mark with a discriminant that its type has not.
#[tactic(auto, unfolding(ada_legality::specs::CallStatements::has_other_discriminant))]
fn has_other_discriminant(
    purpose: IndicationUse,
    constraint: &Option<Indicated>,
    t: AdaType,
) -> bool
    ensures { result ≡ has_other_discriminant purpose constraint.now t }
{
    has_access(constraint) && !(may_have_access(purpose, t) || is_root_controlled(t))
}

/// Protected components are scalars or arrays.
#[tactic(auto, unfolding(ada_legality::specs::CallStatements::component_judged))]
fn component_judged(
    found: &mut List<Finding>,
    purpose: IndicationUse,
    t: AdaType,
) -> Result<(), NoMemory>
    ensures { OnOk result (found.new ≡ found.old ++ component_judged purpose t) }
{
    match purpose {
        IndicationUse::ForProtectedComponent(place) => {
            let kept = is_scalar_or_array(t) || is_root_controlled(t);
            broken_unless(found, Rule::ProtectedComponents, kept, place)
        }
        _ => Ok(()),
    }
}

/// A mark of this type.
#[tactic(auto, unfolding(ada_legality::specs::CallStatements::mark_judged))]
fn mark_judged(
    found: &mut List<Finding>,
    purpose: IndicationUse,
    name: &Name,
    constraint: &Option<Indicated>,
    t: AdaType,
) -> Result<(), NoMemory>
    ensures { OnOk result (found.new ≡ found.old ++ mark_judged purpose name.now constraint.now t) }
{
    component_judged(found, purpose, t)?;
    let broken = has_other_discriminant(purpose, constraint, t);
    broken_if(found, Rule::Discriminant, broken, place_of(name))
}

/// The same, where the type is known.
fn mark_judged_if(
    found: &mut List<Finding>,
    purpose: IndicationUse,
    name: &Name,
    constraint: &Option<Indicated>,
    t: Option<AdaType>,
) -> Result<(), NoMemory>
    ensures { OnOk result
        (found.new ≡ found.old ++ mark_judged_if purpose name.now constraint.now t) }
{
    match t {
        None => Ok(()),
        Some(t) => mark_judged(found, purpose, name, constraint, t),
    }
}

/// A subtype indication.
#[tactic(auto, unfolding(ada_legality::specs::CallStatements::indication_found))]
pub fn indication_found(
    alloc: Global,
    found: &mut List<Finding>,
    known: &Known<'_, '_>,
    purpose: IndicationUse,
    indication: &SubtypeIndication,
) -> Result<(), NoMemory>
    ensures { OnOk result
        (found.new ≡ found.old ++ indication_found purpose indication.now known.now) }
{
    let t = type_of_mark(known, indication);
    let kept = is_fitting_mark(known, purpose, indication, t);
    broken_unless(found, Rule::KindOfName, kept, place_of(&indication.name))?;
    mark_judged_if(found, purpose, &indication.name, &indication.constraint, t)?;
    constraint_found(alloc, found, known, t, &indication.constraint)
}

/// Parameters with one subtype.
#[tactic(auto, unfolding(ada_legality::specs::CallStatements::parameter_found))]
pub(crate) fn parameter_found(
    alloc: Global,
    found: &mut List<Finding>,
    known: &Known<'_, '_>,
    in_unit: bool,
    overrides: bool,
    parameter: &Parameter,
) -> Result<(), NoMemory>
    ensures { OnOk result
        (found.new ≡ found.old ++ parameter_found in_unit overrides parameter.now known.now) }
{
    let is_changed = parameter.is_in && parameter.is_out;
    let purpose = IndicationUse::ForParameter {
        in_unit: in_unit && is_changed,
        overrides: overrides && is_changed,
    };
    indication_found(alloc, found, known, purpose, &parameter.subtype)
}
