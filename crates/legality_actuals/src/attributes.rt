//! Attributes of names with their actuals (ISO/IEC 8652:2012, 3.5, 4.1.4).
ghost use Rattle.std.specs.Prelude.{◌≡◌, ◌++◌, OnOk};
ghost use Rattle.ada_legality.specs.ReadExpressions.{image_judged, attribute_judged};

use ada_legality::{ActualPart, Finding, Known};
use ada_regions::AdaType;
use ada_tree::{Attribute, Name};
use ann_base::NoMemory;
use legality_calls::{actuals_numbered, without_name};
use legality_names::takes_arguments;
use legality_reads::type_of_prefix;
use legality_values::{attribute_alone, index_fitted, other_attribute, place_of};
use std::alloc::Global;
use world_tables::List;

/// Image has one argument, which is a value of its type.
#[tactic(auto, unfolding(ada_legality::specs::ReadExpressions::image_judged))]
fn image_judged(
    alloc: Global,
    found: &mut List<Finding>,
    known: &Known<'_, '_>,
    name: &Name,
    actuals: &[ActualPart],
    t: Option<AdaType>,
) -> Result<(), NoMemory>
    ensures { OnOk result (found.new ≡ found.old ++ image_judged known.now name.now actuals.now t) }
{
    match t {
        None => attribute_alone(found, known, name, Attribute::Image),
        Some(t) => {
            let formals = without_name(alloc, None)?;
            actuals_numbered(found, known, place_of(name), formals.as_slice(), actuals)?;
            index_fitted(found, Some(t), actuals)
        }
    }
}

/// A name with an attribute.
#[tactic(auto, unfolding(ada_legality::specs::ReadExpressions::attribute_judged))]
pub fn attribute_judged(
    alloc: Global,
    found: &mut List<Finding>,
    known: &Known<'_, '_>,
    name: &Name,
    attribute: Attribute,
    actuals: &[ActualPart],
) -> Result<(), NoMemory>
    ensures { OnOk result
        (found.new ≡ found.old ++ attribute_judged known.now name.now attribute actuals.now) }
{
    if takes_arguments(attribute) {
        let t = type_of_prefix(known, name);
        image_judged(alloc, found, known, name, actuals, t)
    } else {
        other_attribute(found, known, name, attribute, actuals)
    }
}
