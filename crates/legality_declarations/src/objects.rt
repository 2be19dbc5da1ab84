//! Objects (ISO/IEC 8652:2012, 3.3.1).
ghost use Rattle.std.specs.Prelude.{◌≡◌, ◌++◌, OnOk};
ghost use Rattle.std.specs.List.{flat_map};
ghost use Rattle.ada_regions.specs.Words.{all_of};
ghost use Rattle.ada_legality.specs.Declarations.{object_found, object_judged};

use ada_legality::{Finding, IndicationUse, Known};
use ada_regions::AdaType;
use ada_tree::{Identifier, ObjectDeclaration, OneOrMore};
use ann_base::NoMemory;
use legality_conditions::{cells_noted, value_alone_found_if};
use legality_parts::{indication_found, type_of_mark};
use legality_tasking::{protected_noted, task_judged, typed_object_if};
use std::alloc::Global;
use world_tables::List;

/// One of the objects that are declared.
#[tactic(auto, unfolding(ada_legality::specs::Declarations::object_judged))]
fn object_judged(
    found: &mut List<Finding>,
    known: &Known<'_, '_>,
    object: &ObjectDeclaration,
    t: Option<AdaType>,
    name: &Identifier,
) -> Result<(), NoMemory>
    ensures { OnOk result (found.new ≡ found.old ++ object_judged known.now object.now t name.now) }
{
    typed_object_if(found, known, object, name, t)?;
    task_judged(found, known, name, name.place)?;
    protected_noted(found, known, false, name)?;
    cells_noted(found, known, name, name.place)
}

/// All objects that are declared.
fn objects_judged(
    found: &mut List<Finding>,
    known: &Known<'_, '_>,
    object: &ObjectDeclaration,
    t: Option<AdaType>,
    names: &OneOrMore<Identifier>,
) -> Result<(), NoMemory>
    ensures { OnOk result
        (found.new
        ≡ found.old ++ flat_map (object_judged known.now object.now t) (all_of names.now)) }
{
    object_judged(found, known, object, t, &names.first)?;
    for name in names.others.as_slice() {
        object_judged(found, known, object, t, name)?;
    }
    Ok(())
}

/// An object declaration.
#[tactic(auto, unfolding(ada_legality::specs::Declarations::object_found))]
pub fn object_found(
    alloc: Global,
    found: &mut List<Finding>,
    known: &Known<'_, '_>,
    object: &ObjectDeclaration,
) -> Result<(), NoMemory>
    ensures { OnOk result (found.new ≡ found.old ++ object_found object.now known.now) }
{
    let t = type_of_mark(known, &object.subtype);
    objects_judged(found, known, object, t, &object.names)?;
    indication_found(
        alloc,
        found,
        known,
        IndicationUse::ForObject,
        &object.subtype,
    )?;
    value_alone_found_if(alloc, found, known, t, &object.initial)
}
