//! Objects that are protected or limited, and the tasks of timers (ISO/IEC 8652:2012, 7.5, 9.4,
//! D.14, D.15).
ghost use Rattle.std.specs.Prelude.{◌≡◌, ◌++◌, ◌∷◌, [], OnOk, option_map, unwrap_or};
ghost use Rattle.ada_legality.specs.Declarations.{constant_noted, is_aliased_constant};
ghost use Rattle.ada_legality.specs.Declarations.{library_entity, protected_noted};
ghost use Rattle.ada_legality.specs.Declarations.{protected_number, protected_unit_of_name};
ghost use Rattle.ada_legality.specs.Declarations.{task_named, timer_noted, typed_object_if};
ghost use Rattle.ada_legality.specs.Declarations.{typed_object_judged};

use crate::tasks::{is_library_name, type_of_identifier};
use ada_entities::entity_denoted;
use ada_legality::{Finding, Known, ProtectedObject, Rule};
use ada_regions::AdaType;
use ada_tree::{Constraint as Indicated, Identifier, ObjectDeclaration};
use ann_base::{NoMemory, Place};
use legality_entities::entity_of_name;
use legality_names::is_library_entity;
use legality_types::{
    broken_if, has_no_values, is_event_timer_or_budget, is_task_id, is_timer, note,
};
use world_tables::List;

/// The number of a protected unit.
fn protected_number(t: AdaType) -> Option<u32>
    ensures { result ≡ protected_number t }
{
    match t {
        AdaType::Protected(unit) => Some(unit.0),
        _ => None,
    }
}

/// The protected unit of which an identifier is an object or the type.
#[tactic(auto, unfolding(ada_legality::specs::Declarations::protected_unit_of_name))]
pub fn protected_unit_of_name(known: &Known<'_, '_>, name: &Identifier) -> Option<u32>
    ensures { result ≡ protected_unit_of_name known.now name.now }
{
    let t = type_of_identifier(known, name)?;
    protected_number(t)
}

/// An object, where it is a protected one.
#[tactic(auto, unfolding(ada_legality::specs::Declarations::protected_noted))]
pub fn protected_noted(
    found: &mut List<Finding>,
    known: &Known<'_, '_>,
    single: bool,
    name: &Identifier,
) -> Result<(), NoMemory>
    ensures { OnOk result (found.new ≡ found.old ++ protected_noted known.now single name.now) }
{
    match protected_unit_of_name(known, name) {
        None => Ok(()),
        Some(unit) => note(
            found,
            Finding::ProtectedObject(ProtectedObject {
                unit,
                single,
                is_library: is_library_name(known, name),
                place: name.place,
            }),
        ),
    }
}

/// An aliased constant Task_Id.
fn is_aliased_constant(object: &ObjectDeclaration, t: AdaType) -> bool
    ensures { result ≡ is_aliased_constant object.now t }
{
    object.aliased && (object.constant && is_task_id(t))
}

/// The constant with this entity.
fn constant_with(found: &mut List<Finding>, entity: Option<u32>) -> Result<(), NoMemory>
    ensures { OnOk result
        (found.new
        ≡ found.old ++ unwrap_or (option_map (λ e. Finding.TaskConstant e ∷ []) entity) []) }
{
    match entity {
        None => Ok(()),
        Some(entity) => note(found, Finding::TaskConstant { entity }),
    }
}

/// Such a constant.
#[tactic(auto, unfolding(ada_legality::specs::Declarations::constant_noted))]
fn constant_noted(
    found: &mut List<Finding>,
    known: &Known<'_, '_>,
    is_constant: bool,
    name: &Identifier,
) -> Result<(), NoMemory>
    ensures { OnOk result (found.new ≡ found.old ++ constant_noted known.now is_constant name.now) }
{
    if is_constant {
        constant_with(found, entity_denoted(known.names.get(), name.place))
    } else {
        Ok(())
    }
}

/// An entity of a library package.
fn library_entity(known: &Known<'_, '_>, entity: u32) -> Option<u32>
    ensures { result ≡ library_entity known.now entity }
{
    if is_library_entity(known, entity) {
        Some(entity)
    } else {
        None
    }
}

/// What the discriminant of a timer names.
fn task_named(known: &Known<'_, '_>, constraint: &Option<Indicated>) -> Option<u32>
    ensures { result ≡ task_named known.now constraint.now }
{
    match constraint.as_ref()? {
        Indicated::Access(name) => library_entity(known, entity_of_name(known, name)?),
        Indicated::Range { .. } => None,
    }
}

/// A timer: its task is an aliased constant Task_Id of a library package.
#[tactic(auto, unfolding(ada_legality::specs::Declarations::timer_noted))]
fn timer_noted(
    found: &mut List<Finding>,
    known: &Known<'_, '_>,
    constraint: &Option<Indicated>,
    is_timer: bool,
    place: Place,
) -> Result<(), NoMemory>
    ensures { OnOk result
        (found.new ≡ found.old ++ timer_noted known.now constraint.now is_timer place) }
{
    if is_timer {
        let task = task_named(known, constraint);
        note(found, Finding::Timer { task, place })
    } else {
        Ok(())
    }
}

/// An object of this type, where it is known: no limited one has an initial value; events, timers
/// and group budgets stand in library packages (this profile's own).
#[tactic(auto, unfolding(ada_legality::specs::Declarations::typed_object_judged))]
fn typed_object_judged(
    found: &mut List<Finding>,
    known: &Known<'_, '_>,
    object: &ObjectDeclaration,
    name: &Identifier,
    t: AdaType,
) -> Result<(), NoMemory>
    ensures { OnOk result
        (found.new ≡ found.old ++ typed_object_judged known.now object.now name.now t) }
{
    let broken = object.initial.is_some() && has_no_values(t);
    broken_if(found, Rule::LimitedObject, broken, name.place)?;
    let broken = is_event_timer_or_budget(t) && !is_library_name(known, name);
    broken_if(found, Rule::LibraryLevelObject, broken, name.place)?;
    let constraint = &object.subtype.constraint;
    timer_noted(found, known, constraint, is_timer(t), name.place)?;
    constant_noted(found, known, is_aliased_constant(object, t), name)
}

/// The same, where its type may be unknown.
pub fn typed_object_if(
    found: &mut List<Finding>,
    known: &Known<'_, '_>,
    object: &ObjectDeclaration,
    name: &Identifier,
    t: Option<AdaType>,
) -> Result<(), NoMemory>
    ensures { OnOk result
        (found.new ≡ found.old ++ typed_object_if known.now object.now name.now t) }
{
    match t {
        None => Ok(()),
        Some(t) => typed_object_judged(found, known, object, name, t),
    }
}
