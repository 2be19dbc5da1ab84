//! Actuals for handlers, and actuals that are assigned (ISO/IEC 8652:2012, 6.4.1, 9.5.1, C.3.1,
//! D.14.1, D.14.2, D.15).
ghost use Rattle.std.specs.Prelude.{◌≡◌, ◌++◌, ◌∷◌, [], None, OnOk, false, option_map, unwrap_or};
ghost use Rattle.ada_legality.specs.Types.{same_type};
ghost use Rattle.ada_legality.specs.Reading.{function_in_unit, functions_of_unit};
ghost use Rattle.ada_legality.specs.Reading.{component_assigned, shape_is_variable};
ghost use Rattle.ada_legality.specs.Reading.{component_in_shape, assigning_actual, assigned_if};
ghost use Rattle.ada_legality.specs.Reading.{is_handler_or_null, wanted_of_handler};
ghost use Rattle.ada_legality.specs.Reading.{handles_objects_of, is_wanted_handler, handler_actual};
ghost use Rattle.legality_calls.specs.Beside.{function_beside, functions_along};

use ada_entities::kind_at;
use ada_legality::{Around, Finding, Known, Read, Rule, Shape, Typed, same_type};
use ada_regions::{AdaType, Formal, Mode};
use ann_base::NoMemory;
use image_layout::is_in_out;
use legality_entities::{formals_of_subprogram, is_type};
use legality_types::{broken_if, broken_unless, has_type};
use world_tables::List;

/// A function that is an operation of the unit in whose body it stands (9.5.1).
fn function_in(
    found: &mut List<Finding>,
    t: AdaType,
    inner: Around,
    around: Around,
) -> Result<(), NoMemory>
    ensures { OnOk result (found.new ≡ found.old ++ function_in_unit t inner (around ∷ [])) }
{
    match inner {
        Around::Subprogram(subprogram) => match around {
            Around::Protected(unit) => {
                let broken = subprogram.result.is_some() && is_type(t, unit.of_type);
                broken_if(found, Rule::ProtectedComponents, broken, subprogram.begins)
            }
            _ => Ok(()),
        },
        _ => Ok(()),
    }
}

/// The same, where a construct stands inside this one.
fn function_beside(
    found: &mut List<Finding>,
    t: AdaType,
    inner: Option<Around>,
    around: Around,
) -> Result<(), NoMemory>
    ensures { OnOk result (found.new ≡ found.old ++ function_beside t inner around) }
{
    match inner {
        None => Ok(()),
        Some(inner) => function_in(found, t, inner, around),
    }
}

/// The functions around that are operations of the unit, one construct at a time.
fn functions_along(
    found: &mut List<Finding>,
    t: AdaType,
    outer: &List<Around>,
) -> Result<(), NoMemory>
    ensures { OnOk result (found.new ≡ found.old ++ functions_along t None outer.now) }
{
    let mut inner: Option<Around> = None;
    for around in outer.iter() {
        function_beside(found, t, inner, *around)?;
        inner = Some(*around);
    }
    Ok(())
}

/// The functions around that are operations of the unit.
#[tactic(auto, using(crate::proofs::Beside::functions_are))]
fn functions_of_unit(
    found: &mut List<Finding>,
    t: AdaType,
    outer: &List<Around>,
) -> Result<(), NoMemory>
    ensures { OnOk result (found.new ≡ found.old ++ functions_of_unit t outer.now) }
{
    functions_along(found, t, outer)
}

/// A component that is assigned in a function of its unit.
#[tactic(auto, unfolding(ada_legality::specs::Reading::component_assigned))]
pub fn component_assigned(
    found: &mut List<Finding>,
    known: &Known<'_, '_>,
    unit: Option<AdaType>,
) -> Result<(), NoMemory>
    ensures { OnOk result (found.new ≡ found.old ++ component_assigned known.now unit) }
{
    match unit {
        None => Ok(()),
        Some(t) => functions_of_unit(found, t, &known.around),
    }
}

fn shape_is_variable(shape: Shape) -> bool
    ensures { result ≡ shape_is_variable shape }
{
    match shape {
        Shape::Name(name) => name.is_variable,
        Shape::Number => false,
        Shape::Other => false,
    }
}

fn component_in_shape(shape: Shape) -> Option<AdaType>
    ensures { result ≡ component_in_shape shape }
{
    match shape {
        Shape::Name(name) => name.component_of,
        Shape::Number => None,
        Shape::Other => None,
    }
}

/// An actual that is assigned is a variable.
#[tactic(auto, unfolding(ada_legality::specs::Reading::assigning_actual))]
fn assigning_actual(
    found: &mut List<Finding>,
    known: &Known<'_, '_>,
    read: &Read,
) -> Result<(), NoMemory>
    ensures { OnOk result (found.new ≡ found.old ++ assigning_actual known.now read.now) }
{
    let broken = has_type(read.typed) && !shape_is_variable(read.shape);
    broken_if(found, Rule::Actuals, broken, read.place)?;
    component_assigned(found, known, component_in_shape(read.shape))
}

/// An actual whose mode assigns.
pub fn assigned_if(
    found: &mut List<Finding>,
    known: &Known<'_, '_>,
    mode: Mode,
    read: &Read,
) -> Result<(), NoMemory>
    ensures { OnOk result (found.new ≡ found.old ++ assigned_if known.now mode read.now) }
{
    match mode {
        Mode::In => Ok(()),
        Mode::Out => assigning_actual(found, known, read),
        Mode::InOut => assigning_actual(found, known, read),
    }
}

fn is_handler_or_null(typed: Typed) -> bool
    ensures { result ≡ is_handler_or_null typed }
{
    match typed {
        Typed::WithoutType => true,
        Typed::OfNull => true,
        Typed::OfHandler(_) => true,
        _ => false,
    }
}

/// A formal is of this type.
fn formal_is(t: AdaType, formal: &Formal) -> bool
    ensures { result
        ≡ unwrap_or (option_map (λ s. same_type s.of_type t) formal.now.subtype) false }
{
    match formal.subtype {
        None => false,
        Some(subtype) => same_type(subtype.of_type, t),
    }
}

/// A handler for objects of this type has one formal of it, `in out`.
#[tactic(auto, unfolding(ada_legality::specs::Reading::wanted_of_handler))]
fn wanted_of_handler(t: AdaType, formals: &[Formal]) -> bool
    ensures { result ≡ wanted_of_handler t formals.now }
{
    match formals {
        [] => false,
        [formal] => is_in_out(formal.mode) && formal_is(t, formal),
        [_, _, ..] => false,
    }
}

/// A procedure is a handler for objects of the type.
#[tactic(auto, unfolding(ada_legality::specs::Reading::handles_objects_of))]
fn handles_objects_of(known: &Known<'_, '_>, t: AdaType, entity: u32) -> bool
    ensures { result ≡ handles_objects_of known.now t entity }
{
    match kind_at(known.names.get(), entity) {
        None => false,
        Some(kind) => wanted_of_handler(t, formals_of_subprogram(kind)),
    }
}

/// A handler has the profile that is wanted.
fn is_wanted_handler(known: &Known<'_, '_>, t: AdaType, typed: Typed) -> bool
    ensures { result ≡ is_wanted_handler known.now t typed }
{
    match typed {
        Typed::OfHandler(entity) => handles_objects_of(known, t, entity),
        _ => true,
    }
}

/// An actual for a handler of objects of this type.
#[tactic(auto, unfolding(ada_legality::specs::Reading::handler_actual))]
pub fn handler_actual(
    found: &mut List<Finding>,
    known: &Known<'_, '_>,
    read: &Read,
    t: AdaType,
) -> Result<(), NoMemory>
    ensures { OnOk result (found.new ≡ found.old ++ handler_actual known.now read.now t) }
{
    let kept = is_handler_or_null(read.typed);
    broken_unless(found, Rule::Actuals, kept, read.place)?;
    let kept = is_wanted_handler(known, t, read.typed);
    broken_unless(found, Rule::HandlerProcedure, kept, read.place)
}
