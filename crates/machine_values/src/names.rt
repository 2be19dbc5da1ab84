//! Names: the objects, tasks and cells that they denote (ISO/IEC 8652:2012, 4.1).
ghost use Rattle.std.specs.Prelude.{◌≡◌, ◌+◌, ◌^◌, ◌≤◌, IfOk, OnErr, option_and_then};
ghost use Rattle.ann_base.specs.Answers.{Answers};
ghost use Rattle.profile_image.specs.declared.expressions.ObjectName.TheVariants.{Declared};
ghost use Rattle.profile_image.specs.declared.expressions.ObjectName.TheVariants.{Component};
ghost use Rattle.profile_machine.specs.Scopes.{scope_in_use};
ghost use Rattle.profile_machine.specs.Values.{own_object, home_of, first_cell, declared_already};
ghost use Rattle.profile_machine.specs.Values.{thing, thing_number, number_of_thing, task_in};
ghost use Rattle.profile_machine.specs.Values.{object_number, located_in, subject_of};
ghost use Rattle.profile_machine.specs.Values.{is_parameter_kind, is_parameter, located};
ghost use Rattle.profile_machine.specs.Values.{component_at, object_of, component_of_own};
ghost use Rattle.profile_machine.specs.Values.{object_cell, shifted, component_cell, read};

use crate::answers::or_raised;
use crate::seen::Seen;
use ann_base::{NoMemory, ObjectNo, OrMemory, Raised, TaskNo};
use machine_frames::object_of;
use machine_operators::component_place;
use machine_program::{Program, declaration_of};
use machine_scopes::{Sought, first_outwards, home, is_of_unit, read_cell, scope_in_use};
use profile_image::{
    CONTROLLED_CELLS, DeclNo, DeclarationKind, ObjectName, PROTECTED_CELLS, ProtectedUnitNo, Value,
};
use profile_machine::world::{Located, ScopeId, Variable, World};

/// The object of the unit in whose body a name stands: the barrier's, or that of the nearest such
/// body round it.
pub fn own_object(q: &Seen<'_>, unit: ProtectedUnitNo) -> Option<ObjectNo>
    ensures { result ≡ own_object q.now unit }
{
    if is_of_unit(q.world, unit, q.object) {
        q.object
    } else {
        first_outwards(q.world, Sought::BodyOf(unit), q.within)?.object
    }
}

/// The scope in use that has the cells of a declaration.
///
/// Errors: `Program` where none stands round the name; no checked image has such a name.
pub fn home_of(q: &Seen<'_>, d: DeclNo) -> Result<ScopeId, Raised>
    ensures { result ≡ home_of q.now d }
{
    home(q.world, declaration_of(q.program, d).scope, q.within).ok_or(Raised::Program)
}

/// The first cell of a declaration in this scope.
pub fn first_cell(q: &Seen<'_>, d: DeclNo, id: ScopeId) -> Value
    ensures { result ≡ first_cell q.now d id }
{
    read_cell(q.world, id, declaration_of(q.program, d).place)
}

/// The value of the first cell of a task or an object whose declaration has been elaborated.
///
/// Errors: `Program` before that.
pub fn declared_already(value: Value) -> Result<Value, Raised>
    ensures { result ≡ declared_already value }
{
    match value {
        Value::Whole(_) => Err(Raised::Program),
        Value::Truth(_) | Value::Literal(_) | Value::Ticks(_) | Value::Task(_) | Value::Thing(_) =>
            Ok(value),
    }
}

/// The task, or the number of the object, that a name denotes.
///
/// Errors: `Program` before its declaration has been elaborated.
pub fn thing(q: &Seen<'_>, d: DeclNo) -> Result<Value, Raised>
    ensures { result ≡ thing q.now d }
{
    let id = home_of(q, d)?;
    declared_already(first_cell(q, d, id))
}

/// The number of an object, in its first cell.
pub fn thing_number(value: Value) -> u32
    ensures { result ≡ thing_number value }
{
    match value {
        Value::Thing(number) => number,
        _ => 0,
    }
}

/// The number of the object that a name denotes.
///
/// Errors: `Program` before its declaration has been elaborated.
pub fn number_of_thing(q: &Seen<'_>, d: DeclNo) -> Result<u32, Raised>
    ensures { result ≡ number_of_thing q.now d }
{
    Ok(thing_number(thing(q, d)?))
}

/// The task of a Task_Id (C.7.1).
pub fn task_in(value: Value) -> Option<TaskNo>
    ensures { result ≡ task_in value }
{
    match value {
        Value::Task(task) => task,
        _ => None,
    }
}

/// The protected object that a name denotes.
///
/// Errors: `Program` before its declaration has been elaborated.
pub fn object_number(q: &Seen<'_>, d: DeclNo) -> Result<ObjectNo, Raised>
    ensures { result ≡ object_number q.now d }
{
    Ok(ObjectNo(number_of_thing(q, d)?))
}

/// Where a controlled object stands whose declaration has its first cell in this scope: a parameter
/// leads to the object on which its operation works.
pub fn located_in(d: DeclNo, id: ScopeId, subject: Option<Located>) -> Located
    ensures { result ≡ located_in d id subject }
{
    match subject {
        Some(subject) => subject,
        None => Located {
            within: id,
            declared: d,
        },
    }
}

/// The controlled object on which the operation works whose scope this is.
pub fn subject_of(world: &World, id: ScopeId) -> Option<Located>
    ensures { result ≡ subject_of (scope_in_use world.now id) }
{
    scope_in_use(world, id)?.subject
}

fn is_parameter_kind(kind: DeclarationKind) -> bool
    ensures { result ≡ is_parameter_kind kind }
{
    matches!(kind, DeclarationKind::Parameter)
}

/// Whether a declaration is that of a parameter.
pub fn is_parameter(p: &Program, d: DeclNo) -> bool
    ensures { result ≡ is_parameter p.now d }
{
    is_parameter_kind(declaration_of(p, d).kind)
}

/// Where the controlled object stands that a name denotes.
///
/// Errors: `Program` before its declaration has been elaborated.
pub fn located(q: &Seen<'_>, d: DeclNo) -> Result<Located, Raised>
    ensures { result ≡ located q.now d }
{
    let id = home_of(q, d)?;
    declared_already(first_cell(q, d, id))?;
    if is_parameter(q.program, d) {
        Ok(located_in(d, id, subject_of(q.world, id)))
    } else {
        Ok(Located {
            within: id,
            declared: d,
        })
    }
}

// A place beyond the last of 32 bits is in no memory.
fn place_behind(place: u32, cells: u32) -> Result<u32, NoMemory>
    ensures ok { IfOk result (λ behind. behind ≡ place + cells) }
    ensures err { OnErr result (2 ^ 32 ≤ place + cells) }
{
    place.checked_add(cells).ok_or(NoMemory)
}

/// The first cell of a component: behind the cells that its object has of its own.
///
/// Errors: its place is beyond the last of 32 bits.
pub fn component_at(
    p: &Program,
    own_cells: u32,
    object: Located,
    component: DeclNo,
) -> Result<Variable, NoMemory>
    ensures ok { IfOk result (λ v. v ≡ component_at p.now own_cells object component) }
    ensures err { OnErr result (2 ^ 32 ≤ (component_at p.now own_cells object component).place) }
{
    let first = place_behind(declaration_of(p, object.declared).place, own_cells)?;
    Ok(Variable {
        within: object.within,
        place: place_behind(first, declaration_of(p, component).place)?,
        declared: component,
    })
}

// The first cell of a component of the protected object with this number.
fn component_of_own(
    q: &Seen<'_>,
    component: DeclNo,
    number: Option<ObjectNo>,
) -> Result<Variable, OrMemory<Raised>>
    ensures { Answers result
        (component_of_own q.now.program component
        (option_and_then (object_of q.now.world) number)) }
{
    let Some(number) = number else {
        return Err(OrMemory::Fault(Raised::Program));
    };
    let object = object_of(q.world, number).ok_or(OrMemory::Fault(Raised::Program))?;
    Ok(component_at(q.program, PROTECTED_CELLS, object.located, component)?)
}

fn declared_cell(q: &Seen<'_>, d: DeclNo) -> Result<Variable, Raised>
    ensures { result ≡ object_cell q.now (Declared d) }
{
    Ok(Variable {
        within: home_of(q, d)?,
        place: declaration_of(q.program, d).place,
        declared: d,
    })
}

fn cell_of_component(
    q: &Seen<'_>,
    object: DeclNo,
    component: DeclNo,
) -> Result<Variable, OrMemory<Raised>>
    ensures { Answers result (object_cell q.now (Component object component)) }
{
    let object = or_raised(located(q, object))?;
    Ok(component_at(q.program, CONTROLLED_CELLS, object, component)?)
}

/// The first cell of the object that has this name.
///
/// Errors: `Program` where the name denotes none.
pub fn object_cell(q: &Seen<'_>, name: ObjectName) -> Result<Variable, OrMemory<Raised>>
    ensures { Answers result (object_cell q.now name) }
{
    match name {
        ObjectName::Declared(d) => or_raised(declared_cell(q, d)),
        ObjectName::OwnComponent { unit, component } => {
            component_of_own(q, component, own_object(q, unit))
        }
        ObjectName::Component { object, component } => cell_of_component(q, object, component),
    }
}

// The cell so many places behind.
fn shifted(by: u32, v: Variable) -> Result<Variable, NoMemory>
    ensures ok { IfOk result (λ w. w ≡ shifted by v) }
    ensures err { OnErr result (2 ^ 32 ≤ (shifted by v).place) }
{
    Ok(Variable {
        within: v.within,
        place: place_behind(v.place, by)?,
        declared: v.declared,
    })
}

/// The component of an array with this index (4.1.1).
///
/// Errors: `Constraint` where the index is out of its range.
pub fn component_cell(q: &Seen<'_>, v: Variable, index: Value) -> Result<Variable, OrMemory<Raised>>
    ensures { Answers result (component_cell q.now v index) }
{
    let Some(range) = declaration_of(q.program, v.declared).index else {
        return Err(OrMemory::Fault(Raised::Program));
    };
    let at = or_raised(component_place(range, index))?;
    Ok(shifted(at, v)?)
}

/// The value of a variable.
pub fn read(world: &World, v: Variable) -> Value
    ensures { result ≡ read world.now v }
{
    read_cell(world, v.within, v.place)
}
