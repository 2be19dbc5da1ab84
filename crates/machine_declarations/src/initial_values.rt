//! Initial values (ISO/IEC 8652:2012, 3.3.1). All of them are found in the world before the
//! declaration; where one raises an exception, none is written.
ghost use Rattle.std.specs.Prelude.{◌≡◌, IfOk, OnOk, [], take, drop};
ghost use Rattle.ann_base.specs.Answers.{Answers};
ghost use Rattle.machine_scopes.specs.Stored.{Stores};
ghost use Rattle.profile_machine.specs.Declarations.{default_cells, set_defaults, initial_of};
ghost use Rattle.profile_machine.specs.Declarations.{initialized, components_initialized};
ghost use Rattle.profile_image.specs.declared.declarations.Initial.TheVariants as initially;
ghost use Rattle.profile_machine.specs.Values.{seen_by};
ghost use Rattle.machine_declarations.specs.FirstValues.{first_value, written};
ghost use Rattle.machine_declarations.specs.FirstValues.{first_of_component, first_values};
ghost use Rattle.machine_declarations.specs.FirstValues.{all_written, value_set, components_set};

use ann_base::{NoMemory, OrMemory, Raised};
use machine_parameters::{checked_for, copy_cells};
use machine_program::{Program, declaration_of, initial_cells, scope_of};
use machine_scopes::{put_cells, scope_in_use, scope_mut, write_cell};
use machine_values::{Seen, component_at, object_cell, or_raised, seen_by, value};
use profile_image::{DeclNo, DeclarationKind, ExprNo, Initial, Value};
use profile_machine::world::{Located, Variable, World};
use std::alloc::Global;
use trace_text::Who;
use world_tables::List;

/// What the cells of an object get by its declaration.
#[derive(Clone, Copy)]
pub(crate) enum FirstValue {
    /// What they held as their scope began.
    Default,
    /// A value, which is in range.
    Scalar(Value),
    /// The cells of an array.
    Copied(Variable),
}

/// An object or component with what its cells get.
#[derive(Clone, Copy)]
pub(crate) struct Begun {
    variable: Variable,
    value: FirstValue,
}

fn scalar(q: &Seen<'_>, v: Variable, e: ExprNo) -> Result<FirstValue, OrMemory<Raised>>
    ensures { Answers result (first_value q.now v (initially.Scalar e)) }
{
    let x = value(q, e)?;
    Ok(FirstValue::Scalar(or_raised(checked_for(q.program, v, x))?))
}

/// What the cells of an object get by its declaration.
///
/// Errors: `Constraint` where the value is out of its range, and the exceptions of its evaluation.
pub(crate) fn first_value(
    q: &Seen<'_>,
    v: Variable,
    initial: Initial,
) -> Result<FirstValue, OrMemory<Raised>>
    ensures { Answers result (first_value q.now v initial) }
{
    match initial {
        Initial::Default => Ok(FirstValue::Default),
        Initial::Scalar(e) => scalar(q, v, e),
        Initial::Array(source) => Ok(FirstValue::Copied(object_cell(q, source)?)),
    }
}

/// The initial value that a declaration gives.
pub(crate) fn initial_of(kind: DeclarationKind) -> Initial
    ensures { result ≡ initial_of kind }
{
    match kind {
        DeclarationKind::Object(initial) => initial,
        DeclarationKind::Task(_)
        | DeclarationKind::Protected(_)
        | DeclarationKind::Controlled(_)
        | DeclarationKind::Event
        | DeclarationKind::Timer(_)
        | DeclarationKind::Budget
        | DeclarationKind::Parameter
        | DeclarationKind::Other => Initial::Default,
    }
}

// The cells from this place on.
fn tail(cells: &[Value], place: usize) -> &[Value]
    ensures { result.now ≡ drop place cells.now }
{
    if place < cells.len() {
        cells.split_at(place).1
    } else {
        &[]
    }
}

// The first so many cells.
fn head(cells: &[Value], count: usize) -> &[Value]
    ensures { result.now ≡ take count cells.now }
{
    if count < cells.len() {
        cells.split_at(count).0
    } else {
        cells
    }
}

fn listed(alloc: Global, cells: &[Value]) -> Result<List<Value>, NoMemory>
    ensures { IfOk result (λ list. list ≡ cells.now) }
{
    let mut list = List::new(alloc);
    for cell in cells {
        list.push_back(*cell)?;
    }
    Ok(list)
}

// The cells of a declaration as its scope began.
fn default_cells(
    alloc: Global,
    p: &Program,
    world: &World,
    v: Variable,
) -> Result<List<Value>, NoMemory>
    ensures { IfOk result (λ cells. cells ≡ default_cells p.now world.now v) }
{
    let Some(scope) = scope_in_use(world, v.within) else {
        return Ok(List::new(alloc));
    };
    let cells = initial_cells(alloc, scope_of(p, scope.scope))?;
    let count = declaration_of(p, v.declared).cells;
    let behind = tail(cells.as_slice(), v.place as usize);
    listed(alloc, head(behind, count as usize))
}

fn set_defaults(alloc: Global, p: &Program, v: Variable, world: &mut World) -> Result<(), NoMemory>
    ensures { OnOk result (world.new ≡ set_defaults p.now v world.old) }
{
    let values = default_cells(alloc, p, world, v)?;
    if let Some(scope) = scope_mut(&mut world.scopes, v.within) {
        put_cells(&mut scope.cells, v.place, &values);
    }
    Ok(())
}

fn written(
    alloc: Global,
    p: &Program,
    v: Variable,
    value: FirstValue,
    world: &mut World,
) -> Result<(), NoMemory>
    ensures { OnOk result (world.new ≡ written p.now v value world.old) }
{
    match value {
        FirstValue::Default => set_defaults(alloc, p, v, world),
        FirstValue::Scalar(x) => {
            write_cell(world, v.within, v.place, x);
            Ok(())
        }
        FirstValue::Copied(source) => copy_cells(alloc, p, v, source, world),
    }
}

// The initial value is found, and then written.
fn value_set(
    alloc: Global,
    p: &Program,
    name: Who,
    v: Variable,
    initial: Initial,
    world: &mut World,
) -> Result<(), OrMemory<Raised>>
    ensures { Stores result (value_set (seen_by p.now world.old name) v initial world.old)
        world.old world.new }
{
    let value = first_value(&seen_by(p, world, name), v, initial)?;
    written(alloc, p, v, value, world)?;
    Ok(())
}

/// The cells of an object or component get its initial value.
///
/// Errors: `Constraint` where it is out of its range, and the exceptions of its evaluation; the
/// world is then as it was.
pub(crate) fn initialized(
    alloc: Global,
    p: &Program,
    name: Who,
    v: Variable,
    initial: Initial,
    world: &mut World,
) -> Result<(), OrMemory<Raised>>
    ensures { Stores result (initialized (seen_by p.now world.old name) v initial world.old)
        world.old world.new }
{
    value_set(alloc, p, name, v, initial, world)
}

fn first_of_component(
    q: &Seen<'_>,
    own_cells: u32,
    object: Located,
    component: DeclNo,
) -> Result<Begun, OrMemory<Raised>>
    ensures { Answers result (first_of_component q.now own_cells object component) }
{
    let variable = component_at(q.program, own_cells, object, component)?;
    let initial = initial_of(declaration_of(q.program, component).kind);
    Ok(Begun {
        variable,
        value: first_value(q, variable, initial)?,
    })
}

fn first_values(
    alloc: Global,
    q: &Seen<'_>,
    own_cells: u32,
    object: Located,
    components: &[DeclNo],
) -> Result<List<Begun>, OrMemory<Raised>>
    ensures { Answers result (first_values q.now own_cells object components.now []) }
{
    let mut values = List::new(alloc);
    for component in components {
        values.push_back(first_of_component(q, own_cells, object, *component)?)?;
    }
    Ok(values)
}

fn all_written(
    alloc: Global,
    p: &Program,
    values: &List<Begun>,
    world: &mut World,
) -> Result<(), NoMemory>
    ensures { OnOk result (world.new ≡ all_written p.now values.now world.old) }
{
    for value in values.iter() {
        written(alloc, p, value.variable, value.value, world)?;
    }
    Ok(())
}

// The initial values of the components are found, and then written.
fn components_set(
    alloc: Global,
    p: &Program,
    name: Who,
    own_cells: u32,
    object: Located,
    components: &[DeclNo],
    world: &mut World,
) -> Result<(), OrMemory<Raised>>
    ensures { Stores result
        (components_set (seen_by p.now world.old name) own_cells object components.now world.old)
        world.old world.new }
{
    let values = first_values(
        alloc,
        &seen_by(p, world, name),
        own_cells,
        object,
        components,
    )?;
    all_written(alloc, p, &values, world)?;
    Ok(())
}

/// The components of a protected or controlled object get their initial values, in order.
///
/// Errors: the exception of the first that raises one; the world is then as it was.
pub(crate) fn components_initialized(
    alloc: Global,
    p: &Program,
    name: Who,
    own_cells: u32,
    object: Located,
    components: &[DeclNo],
    world: &mut World,
) -> Result<(), OrMemory<Raised>>
    ensures { Stores result
        (components_initialized (seen_by p.now world.old name) own_cells object components.now
        world.old) world.old world.new }
{
    components_set(alloc, p, name, own_cells, object, components, world)
}
