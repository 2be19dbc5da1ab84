//! The cells of arrays: they are read, put and copied (ISO/IEC 8652:2012, 3.6, 5.2).
ghost use Rattle.std.specs.Prelude.{◌≡◌, IfOk, OnOk, take, drop};
ghost use Rattle.profile_machine.specs.Operators.{checked};
ghost use Rattle.profile_image.specs.Program.{declaration_of};
ghost use Rattle.profile_machine.specs.Statements.{cells_from, copy_cells};

use ann_base::{NoMemory, Raised};
use machine_operators::checked;
use machine_program::{Program, declaration_of};
use machine_scopes::{put_cells, scope_in_use, scope_mut};
use profile_image::Value;
use profile_machine::world::{Variable, World};
use std::alloc::Global;
use world_tables::List;

/// A value that may be stored in a variable.
///
/// Errors: `Constraint` where it is out of the variable's range.
pub fn checked_for(p: &Program, v: Variable, value: Value) -> Result<Value, Raised>
    ensures { result ≡ checked (declaration_of p.now v.declared).constraint value }
{
    checked(declaration_of(p, v.declared).constraint, value)
}

#[tactic(auto, using(crate::proofs::CellLemmas::copied_laws))]
fn copied_from(
    alloc: Global,
    cells: &List<Value>,
    place: u32,
    count: u32,
) -> Result<List<Value>, NoMemory>
    ensures { IfOk result (λ values. values ≡ take count (drop place cells.now)) }
{
    let mut values = List::new(alloc);
    for taken in 0..count as usize {
        match cells.get(place as usize + taken) {
            Some(value) => values.push_back(*value)?,
            None => return Ok(values),
        }
    }
    Ok(values)
}

/// The cells of a whole array, or of so many components, as they are now.
pub fn cells_from(
    alloc: Global,
    world: &World,
    v: Variable,
    count: u32,
) -> Result<List<Value>, NoMemory>
    ensures { IfOk result (λ values. values ≡ cells_from world.now v count) }
{
    match scope_in_use(world, v.within) {
        Some(scope) => copied_from(alloc, &scope.cells, v.place, count),
        None => Ok(List::new(alloc)),
    }
}

/// A whole array is copied.
pub fn copy_cells(
    alloc: Global,
    p: &Program,
    target: Variable,
    source: Variable,
    world: &mut World,
) -> Result<(), NoMemory>
    ensures { OnOk result (world.new ≡ copy_cells p.now target source world.old) }
{
    let count = declaration_of(p, source.declared).cells;
    let values = cells_from(alloc, world, source, count)?;
    if let Some(scope) = scope_mut(&mut world.scopes, target.within) {
        put_cells(&mut scope.cells, target.place, &values);
    }
    Ok(())
}
