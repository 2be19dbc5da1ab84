//! Scopes in use: where a name's cells are (ISO/IEC 8652:2012, 3.1, 7.6.1, 8.2).
ghost use Rattle.std.specs.Prelude.{◌≡◌, pos, suc, slice_set, Some, find};
ghost use Rattle.std.specs.Prelude.{option_copied, option_and_then, slice_index_or};
ghost use Rattle.std.specs.List.{position_from};
ghost use Rattle.std.specs.Option.{option_copied_mut};
ghost use Rattle.std.specs.Borrow.{sem};
ghost use Rattle.profile_machine.specs.Scopes.{is_id, scope_in_use, id_in, first_id};
ghost use Rattle.profile_machine.specs.Scopes.{innermost, outwards, first_outwards};
ghost use Rattle.profile_machine.specs.Scopes.{home, read_cell, write_cell, put_cells};
ghost use Rattle.profile_machine.specs.Values.{object_of, is_of_unit, works_on_unit};
ghost use Rattle.profile_machine.specs.ScopeNumbers.{same_id};
ghost use Rattle.profile_image.specs.declared.values.Value.TheVariants.{Whole};
ghost use Rattle.machine_scopes.specs.Lends.{lends_scope};
ghost use Rattle.machine_scopes.specs.Sought.{is_sought};

use ann_base::ObjectNo;
use machine_frames::{object_of, task_at};
use profile_image::{ProtectedUnitNo, ScopeNo, Value};
use profile_machine::world::{FrameStack, Mark, ScopeId, ScopeInUse, World};
use rosters::Roster;
use trace_text::Who;
use world_tables::List;

/// Whether both ids stand for the same scope in use.
pub fn same_id(a: ScopeId, b: ScopeId) -> bool
    ensures { result ≡ same_id a b }
{
    a.0 == b.0
}

fn found_scope(scopes: &Roster<ScopeInUse>, id: ScopeId) -> Option<&ScopeInUse>
    ensures { option_copied result ≡ find (is_id id) scopes.now }
{
    scopes.find(id.0)
}

/// The scope in use with this id, if it is there.
pub fn scope_in_use(world: &World, id: ScopeId) -> Option<&ScopeInUse>
    ensures { option_copied result ≡ scope_in_use world.now id }
{
    found_scope(&world.scopes, id)
}

/// The scope in use of a mark that has one.
pub fn id_in(mark: &Mark) -> Option<ScopeId>
    ensures { result ≡ id_in mark.now }
{
    match mark {
        Mark::Scope(scope) => Some(scope.within),
        Mark::InAccept(accept) => Some(accept.within),
        Mark::Handled(_)
        | Mark::InProtected(_)
        | Mark::Abortable(_)
        | Mark::InInitialize(_)
        | Mark::InFinalize(_)
        | Mark::InAssign(_) => None,
    }
}

/// The scope in use of the topmost mark that has one.
pub fn first_id(frames: &FrameStack) -> Option<ScopeId>
    ensures { result ≡ first_id frames.now }
{
    for frame in frames.iter() {
        if let Some(id) = id_in(&frame.mark) {
            return Some(id);
        }
    }
    None
}

/// The scope in use that stands round what the task does next.
pub fn innermost(world: &World, name: Who) -> Option<ScopeId>
    ensures { result ≡ innermost world.now name }
{
    first_id(&task_at(world, name)?.frames)
}

/// Whether the object with this number, if one is named and there, is of the unit.
pub fn is_of_unit(world: &World, unit: ProtectedUnitNo, number: Option<ObjectNo>) -> bool
    ensures { result ≡ is_of_unit unit (option_and_then (object_of world.now) number) }
{
    let Some(number) = number else {
        return false;
    };
    match object_of(world, number) {
        Some(object) => unit.0 == object.unit.0,
        None => false,
    }
}

/// Whether a scope in use is that of a body that works on an object of the unit.
pub fn works_on_unit(world: &World, unit: ProtectedUnitNo, scope: &ScopeInUse) -> bool
    ensures { result ≡ works_on_unit world.now unit scope.now }
{
    is_of_unit(world, unit, scope.object)
}

/// What is sought among the scopes in use, from one outwards.
#[derive(Clone, Copy)]
pub enum Sought {
    /// A scope of this scope of the text.
    Scope(ScopeNo),
    /// The scope of a body that works on an object of this unit.
    BodyOf(ProtectedUnitNo),
}

fn is_sought(world: &World, sought: Sought, scope: &ScopeInUse) -> bool
    ensures { result ≡ is_sought world.now sought scope.now }
{
    match sought {
        Sought::Scope(number) => scope.scope.0 == number.0,
        Sought::BodyOf(unit) => works_on_unit(world, unit, scope),
    }
}

// The first that is sought, from a scope in use outwards: this scope is looked at, and at most so
// many more.
#[tactic(auto, using(crate::proofs::OutwardsLemmas::outwards_more))]
fn outwards(more: usize, world: &World, sought: Sought, id: Option<ScopeId>) -> Option<&ScopeInUse>
    ensures { option_copied result
        ≡ outwards (suc more) world.now.scopes (is_sought world.now sought) id }
{
    let scope = scope_in_use(world, id?)?;
    if is_sought(world, sought, scope) {
        Some(scope)
    } else if more == 0 {
        None
    } else {
        outwards(more - 1, world, sought, scope.outer)
    }
}

/// From a scope in use outwards, the first that is sought (8.2).
pub fn first_outwards(world: &World, sought: Sought, id: Option<ScopeId>) -> Option<&ScopeInUse>
    ensures { option_copied result ≡ first_outwards world.now (is_sought world.now sought) id }
{
    outwards(world.scopes.len(), world, sought, id)
}

/// The scope in use of this scope of the text that stands round the given one (8.2).
pub fn home(world: &World, scope: ScopeNo, id: Option<ScopeId>) -> Option<ScopeId>
    ensures { result ≡ home world.now scope id }
{
    Some(first_outwards(world, Sought::Scope(scope), id)?.id)
}

/// The value of a cell; where there is none, 0.
pub fn read_cell(world: &World, id: ScopeId, place: u32) -> Value
    ensures { result ≡ read_cell world.now id place }
{
    match scope_in_use(world, id) {
        Some(scope) => cell_at(&scope.cells, place),
        None => Value::Whole(0),
    }
}

fn cell_at(cells: &List<Value>, place: u32) -> Value
    ensures { result ≡ slice_index_or cells.now place (Whole (pos 0)) }
{
    cells.get_or(place as usize, Value::Whole(0))
}

// Where the first scope with this id stands.
fn place_of(scopes: &Roster<ScopeInUse>, id: ScopeId) -> Option<usize>
    ensures { result ≡ position_from (is_id id) 0 scopes.now }
{
    scopes.place_of(id.0)
}

// The scope in this place, where the first one with this id stands, for writing.
fn scope_in_place(
    scopes: &mut Roster<ScopeInUse>,
    id: ScopeId,
    place: usize,
) -> Option<&mut ScopeInUse>
    requires { position_from (is_id id) 0 scopes.old ≡ Some place }
    ensures* writes_back { sem 𝓛 (lends_scope scopes.entry id result) }
    ensures value { option_copied_mut result ≡ find (is_id id) scopes.old }
{
    scopes.get_mut(place)
}

/// The scope in use with this id for writing, if it is there.
pub fn scope_mut(scopes: &mut Roster<ScopeInUse>, id: ScopeId) -> Option<&mut ScopeInUse>
    ensures* writes_back { sem 𝓛 (lends_scope scopes.entry id result) }
    ensures value { option_copied_mut result ≡ find (is_id id) scopes.old }
{
    match place_of(scopes, id) {
        Some(place) => scope_in_place(scopes, id, place),
        None => None,
    }
}

#[tactic(auto, using(crate::proofs::CellLemmas::none_set))]
fn set_cell(cells: &mut List<Value>, place: usize, value: Value)
    ensures { cells.new ≡ slice_set cells.old place value }
{
    if let Some(cell) = cells.get_mut(place) {
        *cell = value;
    }
}

/// The value is written into a cell, where it is there.
pub fn write_cell(world: &mut World, id: ScopeId, place: u32, value: Value)
    ensures { world.new ≡ write_cell id place value world.old }
{
    if let Some(scope) = scope_mut(&mut world.scopes, id) {
        set_cell(&mut scope.cells, place as usize, value);
    }
}

/// The cells from this place on get these values; what would stand behind the last cell is dropped.
#[tactic(auto, using(crate::proofs::CellLemmas::put_laws))]
pub fn put_cells(cells: &mut List<Value>, place: u32, values: &List<Value>)
    ensures { cells.new ≡ put_cells place values.now cells.old }
{
    let mut at = place as usize;
    for value in values.iter() {
        if cells.len() <= at {
            return;
        }
        set_cell(cells, at, *value);
        at += 1;
    }
}
