//! How a scope begins, and how it ends (ISO/IEC 8652:2012, 3.1, 7.6.1).
ghost use Rattle.std.specs.Prelude.{◌≡◌, ◌+◌, ◌^◌, ◌≤◌, IfOk, OnOk, OnErr};
ghost use Rattle.std.specs.List.{list_all};
ghost use Rattle.profile_image.specs.Program.{initial_cells};
ghost use Rattle.profile_machine.specs.Scopes.{plainly, put_cells, next_id, scope_drawn};
ghost use Rattle.profile_machine.specs.Scopes.{begin_scope, region_drawn, draw_region};
ghost use Rattle.profile_machine.specs.Scopes.{region_of_next, new_scope_mark, open_scope};
ghost use Rattle.profile_machine.specs.Scopes.{is_id, is_library, goes_with, end_scope};
ghost use Rattle.profile_image.specs.Words.{without};
ghost use Rattle.ann_base.specs.Lists.{is_empty};

use crate::scopes::{put_cells, same_id};
use ann_base::{CallNo, NoMemory, RegionNo, next_number};
use machine_frames::{new_frame, push};
use machine_program::{Program, initial_cells, scope_of};
use profile_image::{Scope, ScopeNo, Value};
use profile_machine::world::{
    Beginning, Drawn, Mark, Object, Purpose, ScopeId, ScopeInUse, ScopeMark, World,
};
use rosters::Roster;
use std::alloc::Global;
use trace_text::Who;
use world_tables::List;

/// A scope that works on nothing and gets no parameters. It takes no memory.
pub fn plainly(alloc: Global, outer: Option<ScopeId>) -> Beginning
    ensures { result ≡ plainly outer }
{
    Beginning {
        outer,
        object: None,
        subject: None,
        values: List::new(alloc),
    }
}

/// The id of the scope that begins next.
pub fn next_id(world: &World) -> ScopeId
    ensures { result ≡ next_id world.now }
{
    ScopeId(world.drawn.scopes)
}

fn scope_drawn(drawn: &mut Drawn) -> Result<(), NoMemory>
    ensures { OnOk result (drawn.new ≡ scope_drawn drawn.old) }
{
    drawn.scopes = next_number(drawn.scopes)?;
    Ok(())
}

fn region_drawn(drawn: &mut Drawn) -> Result<(), NoMemory>
    ensures ok { OnOk result (drawn.new ≡ region_drawn drawn.old) }
    ensures err { OnErr result (2 ^ 32 ≤ drawn.old.regions + 1) }
{
    drawn.regions = next_number(drawn.regions)?;
    Ok(())
}

fn listed(alloc: Global, values: &[Value]) -> Result<List<Value>, NoMemory>
    ensures { IfOk result (λ list. list ≡ values.now) }
{
    let mut list = List::new(alloc);
    for value in values {
        list.push_back(*value)?;
    }
    Ok(list)
}

// The cells of a scope as it begins, with its parameters in the first of them.
fn begun_cells(alloc: Global, values: &List<Value>, scope: &Scope) -> Result<List<Value>, NoMemory>
    ensures { IfOk result (λ cells. cells ≡ put_cells 0 values.now (initial_cells scope.now)) }
{
    let initial = initial_cells(alloc, scope)?;
    let mut cells = listed(alloc, initial.as_slice())?;
    put_cells(&mut cells, 0, values);
    Ok(cells)
}

/// The scope is in use, with its cells as they begin and its parameters in the first of them.
///
/// Errors: memory ran out, or the numbers of scopes are used up; the world is then not told.
pub fn begin_scope(
    alloc: Global,
    p: &Program,
    name: Who,
    scope: ScopeNo,
    b: Beginning,
    world: &mut World,
) -> Result<(), NoMemory>
    ensures { OnOk result (world.new ≡ begin_scope p.now name scope b world.old) }
{
    let cells = begun_cells(alloc, &b.values, scope_of(p, scope))?;
    let begun = ScopeInUse {
        id: next_id(world),
        scope,
        outer: b.outer,
        owner: name,
        object: b.object,
        subject: b.subject,
        cells,
    };
    world.scopes.push_front(begun)?;
    scope_drawn(&mut world.drawn)
}

/// A kept scope draws its region.
///
/// Errors: the numbers of regions are used up.
pub fn draw_region(kept: bool, world: &mut World) -> Result<(), NoMemory>
    ensures ok { OnOk result (world.new ≡ draw_region kept world.old) }
    ensures err { OnErr result (2 ^ 32 ≤ world.old.drawn.regions + 1) }
{
    if kept {
        region_drawn(&mut world.drawn)
    } else {
        Ok(())
    }
}

/// The region of a kept scope that begins next.
///
/// Errors: the numbers of regions are used up.
pub fn region_of_next(kept: bool, world: &World) -> Result<Option<RegionNo>, NoMemory>
    ensures ok { IfOk result (λ region. region ≡ region_of_next kept world.now) }
    ensures err { OnErr result (2 ^ 32 ≤ world.now.drawn.regions + 1) }
{
    if kept {
        Ok(Some(RegionNo(next_number(world.drawn.regions)?)))
    } else {
        Ok(None)
    }
}

/// The mark of a scope that begins.
pub fn new_scope_mark(id: ScopeId, region: Option<RegionNo>, purpose: Purpose) -> Mark
    ensures { result ≡ new_scope_mark id region purpose }
{
    Mark::Scope(ScopeMark {
        within: id,
        region,
        being_left: false,
        handles: None,
        finalize_raised: false,
        purpose,
    })
}

/// A Scope is opened with what stands in it.
///
/// Errors: memory ran out, or numbers are used up; the world is then not told.
pub fn open_scope(
    alloc: Global,
    p: &Program,
    name: Who,
    scope: ScopeNo,
    b: Beginning,
    purpose: Purpose,
    world: &mut World,
) -> Result<(), NoMemory>
    ensures { OnOk result (world.new ≡ open_scope p.now name scope b purpose world.old) }
{
    let text = scope_of(p, scope);
    let mark = new_scope_mark(next_id(world), region_of_next(text.kept, world)?, purpose);
    begin_scope(alloc, p, name, scope, b, world)?;
    draw_region(text.kept, world)?;
    push(world, name, new_frame(mark, text.first))
}

/// Whether a scope is the environment's. Library objects are there to the end of the run: at the
/// instant at which the environment task ends an interrupt, as a timing event, still releases its
/// handler.
pub fn is_library(id: ScopeId) -> bool
    ensures { result ≡ is_library id }
{
    id.0 == 0
}

/// Whether no call is queued on any entry.
fn are_empty(queues: &List<List<CallNo>>) -> bool
    ensures { result ≡ list_all is_empty queues.now }
{
    queues.iter().all(|queue| queue.is_empty())
}

fn goes_with(id: ScopeId, object: &Object) -> bool
    ensures { result ≡ goes_with id object.now }
{
    same_id(id, object.located.within) && !is_library(id) && are_empty(&object.queues)
}

fn leave_scopes(scopes: &mut Roster<ScopeInUse>, id: ScopeId)
    ensures { scopes.new ≡ without (is_id id) scopes.old }
{
    scopes.forget(id.0);
}

fn leave_objects(objects: &mut Roster<Object>, id: ScopeId)
    ensures { objects.new ≡ without (goes_with id) objects.old }
{
    objects.retain(|object| !goes_with(id, object));
}

/// The scope is no longer in use, and the protected objects that its declarations made are no
/// longer there, other than library objects and those on which calls are queued.
pub fn end_scope(id: ScopeId, world: &mut World)
    ensures { world.new ≡ end_scope id world.old }
{
    leave_scopes(&mut world.scopes, id);
    leave_objects(&mut world.objects, id);
}
