//! The declaration of a protected object (ISO/IEC 8652:2012, 9.4).
ghost use Rattle.std.specs.Prelude.{◌≡◌, IfOk, OnOk};
ghost use Rattle.profile_machine.specs.Declarations.{located_here, set_thing, object_drawn};
ghost use Rattle.profile_machine.specs.Declarations.{no_calls, new_object, with_object};
ghost use Rattle.profile_machine.specs.Declarations.{says_object, declare_protected};
ghost use Rattle.machine_frames.specs.Did.{Did};
ghost use Rattle.machine_declarations.specs.Parts.{made_here, declare_protected_at};

use crate::initial_values::components_initialized;
use ann_base::{CallNo, NoMemory, ObjectNo, OrMemory, Raised, next_number};
use machine_frames::{Effect, goes, raises, says};
use machine_program::{Program, declaration_of, next_of, protected_unit_of};
use machine_scopes::write_cell;
use machine_values::{Seen, home_of, seen_by};
use profile_image::{DeclNo, EntryNo, PROTECTED_CELLS, ProtectedUnitNo, StatementNo, Value};
use profile_machine::world::{Drawn, Line, Located, Object, Part, World};
use std::alloc::Global;
use trace_text::{Created, Who};
use world_tables::List;

/// Where the object of a declaration stands.
///
/// Errors: `Program` where no scope in use has its cells; no checked image has such a declaration.
pub(crate) fn located_here(q: &Seen<'_>, d: DeclNo) -> Result<Located, Raised>
    ensures { result ≡ located_here q.now d }
{
    Ok(Located {
        within: home_of(q, d)?,
        declared: d,
    })
}

/// The first cell of an object gets this value.
pub fn set_thing(p: &Program, object: Located, value: Value, world: &mut World)
    ensures { world.new ≡ set_thing p.now object value world.old }
{
    let place = declaration_of(p, object.declared).place;
    write_cell(world, object.within, place, value);
}

/// The queues of entries on which no call is queued.
#[tactic(auto, using(crate::proofs::QueueLemmas::no_calls_of))]
pub fn no_calls(alloc: Global, entries: &[EntryNo]) -> Result<List<List<CallNo>>, NoMemory>
    ensures { IfOk result (λ queues. queues ≡ no_calls entries.now) }
{
    let mut queues = List::new(alloc);
    for _ in 0..entries.len() {
        queues.push_front(List::new(alloc))?;
    }
    Ok(queues)
}

fn object_drawn(drawn: &mut Drawn) -> Result<(), NoMemory>
    ensures { OnOk result (drawn.new ≡ object_drawn drawn.old) }
{
    drawn.objects = next_number(drawn.objects)?;
    Ok(())
}

fn new_object(
    alloc: Global,
    p: &Program,
    object: Located,
    unit: ProtectedUnitNo,
    number: u32,
) -> Result<Object, NoMemory>
    ensures { IfOk result (λ made. made ≡ new_object p.now object unit number) }
{
    let text = protected_unit_of(p, unit);
    Ok(Object {
        number: ObjectNo(number),
        unit,
        located: object,
        ceiling: text.ceiling,
        actions: List::new(alloc),
        queues: no_calls(alloc, text.entries.as_slice())?,
    })
}

// A protected object draws its number once its components have their values.
fn with_object(
    alloc: Global,
    p: &Program,
    object: Located,
    unit: ProtectedUnitNo,
    world: &mut World,
) -> Result<(), NoMemory>
    ensures { OnOk result (world.new ≡ with_object p.now object unit world.old) }
{
    let number = next_number(world.drawn.objects)?;
    let made = new_object(alloc, p, object, unit, number)?;
    world.objects.push_front(made)?;
    object_drawn(&mut world.drawn)?;
    set_thing(p, object, Value::Thing(number), world);
    Ok(())
}

#[tactic(auto, unfolding(profile_machine::specs::Declarations::says_object))]
fn says_object(
    p: &Program,
    effect: &mut Effect,
    object: Located,
    unit: ProtectedUnitNo,
) -> Result<(), NoMemory>
    ensures { OnOk result (Did (says_object p.now object unit) effect.old effect.new) }
{
    let line = Line::New {
        what: Created::Object(ObjectNo(effect.world.drawn.objects)),
        declared: Some(object.declared),
        level: protected_unit_of(p, unit).ceiling,
    };
    says(effect, Part::Own, line)
}

// The action of the declaration of a protected object whose components have their values.
fn made_here(
    alloc: Global,
    p: &Program,
    effect: &mut Effect,
    name: Who,
    s: StatementNo,
    object: Located,
    unit: ProtectedUnitNo,
) -> Result<(), NoMemory>
    ensures { OnOk result (Did (made_here p.now name s object unit) effect.old effect.new) }
{
    goes(effect, name, next_of(p, s));
    with_object(alloc, p, object, unit, &mut effect.world)?;
    says_object(p, effect, object, unit)
}

fn declare_protected_at(
    alloc: Global,
    p: &Program,
    effect: &mut Effect,
    name: Who,
    s: StatementNo,
    object: Located,
    unit: ProtectedUnitNo,
) -> Result<(), NoMemory>
    ensures { OnOk result
        (Did (declare_protected_at p.now name s object unit) effect.old effect.new) }
{
    let components = protected_unit_of(p, unit).components.as_slice();
    let world = &mut effect.world;
    match components_initialized(alloc, p, name, PROTECTED_CELLS, object, components, world) {
        Ok(()) => made_here(alloc, p, effect, name, s, object, unit),
        Err(OrMemory::Fault(e)) => raises(effect, Part::Own, name, e),
        Err(OrMemory::Memory) => Err(NoMemory),
    }
}

/// A protected object is declared.
#[tactic(auto, unfolding(profile_machine::specs::Declarations::declare_protected))]
pub(crate) fn declare_protected(
    alloc: Global,
    p: &Program,
    effect: &mut Effect,
    name: Who,
    s: StatementNo,
    d: DeclNo,
    unit: ProtectedUnitNo,
) -> Result<(), NoMemory>
    ensures { OnOk result (Did (declare_protected p.now name s d unit) effect.old effect.new) }
{
    match located_here(&seen_by(p, &effect.world, name), d) {
        Ok(object) => declare_protected_at(alloc, p, effect, name, s, object, unit),
        Err(e) => raises(effect, Part::Own, name, e),
    }
}
