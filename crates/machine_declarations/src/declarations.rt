//! The declaration of an object, by its kind (ISO/IEC 8652:2012, 3.3.1, 7.6, 9.4, D.14, D.15).
ghost use Rattle.std.specs.Prelude.{OnOk};
ghost use Rattle.machine_scopes.specs.Stored.{Stores};
ghost use Rattle.profile_machine.specs.Declarations.{object_declared, controlled_declared};
ghost use Rattle.profile_machine.specs.Declarations.{declared, declare_quietly};
ghost use Rattle.profile_machine.specs.Declarations.{declare_by, declare};
ghost use Rattle.profile_machine.specs.Values.{seen_by};
ghost use Rattle.machine_frames.specs.Did.{Did};

use crate::initial_values::{components_initialized, initialized};
use crate::objects::{declare_protected, located_here, set_thing};
use crate::timing::{budget_declared, event_declared, timer_declared};
use ann_base::{NoMemory, OrMemory, Raised};
use machine_frames::{Effect, goes, raises};
use machine_program::{Program, controlled_of, declaration_of, next_of};
use machine_values::{object_cell, or_raised, seen_by};
use profile_image::{
    CONTROLLED_CELLS, ControlledNo, DeclNo, DeclarationKind, Initial, ObjectName, StatementNo,
    Value,
};
use profile_machine::world::{Part, World};
use std::alloc::Global;
use trace_text::Who;

fn object_declared(
    alloc: Global,
    p: &Program,
    name: Who,
    d: DeclNo,
    initial: Initial,
    world: &mut World,
) -> Result<(), OrMemory<Raised>>
    ensures { Stores result (object_declared (seen_by p.now world.old name) d initial) world.old
        world.new }
{
    let v = object_cell(&seen_by(p, world, name), ObjectName::Declared(d))?;
    initialized(alloc, p, name, v, initial, world)
}

// A controlled object is made. It is registered behind its Initialize.
fn controlled_declared(
    alloc: Global,
    p: &Program,
    name: Who,
    d: DeclNo,
    c: ControlledNo,
    world: &mut World,
) -> Result<(), OrMemory<Raised>>
    ensures { Stores result (controlled_declared (seen_by p.now world.old name) d c) world.old
        world.new }
{
    let object = or_raised(located_here(&seen_by(p, world, name), d))?;
    let components = controlled_of(p, c).components.as_slice();
    components_initialized(alloc, p, name, CONTROLLED_CELLS, object, components, world)?;
    set_thing(p, object, Value::Thing(0), world);
    Ok(())
}

fn declared(
    alloc: Global,
    p: &Program,
    name: Who,
    d: DeclNo,
    kind: DeclarationKind,
    world: &mut World,
) -> Result<(), OrMemory<Raised>>
    ensures { Stores result (declared (seen_by p.now world.old name) d kind) world.old world.new }
{
    match kind {
        DeclarationKind::Object(initial) => object_declared(alloc, p, name, d, initial, world),
        DeclarationKind::Controlled(c) => controlled_declared(alloc, p, name, d, c, world),
        DeclarationKind::Event => event_declared(p, name, d, world),
        DeclarationKind::Timer(task) => timer_declared(p, name, d, task, world),
        DeclarationKind::Budget => budget_declared(p, name, d, world),
        DeclarationKind::Task(_)
        | DeclarationKind::Protected(_)
        | DeclarationKind::Parameter
        | DeclarationKind::Other => Ok(()),
    }
}

#[tactic(auto, unfolding(profile_machine::specs::Declarations::declare_quietly))]
fn declare_quietly(
    alloc: Global,
    p: &Program,
    effect: &mut Effect,
    name: Who,
    s: StatementNo,
    d: DeclNo,
) -> Result<(), NoMemory>
    ensures { OnOk result (Did (declare_quietly p.now name s d) effect.old effect.new) }
{
    let kind = declaration_of(p, d).kind;
    match declared(alloc, p, name, d, kind, &mut effect.world) {
        Ok(()) => {
            goes(effect, name, next_of(p, s));
            Ok(())
        }
        Err(OrMemory::Fault(e)) => raises(effect, Part::Own, name, e),
        Err(OrMemory::Memory) => Err(NoMemory),
    }
}

#[tactic(auto, unfolding(profile_machine::specs::Declarations::declare_by))]
fn declare_by(
    alloc: Global,
    p: &Program,
    effect: &mut Effect,
    name: Who,
    s: StatementNo,
    d: DeclNo,
    kind: DeclarationKind,
) -> Result<(), NoMemory>
    ensures { OnOk result (Did (declare_by p.now name s d kind) effect.old effect.new) }
{
    match kind {
        DeclarationKind::Protected(unit) => declare_protected(alloc, p, effect, name, s, d, unit),
        DeclarationKind::Object(_)
        | DeclarationKind::Task(_)
        | DeclarationKind::Controlled(_)
        | DeclarationKind::Event
        | DeclarationKind::Timer(_)
        | DeclarationKind::Budget
        | DeclarationKind::Parameter
        | DeclarationKind::Other => declare_quietly(alloc, p, effect, name, s, d),
    }
}

/// The action of a declaration.
///
/// Errors: memory ran out, or numbers are used up; the world is then not told.
#[tactic(auto, unfolding(profile_machine::specs::Declarations::declare))]
pub fn declare(
    alloc: Global,
    p: &Program,
    effect: &mut Effect,
    name: Who,
    s: StatementNo,
    d: DeclNo,
) -> Result<(), NoMemory>
    ensures { OnOk result (Did (declare p.now name s d) effect.old effect.new) }
{
    declare_by(alloc, p, effect, name, s, d, declaration_of(p, d).kind)
}
