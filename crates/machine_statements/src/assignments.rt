//! Assignments of scalars and of whole arrays (ISO/IEC 8652:2012, 5.2).
ghost use Rattle.std.specs.Prelude.{OnOk};
ghost use Rattle.machine_scopes.specs.Stored.{Stores};
ghost use Rattle.profile_machine.specs.Statements.{assign, assign_array, array_copied};
ghost use Rattle.profile_machine.specs.Values.{seen_by};
ghost use Rattle.machine_frames.specs.Did.{Did};
ghost use Rattle.machine_statements.specs.Parts.{assigned};

use ann_base::{NoMemory, OrMemory, Raised};
use machine_frames::{Effect, goes, refused};
use machine_parameters::copy_cells;
use machine_program::{Program, next_of};
use machine_scopes::store;
use machine_values::{object_cell, seen_by, value, variable};
use profile_image::{ExprNo, ObjectName, StatementNo, VariableName};
use profile_machine::world::World;
use std::alloc::Global;
use trace_text::Who;

fn assigned(
    p: &Program,
    name: Who,
    target: VariableName,
    e: ExprNo,
    world: &mut World,
) -> Result<(), OrMemory<Raised>>
    ensures { Stores result (assigned p.now (seen_by p.now world.old name) target e) world.old
        world.new }
{
    let q = seen_by(p, world, name);
    let v = variable(&q, target)?;
    let x = value(&q, e)?;
    store(p, v, x, world)
}

/// An assignment of a scalar: the place of the target is found first, then the value.
#[tactic(auto, unfolding(profile_machine::specs::Statements::assign))]
pub fn assign(
    p: &Program,
    effect: &mut Effect,
    name: Who,
    s: StatementNo,
    target: VariableName,
    e: ExprNo,
) -> Result<(), NoMemory>
    ensures { OnOk result (Did (assign p.now name s target e) effect.old effect.new) }
{
    match assigned(p, name, target, e, &mut effect.world) {
        Ok(()) => {
            goes(effect, name, next_of(p, s));
            Ok(())
        }
        Err(answer) => refused(effect, name, answer),
    }
}

fn array_copied(
    alloc: Global,
    p: &Program,
    name: Who,
    target: ObjectName,
    source: ObjectName,
    world: &mut World,
) -> Result<(), OrMemory<Raised>>
    ensures { Stores result (array_copied p.now (seen_by p.now world.old name) target source)
        world.old world.new }
{
    let q = seen_by(p, world, name);
    let target = object_cell(&q, target)?;
    let source = object_cell(&q, source)?;
    copy_cells(alloc, p, target, source, world)?;
    Ok(())
}

/// An assignment of a whole array.
#[tactic(auto, unfolding(profile_machine::specs::Statements::assign_array))]
pub fn assign_array(
    alloc: Global,
    p: &Program,
    effect: &mut Effect,
    name: Who,
    s: StatementNo,
    target: ObjectName,
    source: ObjectName,
) -> Result<(), NoMemory>
    ensures { OnOk result (Did (assign_array p.now name s target source) effect.old effect.new) }
{
    match array_copied(alloc, p, name, target, source, &mut effect.world) {
        Ok(()) => {
            goes(effect, name, next_of(p, s));
            Ok(())
        }
        Err(answer) => refused(effect, name, answer),
    }
}
