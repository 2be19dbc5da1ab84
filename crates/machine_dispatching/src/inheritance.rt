//! Inherited priorities, each under its cause (ISO/IEC 8652:2012, D.1, D.3).
ghost use Rattle.std.specs.Prelude.{◌≡◌, OnOk};
ghost use Rattle.std.specs.List.{position_from};
ghost use Rattle.profile_machine.specs.Inheritance.{same_cause, inherit, lose};
ghost use Rattle.profile_machine.specs.Inheritance.{inherit_running, lose_running};
ghost use Rattle.profile_image.specs.Words.{without};
ghost use Rattle.machine_frames.specs.Did.{Did};

use crate::levels::active_of;
use crate::placing::to_head;
use ann_base::{Level, NoMemory};
use machine_frames::{Effect, task_mut};
use machine_program::Program;
use profile_machine::world::{Cause, Inherited, Part, World};
use trace_text::Who;
use world_tables::List;

/// Whether both are the same cause.
pub fn same_cause(a: Cause, b: Cause) -> bool
    ensures { result ≡ same_cause a b }
{
    match (a, b) {
        (Cause::Activation, Cause::Activation) => true,
        (Cause::Rendezvous(c), Cause::Rendezvous(d)) => c.0 == d.0,
        (Cause::Ceiling(o), Cause::Ceiling(q)) => o.0 == q.0,
        _ => false,
    }
}

/// The one with this name inherits a priority.
pub fn inherit(world: &mut World, name: Who, cause: Cause, level: Level) -> Result<(), NoMemory>
    ensures { OnOk result (world.new ≡ inherit name cause level world.old) }
{
    if let Some(task) = task_mut(world, name) {
        task.inherited.push_front(Inherited { cause, level })?;
    }
    Ok(())
}

fn place_of(inherited: &List<Inherited>, cause: Cause) -> Option<usize>
    ensures { result ≡ position_from (λ i. same_cause cause i.cause) 0 inherited.now }
{
    inherited.iter().position(|i| same_cause(cause, i.cause))
}

fn drop_cause(inherited: &mut List<Inherited>, cause: Cause)
    ensures { inherited.new ≡ without (λ i. same_cause cause i.cause) inherited.old }
{
    while let Some(place) = place_of(inherited, cause) {
        inherited.remove(place);
    }
}

/// The one with this name loses what it inherits by a cause.
pub fn lose(world: &mut World, name: Who, cause: Cause)
    ensures { world.new ≡ lose name cause world.old }
{
    if let Some(task) = task_mut(world, name) {
        drop_cause(&mut task.inherited, cause);
    }
}

/// The running task inherits: it goes to the head where its active priority rises (D.2.3).
#[tactic(auto, unfolding(profile_machine::specs::Inheritance::inherit_running))]
pub fn inherit_running(
    p: &Program,
    effect: &mut Effect,
    name: Who,
    cause: Cause,
    level: Level,
) -> Result<(), NoMemory>
    ensures { OnOk result (Did (inherit_running p.now name cause level) effect.old effect.new) }
{
    let before = active_of(p, &effect.world, name);
    inherit(&mut effect.world, name, cause, level)?;
    if before < active_of(p, &effect.world, name) {
        to_head(p, effect, Part::ThePlacing, name)
    } else {
        Ok(())
    }
}

/// It loses an inherited priority: it goes to the head where its active priority falls.
#[tactic(auto, unfolding(profile_machine::specs::Inheritance::lose_running))]
pub fn lose_running(
    p: &Program,
    effect: &mut Effect,
    name: Who,
    cause: Cause,
) -> Result<(), NoMemory>
    ensures { OnOk result (Did (lose_running p.now name cause) effect.old effect.new) }
{
    let before = active_of(p, &effect.world, name);
    lose(&mut effect.world, name, cause);
    if active_of(p, &effect.world, name) < before {
        to_head(p, effect, Part::ThePlacing, name)
    } else {
        Ok(())
    }
}
