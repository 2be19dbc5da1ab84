//! Registered controlled objects (ISO/IEC 8652:2012, 7.6), the newest first.
ghost use Rattle.std.specs.Prelude.{◌≡◌, OnOk, find, option_copied};
ghost use Rattle.profile_image.specs.Words.{without};
ghost use Rattle.profile_machine.specs.Controlled.{region_or_none, top_region, controlled_drawn};
ghost use Rattle.profile_machine.specs.Controlled.{registered_as, register, is_number};
ghost use Rattle.profile_machine.specs.Controlled.{no_longer_registered, same_located};
ghost use Rattle.profile_machine.specs.Controlled.{is_located, registered_at, registered_object};
ghost use Rattle.machine_frames.specs.Did.{Did};

use crate::operations::first_place;
use ann_base::{NoMemory, RegionNo, next_number};
use machine_frames::{Effect, region_of_mark, says, top_of};
use machine_program::Program;
use machine_scopes::{same_id, write_cell};
use profile_image::Value;
use profile_machine::world::{Drawn, Line, Located, Part, Registered, World};
use trace_text::Who;
use world_tables::List;

/// The region, or number 0, which no region has.
pub fn region_or_none(region: Option<RegionNo>) -> RegionNo
    ensures { result ≡ region_or_none region }
{
    match region {
        Some(region) => region,
        None => RegionNo(0),
    }
}

/// The region of the mark on top, or number 0 where it has none.
pub fn top_region(world: &World, name: Who) -> RegionNo
    ensures { result ≡ top_region world.now name }
{
    match top_of(world, name) {
        Some(frame) => region_or_none(region_of_mark(&frame.mark)),
        None => RegionNo(0),
    }
}

fn controlled_drawn(drawn: &mut Drawn) -> Result<(), NoMemory>
    ensures { OnOk result (drawn.new ≡ controlled_drawn drawn.old) }
{
    drawn.controlled = next_number(drawn.controlled)?;
    Ok(())
}

fn registered_as(
    number: u32,
    region: RegionNo,
    object: Located,
    world: &mut World,
) -> Result<(), NoMemory>
    ensures { OnOk result (world.new ≡ registered_as number region object world.old) }
{
    world.registered.push_front(Registered {
        object: number,
        region,
        located: object,
    })?;
    controlled_drawn(&mut world.drawn)
}

/// An object is registered in the region of the scope on top.
#[tactic(auto, unfolding(profile_machine::specs::Controlled::register))]
pub(crate) fn register(
    p: &Program,
    effect: &mut Effect,
    name: Who,
    object: Located,
) -> Result<(), NoMemory>
    ensures { OnOk result (Did (register p.now name object) effect.old effect.new) }
{
    let number = next_number(effect.world.drawn.controlled)?;
    let region = top_region(&effect.world, name);
    registered_as(number, region, object, &mut effect.world)?;
    let place = first_place(p, object);
    write_cell(
        &mut effect.world,
        object.within,
        place,
        Value::Thing(number),
    );
    let line = Line::Init {
        who: name,
        object: number,
        region,
        declared: object.declared,
    };
    says(effect, Part::Own, line)
}

fn without_number(registered: &mut List<Registered>, number: u32)
    ensures { registered.new ≡ without (is_number number) registered.old }
{
    registered.retain(|r| number != r.object);
}

/// The object with this number is registered no longer.
pub(crate) fn no_longer_registered(number: u32, world: &mut World)
    ensures { world.new ≡ no_longer_registered number world.old }
{
    without_number(&mut world.registered, number);
}

/// Whether both are the same object.
pub(crate) fn same_located(a: Located, b: Located) -> bool
    ensures { result ≡ same_located a b }
{
    same_id(a.within, b.within) && a.declared.0 == b.declared.0
}

fn found_at(registered: &List<Registered>, object: Located) -> Option<&Registered>
    ensures { option_copied result ≡ find (is_located object) registered.now }
{
    registered.iter().find(|r| same_located(object, r.located))
}

/// What is registered of an object.
pub(crate) fn registered_at(world: &World, object: Located) -> Option<Registered>
    ensures { result ≡ registered_at world.now object }
{
    Some(*found_at(&world.registered, object)?)
}

fn found_object(registered: &List<Registered>, number: u32) -> Option<&Registered>
    ensures { option_copied result ≡ find (is_number number) registered.now }
{
    registered.iter().find(|r| number == r.object)
}

/// The registered object with this number.
pub(crate) fn registered_object(world: &World, number: u32) -> Option<Registered>
    ensures { result ≡ registered_object world.now number }
{
    Some(*found_object(&world.registered, number)?)
}
