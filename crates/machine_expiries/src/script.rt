//! The items of the script whose moment has come (docs/LANGUAGE.md): interrupts, ports and masks.
ghost use Rattle.std.specs.Prelude.{◌≡◌, [], OnOk};
ghost use Rattle.profile_machine.specs.Instant.{with_port, with_masked, with_kept_interrupt};
ghost use Rattle.profile_machine.specs.Instant.{interrupt_comes, deliver_kept_interrupt};
ghost use Rattle.profile_machine.specs.Instant.{script_item, items_due, script_items};
ghost use Rattle.profile_image.specs.Words.{edit_at, is_flag};
ghost use Rattle.profile_image.specs.declared.script_items.Item.TheVariants as item;
ghost use Rattle.machine_frames.specs.Did.{Did};
ghost use Rattle.machine_expiries.specs.Moved.{Moved};

use ann_base::NoMemory;
use machine_dispatching::settle;
use machine_frames::{Effect, says};
use machine_program::Program;
use machine_releases::interrupt;
use profile_image::Item;
use profile_machine::world::{Line, Part, World, has_come};
use std::alloc::Global;
use world_tables::List;

fn is_flag(flags: &List<bool>, n: u8) -> bool
    ensures { result ≡ is_flag flags.now n }
{
    flags.get_or(n as usize, false)
}

#[tactic(auto, using(crate::proofs::EditLemmas::none_edited))]
fn set_flag(flags: &mut List<bool>, n: u8, flag: bool)
    ensures { flags.new ≡ edit_at n (λ _. flag) flags.old }
{
    if let Some(place) = flags.get_mut(n as usize) {
        *place = flag;
    }
}

#[tactic(auto, using(crate::proofs::EditLemmas::none_edited))]
fn set_port(ports: &mut List<i32>, n: u8, value: i32)
    ensures { ports.new ≡ edit_at n (λ _. value) ports.old }
{
    if let Some(place) = ports.get_mut(n as usize) {
        *place = value;
    }
}

fn with_port(world: &mut World, n: u8, value: i32)
    ensures { world.new ≡ with_port n value world.old }
{
    set_port(&mut world.ports, n, value);
}

fn with_masked(world: &mut World, n: u8, flag: bool)
    ensures { world.new ≡ with_masked n flag world.old }
{
    set_flag(&mut world.masked, n, flag);
}

fn with_kept_interrupt(world: &mut World, n: u8, flag: bool)
    ensures { world.new ≡ with_kept_interrupt n flag world.old }
{
    set_flag(&mut world.kept_interrupts, n, flag);
}

// An interrupt that is masked is kept; one at most is kept.
#[tactic(auto, unfolding(profile_machine::specs::Instant::interrupt_comes))]
fn interrupt_comes(p: &Program, effect: &mut Effect, n: u8, is_masked: bool) -> Result<(), NoMemory>
    ensures { OnOk result (Did (interrupt_comes p.now n is_masked) effect.old effect.new) }
{
    if is_masked {
        says(effect, Part::Own, Line::Masked { number: n })?;
        with_kept_interrupt(&mut effect.world, n, true);
        Ok(())
    } else {
        interrupt(p, effect, n)
    }
}

// One that was kept is delivered at once.
#[tactic(auto, unfolding(profile_machine::specs::Instant::deliver_kept_interrupt))]
fn deliver_kept_interrupt(
    p: &Program,
    effect: &mut Effect,
    n: u8,
    is_kept: bool,
) -> Result<(), NoMemory>
    ensures { OnOk result (Did (deliver_kept_interrupt p.now n is_kept) effect.old effect.new) }
{
    if is_kept {
        with_kept_interrupt(&mut effect.world, n, false);
        interrupt(p, effect, n)
    } else {
        Ok(())
    }
}

#[tactic(auto, unfolding(profile_machine::specs::Instant::script_item))]
fn unmask(p: &Program, effect: &mut Effect, n: u8) -> Result<(), NoMemory>
    ensures { OnOk result (Did (script_item p.now (item.Unmask n)) effect.old effect.new) }
{
    with_masked(&mut effect.world, n, false);
    says(effect, Part::Own, Line::Unmask { number: n })?;
    let is_kept = is_flag(&effect.world.kept_interrupts, n);
    deliver_kept_interrupt(p, effect, n, is_kept)
}

#[tactic(auto, unfolding(profile_machine::specs::Instant::script_item))]
fn script_item(p: &Program, effect: &mut Effect, item: Item) -> Result<(), NoMemory>
    ensures { OnOk result (Did (script_item p.now item) effect.old effect.new) }
{
    match item {
        Item::Interrupt(n) => {
            let is_masked = is_flag(&effect.world.masked, n);
            interrupt_comes(p, effect, n, is_masked)
        }
        Item::Port(n, value) => {
            with_port(&mut effect.world, n, value);
            says(effect, Part::Own, Line::Port { number: n, value })
        }
        Item::Mask(n) => {
            with_masked(&mut effect.world, n, true);
            says(effect, Part::Own, Line::Mask { number: n })
        }
        Item::Unmask(n) => unmask(p, effect, n),
    }
}

#[tactic(auto, unfolding(profile_machine::specs::Instant::items_due), using(crate::proofs::FuelLemmas::items_laws))]
fn items_due(fuel: usize, p: &Program, effect: &mut Effect) -> Result<(), NoMemory>
    ensures { OnOk result (Did (items_due fuel p.now) effect.old effect.new) }
{
    if fuel == 0 {
        return Ok(());
    }
    let (moment, item) = match effect.world.script.front() {
        Some(first) => *first,
        None => return Ok(()),
    };
    if !has_come(moment, effect.world.time) {
        return Ok(());
    }
    effect.world.script.pop_front();
    script_item(p, effect, item)?;
    items_due(fuel - 1, p, effect)
}

/// The second part of an instant: the items of the script whose moment has come, by moment and then
/// by line.
///
/// Errors: memory ran out.
pub fn script_items(
    alloc: Global,
    p: &Program,
    effect: &mut Effect,
    lines: &mut List<Line>,
) -> Result<(), NoMemory>
    requires { effect.old.said ≡ [] }
    ensures { OnOk result
        (Moved p.now (script_items p.now) effect.old lines.old effect.new lines.new) }
{
    items_due(effect.world.script.len(), p, effect)?;
    settle(alloc, effect, lines)
}
