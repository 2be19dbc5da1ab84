//! Idle ticks: while nobody is ready and nothing is due, nothing is said and only the time goes on,
//! so the ticks up to the first moment that is ahead are jumped over.
ghost use Rattle.std.specs.Prelude.{◌≡◌, ◌≤◌};
ghost use Rattle.machine_kernel.specs.Jump.{sooner, first_appointed, first_item};
ghost use Rattle.machine_kernel.specs.Jump.{is_idle, first_tick, jumped};

use ann_base::Moment;
use profile_image::Item;
use profile_machine::world::{Agenda, World};
use world_tables::List;

fn sooner(moment: Moment, tick: u64) -> u64
    ensures { result ≡ sooner moment tick }
{
    match u64::try_from(moment) {
        Ok(at) => at.min(tick),
        Err(_) => 0,
    }
}

#[tactic(auto, using(crate::proofs::FirstLemmas::first_laws))]
fn first_appointed(appointments: &Agenda, tick: u64) -> u64
    ensures { result ≡ first_appointed appointments.now tick }
{
    appointments.stands_in_order();
    match appointments.front() {
        Some(first) => sooner(first.moment, tick),
        None => tick,
    }
}

fn first_item(script: &List<(Moment, Item)>, tick: u64) -> u64
    ensures { result ≡ first_item script.now tick }
{
    match script.front() {
        Some(item) => sooner(item.0, tick),
        None => tick,
    }
}

pub(crate) fn first_tick(bound: u64, world: &World) -> u64
    ensures { result ≡ first_tick bound world.now }
{
    let first = first_appointed(&world.appointments, bound);
    world.time.max(first_item(&world.script, first))
}

fn is_idle(world: &World) -> bool
    ensures { result ≡ is_idle world.now }
{
    world.places.is_empty()
        && world.ran.is_none()
        && world.ended.is_none()
        && world.timers_due.is_empty()
        && world.budget_due.is_none()
        && !(world.appointments.is_empty() && world.script.is_empty())
}

#[tactic(auto, unfolding(crate::specs::Jump::jumped))]
fn jump(bound: u64, world: &mut World)
    ensures { world.new ≡ jumped bound world.old }
{
    if is_idle(world) {
        world.time = first_tick(bound, world);
    }
}

/// Jumps over the idle ticks, if there are any, up to the bound at most.
#[tactic(auto, using(crate::proofs::JumpLemmas::jumped_within))]
pub(crate) fn skip_idle_ticks(bound: u64, world: &mut World)
    ensures jumped { world.new ≡ jumped bound world.old }
    ensures within { world.old.time ≤ bound → world.new.time ≤ bound }
{
    jump(bound, world);
}
