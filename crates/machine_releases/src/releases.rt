//! Releases of handlers (ISO/IEC 8652:2012, C.3, D.15).
ghost use Rattle.std.specs.Prelude.{◌≡◌, OnOk};
ghost use Rattle.profile_machine.specs.Handlers.{add_release, says_release, wake_agent};
ghost use Rattle.profile_machine.specs.Handlers.{release, has_room_for_release};
ghost use Rattle.profile_machine.specs.Steps.{looks};
ghost use Rattle.machine_frames.specs.Did.{Did};

use ann_base::{NoMemory, next_number};
use machine_dispatching::ready;
use machine_frames::{Effect, says};
use machine_program::Program;
use profile_image::MOST_RELEASES;
use profile_machine::world::{HandlerOf, Line, Part, Release, State, World};
use trace_text::Who;

fn add_release(world: &mut World, handler: HandlerOf, argument: Option<u32>) -> Result<(), NoMemory>
    ensures { OnOk result (world.new ≡ add_release handler argument world.old) }
{
    let number = next_number(world.drawn.releases)?;
    let release = Release {
        number,
        handler,
        argument,
    };
    world.releases.push_back(release)?;
    world.drawn.releases = number;
    Ok(())
}

#[tactic(auto, unfolding(profile_machine::specs::Handlers::says_release))]
fn says_release(effect: &mut Effect, part: Part, handler: HandlerOf) -> Result<(), NoMemory>
    ensures { OnOk result (Did (says_release part handler) effect.old effect.new) }
{
    let release = effect.world.drawn.releases;
    says(effect, part, Line::Release { release, handler })
}

// The agent becomes ready at the tail when it was blocked.
#[tactic(auto, unfolding(profile_machine::specs::Handlers::wake_agent))]
fn wake_agent(p: &Program, effect: &mut Effect, part: Part) -> Result<(), NoMemory>
    ensures { OnOk result
        (Did (looks (λ w. wake_agent p.now part w.agent.state)) effect.old effect.new) }
{
    match effect.world.agent.state {
        State::Blocked(_) => ready(p, effect, part, Who::Agent),
        State::Runnable => Ok(()),
        State::Made => Ok(()),
    }
}

/// A handler is released: `release`, and the agent becomes ready where it was blocked. `argument`
/// is the event, timer or budget for which it is.
///
/// Errors: memory ran out, or the numbers of releases are used up.
#[tactic(auto, unfolding(profile_machine::specs::Handlers::release))]
pub fn release(
    p: &Program,
    effect: &mut Effect,
    part: Part,
    handler: HandlerOf,
    argument: Option<u32>,
) -> Result<(), NoMemory>
    ensures { OnOk result (Did (release p.now part handler argument) effect.old effect.new) }
{
    add_release(&mut effect.world, handler, argument)?;
    says_release(effect, part, handler)?;
    wake_agent(p, effect, part)
}

/// Whether there is room for one release more: while 65,536 are pending there is none.
pub fn has_room_for_release(world: &World) -> bool
    ensures { result ≡ has_room_for_release world.now }
{
    world.releases.len() < MOST_RELEASES
}
