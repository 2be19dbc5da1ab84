//! Interrupts release the handlers that are attached to them (ISO/IEC 8652:2012, C.3.1).
ghost use Rattle.std.specs.Prelude.{◌≡◌, None, OnOk};
ghost use Rattle.profile_machine.specs.declared.world.lines.Part.TheVariants.{Own};
ghost use Rattle.profile_machine.specs.Handlers.{attached_in, handler_in};
ghost use Rattle.profile_machine.specs.Handlers.{handler_attached, interrupt, release};
ghost use Rattle.profile_machine.specs.Steps.{looks, for_some};
ghost use Rattle.machine_frames.specs.Did.{Did};

use crate::releases::release;
use ann_base::NoMemory;
use machine_frames::{Effect, says};
use machine_program::{Program, protected_unit_of};
use profile_image::{Attachment, SubprogramNo};
use profile_machine::world::{HandlerOf, Line, Object, Part};
use rosters::Roster;

// The procedure that is attached to the interrupt with this number.
fn attached_in(n: u8, attached: &[Attachment]) -> Option<SubprogramNo>
    ensures { result ≡ attached_in n attached.now }
{
    for attachment in attached {
        if n == attachment.interrupt {
            return Some(attachment.handler);
        }
    }
    None
}

fn handler_in(p: &Program, n: u8, object: &Object) -> Option<HandlerOf>
    ensures { result ≡ handler_in p.now n object.now }
{
    let attached = &protected_unit_of(p, object.unit).attached;
    let procedure = attached_in(n, attached.as_slice())?;
    Some(HandlerOf {
        object: object.number,
        procedure,
    })
}

// The handler of the first object that has one for the interrupt.
fn handler_attached(p: &Program, n: u8, objects: &Roster<Object>) -> Option<HandlerOf>
    ensures { result ≡ handler_attached p.now n objects.now }
{
    for object in objects.iter() {
        if let Some(handler) = handler_in(p, n, object) {
            return Some(handler);
        }
    }
    None
}

// The handler that is attached to the interrupt is released, once its object is there.
fn release_attached(p: &Program, effect: &mut Effect, n: u8) -> Result<(), NoMemory>
    ensures { OnOk result
        (Did
        (looks (λ w. for_some (handler_attached p.now n w.objects) (λ h. release p.now Own h None)))
        effect.old effect.new) }
{
    match handler_attached(p, n, &effect.world.objects) {
        Some(handler) => release(p, effect, Part::Own, handler, None),
        None => Ok(()),
    }
}

/// An interrupt comes: `interrupt`, and the handler that is attached to it is released, once its
/// object is there.
///
/// Errors: memory ran out, or numbers are used up.
#[tactic(auto, unfolding(profile_machine::specs::Handlers::interrupt))]
pub fn interrupt(p: &Program, effect: &mut Effect, n: u8) -> Result<(), NoMemory>
    ensures { OnOk result (Did (interrupt p.now n) effect.old effect.new) }
{
    says(effect, Part::Own, Line::Interrupt { number: n })?;
    release_attached(p, effect, n)
}
