//! The ready queues: one list, the head of the highest level first (ISO/IEC 8652:2012, D.2.1).
ghost use Rattle.std.specs.Prelude.{◌≡◌, OnOk};
ghost use Rattle.profile_image.specs.declared.image.Image.{Image};
ghost use Rattle.profile_machine.specs.Dispatching.{choose};
ghost use Rattle.profile_machine.specs.Lines.{event_of};
ghost use Rattle.profile_machine.specs.Steps.{places_after};

use ann_base::NoMemory;
use profile_machine::world::{Line, Placed, ReadyQueues, World};
use trace_text::Who;

/// The ready queues follow a line: `ready` places, `block` and `done` take out, no other line moves
/// anybody. That holds whatever the names are with which the line is written.
pub fn places_after(places: &mut ReadyQueues, line: &Line) -> Result<(), NoMemory>
    ensures { OnOk result
        ((p : Image) → places.new ≡ places_after (event_of p line.now) places.old) }
{
    match line {
        Line::Ready {
            who,
            level,
            end,
            deadline,
        } => {
            let placed = Placed {
                who: *who,
                level: *level,
                deadline: *deadline,
            };
            places.place(*end, placed)
        }
        Line::Block { who, .. } => {
            places.take_out(*who);
            Ok(())
        }
        Line::Done { task } => {
            places.take_out(Who::Task(*task));
            Ok(())
        }
        _ => Ok(()),
    }
}

/// Who is chosen to run: the head of the highest level that is not empty (D.2.1).
pub fn choose(world: &World) -> Option<Who>
    ensures { result ≡ choose world.now }
{
    Some(world.places.front()?.who)
}
