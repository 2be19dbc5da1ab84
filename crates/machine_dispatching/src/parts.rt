//! The parts of an effect that are of who acts, or of another.
ghost use Rattle.std.specs.Prelude.{◌≡◌};
ghost use Rattle.profile_machine.specs.Masters.{part_of};
ghost use Rattle.profile_machine.specs.Priorities.{placing_of};

use profile_machine::world::{Part, same_who};
use trace_text::Who;

/// The part for the lines of somebody: of who acts, or of another.
pub fn part_of(actor: Who, name: Who) -> Part
    ensures { result ≡ part_of actor name }
{
    if same_who(actor, name) {
        Part::Own
    } else {
        Part::OfOther(name)
    }
}

/// The part for the placing of somebody: of who acts, or of another.
pub fn placing_of(actor: Who, name: Who) -> Part
    ensures { result ≡ placing_of actor name }
{
    if same_who(actor, name) {
        Part::ThePlacing
    } else {
        part_of(actor, name)
    }
}
