//! Initialize (ISO/IEC 8652:2012, 7.6): an object is registered behind it.
ghost use Rattle.std.specs.Prelude.{◌≡◌, OnOk};
ghost use Rattle.profile_machine.specs.Controlled.{initialize_by, initialize};
ghost use Rattle.profile_machine.specs.Controlled.{registers, end_in_initialize};
ghost use Rattle.machine_frames.specs.Did.{Did};

use crate::operations::{has_room_to_finalize, initialize_of, open_operation};
use crate::registration::register;
use ann_base::{NoMemory, Raised};
use machine_frames::{Effect, goes, new_frame, pass_on, pop, push, raises};
use machine_program::{Program, next_of};
use machine_values::{located, seen_by};
use profile_image::{DeclNo, StatementNo, SubprogramNo};
use profile_machine::Leaving;
use profile_machine::world::{Located, Mark, Part};
use std::alloc::Global;
use trace_text::Who;

// Without an override of Initialize the object is registered at once.
#[tactic(auto, unfolding(profile_machine::specs::Controlled::initialize_by))]
fn initialize_by(
    alloc: Global,
    p: &Program,
    effect: &mut Effect,
    name: Who,
    s: StatementNo,
    object: Located,
    operation: Option<SubprogramNo>,
) -> Result<(), NoMemory>
    ensures { OnOk result
        (Did (initialize_by p.now name s object operation) effect.old effect.new) }
{
    match operation {
        None => {
            goes(effect, name, next_of(p, s));
            register(p, effect, name, object)
        }
        Some(f) => {
            if has_room_to_finalize(p, &effect.world, name, f) {
                goes(effect, name, next_of(p, s));
                let frame = new_frame(Mark::InInitialize(object), None);
                push(&mut effect.world, name, frame)?;
                open_operation(alloc, p, effect, name, f, object)
            } else {
                raises(effect, Part::Own, name, Raised::Storage)
            }
        }
    }
}

/// The object of a declaration is initialized. Without an override of Initialize it is registered
/// at once.
#[tactic(auto, unfolding(profile_machine::specs::Controlled::initialize))]
pub fn initialize(
    alloc: Global,
    p: &Program,
    effect: &mut Effect,
    name: Who,
    s: StatementNo,
    d: DeclNo,
) -> Result<(), NoMemory>
    ensures { OnOk result (Did (initialize p.now name s d) effect.old effect.new) }
{
    match located(&seen_by(p, &effect.world, name), d) {
        Ok(object) => initialize_by(alloc, p, effect, name, s, object, initialize_of(p, object)),
        Err(e) => raises(effect, Part::Own, name, e),
    }
}

// Whether Initialize registers its object where it is left so.
fn registers(leaving: Leaving) -> bool
    ensures { result ≡ registers leaving }
{
    !matches!(leaving, Leaving::Exception(_))
}

/// Initialize has ended: its object is registered, unless an exception has left it.
#[tactic(auto, unfolding(profile_machine::specs::Controlled::end_in_initialize))]
pub fn end_in_initialize(
    p: &Program,
    effect: &mut Effect,
    name: Who,
    object: Located,
    leaving: Leaving,
) -> Result<(), NoMemory>
    ensures { OnOk result
        (Did (end_in_initialize p.now name object leaving) effect.old effect.new) }
{
    pop(&mut effect.world, name);
    if registers(leaving) {
        register(p, effect, name, object)
    } else {
        pass_on(p, effect, name, leaving);
        Ok(())
    }
}
