//! Calls of the main procedure, of subprograms and of protected operations (ISO/IEC 8652:2012, 6.4,
//! 9.5.1, 10.2).
ghost use Rattle.std.specs.Prelude.{OnOk};
ghost use Rattle.profile_machine.specs.Act.{call_main, call};
ghost use Rattle.machine_frames.specs.Did.{Did};

use ann_base::{NoMemory, Raised};
use machine_frames::{Effect, goes, has_room, raises};
use machine_program::{Program, main_procedure, marks_of, next_of, scope_of};
use machine_protected::{call_operation, call_own_operation};
use machine_scopes::{innermost, open_scope, plainly};
use machine_statements::call_subprogram;
use profile_image::{Actual, Callee, Destination, StatementNo};
use profile_machine::world::{Part, Purpose, ResultTo};
use std::alloc::Global;
use trace_text::Who;
use world_tables::List;

/// The environment task calls the main procedure.
///
/// Errors: memory ran out.
#[tactic(auto, unfolding(profile_machine::specs::Act::call_main))]
pub fn call_main(
    alloc: Global,
    p: &Program,
    effect: &mut Effect,
    name: Who,
    s: StatementNo,
) -> Result<(), NoMemory>
    ensures { OnOk result (Did (call_main p.now name s) effect.old effect.new) }
{
    let scope = main_procedure(p).scope;
    let marks = marks_of(p, scope);
    if !has_room(&effect.world, name, marks, scope_of(p, scope).size) {
        return raises(effect, Part::Own, name, Raised::Storage);
    }
    goes(effect, name, next_of(p, s));
    let begins = plainly(alloc, innermost(&effect.world, name));
    let purpose = Purpose::Subprogram(List::new(alloc), ResultTo::Nowhere);
    open_scope(alloc, p, name, scope, begins, purpose, &mut effect.world)
}

/// A call of a subprogram, or of a protected operation from outside or inside its object.
///
/// Errors: memory ran out.
#[tactic(auto, unfolding(profile_machine::specs::Act::call))]
pub fn call(
    alloc: Global,
    p: &Program,
    effect: &mut Effect,
    name: Who,
    s: StatementNo,
    callee: Callee,
    actuals: &[Actual],
    to: Destination,
) -> Result<(), NoMemory>
    ensures { OnOk result (Did (call p.now name s callee actuals.now to) effect.old effect.new) }
{
    match callee {
        Callee::Subprogram(f) => call_subprogram(alloc, p, effect, name, s, f, actuals, to),
        Callee::Operation { object, operation } => {
            call_operation(alloc, p, effect, name, s, object, operation, actuals, to)
        }
        Callee::OwnOperation(f) => call_own_operation(alloc, p, effect, name, s, f, actuals, to),
    }
}
