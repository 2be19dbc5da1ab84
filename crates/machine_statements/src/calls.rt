//! Calls of subprograms (ISO/IEC 8652:2012, 6.4).
ghost use Rattle.std.specs.Prelude.{◌≡◌, OnOk};
ghost use Rattle.profile_machine.specs.Statements.{sees};
ghost use Rattle.profile_machine.specs.Subprograms.{begin_body, beginning_of, call_subprogram};
ghost use Rattle.machine_frames.specs.Did.{Did};
ghost use Rattle.machine_statements.specs.Parts.{outer_of_body};

use ann_base::{NoMemory, Raised};
use machine_frames::{Effect, has_room, raises, refused};
use machine_parameters::{begin_body, handed, result_to};
use machine_program::{Program, marks_of, scope_of, subprogram_of};
use machine_scopes::home;
use machine_values::{Seen, seen_by};
use profile_image::{Actual, Destination, StatementNo, SubprogramNo};
use profile_machine::world::{Handed, Part, ResultTo, ScopeId};
use std::alloc::Global;
use trace_text::Who;

// The scope in use that stands round the body of a subprogram that is no protected operation.
fn outer_of(q: &Seen<'_>, f: SubprogramNo) -> Option<ScopeId>
    ensures { result ≡ outer_of_body q.now f }
{
    let scope = subprogram_of(q.program, f).scope;
    home(q.world, scope_of(q.program, scope).outer?, q.within)
}

fn called(
    alloc: Global,
    p: &Program,
    effect: &mut Effect,
    name: Who,
    s: StatementNo,
    f: SubprogramNo,
    h: Handed,
    to: ResultTo,
) -> Result<(), NoMemory>
    ensures { OnOk result
        (Did (sees p.now name (λ q. begin_body p.now name s f (beginning_of q f h) h to)) effect.old
        effect.new) }
{
    let outer = outer_of(&seen_by(p, &effect.world, name), f);
    begin_body(alloc, p, effect, name, s, f, outer, None, h, to)
}

/// A call of a subprogram that is no protected operation. Without room Storage_Error is raised.
#[tactic(auto, unfolding(profile_machine::specs::Subprograms::call_subprogram))]
pub fn call_subprogram(
    alloc: Global,
    p: &Program,
    effect: &mut Effect,
    name: Who,
    s: StatementNo,
    f: SubprogramNo,
    actuals: &[Actual],
    to: Destination,
) -> Result<(), NoMemory>
    ensures { OnOk result
        (Did (call_subprogram p.now name s f actuals.now to) effect.old effect.new) }
{
    let scope = subprogram_of(p, f).scope;
    if has_room(
        &effect.world,
        name,
        marks_of(p, scope),
        scope_of(p, scope).size,
    ) {
        let q = seen_by(p, &effect.world, name);
        match result_to(&q, to) {
            Ok(to) => match handed(alloc, &q, subprogram_of(p, f).formals.as_slice(), actuals) {
                Ok(h) => called(alloc, p, effect, name, s, f, h, to),
                Err(answer) => refused(effect, name, answer),
            },
            Err(answer) => refused(effect, name, answer),
        }
    } else {
        raises(effect, Part::Own, name, Raised::Storage)
    }
}
