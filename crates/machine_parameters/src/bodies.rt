//! How the bodies of called subprograms begin (ISO/IEC 8652:2012, 6.4).
ghost use Rattle.std.specs.Prelude.{OnOk};
ghost use Rattle.profile_machine.specs.Subprograms.{begin_body};
ghost use Rattle.machine_frames.specs.Did.{Did};
ghost use Rattle.machine_parameters.specs.Beginnings.{body_beginning};

use ann_base::{NoMemory, ObjectNo};
use machine_frames::{Effect, goes};
use machine_program::{Program, next_of, subprogram_of};
use machine_scopes::open_scope;
use profile_image::{StatementNo, SubprogramNo};
use profile_machine::world::{Beginning, Handed, Purpose, ResultTo, ScopeId};
use std::alloc::Global;
use trace_text::Who;

/// The body of a called subprogram begins, with what was handed over. Round it stands this scope in
/// use, and it works on this protected object.
#[tactic(auto, unfolding(profile_machine::specs::Subprograms::begin_body))]
pub fn begin_body(
    alloc: Global,
    p: &Program,
    effect: &mut Effect,
    name: Who,
    s: StatementNo,
    f: SubprogramNo,
    outer: Option<ScopeId>,
    object: Option<ObjectNo>,
    h: Handed,
    to: ResultTo,
) -> Result<(), NoMemory>
    ensures { OnOk result
        (Did (begin_body p.now name s f (body_beginning outer object h) h to) effect.old
        effect.new) }
{
    goes(effect, name, next_of(p, s));
    let b = Beginning {
        outer,
        object,
        subject: h.subject,
        values: h.values,
    };
    let purpose = Purpose::Subprogram(h.back, to);
    open_scope(
        alloc,
        p,
        name,
        subprogram_of(p, f).scope,
        b,
        purpose,
        &mut effect.world,
    )
}
