//! Null statements, blocks, and a raise in a handler (ISO/IEC 8652:2012, 5.1, 5.6, 11.3).
ghost use Rattle.std.specs.Prelude.{◌≡◌, OnOk};
ghost use Rattle.profile_machine.specs.Statements.{null, block_statement, handled_by};
ghost use Rattle.profile_machine.specs.Statements.{handled_in, exception_handled, raise_again};
ghost use Rattle.machine_frames.specs.Did.{Did};

use ann_base::{NoMemory, Raised};
use machine_frames::{Effect, goes, has_room, raises, task_at};
use machine_program::{Program, marks_of, next_of, scope_of};
use machine_scopes::{home, innermost, open_scope, plainly, same_id};
use machine_values::{Seen, seen_by};
use profile_image::{ScopeNo, StatementNo};
use profile_machine::world::{FrameStack, Mark, Part, Purpose, ScopeId};
use std::alloc::Global;
use trace_text::Who;

/// A null statement.
#[tactic(auto, unfolding(profile_machine::specs::Statements::null))]
pub fn null(p: &Program, effect: &mut Effect, name: Who, s: StatementNo)
    ensures { Did (null p.now name s) effect.old effect.new }
{
    goes(effect, name, next_of(p, s));
}

/// A block: its scope is opened. Without room Storage_Error is raised.
#[tactic(auto, unfolding(profile_machine::specs::Statements::block_statement))]
pub fn block_statement(
    alloc: Global,
    p: &Program,
    effect: &mut Effect,
    name: Who,
    s: StatementNo,
    scope: ScopeNo,
) -> Result<(), NoMemory>
    ensures { OnOk result (Did (block_statement p.now name s scope) effect.old effect.new) }
{
    if has_room(
        &effect.world,
        name,
        marks_of(p, scope),
        scope_of(p, scope).size,
    ) {
        goes(effect, name, next_of(p, s));
        let b = plainly(alloc, innermost(&effect.world, name));
        open_scope(
            alloc,
            p,
            name,
            scope,
            b,
            Purpose::Block(s),
            &mut effect.world,
        )
    } else {
        raises(effect, Part::Own, name, Raised::Storage)
    }
}

// The exception that a handler of this scope handles, where the mark is the scope's.
fn handled_by(id: ScopeId, mark: &Mark) -> Option<Raised>
    ensures { result ≡ handled_by id mark.now }
{
    match mark {
        Mark::Scope(scope) if same_id(id, scope.within) => scope.handles,
        Mark::InAccept(accept) if same_id(id, accept.within) => accept.handles,
        Mark::Scope(_)
        | Mark::Handled(_)
        | Mark::InProtected(_)
        | Mark::InAccept(_)
        | Mark::Abortable(_)
        | Mark::InInitialize(_)
        | Mark::InFinalize(_)
        | Mark::InAssign(_) => None,
    }
}

fn handled_in(id: ScopeId, frames: &FrameStack) -> Option<Raised>
    ensures { result ≡ handled_in id frames.now }
{
    for frame in frames.iter() {
        if let Some(exception) = handled_by(id, &frame.mark) {
            return Some(exception);
        }
    }
    None
}

// The exception that a handler of this scope handles.
fn exception_handled(q: &Seen<'_>, scope: ScopeNo) -> Result<Raised, Raised>
    ensures { result ≡ exception_handled q.now scope }
{
    let Some(id) = home(q.world, scope, q.within) else {
        return Err(Raised::Program);
    };
    let Some(task) = task_at(q.world, q.who) else {
        return Err(Raised::Program);
    };
    handled_in(id, &task.frames).ok_or(Raised::Program)
}

/// A raise without a name, in a handler of this scope.
#[tactic(auto, unfolding(profile_machine::specs::Statements::raise_again))]
pub fn raise_again(
    p: &Program,
    effect: &mut Effect,
    name: Who,
    scope: ScopeNo,
) -> Result<(), NoMemory>
    ensures { OnOk result (Did (raise_again p.now name scope) effect.old effect.new) }
{
    match exception_handled(&seen_by(p, &effect.world, name), scope) {
        Ok(exception) => raises(effect, Part::Own, name, exception),
        Err(exception) => raises(effect, Part::Own, name, exception),
    }
}
