//! The operations of a controlled type (ISO/IEC 8652:2012, 7.6), and how the body of one is opened.
ghost use Rattle.std.specs.Prelude.{◌≡◌, ◌+◌, IfOk, OnOk, option_and_then};
ghost use Rattle.profile_image.specs.Program.{scope_of, subprogram_of};
ghost use Rattle.profile_machine.specs.Scopes.{home, innermost};
ghost use Rattle.profile_machine.specs.Controlled.{type_of, first_place, operation_beginning};
ghost use Rattle.profile_machine.specs.Controlled.{open_operation, marks_of_operation};
ghost use Rattle.profile_machine.specs.Controlled.{has_room_to_finalize, has_room_to_adjust};
ghost use Rattle.machine_frames.specs.Did.{Did};

use ann_base::NoMemory;
use machine_frames::{Effect, has_room};
use machine_program::{
    Program, controlled_of, declaration_of, form_of, marks_of, opens_handled, scope_of,
    subprogram_of,
};
use machine_scopes::{home, innermost, open_scope, read_cell};
use profile_image::{DeclarationKind, Scope, SubprogramNo};
use profile_machine::world::{Beginning, Located, Purpose, ResultTo, ScopeId, World};
use std::alloc::Global;
use trace_text::Who;
use world_tables::List;

/// The override of Initialize of an object's type, if it has one.
pub(crate) fn initialize_of(p: &Program, object: Located) -> Option<SubprogramNo>
    ensures { result ≡ (type_of p.now object).initialize }
{
    match declaration_of(p, object.declared).kind {
        DeclarationKind::Controlled(c) => controlled_of(p, c).initialize,
        _ => None,
    }
}

/// The override of Finalize of an object's type, if it has one.
pub(crate) fn finalize_of(p: &Program, object: Located) -> Option<SubprogramNo>
    ensures { result ≡ (type_of p.now object).finalize }
{
    match declaration_of(p, object.declared).kind {
        DeclarationKind::Controlled(c) => controlled_of(p, c).finalize,
        _ => None,
    }
}

/// The override of Adjust of an object's type, if it has one.
pub(crate) fn adjust_of(p: &Program, object: Located) -> Option<SubprogramNo>
    ensures { result ≡ (type_of p.now object).adjust }
{
    match declaration_of(p, object.declared).kind {
        DeclarationKind::Controlled(c) => controlled_of(p, c).adjust,
        _ => None,
    }
}

/// The place of an object's first cell.
pub(crate) fn first_place(p: &Program, object: Located) -> u32
    ensures { result ≡ first_place p.now object }
{
    declaration_of(p, object.declared).place
}

fn scope_of_operation(p: &Program, f: SubprogramNo) -> &Scope
    ensures { result.now ≡ scope_of p.now (subprogram_of p.now f).scope }
{
    scope_of(p, subprogram_of(p, f).scope)
}

// The scope in use that stands round the body of an operation.
fn round_operation(p: &Program, world: &World, name: Who, f: SubprogramNo) -> Option<ScopeId>
    ensures { result
        ≡ option_and_then (λ outer. home world.now outer (innermost world.now name))
        (scope_of p.now (subprogram_of p.now f).scope).outer }
{
    home(
        world,
        scope_of_operation(p, f).outer?,
        innermost(world, name),
    )
}

fn operation_beginning(
    alloc: Global,
    p: &Program,
    world: &World,
    name: Who,
    f: SubprogramNo,
    object: Located,
) -> Result<Beginning, NoMemory>
    ensures { IfOk result
        (λ beginning. beginning ≡ operation_beginning p.now world.now name f object) }
{
    let mut values = List::new(alloc);
    values.push_back(read_cell(world, object.within, first_place(p, object)))?;
    Ok(Beginning {
        outer: round_operation(p, world, name, f),
        object: None,
        subject: Some(object),
        values,
    })
}

/// The body of an operation is opened, with its object.
#[tactic(auto, unfolding(profile_machine::specs::Controlled::open_operation))]
pub(crate) fn open_operation(
    alloc: Global,
    p: &Program,
    effect: &mut Effect,
    name: Who,
    f: SubprogramNo,
    object: Located,
) -> Result<(), NoMemory>
    ensures { OnOk result (Did (open_operation p.now name f object) effect.old effect.new) }
{
    let beginning = operation_beginning(alloc, p, &effect.world, name, f, object)?;
    open_scope(
        alloc,
        p,
        name,
        subprogram_of(p, f).scope,
        beginning,
        Purpose::Subprogram(List::new(alloc), ResultTo::Nowhere),
        &mut effect.world,
    )
}

// How many marks the body of an operation opens with the mark of the operation below it.
fn marks_with_own(p: &Program, f: SubprogramNo) -> u32
    ensures { result ≡ 1 + marks_of_operation p.now f }
{
    match scope_of_operation(p, f).first {
        Some(s) if opens_handled(form_of(p, s)) => 3,
        _ => 2,
    }
}

/// Whether there is room for Initialize or Finalize: for its own mark, and for its body.
pub(crate) fn has_room_to_finalize(p: &Program, world: &World, name: Who, f: SubprogramNo) -> bool
    ensures { result ≡ has_room_to_finalize p.now world.now name f }
{
    has_room(
        world,
        name,
        marks_with_own(p, f),
        scope_of_operation(p, f).size,
    )
}

/// Whether there is room for the body of Adjust.
pub(crate) fn has_room_to_adjust(p: &Program, world: &World, name: Who, f: SubprogramNo) -> bool
    ensures { result ≡ has_room_to_adjust p.now world.now name f }
{
    has_room(
        world,
        name,
        marks_of(p, subprogram_of(p, f).scope),
        scope_of_operation(p, f).size,
    )
}
