//! Bodies among declarations (ISO/IEC 8652:2012, 6.3, 9.1, 9.4, 9.5.2).
ghost use Rattle.std.specs.Prelude.{None, false, true};
ghost use Rattle.ada_image.specs.declared.making.SequencePlace.TheVariants as sequence_place;
ghost use Rattle.ada_image.specs.Making.{in_body_of};
ghost use Rattle.ada_image.specs.Made.{Made};
ghost use Rattle.ada_image.specs.ImageOfDeclarations.{body_put, subprogram_declared_as};
ghost use Rattle.ada_image.specs.ImageOfDeclarations.{operation_body_put, operation_bodies_put};
ghost use Rattle.ada_image.specs.ImageOfDeclarations.{inner_body_put, inner_bodies_put};

use crate::sequences::WithDeclarations;
use ada_entities::entity_denoted;
use ada_image::{Lists, OpenLoop, SequencePlace, Within};
use ada_tree::{Body, Declaration, OperationBody, SubprogramSpecification};
use ann_base::{NoMemory, Place};
use image_compounds::{MakeSequence, same_place};
use image_layout::{first_put, in_body_of, in_units, units_inside};
use image_objects::subprogram_declared_as;
use image_statements::scope_at;
use profile_image::{StatementNo, SubprogramNo};
use std::alloc::Global;
use world_tables::List;

/// The sequence of a body, where these loops are open inside it.
fn sequence_of_body<'n, Q: MakeSequence<WithDeclarations>>(
    alloc: Global,
    lists: &mut Lists,
    outside: Within<'n, '_>,
    loops: &'n List<OpenLoop>,
    scope: u32,
    function: Option<SubprogramNo>,
    is_task_body: bool,
    sequence: &Q,
) -> Result<Option<StatementNo>, NoMemory>
    ensures { Made
        (Q.making sequence.now (sequence_place.AsBody is_task_body)
        (record (in_body_of scope function outside.entry) { loops = loops.now }) None) lists.old
        lists.new result }
{
    let whole = SequencePlace::AsBody(is_task_body);
    let inner = in_body_of(&outside, loops, scope, function);
    sequence.sequence_put(alloc, lists, whole, &inner, None)
}

/// A body (3.11.1): its scope has its first action.
#[tactic(auto, unfolding(ada_image::specs::ImageOfDeclarations::body_put))]
pub fn body_put<Q: MakeSequence<WithDeclarations>>(
    alloc: Global,
    lists: &mut Lists,
    within: &Within<'_, '_>,
    place: Place,
    function: Option<SubprogramNo>,
    is_task_body: bool,
    sequence: &Q,
) -> Result<(), NoMemory>
    ensures { Made (body_put Q.making within.now place function is_task_body sequence.now) lists.old
        lists.new result }
{
    let scope = scope_at(within.names.get(), place)?;
    let loops = List::new(alloc);
    let first = sequence_of_body(
        alloc,
        lists,
        same_place(within),
        &loops,
        scope,
        function,
        is_task_body,
        sequence,
    )?;
    first_put(lists, scope, first)
}

/// The body of a subprogram that its name declares (6.3).
fn subprogram_body_put<Q: MakeSequence<WithDeclarations>>(
    alloc: Global,
    lists: &mut Lists,
    within: &Within<'_, '_>,
    specification: &SubprogramSpecification,
    body: &Body<Q>,
) -> Result<(), NoMemory>
    ensures { Made
        (body_put Q.making within.now specification.now.place
        (subprogram_declared_as within.now specification.now.name) false body.now.sequence)
        lists.old lists.new result }
{
    let function = subprogram_declared_as(within, &specification.name);
    body_put(
        alloc,
        lists,
        within,
        specification.place,
        function,
        false,
        &body.sequence,
    )
}

/// The body of an operation of a protected unit (9.4).
#[tactic(auto, unfolding(ada_image::specs::ImageOfDeclarations::operation_body_put))]
fn operation_body_put<Q: MakeSequence<WithDeclarations>>(
    alloc: Global,
    lists: &mut Lists,
    within: &Within<'_, '_>,
    operation: &OperationBody<Q>,
) -> Result<(), NoMemory>
    ensures { Made (operation_body_put Q.making within.now operation.now) lists.old lists.new
        result }
{
    match operation {
        OperationBody::Subprogram {
            specification,
            body,
        } => subprogram_body_put(alloc, lists, within, specification, body),
        OperationBody::Entry { head, body } => {
            body_put(
                alloc,
                lists,
                within,
                head.place,
                None,
                false,
                &body.sequence,
            )
        }
    }
}

/// The bodies of the operations of a protected unit, in the order of the text.
#[tactic(auto, unfolding(ada_image::specs::ImageOfDeclarations::operation_bodies_put))]
fn operation_bodies_put<Q: MakeSequence<WithDeclarations>>(
    alloc: Global,
    lists: &mut Lists,
    within: &Within<'_, '_>,
    operations: &[OperationBody<Q>],
) -> Result<(), NoMemory>
    ensures { Made (operation_bodies_put Q.making within.now operations.now) lists.old lists.new
        result }
{
    for operation in operations {
        operation_body_put(alloc, lists, within, operation)?;
    }
    Ok(())
}

/// The body of a task in these units (9.1).
fn task_body_put<'n, Q: MakeSequence<WithDeclarations>>(
    alloc: Global,
    lists: &mut Lists,
    outside: Within<'n, '_>,
    units: &'n List<u32>,
    place: Place,
    body: &Body<Q>,
) -> Result<(), NoMemory>
    ensures { Made
        (body_put Q.making (record outside.entry { units = units.now }) place None true
        body.now.sequence) lists.old lists.new result }
{
    let inner = in_units(&outside, units);
    body_put(alloc, lists, &inner, place, None, true, &body.sequence)
}

/// The bodies of the operations of a protected unit in these units (9.4).
fn protected_body_put<'n, Q: MakeSequence<WithDeclarations>>(
    alloc: Global,
    lists: &mut Lists,
    outside: Within<'n, '_>,
    units: &'n List<u32>,
    operations: &[OperationBody<Q>],
) -> Result<(), NoMemory>
    ensures { Made
        (operation_bodies_put Q.making (record outside.entry { units = units.now }) operations.now)
        lists.old lists.new result }
{
    let inner = in_units(&outside, units);
    operation_bodies_put(alloc, lists, &inner, operations)
}

/// The body that a declaration is, if it is one.
#[tactic(auto, unfolding(ada_image::specs::ImageOfDeclarations::inner_body_put))]
fn inner_body_put<Q: MakeSequence<WithDeclarations>>(
    alloc: Global,
    lists: &mut Lists,
    within: &Within<'_, '_>,
    declaration: &Declaration<Q>,
) -> Result<(), NoMemory>
    ensures { Made (inner_body_put Q.making within.now declaration.now) lists.old lists.new result }
{
    match declaration {
        Declaration::SubprogramBody {
            specification,
            body,
        } => subprogram_body_put(alloc, lists, within, specification, body),
        Declaration::TaskBody { place, name, body } => {
            let unit = entity_denoted(within.names.get(), name.place);
            let units = units_inside(within, unit)?;
            task_body_put(alloc, lists, same_place(within), &units, *place, body)
        }
        Declaration::ProtectedBody(protected) => {
            let unit = entity_denoted(within.names.get(), protected.name.place);
            let units = units_inside(within, unit)?;
            protected_body_put(
                alloc,
                lists,
                same_place(within),
                &units,
                protected.operations.as_slice(),
            )
        }
        _ => Ok(()),
    }
}

/// The bodies among declarations, in the order of the text (3.11).
#[tactic(auto, unfolding(ada_image::specs::ImageOfDeclarations::inner_bodies_put))]
pub fn inner_bodies_put<Q: MakeSequence<WithDeclarations>>(
    alloc: Global,
    lists: &mut Lists,
    within: &Within<'_, '_>,
    declarations: &[Declaration<Q>],
) -> Result<(), NoMemory>
    ensures { Made (inner_bodies_put Q.making within.now declarations.now) lists.old lists.new
        result }
{
    for declaration in declarations {
        inner_body_put(alloc, lists, within, declaration)?;
    }
    Ok(())
}
