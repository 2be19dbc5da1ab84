//! Sequences of statements (ISO/IEC 8652:2012, 3.11, 11.2): the activation stands before the
//! statements, inside the handlers.
ghost use Rattle.ada_image.specs.Made.{Made};
ghost use Rattle.ada_image.specs.ImageOfDeclarations.{unhandled_put, with_handlers_put};
ghost use Rattle.ada_image.specs.ImageOfDeclarations.{handled_put, whole_put, parts_put};

use crate::bodies::inner_bodies_put;
use crate::statements::statements_put;
use ada_image::{Lists, SequencePlace, Within};
use ada_tree::{Sequence, SequenceParts};
use ann_base::NoMemory;
use image_compounds::{MakeSequence, handlers_put};
use image_layout::{in_construct, put_at, reserved, the_action};
use image_objects::{activation_put, declarations_put, end_of_activation_put, make_tasks};
use profile_image::{StatementForm, StatementNo};
use std::alloc::Global;

/// Names how sequences are made here: with the declarations and bodies in them.
#[derive(Drop)]
pub struct WithDeclarations {}

/// The statements behind the activation of the tasks of a part (9.2).
#[tactic(auto, unfolding(ada_image::specs::ImageOfDeclarations::unhandled_put))]
fn unhandled_put<Q: MakeSequence<WithDeclarations>>(
    alloc: Global,
    lists: &mut Lists,
    within: &Within<'_, '_>,
    part: Option<u32>,
    parts: &SequenceParts<Q>,
    next: Option<StatementNo>,
) -> Result<Option<StatementNo>, NoMemory>
    ensures { Made (unhandled_put Q.making within.now part parts.now next) lists.old lists.new
        result }
{
    let first = statements_put(alloc, lists, within, &parts.statements, next)?;
    activation_put(lists, part, first)
}

/// The same with handlers around (11.2).
#[tactic(auto, unfolding(ada_image::specs::ImageOfDeclarations::with_handlers_put))]
fn with_handlers_put<Q: MakeSequence<WithDeclarations>>(
    alloc: Global,
    lists: &mut Lists,
    within: &Within<'_, '_>,
    part: Option<u32>,
    parts: &SequenceParts<Q>,
    next: Option<StatementNo>,
) -> Result<Option<StatementNo>, NoMemory>
    ensures { Made (with_handlers_put Q.making within.now part parts.now next) lists.old lists.new
        result }
{
    let handled = reserved(lists)?;
    let inner = in_construct(within, handled);
    let first = unhandled_put(alloc, lists, &inner, part, parts, None)?;
    let handlers = handlers_put(alloc, lists, within, parts.handlers.as_slice(), next)?;
    let form = StatementForm::Handled {
        handlers,
        first: the_action(first),
    };
    put_at(lists, handled, form, 0, next)
}

/// Statements with their handlers, if they have any (11.2).
#[tactic(auto, unfolding(ada_image::specs::ImageOfDeclarations::handled_put))]
fn handled_put<Q: MakeSequence<WithDeclarations>>(
    alloc: Global,
    lists: &mut Lists,
    within: &Within<'_, '_>,
    part: Option<u32>,
    parts: &SequenceParts<Q>,
    next: Option<StatementNo>,
) -> Result<Option<StatementNo>, NoMemory>
    ensures { Made (handled_put Q.making within.now part parts.now parts.now.handlers next)
        lists.old lists.new result }
{
    match parts.handlers.as_slice() {
        [] => unhandled_put(alloc, lists, within, part, parts, next),
        [_, ..] => with_handlers_put(alloc, lists, within, part, parts, next),
    }
}

/// All of a body or a block (3.11).
#[tactic(auto, unfolding(ada_image::specs::ImageOfDeclarations::whole_put))]
fn whole_put<Q: MakeSequence<WithDeclarations>>(
    alloc: Global,
    lists: &mut Lists,
    within: &Within<'_, '_>,
    is_task_body: bool,
    parts: &SequenceParts<Q>,
) -> Result<Option<StatementNo>, NoMemory>
    ensures { Made (whole_put Q.making within.now is_task_body parts.now) lists.old lists.new
        result }
{
    let declarations = parts.declarations.as_slice();
    let part = make_tasks(within, declarations).then_some(0);
    inner_bodies_put(alloc, lists, within, declarations)?;
    let first = handled_put(alloc, lists, within, part, parts, None)?;
    let ended = end_of_activation_put(lists, is_task_body, first)?;
    declarations_put(alloc, lists, within, 0, declarations, ended)
}

impl<Q: MakeSequence<WithDeclarations>> MakeSequence<WithDeclarations> for SequenceParts<Q> {
    ghost use Rattle.ada_image.specs.ImageOfDeclarations.{parts_put};

    ghost making = { parts_put Q.making };

    #[tactic(auto, unfolding(ada_image::specs::ImageOfDeclarations::parts_put))]
    fn sequence_put(
        &self,
        alloc: Global,
        lists: &mut Lists,
        place: SequencePlace,
        within: &Within<'_, '_>,
        next: Option<StatementNo>,
    ) -> Result<Option<StatementNo>, NoMemory> {
        match place {
            SequencePlace::StatementsAlone => {
                statements_put(alloc, lists, within, &self.statements, next)
            }
            SequencePlace::BehindDeclarations(part) => {
                handled_put(alloc, lists, within, part, self, next)
            }
            SequencePlace::AsBody(is_task_body) => {
                whole_put(alloc, lists, within, is_task_body, self)
            }
        }
    }
}

impl MakeSequence<WithDeclarations> for Sequence {
    ghost use Rattle.ada_image.specs.ImageOfDeclarations.{sequence_put};

    ghost making = { sequence_put };

    #[tactic(auto, using(ada_image::proofs::SequenceFolds::sequence_made))]
    fn sequence_put(
        &self,
        alloc: Global,
        lists: &mut Lists,
        place: SequencePlace,
        within: &Within<'_, '_>,
        next: Option<StatementNo>,
    ) -> Result<Option<StatementNo>, NoMemory> {
        self.parts
            .get()
            .sequence_put(alloc, lists, place, within, next)
    }
}
