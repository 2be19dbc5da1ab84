//! Blocks, exception handlers and accept statements (ISO/IEC 8652:2012, 5.6, 11.2, 9.5.2).
ghost use Rattle.ada_image.specs.Made.{Made};
ghost use Rattle.ada_image.specs.ImageOfStatements.{accept_put, block_put, handlers_put};

use crate::branches::inside;
use crate::making::MakeSequence;
use ada_image::{Lists, SequencePlace, Within};
use ada_tree::{Accept, Block, Handler};
use ann_base::NoMemory;
use image_layout::{in_handler, reserved, the_action};
use image_parts::{in_statement_scope, scope_action};
use image_statements::{entry_at, handled_made, scope_at};
use profile_image::{Handler as ExceptionHandler, ImageList, ScopeNo, StatementForm, StatementNo};
use std::alloc::Global;

/// A block (5.6).
#[tactic(auto, unfolding(ada_image::specs::ImageOfStatements::block_put))]
pub fn block_put<W, Q: MakeSequence<W>>(
    alloc: Global,
    lists: &mut Lists,
    within: &Within<'_, '_>,
    block: &Block<Q>,
    next: Option<StatementNo>,
) -> Result<Option<StatementNo>, NoMemory>
    ensures { Made (block_put Q.making within.now block.now next) lists.old lists.new result }
{
    let scope = scope_at(within.names.get(), block.place)?;
    let s = reserved(lists)?;
    let place = SequencePlace::AsBody(false);
    let inner = in_statement_scope(within, scope, s);
    let first = block
        .sequence
        .sequence_put(alloc, lists, place, &inner, None)?;
    let form = StatementForm::Block(ScopeNo(scope));
    scope_action(lists, scope, first, s, form, next)
}

/// The handlers of a sequence, in the order of the text (11.2).
#[tactic(auto, unfolding(ada_image::specs::ImageOfStatements::handlers_put))]
pub fn handlers_put<W, Q: MakeSequence<W>>(
    alloc: Global,
    lists: &mut Lists,
    within: &Within<'_, '_>,
    handlers: &[Handler<Q>],
    next: Option<StatementNo>,
) -> Result<ImageList<ExceptionHandler>, NoMemory>
    ensures { Made (handlers_put Q.making within.now handlers.now next) lists.old lists.new result }
{
    let mut made = ImageList::new(alloc);
    for handler in handlers {
        let choices = handled_made(alloc, within, &handler.exceptions)?;
        let inner = in_handler(within);
        let first = inside(alloc, lists, &handler.statements, &inner, next)?;
        made.push(ExceptionHandler {
            choices,
            first: the_action(first),
        })?;
    }
    Ok(made)
}

/// An accept statement (9.5.2). Without statements of its own nothing stands in its scope.
#[tactic(auto, unfolding(ada_image::specs::ImageOfStatements::accept_put, ada_image::specs::ImageOfStatements::accept_body_put))]
pub fn accept_put<W, Q: MakeSequence<W>>(
    alloc: Global,
    lists: &mut Lists,
    within: &Within<'_, '_>,
    accept: &Accept<Q>,
    next: Option<StatementNo>,
) -> Result<Option<StatementNo>, NoMemory>
    ensures { Made (accept_put Q.making within.now accept.now next) lists.old lists.new result }
{
    let scope = scope_at(within.names.get(), accept.place)?;
    let entry = entry_at(within, accept.entry.place);
    let s = reserved(lists)?;
    let first = match &accept.body {
        None => None,
        Some(body) => {
            let place = SequencePlace::BehindDeclarations(None);
            let inner = in_statement_scope(within, scope, s);
            body.sequence
                .sequence_put(alloc, lists, place, &inner, None)?
        }
    };
    let form = StatementForm::Accept {
        entry,
        scope: ScopeNo(scope),
    };
    scope_action(lists, scope, first, s, form, next)
}
