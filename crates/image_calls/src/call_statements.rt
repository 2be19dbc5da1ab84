//! Call statements become actions (ISO/IEC 8652:2012, 6.4, 9.5.3): of a subprogram, an entry or a
//! predefined procedure.
ghost use Rattle.ada_image.specs.Made.{Made};
ghost use Rattle.ada_image.specs.CallStatements.{entity_call_put, item_call_put};
ghost use Rattle.ada_image.specs.CallStatements.{denoted_call_put, call_statement_put};

use crate::procedures::procedure_put;
use ada_entities::{denoted_by, kind_at};
use ada_image::{Lists, Within};
use ada_regions::{Denoted, EntityKind, Predefined};
use ada_tree::{Argument, Expression, Name};
use ann_base::NoMemory;
use image_actuals::{call_put, entry_call_put, not_built};
use image_layout::action_put;
use image_signs::signs_in_actuals;
use profile_image::{Destination, StatementForm, StatementNo};
use std::alloc::Global;

/// A call of what an entity is.
#[tactic(auto, unfolding(ada_image::specs::CallStatements::entity_call_put))]
fn entity_call_put(
    alloc: Global,
    lists: &mut Lists,
    within: &Within<'_, '_>,
    name: &Name,
    arguments: &[Argument<Expression>],
    kind: &EntityKind,
    signs: u32,
    next: Option<StatementNo>,
) -> Result<Option<StatementNo>, NoMemory>
    ensures { Made (entity_call_put within.now name.now arguments.now kind.now signs next) lists.old
        lists.new result }
{
    match kind {
        EntityKind::Main => action_put(lists, StatementForm::CallMain, signs, next),
        EntityKind::Subprogram {
            number,
            formals,
            unit,
            ..
        } => call_put(
            alloc,
            lists,
            within,
            name,
            arguments,
            *number,
            *unit,
            formals.as_slice(),
            Destination::Nowhere,
            signs,
            next,
        ),
        EntityKind::Entry {
            number,
            unit,
            formals,
        } => entry_call_put(
            alloc,
            lists,
            within,
            name,
            arguments,
            *number,
            *unit,
            formals.as_slice(),
            signs,
            next,
        ),
        _ => not_built(lists, next),
    }
}

#[tactic(auto, unfolding(ada_image::specs::CallStatements::item_call_put))]
fn item_call_put(
    alloc: Global,
    lists: &mut Lists,
    within: &Within<'_, '_>,
    item: Predefined,
    arguments: &[Argument<Expression>],
    signs: u32,
    next: Option<StatementNo>,
) -> Result<Option<StatementNo>, NoMemory>
    ensures { Made (item_call_put within.now item arguments.now signs next) lists.old lists.new
        result }
{
    match item {
        Predefined::Operation(operation) => {
            procedure_put(alloc, lists, within, operation, arguments, signs, next)
        }
        _ => not_built(lists, next),
    }
}

#[tactic(auto, unfolding(ada_image::specs::CallStatements::denoted_call_put))]
fn denoted_call_put(
    alloc: Global,
    lists: &mut Lists,
    within: &Within<'_, '_>,
    name: &Name,
    arguments: &[Argument<Expression>],
    denoted: Option<Denoted>,
    signs: u32,
    next: Option<StatementNo>,
) -> Result<Option<StatementNo>, NoMemory>
    ensures { Made (denoted_call_put within.now name.now arguments.now denoted signs next) lists.old
        lists.new result }
{
    match denoted {
        None => not_built(lists, next),
        Some(Denoted::Entity(entity)) => match kind_at(within.names.get(), entity) {
            None => not_built(lists, next),
            Some(kind) => {
                entity_call_put(alloc, lists, within, name, arguments, kind, signs, next)
            }
        },
        Some(Denoted::Unit(_)) => not_built(lists, next),
        Some(Denoted::Item { item, .. }) => {
            item_call_put(alloc, lists, within, item, arguments, signs, next)
        }
    }
}

/// A call statement (6.4, 9.5.3).
#[tactic(auto, unfolding(ada_image::specs::CallStatements::call_statement_put))]
pub fn call_statement_put(
    alloc: Global,
    lists: &mut Lists,
    within: &Within<'_, '_>,
    name: &Name,
    arguments: &[Argument<Expression>],
    next: Option<StatementNo>,
) -> Result<Option<StatementNo>, NoMemory>
    ensures { Made (call_statement_put within.now name.now arguments.now next) lists.old lists.new
        result }
{
    let signs = signs_in_actuals(within, arguments)?;
    let denoted = denoted_by(within.names.get(), name);
    denoted_call_put(alloc, lists, within, name, arguments, denoted, signs, next)
}
