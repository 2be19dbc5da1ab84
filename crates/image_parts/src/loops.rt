//! Loops (ISO/IEC 8652:2012, 5.5).
ghost use Rattle.std.specs.Prelude.{◌≡◌, ◌+◌, IfOk};
ghost use Rattle.ada_image.specs.Made.{Made};
ghost use Rattle.ada_image.specs.ImageOfExpressions.{signs_in};
ghost use Rattle.ada_image.specs.ImageOfStatements.{label_of, loop_parameter_number, parameter_of};
ghost use Rattle.image_parts.specs.Parts.{for_action, turns_put, while_action};

use ada_entities::{entity_denoted, kind_at};
use ada_image::{Lists, Within};
use ada_regions::EntityKind;
use ada_tree::{Expression, Identifier, Loop};
use ann_base::NoMemory;
use image_expressions::expression_made;
use image_layout::{added, put_at};
use image_signs::signs_in;
use profile_image::{DeclNo, StatementForm, StatementNo};

/// The number of a loop parameter, where the entity is one.
fn loop_parameter_number(kind: &EntityKind) -> Option<DeclNo>
    ensures { result ≡ loop_parameter_number kind.now }
{
    match kind {
        EntityKind::LoopParameter(declaration) => Some(*declaration),
        _ => None,
    }
}

/// The number of a loop parameter.
#[tactic(auto, unfolding(ada_image::specs::ImageOfStatements::parameter_of))]
pub fn parameter_of(within: &Within<'_, '_>, identifier: &Identifier) -> DeclNo
    ensures { result ≡ parameter_of within.now identifier.now }
{
    match entity_denoted(within.names.get(), identifier.place) {
        None => DeclNo(0),
        Some(entity) => match kind_at(within.names.get(), entity) {
            None => DeclNo(0),
            Some(kind) => loop_parameter_number(kind).unwrap_or(DeclNo(0)),
        },
    }
}

/// The entity of a loop's label, where it has one.
#[tactic(auto, unfolding(ada_image::specs::ImageOfStatements::label_of))]
pub fn label_of<Q>(within: &Within<'_, '_>, statement: &Loop<Q>) -> Option<u32>
    ensures { result ≡ label_of within.now statement.now }
{
    let label = statement.label.as_ref()?;
    entity_denoted(within.names.get(), label.name.place)
}

/// A while loop, whose body is made.
pub fn while_action(
    lists: &mut Lists,
    within: &Within<'_, '_>,
    s: StatementNo,
    condition: &Expression,
    body: StatementNo,
    next: Option<StatementNo>,
) -> Result<Option<StatementNo>, NoMemory>
    ensures { Made (while_action within.now s condition.now body next) lists.old lists.new result }
{
    let signs = signs_in(within, condition)?;
    let condition = expression_made(lists, condition, within)?;
    let form = StatementForm::While {
        condition,
        body,
        within: within.construct,
    };
    put_at(lists, s, form, signs, next)
}

/// The turns of a for loop, which its statement and its body lead to.
fn turns_put(
    lists: &mut Lists,
    first: StatementNo,
    later: StatementNo,
    parameter: DeclNo,
    reverse: bool,
    body: StatementNo,
    next: Option<StatementNo>,
) -> Result<Option<StatementNo>, NoMemory>
    ensures { Made (turns_put first later parameter reverse body next) lists.old lists.new result }
{
    let first_turn = StatementForm::FirstTurn {
        parameter,
        reverse,
        body,
    };
    put_at(lists, first, first_turn, 0, next)?;
    let later_turn = StatementForm::LaterTurn {
        parameter,
        reverse,
        body,
    };
    put_at(lists, later, later_turn, 0, next)
}

/// The signs in the bounds of a loop.
fn signs_in_bounds(
    within: &Within<'_, '_>,
    low: &Expression,
    high: &Expression,
) -> Result<u32, NoMemory>
    ensures { IfOk result
        (λ signs. signs ≡ signs_in within.now low.now + signs_in within.now high.now) }
{
    let in_low = signs_in(within, low)?;
    let in_high = signs_in(within, high)?;
    added(in_low, in_high)
}

/// A for loop and its turns, where its body is made.
pub fn for_action(
    lists: &mut Lists,
    within: &Within<'_, '_>,
    s: StatementNo,
    first: StatementNo,
    later: StatementNo,
    parameter: DeclNo,
    reverse: bool,
    low: &Expression,
    high: &Expression,
    body: StatementNo,
    next: Option<StatementNo>,
) -> Result<Option<StatementNo>, NoMemory>
    ensures { Made
        (for_action within.now s first later parameter reverse low.now high.now body next) lists.old
        lists.new result }
{
    let signs = signs_in_bounds(within, low, high)?;
    turns_put(lists, first, later, parameter, reverse, body, next)?;
    let low = expression_made(lists, low, within)?;
    let high = expression_made(lists, high, within)?;
    let form = StatementForm::For {
        parameter,
        reverse,
        low,
        high,
        turn: first,
        within: within.construct,
    };
    put_at(lists, s, form, signs, next)
}
