//! Loops (ISO/IEC 8652:2012, 5.5): the body leads back to the loop's statement.
ghost use Rattle.std.specs.Prelude.{Some};
ghost use Rattle.ada_image.specs.Made.{Made};
ghost use Rattle.ada_image.specs.ImageOfStatements.{inside, loop_body, loop_put};

use crate::branches::inside;
use crate::making::MakeSequence;
use crate::places::same_place;
use ada_image::{Lists, OpenLoop, Within};
use ada_tree::{Iteration, Loop};
use ann_base::NoMemory;
use image_layout::{in_loops, loops_inside, put_at, reserved, the_action};
use image_parts::{for_action, label_of, parameter_of, while_action};
use profile_image::{StatementForm, StatementNo};
use std::alloc::Global;
use world_tables::List;

/// The statements inside these loops lead to the next turn of the innermost.
fn inside_loops<'n, W, Q: MakeSequence<W>>(
    alloc: Global,
    lists: &mut Lists,
    statements: &Q,
    outside: Within<'n, '_>,
    loops: &'n List<OpenLoop>,
    turn: StatementNo,
) -> Result<Option<StatementNo>, NoMemory>
    ensures { Made
        (inside Q.making statements.now (record outside.entry { loops = loops.now }) (Some turn))
        lists.old lists.new result }
{
    let inner = in_loops(&outside, loops);
    inside(alloc, lists, statements, &inner, Some(turn))
}

/// The statements of a loop lead to its next turn.
#[tactic(auto, unfolding(ada_image::specs::ImageOfStatements::loop_body))]
fn loop_body<W, Q: MakeSequence<W>>(
    alloc: Global,
    lists: &mut Lists,
    within: &Within<'_, '_>,
    statement: &Loop<Q>,
    s: StatementNo,
    turn: StatementNo,
) -> Result<Option<StatementNo>, NoMemory>
    ensures { Made (loop_body Q.making within.now statement.now s turn) lists.old lists.new result }
{
    let loops = loops_inside(within, label_of(within, statement), s)?;
    let outside = same_place(within);
    inside_loops(alloc, lists, &statement.statements, outside, &loops, turn)
}

/// A loop statement (5.5).
#[tactic(auto, unfolding(ada_image::specs::ImageOfStatements::loop_put, ada_image::specs::ImageOfStatements::iteration_put, ada_image::specs::ImageOfStatements::forever_put, ada_image::specs::ImageOfStatements::while_put, ada_image::specs::ImageOfStatements::for_put))]
pub fn loop_put<W, Q: MakeSequence<W>>(
    alloc: Global,
    lists: &mut Lists,
    within: &Within<'_, '_>,
    statement: &Loop<Q>,
    next: Option<StatementNo>,
) -> Result<Option<StatementNo>, NoMemory>
    ensures { Made (loop_put Q.making within.now statement.now next) lists.old lists.new result }
{
    let s = reserved(lists)?;
    match &statement.iteration {
        Iteration::Forever => {
            let body = loop_body(alloc, lists, within, statement, s, s)?;
            let form = StatementForm::Loop {
                body: the_action(body),
                within: within.construct,
            };
            put_at(lists, s, form, 0, next)
        }
        Iteration::While { condition, .. } => {
            let body = loop_body(alloc, lists, within, statement, s, s)?;
            while_action(lists, within, s, condition, the_action(body), next)
        }
        Iteration::For {
            parameter,
            reverse,
            low,
            high,
            ..
        } => {
            let first = reserved(lists)?;
            let later = reserved(lists)?;
            let body = loop_body(alloc, lists, within, statement, s, later)?;
            let parameter = parameter_of(within, parameter);
            let body = the_action(body);
            for_action(
                lists, within, s, first, later, parameter, *reverse, low, high, body, next,
            )
        }
    }
}
