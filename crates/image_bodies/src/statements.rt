//! Statements, and lists of them, become actions (ISO/IEC 8652:2012, 5.1).
ghost use Rattle.std.specs.Prelude.{◌∷◌};
ghost use Rattle.ada_image.specs.Made.{Made};
ghost use Rattle.ada_image.specs.ImageOfStatements.{statement_put, statements_put};

use crate::sequences::WithDeclarations;
use ada_image::{Lists, Within};
use ada_tree::{OneOrMore, Statement};
use ann_base::NoMemory;
use image_calls::call_statement_put;
use image_compounds::{
    MakeSequence, accept_put, block_put, case_put, if_put, loop_put, select_put,
};
use image_layout::action_put;
use image_statements::{
    abort_put, assignment_put, delay_put, exit_put, raise_put, requeue_put, return_put,
};
use profile_image::{StatementForm, StatementNo};
use std::alloc::Global;

/// A statement (5.1).
#[tactic(auto, unfolding(ada_image::specs::ImageOfStatements::statement_put))]
fn statement_put<Q: MakeSequence<WithDeclarations>>(
    alloc: Global,
    lists: &mut Lists,
    within: &Within<'_, '_>,
    statement: &Statement<Q>,
    next: Option<StatementNo>,
) -> Result<Option<StatementNo>, NoMemory>
    ensures { Made (statement_put Q.making within.now statement.now next) lists.old lists.new
        result }
{
    match statement {
        Statement::Null { .. } => action_put(lists, StatementForm::Null, 0, next),
        Statement::Assignment(assignment) => {
            assignment_put(alloc, lists, within, assignment, next)
        }
        Statement::Call(call) => {
            call_statement_put(
                alloc,
                lists,
                within,
                &call.name,
                call.arguments.as_slice(),
                next,
            )
        }
        Statement::Delay(delay) => delay_put(lists, within, delay, next),
        Statement::If(statement) => if_put(alloc, lists, within, statement, next),
        Statement::Case(case) => case_put(alloc, lists, within, case, next),
        Statement::Loop(statement) => loop_put(alloc, lists, within, statement, next),
        Statement::Exit(exit) => exit_put(lists, within, exit, next),
        Statement::Block(block) => block_put(alloc, lists, within, block, next),
        Statement::Return { value, .. } => return_put(alloc, lists, within, value, next),
        Statement::Raise { exception, .. } => raise_put(lists, within, exception, next),
        Statement::Abort { tasks, .. } => abort_put(alloc, lists, within, tasks, next),
        Statement::Accept(accept) => accept_put(alloc, lists, within, accept, next),
        Statement::Requeue {
            entry,
            with_abort,
            ..
        } => requeue_put(lists, within, entry, *with_abort, next),
        Statement::Select(select) => select_put(alloc, lists, within, &select.form, next),
    }
}

/// The statements behind the first of a list, from the last to the first.
#[tactic(auto, using(std::proofs::lemmas::List::drop_all), unfolding(ada_image::specs::ImageOfStatements::statements_put))]
fn statements_behind<Q: MakeSequence<WithDeclarations>>(
    alloc: Global,
    lists: &mut Lists,
    within: &Within<'_, '_>,
    statements: &[Statement<Q>],
    next: Option<StatementNo>,
) -> Result<Option<StatementNo>, NoMemory>
    ensures { Made (statements_put Q.making within.now statements.now next) lists.old lists.new
        result }
{
    let mut later = next;
    let mut place = statements.len();
    while place > 0 {
        place -= 1;
        later = statement_put(alloc, lists, within, &statements[place], later)?;
    }
    Ok(later)
}

/// The statements of a list, each leading to the next (5.1).
pub fn statements_put<Q: MakeSequence<WithDeclarations>>(
    alloc: Global,
    lists: &mut Lists,
    within: &Within<'_, '_>,
    statements: &OneOrMore<Statement<Q>>,
    next: Option<StatementNo>,
) -> Result<Option<StatementNo>, NoMemory>
    ensures { Made
        (statements_put Q.making within.now (statements.now.first ∷ statements.now.others) next)
        lists.old lists.new result }
{
    let others = statements.others.as_slice();
    let later = statements_behind(alloc, lists, within, others, next)?;
    let first = statement_put(alloc, lists, within, &statements.first, later)?;
    Ok(first)
}
