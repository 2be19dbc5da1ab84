//! What is made is put at the end of its list, and named by its number there. A statement that
//! others lead back to gets its number first, and is put there later.
ghost use Rattle.std.specs.Prelude.{◌≡◌, IfOk, slice_set};
ghost use Rattle.ada_image.specs.Made.{Made};
ghost use Rattle.ada_image.specs.Making.{value_put, action_put, reserved};
ghost use Rattle.ada_image.specs.Making.{put_at, first_put, the_action};

use ada_image::{FirstAction, Lists};
use ann_base::NoMemory;
use profile_image::{ExprNo, Expression, Statement, StatementForm, StatementNo};
use world_tables::List;

/// A count as a number of 32 bits. One that does not fit wants more memory than there is.
pub fn counted(count: usize) -> Result<u32, NoMemory>
    ensures { IfOk result (λ number. number ≡ count) }
{
    match u32::try_from(count) {
        Ok(number) => Ok(number),
        Err(_) => Err(NoMemory),
    }
}

/// An expression is put behind the others (clause 4).
#[tactic(auto, unfolding(ada_image::specs::Making::value_put))]
pub fn value_put(lists: &mut Lists, expression: Expression) -> Result<ExprNo, NoMemory>
    ensures { Made (value_put expression) lists.old lists.new result }
{
    let number = counted(lists.expressions.as_slice().len())?;
    lists.expressions.push(expression)?;
    Ok(ExprNo(number))
}

/// An action is put behind the others; the answer is what leads to it (5.1).
#[tactic(auto, unfolding(ada_image::specs::Making::action_put))]
pub fn action_put(
    lists: &mut Lists,
    form: StatementForm,
    signs: u32,
    next: Option<StatementNo>,
) -> Result<Option<StatementNo>, NoMemory>
    ensures { Made (action_put form signs next) lists.old lists.new result }
{
    let number = counted(lists.statements.len())?;
    lists.statements.push_back(Statement { form, signs, next })?;
    Ok(Some(StatementNo(number)))
}

/// A statement gets its number, and is put there later.
#[tactic(auto, unfolding(ada_image::specs::Making::reserved))]
pub fn reserved(lists: &mut Lists) -> Result<StatementNo, NoMemory>
    ensures { Made reserved lists.old lists.new result }
{
    let number = counted(lists.statements.len())?;
    lists.statements.push_back(Statement {
        form: StatementForm::Null,
        signs: 0,
        next: None,
    })?;
    Ok(StatementNo(number))
}

/// A statement is put at a place of the list, where there is one.
#[tactic(auto, using(crate::proofs::Absent::nothing_put))]
fn put(statements: &mut List<Statement>, place: u32, statement: Statement)
    ensures { statements.new ≡ slice_set statements.old place statement }
{
    if let Some(reserved) = statements.get_mut(place as usize) {
        *reserved = statement;
    }
}

/// A statement is put where its number was reserved; the answer is what leads to it.
#[tactic(auto, unfolding(ada_image::specs::Making::put_at))]
pub fn put_at(
    lists: &mut Lists,
    s: StatementNo,
    form: StatementForm,
    signs: u32,
    next: Option<StatementNo>,
) -> Result<Option<StatementNo>, NoMemory>
    ensures { Made (put_at s form signs next) lists.old lists.new result }
{
    put(&mut lists.statements, s.0, Statement { form, signs, next });
    Ok(Some(s))
}

/// The first action of a scope is told.
#[tactic(auto, unfolding(ada_image::specs::Making::first_put))]
pub fn first_put(lists: &mut Lists, scope: u32, first: Option<StatementNo>) -> Result<(), NoMemory>
    ensures { Made (first_put scope first) lists.old lists.new result }
{
    lists.firsts.push_front(FirstAction {
        scope,
        action: first,
    })?;
    Ok(())
}

/// The action that is there: a sequence has one statement at least (5.1).
pub fn the_action(action: Option<StatementNo>) -> StatementNo
    ensures { result ≡ the_action action }
{
    match action {
        None => StatementNo(0),
        Some(s) => s,
    }
}
