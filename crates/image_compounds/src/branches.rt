//! If and case statements, with the statements in them, become actions (ISO/IEC 8652:2012, 5.3,
//! 5.4).
ghost use Rattle.std.specs.Prelude.{◌∷◌};
ghost use Rattle.ada_image.specs.Made.{Made};
ghost use Rattle.ada_image.specs.ImageOfStatements.{alternatives_put, branch_put, case_put};
ghost use Rattle.ada_image.specs.ImageOfStatements.{if_put, inside, inside_if};
ghost use Rattle.image_compounds.specs.Parts.{alternative_made};

use crate::making::MakeSequence;
use ada_image::{Lists, SequencePlace, Within};
use ada_tree::{Case, CaseAlternative, Expression, If, OneOrMore};
use ann_base::NoMemory;
use image_layout::the_action;
use image_parts::{case_action, if_action};
use image_statements::choices_made;
use profile_image::{CaseAlternative as CaseActions, ImageList, StatementNo};
use std::alloc::Global;

/// The statements of a compound statement lead to what comes behind it.
#[tactic(auto, unfolding(ada_image::specs::ImageOfStatements::inside))]
pub fn inside<W, Q: MakeSequence<W>>(
    alloc: Global,
    lists: &mut Lists,
    sequence: &Q,
    within: &Within<'_, '_>,
    next: Option<StatementNo>,
) -> Result<Option<StatementNo>, NoMemory>
    ensures { Made (inside Q.making sequence.now within.now next) lists.old lists.new result }
{
    sequence.sequence_put(alloc, lists, SequencePlace::StatementsAlone, within, next)
}

/// The same where such statements stand there.
#[tactic(auto, unfolding(ada_image::specs::ImageOfStatements::inside_if))]
pub fn inside_if<W, Q: MakeSequence<W>>(
    alloc: Global,
    lists: &mut Lists,
    sequence: &Option<Q>,
    within: &Within<'_, '_>,
    next: Option<StatementNo>,
) -> Result<Option<StatementNo>, NoMemory>
    ensures { Made (inside_if Q.making sequence.now within.now next) lists.old lists.new result }
{
    match sequence {
        None => Ok(next),
        Some(sequence) => inside(alloc, lists, sequence, within, next),
    }
}

/// A condition and the statements behind it (5.3).
#[tactic(auto, unfolding(ada_image::specs::ImageOfStatements::branch_put))]
fn branch_put<W, Q: MakeSequence<W>>(
    alloc: Global,
    lists: &mut Lists,
    within: &Within<'_, '_>,
    condition: &Expression,
    statements: &Q,
    otherwise: Option<StatementNo>,
    next: Option<StatementNo>,
) -> Result<Option<StatementNo>, NoMemory>
    ensures { Made (branch_put Q.making within.now condition.now statements.now otherwise next)
        lists.old lists.new result }
{
    let first = inside(alloc, lists, statements, within, next)?;
    if_action(lists, within, condition, first, otherwise, next)
}

/// An if statement (5.3). Its branches are made from the last to the first.
#[tactic(auto, using(std::proofs::lemmas::List::drop_all, image_layout::proofs::Drops::one_before), unfolding(ada_image::specs::ImageOfStatements::if_put, ada_image::specs::ImageOfStatements::elsifs_put))]
pub fn if_put<W, Q: MakeSequence<W>>(
    alloc: Global,
    lists: &mut Lists,
    within: &Within<'_, '_>,
    statement: &If<Q>,
    next: Option<StatementNo>,
) -> Result<Option<StatementNo>, NoMemory>
    ensures { Made (if_put Q.making within.now statement.now next) lists.old lists.new result }
{
    let mut later = inside_if(alloc, lists, &statement.otherwise, within, next)?;
    let elsifs = statement.elsifs.as_slice();
    let mut place = elsifs.len();
    while place > 0 {
        place -= 1;
        let elsif = &elsifs[place];
        let (condition, statements) = (&elsif.condition, &elsif.statements);
        later = branch_put(alloc, lists, within, condition, statements, later, next)?;
    }
    let (condition, statements) = (&statement.condition, &statement.statements);
    branch_put(alloc, lists, within, condition, statements, later, next)
}

/// An alternative of a case statement.
#[tactic(auto, unfolding(crate::specs::Parts::alternative_made))]
fn alternative_made<W, Q: MakeSequence<W>>(
    alloc: Global,
    lists: &mut Lists,
    within: &Within<'_, '_>,
    alternative: &CaseAlternative<Q>,
    next: Option<StatementNo>,
) -> Result<CaseActions, NoMemory>
    ensures { Made (alternative_made Q.making within.now alternative.now next) lists.old lists.new
        result }
{
    let choices = choices_made(alloc, within, &alternative.choices)?;
    let first = inside(alloc, lists, &alternative.statements, within, next)?;
    Ok(CaseActions {
        choices,
        first: the_action(first),
    })
}

/// The alternatives of a case statement, in the order of the text.
#[tactic(auto, unfolding(ada_image::specs::ImageOfStatements::alternatives_put))]
fn alternatives_put<W, Q: MakeSequence<W>>(
    alloc: Global,
    lists: &mut Lists,
    within: &Within<'_, '_>,
    alternatives: &OneOrMore<CaseAlternative<Q>>,
    next: Option<StatementNo>,
) -> Result<ImageList<CaseActions>, NoMemory>
    ensures { Made
        (alternatives_put Q.making within.now (alternatives.now.first ∷ alternatives.now.others)
        next) lists.old lists.new result }
{
    let mut made = ImageList::new(alloc);
    let first = alternative_made(alloc, lists, within, &alternatives.first, next)?;
    made.push(first)?;
    for alternative in alternatives.others.as_slice() {
        let one = alternative_made(alloc, lists, within, alternative, next)?;
        made.push(one)?;
    }
    Ok(made)
}

/// A case statement (5.4).
#[tactic(auto, unfolding(ada_image::specs::ImageOfStatements::case_put))]
pub fn case_put<W, Q: MakeSequence<W>>(
    alloc: Global,
    lists: &mut Lists,
    within: &Within<'_, '_>,
    case: &Case<Q>,
    next: Option<StatementNo>,
) -> Result<Option<StatementNo>, NoMemory>
    ensures { Made (case_put Q.making within.now case.now next) lists.old lists.new result }
{
    let alternatives = alternatives_put(alloc, lists, within, &case.alternatives, next)?;
    case_action(lists, within, &case.selector, alternatives, next)
}
