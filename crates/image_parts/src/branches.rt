//! The actions of if and case statements, where the statements in them are made (ISO/IEC 8652:2012,
//! 5.3, 5.4).
ghost use Rattle.ada_image.specs.Made.{Made};
ghost use Rattle.image_parts.specs.Parts.{case_action, if_action};

use ada_image::{Lists, Within};
use ada_tree::Expression;
use ann_base::NoMemory;
use image_expressions::expression_made;
use image_layout::{action_put, the_action};
use image_signs::signs_in;
use profile_image::{CaseAlternative, ImageList, StatementForm, StatementNo};

/// A condition, and the actions behind it (5.3).
pub fn if_action(
    lists: &mut Lists,
    within: &Within<'_, '_>,
    condition: &Expression,
    first: Option<StatementNo>,
    otherwise: Option<StatementNo>,
    next: Option<StatementNo>,
) -> Result<Option<StatementNo>, NoMemory>
    ensures { Made (if_action within.now condition.now first otherwise next) lists.old lists.new
        result }
{
    let signs = signs_in(within, condition)?;
    let condition = expression_made(lists, condition, within)?;
    let form = StatementForm::If {
        condition,
        first: the_action(first),
        otherwise,
    };
    action_put(lists, form, signs, next)
}

/// A choice between alternatives (5.4).
pub fn case_action(
    lists: &mut Lists,
    within: &Within<'_, '_>,
    selector: &Expression,
    alternatives: ImageList<CaseAlternative>,
    next: Option<StatementNo>,
) -> Result<Option<StatementNo>, NoMemory>
    ensures { Made (case_action within.now selector.now alternatives next) lists.old lists.new
        result }
{
    let signs = signs_in(within, selector)?;
    let selector = expression_made(lists, selector, within)?;
    let form = StatementForm::Case {
        selector,
        alternatives,
    };
    action_put(lists, form, signs, next)
}
