//! The event, timer or budget that a call of a predefined procedure names, and Set_Handler of a
//! group budget, which has no moment (ISO/IEC 8652:2012, D.14.1, D.14.2, D.15).
ghost use Rattle.std.specs.Prelude.{◌≡◌, option_copied};
ghost use Rattle.ada_regions.specs.PredefinedUnits.{names_of_formals};
ghost use Rattle.ada_regions.specs.declared.predefined.Operation.TheVariants as operations;
ghost use Rattle.ada_image.specs.Made.{Made};
ghost use Rattle.ada_image.specs.ImageOfExpressions.{actuals_for};
ghost use Rattle.ada_image.specs.ImageOfProcedures.{procedure_with, thing_of};

use crate::handlers::handler_of;
use ada_image::{Lists, Within};
use ada_tree::{Argument, Expression};
use ann_base::NoMemory;
use image_expressions::named;
use image_layout::{action_put, argument_from};
use image_names::thing_in;
use profile_image::{DeclNo, StatementForm, StatementNo};

/// The event, timer or budget that an actual names.
#[tactic(auto, unfolding(ada_image::specs::ImageOfProcedures::thing_of))]
pub fn thing_of(within: &Within<'_, '_>, actual: Option<&Expression>) -> DeclNo
    ensures { result ≡ thing_of within.now (option_copied actual.entry) }
{
    match actual {
        None => thing_in(within, None),
        Some(actual) => thing_in(within, named(actual)),
    }
}

/// Group_Budgets.Set_Handler (D.14.2).
#[tactic(auto, unfolding(ada_image::specs::ImageOfProcedures::procedure_with, ada_image::specs::ImageOfExpressions::actuals_for, ada_image::specs::ImageOfExpressions::arguments_from))]
pub fn set_budget_put(
    lists: &mut Lists,
    within: &Within<'_, '_>,
    arguments: &[Argument<Expression>],
    signs: u32,
    next: Option<StatementNo>,
) -> Result<Option<StatementNo>, NoMemory>
    ensures { Made
        (procedure_with within.now operations.SetBudget arguments.now
        (actuals_for (names_of_formals operations.SetBudget) arguments.now) signs next) lists.old
        lists.new result }
{
    let budget = thing_of(within, argument_from(0, b"gb", arguments));
    let handler = handler_of(within, argument_from(1, b"handler", arguments));
    action_put(
        lists,
        StatementForm::SetBudget { budget, handler },
        signs,
        next,
    )
}
