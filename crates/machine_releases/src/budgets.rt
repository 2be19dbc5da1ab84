//! Group budgets by number: what is left of one, and its handler (ISO/IEC 8652:2012, D.14.2).
ghost use Rattle.std.specs.Prelude.{◌≡◌};
ghost use Rattle.profile_machine.specs.Handlers.{loaded, raised_by, with_handler};
ghost use Rattle.profile_image.specs.Words.{edit_at};

use ann_base::Moment;
use machine_operators::held_sum;
use profile_machine::world::{Budget, HandlerOf};
use world_tables::List;

fn loaded(amount: Moment, budget: Budget) -> Budget
    ensures { result ≡ loaded amount budget }
{
    Budget {
        remaining: amount,
        handler: budget.handler,
    }
}

// A sum past the last time is held there.
fn raised_by(amount: Moment, budget: Budget) -> Budget
    ensures { result ≡ raised_by amount budget }
{
    Budget {
        remaining: held_sum(budget.remaining, amount),
        handler: budget.handler,
    }
}

/// The budget with this number has this amount left; where it is not there, nothing changes.
#[tactic(auto, using(crate::proofs::EditLemmas::none_edited))]
pub fn load(budgets: &mut List<Budget>, b: u32, amount: Moment)
    ensures { budgets.new ≡ edit_at b (loaded amount) budgets.old }
{
    if let Some(budget) = budgets.get_mut(b as usize) {
        *budget = loaded(amount, *budget);
    }
}

/// The budget with this number has so much more left; where it is not there, nothing changes.
#[tactic(auto, using(crate::proofs::EditLemmas::none_edited))]
pub fn raise_by(budgets: &mut List<Budget>, b: u32, amount: Moment)
    ensures { budgets.new ≡ edit_at b (raised_by amount) budgets.old }
{
    if let Some(budget) = budgets.get_mut(b as usize) {
        *budget = raised_by(amount, *budget);
    }
}

/// The budget with this number has this handler, or none; where it is not there, nothing changes.
#[tactic(auto, using(crate::proofs::EditLemmas::none_edited))]
pub fn set_handler(budgets: &mut List<Budget>, b: u32, handler: Option<HandlerOf>)
    ensures { budgets.new ≡ edit_at b (with_handler handler) budgets.old }
{
    if let Some(budget) = budgets.get_mut(b as usize) {
        budget.handler = handler;
    }
}
