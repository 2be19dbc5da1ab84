//! Select statements (ISO/IEC 8652:2012, 9.7): the signs that they count.
ghost use Rattle.std.specs.Prelude.{◌≡◌, ◌∷◌, ◌+◌, option_copied, IfOk};
ghost use Rattle.ada_image.specs.CallStatements.{signs_in_actuals};
ghost use Rattle.ada_image.specs.ImageOfExpressions.{signs_if, signs_in};
ghost use Rattle.ada_image.specs.ImageOfStatements.{guard_of, signs_in_alternative};
ghost use Rattle.ada_image.specs.ImageOfStatements.{signs_in_alternatives, signs_in_trigger};

use ada_image::Within;
use ada_tree::{
    Alternative, Call, Delay, Expression, Guard, OneOrMore, SelectAlternative, Trigger,
};
use ann_base::NoMemory;
use image_layout::added;
use image_signs::{signs_in, signs_in_actuals};

/// The condition of a guard.
pub fn guard_of(guard: &Option<Guard>) -> Option<&Expression>
    ensures { option_copied result ≡ guard_of guard.now }
{
    let guard = guard.as_ref()?;
    Some(&guard.condition)
}

/// The signs in a guard.
#[tactic(auto, unfolding(ada_image::specs::ImageOfExpressions::signs_if))]
fn signs_in_guard(within: &Within<'_, '_>, guard: &Option<Guard>) -> Result<u32, NoMemory>
    ensures { IfOk result (λ signs. signs ≡ signs_if within.now (guard_of guard.now)) }
{
    match guard {
        None => Ok(0),
        Some(guard) => signs_in(within, &guard.condition),
    }
}

/// The signs in what triggers an asynchronous select (9.7.4).
#[tactic(auto, unfolding(ada_image::specs::ImageOfStatements::signs_in_trigger))]
pub fn signs_in_trigger(within: &Within<'_, '_>, trigger: &Trigger) -> Result<u32, NoMemory>
    ensures { IfOk result (λ signs. signs ≡ signs_in_trigger within.now trigger.now) }
{
    match trigger {
        Trigger::Call(call) => signs_in_actuals(within, call.arguments.as_slice()),
        Trigger::Delay(delay) => signs_in(within, &delay.value),
    }
}

/// The signs in a timed entry call (9.7.2).
pub fn signs_in_timed_call(
    within: &Within<'_, '_>,
    call: &Call,
    delay: &Delay,
) -> Result<u32, NoMemory>
    ensures { IfOk result
        (λ signs.
        signs
        ≡ signs_in_actuals within.now call.now.arguments + signs_in within.now delay.now.value) }
{
    let in_call = signs_in_actuals(within, call.arguments.as_slice())?;
    let in_delay = signs_in(within, &delay.value)?;
    added(in_call, in_delay)
}

/// The signs in the delay of an alternative.
#[tactic(auto, unfolding(ada_image::specs::ImageOfStatements::signs_in_alternative))]
fn signs_in_alternative<Q>(
    within: &Within<'_, '_>,
    alternative: &Alternative<Q>,
) -> Result<u32, NoMemory>
    ensures { IfOk result
        (λ signs. signs ≡ signs_in_alternative within.now alternative.now) }
{
    match alternative {
        Alternative::Accept { .. } => Ok(0),
        Alternative::Delay { delay, .. } => signs_in(within, &delay.value),
        Alternative::Terminate { .. } => Ok(0),
    }
}

/// The signs in the guard and in the delay of an alternative.
fn signs_in_guarded<Q>(
    within: &Within<'_, '_>,
    alternative: &SelectAlternative<Q>,
) -> Result<u32, NoMemory>
    ensures { IfOk result
        (λ signs.
        signs
        ≡ signs_if within.now (guard_of alternative.now.guard)
        + signs_in_alternative within.now alternative.now.alternative) }
{
    let in_guard = signs_in_guard(within, &alternative.guard)?;
    let in_alternative = signs_in_alternative(within, &alternative.alternative)?;
    added(in_guard, in_alternative)
}

/// The signs in the guards and the delays of a selective accept.
#[tactic(auto, unfolding(ada_image::specs::ImageOfStatements::signs_in_alternatives))]
pub fn signs_in_alternatives<Q>(
    within: &Within<'_, '_>,
    alternatives: &OneOrMore<SelectAlternative<Q>>,
) -> Result<u32, NoMemory>
    ensures { IfOk result
        (λ signs.
        signs
        ≡ signs_in_alternatives within.now
        (alternatives.now.first ∷ alternatives.now.others)) }
{
    let mut signs = signs_in_guarded(within, &alternatives.first)?;
    for alternative in alternatives.others.as_slice() {
        signs = added(signs, signs_in_guarded(within, alternative)?)?;
    }
    Ok(signs)
}
