//! Assignments, choices of case statements, iterations and triggers (ISO/IEC 8652:2012, 5.2, 5.4,
//! 5.5, 9.7.4).
ghost use Rattle.std.specs.Prelude.{◌≡◌, ◌∷◌};
ghost use Rattle.ada_image.specs.BuiltStatements.{whole_built, assignment_built};
ghost use Rattle.ada_image.specs.BuiltStatements.{choice_value_built, choice_built};
ghost use Rattle.ada_image.specs.BuiltStatements.{choices_built, iteration_built, trigger_built};

use ada_regions::{Names, Subtype};
use ada_subtypes::{static_value, subtype_of_name};
use ada_tree::{Assignment, Choice, Iteration, OneOrMore, Trigger};
use expression_forms::{call_statement_built, expression_built, is_given, source_built};
use image_layout::{subtype_is_array, subtype_is_kept};
use profile_image::Value;

/// An assignment to a name without an index: a controlled object and a whole array are named.
fn whole_built(assignment: &Assignment, subtype: Option<Subtype>, names: &Names<'_>) -> bool
    ensures { result ≡ whole_built assignment.now subtype names.now }
{
    if subtype_is_kept(subtype) {
        true
    } else if subtype_is_array(subtype) {
        true
    } else {
        source_built(&assignment.value, names)
    }
}

/// An assignment statement (5.2).
pub(crate) fn assignment_built(assignment: &Assignment, names: &Names<'_>) -> bool
    ensures { result ≡ assignment_built assignment.now names.now }
{
    match &assignment.index {
        None => {
            let subtype = subtype_of_name(names, &assignment.target);
            whole_built(assignment, subtype, names)
        }
        Some(index) => { expression_built(index, names) && source_built(&assignment.value, names) }
    }
}

/// The value of a choice; one that is not static is made to zero.
fn choice_value_built(value: Option<Value>) -> bool
    ensures { result ≡ choice_value_built value }
{
    match value {
        None => true,
        Some(value) => is_given(value),
    }
}

/// A choice of a case statement (5.4).
fn choice_built(choice: &Choice, names: &Names<'_>) -> bool
    ensures { result ≡ choice_built choice.now names.now }
{
    match choice {
        Choice::Value(value) => choice_value_built(static_value(names, value)),
        Choice::Range { low, high } => {
            choice_value_built(static_value(names, low))
                && choice_value_built(static_value(names, high))
        }
        Choice::Others { .. } => true,
    }
}

/// Choices of an alternative.
fn choices_in_list_built(choices: &[Choice], names: &Names<'_>) -> bool
    ensures { result ≡ choices_built choices.now names.now }
{
    choices.iter().all(|choice| choice_built(choice, names))
}

/// All choices of an alternative.
pub(crate) fn choices_built(choices: &OneOrMore<Choice>, names: &Names<'_>) -> bool
    ensures { result ≡ choices_built (choices.now.first ∷ choices.now.others) names.now }
{
    choice_built(&choices.first, names) && choices_in_list_built(choices.others.as_slice(), names)
}

/// How a loop goes on (5.5).
pub(crate) fn iteration_built(iteration: &Iteration, names: &Names<'_>) -> bool
    ensures { result ≡ iteration_built iteration.now names.now }
{
    match iteration {
        Iteration::Forever => true,
        Iteration::While { condition, .. } => expression_built(condition, names),
        Iteration::For { low, high, .. } => {
            expression_built(low, names) && expression_built(high, names)
        }
    }
}

/// What triggers an asynchronous select (9.7.4).
pub(crate) fn trigger_built(trigger: &Trigger, names: &Names<'_>) -> bool
    ensures { result ≡ trigger_built trigger.now names.now }
{
    match trigger {
        Trigger::Call(call) => call_statement_built(call, names),
        Trigger::Delay(delay) => expression_built(&delay.value, names),
    }
}
