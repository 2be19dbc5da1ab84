//! Complete choices (ISO/IEC 8652:2012, 5.4): every value is that of a choice.
ghost use Rattle.std.specs.Prelude.{◌≡◌, ◌++◌, OnOk, int_le};
ghost use Rattle.std.specs.List.{list_all, list_any};
ghost use Rattle.ada_legality.specs.Choices.{behind_range, behind_ranges, reached, covers};
ghost use Rattle.ada_legality.specs.Choices.{is_clear_choice, is_complete, wrong_choices, is_name};
ghost use Rattle.legality_choices.specs.NextValue.{next_number};

use crate::distinct::repeated_choices;
use crate::ranges::range_typed;
use ada_legality::{ChoicePart, Finding, Number, Read, Rule, Shape, Span};
use ada_regions::{AdaType, Names};
use ann_base::{NoMemory, Place};
use legality_types::broken_unless;
use std::alloc::Global;
use world_tables::List;

/// The value that is reached: a number, or the one behind it.
#[derive(Clone, Copy)]
struct NextValue {
    number: Number,
    is_behind: bool,
}

/// Whether a number lies at the value that is reached, or before it.
fn is_at_most(low: Number, from: &NextValue) -> bool
    ensures { result ≡ int_le low (next_number from.now) }
{
    !from
        .number
        .is_before(if from.is_behind { 2 } else { 1 }, low)
}

/// Whether the value that is reached is at most a number.
fn is_before(from: &NextValue, high: Number) -> bool
    ensures { result ≡ int_le (next_number from.now) high }
{
    from.number
        .is_before(if from.is_behind { 1 } else { 0 }, high)
}

/// The value behind a range that holds one, else that one.
#[tactic(auto, unfolding(ada_legality::specs::Choices::behind_range))]
fn behind_range(from: NextValue, range: Option<Span>) -> NextValue
    ensures { next_number result ≡ behind_range (next_number from) range }
{
    match range {
        None => from,
        Some(range) => {
            if is_at_most(range.low, &from) && is_before(&from, range.high) {
                NextValue {
                    number: range.high,
                    is_behind: true,
                }
            } else {
                from
            }
        }
    }
}

/// The value behind all ranges that hold it, in their order.
#[tactic(auto, unfolding(ada_legality::specs::Choices::behind_ranges))]
fn behind_ranges(from: NextValue, choices: &[ChoicePart]) -> NextValue
    ensures { next_number result ≡ behind_ranges (next_number from) choices.now }
{
    let mut value = from;
    for choice in choices {
        value = behind_range(value, choice.values);
    }
    value
}

/// A turn past the ranges, one for each choice.
fn turned(from: NextValue, choices: &[ChoicePart], _turn: &ChoicePart) -> NextValue
    ensures { next_number result ≡ behind_ranges (next_number from) choices.now }
{
    behind_ranges(from, choices)
}

/// Each turn goes past one range at least, so as many turns as there are choices are enough.
#[tactic(auto, unfolding(ada_legality::specs::Choices::reached))]
fn reached(choices: &[ChoicePart], from: NextValue) -> NextValue
    ensures { next_number result ≡ reached choices.now choices.now (next_number from) }
{
    let mut value = from;
    for turn in choices {
        value = turned(value, choices, turn);
    }
    value
}

/// Every value of a range is that of a choice.
#[tactic(auto, unfolding(ada_legality::specs::Choices::covers))]
fn covers(choices: &[ChoicePart], whole: Span) -> bool
    ensures { result ≡ covers choices.now whole }
{
    let first = NextValue {
        number: whole.low,
        is_behind: false,
    };
    !is_before(&reached(choices, first), whole.high)
}

fn is_clear_choice(choice: &ChoicePart) -> bool
    ensures { result ≡ is_clear_choice choice.now }
{
    choice.is_others || choice.values.is_some()
}

fn has_others(choices: &[ChoicePart]) -> bool
    ensures { result ≡ list_any (λ c. c.is_others) choices.now }
{
    choices.iter().any(|choice| choice.is_others)
}

fn all_clear(choices: &[ChoicePart]) -> bool
    ensures { result ≡ list_all is_clear_choice choices.now }
{
    choices.iter().all(|choice| is_clear_choice(choice))
}

/// The choices are complete; where a choice is refused, that is not asked.
#[tactic(auto, unfolding(ada_legality::specs::Choices::is_complete))]
pub fn is_complete(whole: Span, choices: &[ChoicePart]) -> bool
    ensures { result ≡ is_complete whole choices.now }
{
    has_others(choices) || (!all_clear(choices) || covers(choices, whole))
}

/// A name, an element or a call.
fn is_name(shape: Shape) -> bool
    ensures { result ≡ is_name shape }
{
    match shape {
        Shape::Name(_) => true,
        Shape::Number => false,
        Shape::Other => false,
    }
}

/// Choices that meet, or that leave a value out.
#[tactic(auto, unfolding(ada_legality::specs::Choices::wrong_choices))]
pub fn wrong_choices(
    alloc: Global,
    found: &mut List<Finding>,
    names: &Names<'_>,
    place: Place,
    read: &Read,
    choices: &[ChoicePart],
    t: Option<AdaType>,
) -> Result<(), NoMemory>
    ensures { OnOk result
        (found.new ≡ found.old ++ wrong_choices names.now place read.now choices.now t) }
{
    match t {
        None => Ok(()),
        Some(t) => {
            repeated_choices(alloc, found, choices)?;
            let whole = range_typed(names, is_name(read.shape), read.typed, t);
            let complete = is_complete(whole, choices);
            broken_unless(found, Rule::ConditionsAndChoices, complete, place)
        }
    }
}
