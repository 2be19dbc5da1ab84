//! The choices of case statements, as they are read (ISO/IEC 8652:2012, 5.4).
ghost use Rattle.std.specs.Prelude.{◌≡◌, ◌++◌, IfOk, OnOk, option_map};
ghost use Rattle.ada_regions.specs.Words.{all_of};
ghost use Rattle.ada_legality.specs.Findings.{Reads};
ghost use Rattle.ada_legality.specs.Choices.{both_ends, case_judged, choice_number, choice_read};
ghost use Rattle.ada_legality.specs.Choices.{choices_read, one_value, range_choice};
ghost use Rattle.ada_legality.specs.Choices.{selector_judged, type_of_selector, value_choice};
ghost use Rattle.legality_cases.specs.Ranges.{range_judged};

use ada_legality::{
    Asked, ChoicePart, Finding, Known, Number, Read, Rule, Span, Typed, add_choice,
};
use ada_regions::AdaType;
use ada_tree::{Choice, Expression, OneOrMore};
use ann_base::{NoMemory, Place};
use legality_choices::{others_not_last, static_number, wrong_choices};
use legality_conditions::not_static;
use legality_expressions::Readable;
use legality_reads::{
    call_inside, expected, integer_literal, is_discrete_or_refused, literal_in,
    other_pointed_literal,
};
use legality_types::{broken_unless, discrete_if, operand_type};
use profile_image::ImageList;
use std::alloc::Global;
use std::marker::Model;
use world_tables::List;

/// A choice of the tree. Contracts see the choice.
#[derive(Drop)]
pub struct ChoiceOf<'t> {
    choice: &'t Choice,
}

impl<'t> Model for ChoiceOf<'t> {
    ghost use Rattle.ada_tree.specs.declared.statements.Choice.{Choice};
    ghost use Rattle.ada_tree.specs.contracts.expressions.Expression as e;
    ghost use Rattle.std.specs.Coded.{codes};

    ghost Value = { Choice };

    ghost coded = { Prim.hlevel (codes, e.the_row.coded) };

    ghost view = { λ part. part.choice.now };
}

impl<'t> ChoiceOf<'t> {
    /// This choice.
    pub fn new(choice: &'t Choice) -> Self
        ensures { result ≡ choice.now }
    {
        ChoiceOf { choice }
    }

    /// The choice.
    pub fn get(&self) -> &'t Choice
        ensures { result.now ≡ self.now }
    {
        self.choice
    }
}

/// Adds the choices of an alternative.
pub fn add_choices<'t>(
    all: &mut ImageList<ChoiceOf<'t>>,
    choices: &'t OneOrMore<Choice>,
) -> Result<(), NoMemory>
    ensures { OnOk result (all.new ≡ all.old ++ all_of choices.now) }
{
    all.push(ChoiceOf::new(&choices.first))?;
    for choice in choices.others.as_slice() {
        all.push(ChoiceOf::new(choice))?;
    }
    Ok(())
}

/// The type of what a case selects by.
pub fn type_of_selector(typed: Typed) -> Option<AdaType>
    ensures { result ≡ type_of_selector typed }
{
    let t = operand_type(typed)?;
    discrete_if(t)
}

/// What a case selects by: a value of a discrete type.
#[tactic(auto, unfolding(ada_legality::specs::Choices::selector_judged))]
fn selector_judged(found: &mut List<Finding>, read: &Read, typed: Typed) -> Result<(), NoMemory>
    ensures { OnOk result (found.new ≡ found.old ++ selector_judged read.now typed) }
{
    match typed {
        Typed::OfWholeNumber => integer_literal(found, literal_in(read)),
        Typed::OfPointedNumber => other_pointed_literal(found, literal_in(read)),
        _ => {
            let kept = is_discrete_or_refused(typed);
            broken_unless(found, Rule::ExpectedType, kept, read.place)
        }
    }
}

/// One value.
fn one_value(number: Number) -> Span
    ensures { result ≡ one_value number }
{
    Span {
        low: number,
        high: number,
    }
}

/// One value that may be there.
fn one_value_if(number: Option<Number>) -> Option<Span>
    ensures { result ≡ option_map one_value number }
{
    let number = number?;
    Some(one_value(number))
}

/// Two ends that are there.
fn both_ends(low: Option<Number>, high: Option<Number>) -> Option<Span>
    ensures { result ≡ both_ends low high }
{
    let low = low?;
    let high = high?;
    Some(Span { low, high })
}

/// The number of an expression where the selector has this type.
#[tactic(auto, unfolding(ada_legality::specs::Choices::choice_number))]
fn choice_number(
    known: &Known<'_, '_>,
    t: Option<AdaType>,
    expression: &Expression,
    typed: Typed,
) -> Result<Option<Number>, NoMemory>
    ensures { IfOk result (λ n. n ≡ choice_number known.now t expression.now typed) }
{
    match t {
        None => Ok(None),
        Some(t) => static_number(known, t, expression, typed),
    }
}

/// A choice with one value.
#[tactic(auto, unfolding(ada_legality::specs::Choices::value_choice))]
fn value_choice(
    alloc: Global,
    found: &mut List<Finding>,
    known: &Known<'_, '_>,
    t: Option<AdaType>,
    expression: &Expression,
) -> Result<ChoicePart, NoMemory>
    ensures { Reads (value_choice t expression.now known.now) found.old found.new result }
{
    let read = expression.read(alloc, found, known)?;
    expected(found, Asked::ForValue, t, &read)?;
    not_static(
        found,
        Rule::ConditionsAndChoices,
        known,
        expression,
        read.place,
    )?;
    let number = choice_number(known, t, expression, read.typed)?;
    Ok(ChoicePart {
        place: read.place,
        is_others: false,
        values: one_value_if(number),
    })
}

/// What is found behind the ends of a range, which are read.
fn range_judged(
    found: &mut List<Finding>,
    known: &Known<'_, '_>,
    t: Option<AdaType>,
    low: &Expression,
    low_read: &Read,
    high: &Expression,
    high_read: &Read,
) -> Result<(), NoMemory>
    ensures { OnOk result
        (found.new
        ≡ found.old ++ range_judged known.now t low.now low_read.now high.now high_read.now) }
{
    expected(found, Asked::ForValue, t, low_read)?;
    expected(found, Asked::ForValue, t, high_read)?;
    let rule = Rule::ConditionsAndChoices;
    not_static(found, rule, known, low, low_read.place)?;
    not_static(found, rule, known, high, high_read.place)
}

/// A choice with a range of values.
#[tactic(auto, unfolding(ada_legality::specs::Choices::range_choice))]
fn range_choice(
    alloc: Global,
    found: &mut List<Finding>,
    known: &Known<'_, '_>,
    t: Option<AdaType>,
    low: &Expression,
    high: &Expression,
) -> Result<ChoicePart, NoMemory>
    ensures { Reads (range_choice t low.now high.now known.now) found.old found.new result }
{
    let low_read = low.read(alloc, found, known)?;
    let high_read = high.read(alloc, found, known)?;
    range_judged(found, known, t, low, &low_read, high, &high_read)?;
    let first = choice_number(known, t, low, low_read.typed)?;
    let last = choice_number(known, t, high, high_read.typed)?;
    Ok(ChoicePart {
        place: low_read.place,
        is_others: false,
        values: both_ends(first, last),
    })
}

/// A choice.
#[tactic(auto, unfolding(ada_legality::specs::Choices::choice_read))]
fn choice_read(
    alloc: Global,
    found: &mut List<Finding>,
    known: &Known<'_, '_>,
    t: Option<AdaType>,
    choice: &Choice,
) -> Result<ChoicePart, NoMemory>
    ensures { Reads (choice_read t choice.now known.now) found.old found.new result }
{
    match choice {
        Choice::Value(expression) => value_choice(alloc, found, known, t, expression),
        Choice::Range { low, high } => range_choice(alloc, found, known, t, low, high),
        Choice::Others { place } => Ok(ChoicePart {
            place: *place,
            is_others: true,
            values: None,
        }),
    }
}

// Choices in their order. The check of borrows asks that a loop whose list holds values is in a
// function that names their type.
#[tactic(auto, unfolding(ada_legality::specs::Choices::choices_read))]
fn choices_in_order(
    alloc: Global,
    found: &mut List<Finding>,
    known: &Known<'_, '_>,
    t: Option<AdaType>,
    choices: &[ChoiceOf<'_>],
    _values: Option<Span>,
) -> Result<ImageList<ChoicePart>, NoMemory>
    ensures { Reads (choices_read t choices.now known.now) found.old found.new result }
{
    let mut parts = ImageList::new(alloc);
    for choice in choices {
        let part = choice_read(alloc, found, known, t, choice.get())?;
        add_choice(&mut parts, part)?;
    }
    Ok(parts)
}

/// Choices in their order.
pub fn choices_read(
    alloc: Global,
    found: &mut List<Finding>,
    known: &Known<'_, '_>,
    t: Option<AdaType>,
    choices: &[ChoiceOf<'_>],
) -> Result<ImageList<ChoicePart>, NoMemory>
    ensures { Reads (choices_read t choices.now known.now) found.old found.new result }
{
    choices_in_order(alloc, found, known, t, choices, None)
}

/// A case, of which the selector and the choices are read.
#[tactic(auto, unfolding(ada_legality::specs::Choices::case_judged))]
pub fn case_judged(
    alloc: Global,
    found: &mut List<Finding>,
    known: &Known<'_, '_>,
    place: Place,
    read: &Read,
    choices: &[ChoicePart],
) -> Result<(), NoMemory>
    ensures { OnOk result
        (found.new ≡ found.old ++ case_judged known.now place read.now choices.now) }
{
    call_inside(found, read)?;
    selector_judged(found, read, read.typed)?;
    others_not_last(found, choices)?;
    let t = type_of_selector(read.typed);
    wrong_choices(alloc, found, known.names.get(), place, read, choices, t)
}
