//! Choices of case statements (ISO/IEC 8652:2012, 5.4).
ghost use Rattle.std.specs.Prelude.{◌≡◌, IfOk};
ghost use Rattle.ada_image.specs.ImageOfStatements.{static_or_zero, choice_made, choices_made};

use ada_image::Within;
use ada_subtypes::static_value;
use ada_tree::{Choice, Expression, OneOrMore};
use ann_base::NoMemory;
use profile_image::{Choice as CaseChoice, ImageList, Value};
use std::alloc::Global;

#[tactic(auto, unfolding(ada_image::specs::ImageOfStatements::static_or_zero))]
fn static_or_zero(within: &Within<'_, '_>, expression: &Expression) -> Value
    ensures { result ≡ static_or_zero within.now expression.now }
{
    static_value(within.names.get(), expression).unwrap_or(Value::Whole(0))
}

#[tactic(auto, unfolding(ada_image::specs::ImageOfStatements::choice_made))]
fn choice_made(within: &Within<'_, '_>, choice: &Choice) -> CaseChoice
    ensures { result ≡ choice_made within.now choice.now }
{
    match choice {
        Choice::Value(value) => CaseChoice::Single(static_or_zero(within, value)),
        Choice::Range { low, high } => CaseChoice::Range {
            low: static_or_zero(within, low),
            high: static_or_zero(within, high),
        },
        Choice::Others { .. } => CaseChoice::Others,
    }
}

/// The choices of an alternative, in the order of the text.
#[tactic(auto, unfolding(ada_image::specs::ImageOfStatements::choices_made))]
pub fn choices_made(
    alloc: Global,
    within: &Within<'_, '_>,
    choices: &OneOrMore<Choice>,
) -> Result<ImageList<CaseChoice>, NoMemory>
    ensures { IfOk result (λ made. made ≡ choices_made within.now choices.now) }
{
    let mut made = ImageList::new(alloc);
    made.push(choice_made(within, &choices.first))?;
    for choice in choices.others.as_slice() {
        made.push(choice_made(within, choice))?;
    }
    Ok(made)
}
