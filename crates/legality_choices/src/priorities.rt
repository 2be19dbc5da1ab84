//! Priorities that aspects state (ISO/IEC 8652:2012, D.1, D.3).
ghost use Rattle.std.specs.Prelude.{◌≡◌, ◌&&◌, find, option_copied};
ghost use Rattle.ada_legality.specs.Aspects.{is_attach_name, is_cpu_name, is_deadline_name};
ghost use Rattle.ada_legality.specs.Aspects.{is_priority_name, is_priority_value, stands_before_in};
ghost use Rattle.ada_legality.specs.Aspects.{priority_aspect, stated_value, place_of_priority};
ghost use Rattle.ada_legality.specs.Aspects.{if_priority_value, is_other_ceiling};

use crate::lies_between;
use crate::owners::{is_attach_name, is_cpu_name, is_deadline_name, is_priority_name};
use ada_legality::{AspectName, AspectPart, Number};
use ann_base::Place;

/// The value of a priority's aspect is one of its subtype.
#[tactic(auto, unfolding(ada_legality::specs::Aspects::is_priority_value))]
pub(crate) fn is_priority_value(last: u8, name: AspectName, number: Option<Number>) -> bool
    ensures { result ≡ is_priority_value last name number }
{
    let highest = i64::from(last) + 1;
    match name {
        AspectName::Priority => lies_between(0, i64::from(last), number),
        _ => lies_between(highest, highest, number),
    }
}

/// A priority stands before.
#[tactic(auto, unfolding(ada_legality::specs::Aspects::stands_before_in))]
pub(crate) fn stands_before_priority(before: &[AspectPart]) -> bool
    ensures { result ≡ stands_before_in is_priority_name before.now }
{
    before.iter().any(|aspect| is_priority_name(aspect.name))
}

/// CPU stands before.
#[tactic(auto, unfolding(ada_legality::specs::Aspects::stands_before_in))]
pub(crate) fn stands_before_cpu(before: &[AspectPart]) -> bool
    ensures { result ≡ stands_before_in is_cpu_name before.now }
{
    before.iter().any(|aspect| is_cpu_name(aspect.name))
}

/// Relative_Deadline stands before.
#[tactic(auto, unfolding(ada_legality::specs::Aspects::stands_before_in))]
pub(crate) fn stands_before_deadline(before: &[AspectPart]) -> bool
    ensures { result ≡ stands_before_in is_deadline_name before.now }
{
    before.iter().any(|aspect| is_deadline_name(aspect.name))
}

/// Attach_Handler is among these.
#[tactic(auto, unfolding(ada_legality::specs::Aspects::stands_before_in))]
pub fn stands_before_attach(before: &[AspectPart]) -> bool
    ensures { result ≡ stands_before_in is_attach_name before.now }
{
    before.iter().any(|aspect| is_attach_name(aspect.name))
}

/// The first aspect of a priority's name.
fn first_priority(aspects: &[AspectPart]) -> Option<&AspectPart>
    ensures { option_copied result ≡ find (λ a. is_priority_name a.name) aspects.now }
{
    aspects.iter().find(|aspect| is_priority_name(aspect.name))
}

/// The aspect that gives a priority: the first of such a name, unless its value is refused.
#[tactic(auto, unfolding(ada_legality::specs::Aspects::priority_aspect, ada_legality::specs::Aspects::if_priority_value))]
fn priority_aspect(last: u8, aspects: &[AspectPart]) -> Option<&AspectPart>
    ensures { option_copied result ≡ priority_aspect last aspects.now }
{
    let aspect = first_priority(aspects)?;
    if is_priority_value(last, aspect.name, aspect.number) {
        Some(aspect)
    } else {
        None
    }
}

/// The priority that aspects give.
#[tactic(auto, unfolding(ada_legality::specs::Aspects::stated_value))]
pub fn stated_value(last: u8, aspects: &[AspectPart]) -> Option<Number>
    ensures { result ≡ stated_value last aspects.now }
{
    let aspect = priority_aspect(last, aspects)?;
    aspect.number
}

/// Where a priority is given, or its unit begins.
#[tactic(auto, unfolding(ada_legality::specs::Aspects::place_of_priority))]
pub fn place_of_priority(last: u8, aspects: &[AspectPart], place: Place) -> Place
    ensures { result ≡ place_of_priority last aspects.now place }
{
    match priority_aspect(last, aspects) {
        None => place,
        Some(aspect) => aspect.place,
    }
}

/// A priority that is not the highest.
#[tactic(auto, unfolding(ada_legality::specs::Aspects::is_other_ceiling))]
pub fn is_other_ceiling(last: u8, stated: Option<Number>) -> bool
    ensures { result ≡ is_other_ceiling last stated }
{
    let highest = i64::from(last) + 1;
    match stated {
        None => false,
        Some(number) => !lies_between(highest, highest, Some(number)),
    }
}
