//! Distinct choices (ISO/IEC 8652:2012, 5.4).
ghost use Rattle.std.specs.Prelude.{◌≡◌, ◌++◌, [], None, OnOk};
ghost use Rattle.ada_legality.specs.Choices.{kept_range, meets_before};
ghost use Rattle.ada_legality.specs.Choices.{others_not_last, repeated_choices};
ghost use Rattle.legality_choices.specs.OneByOne.{others_behind, others_here};
ghost use Rattle.legality_choices.specs.OneByOne.{others_place, repeated_along};

use crate::meet;
use ada_legality::{ChoicePart, Finding, Rule, Span, add_values};
use ann_base::{NoMemory, Place};
use legality_types::broken_if;
use std::alloc::Global;
use world_tables::List;

/// A range has a value in common with one of these.
#[tactic(auto, unfolding(ada_legality::specs::Choices::meets_before))]
fn meets_before(range: Option<Span>, before: &List<Option<Span>>) -> bool
    ensures { result ≡ meets_before range before.now }
{
    before.iter().any(|other| meet(range, *other))
}

/// Of those that meet, the first alone counts for the later ones.
fn keep_range(
    meets: bool,
    range: Option<Span>,
    before: &mut List<Option<Span>>,
) -> Result<(), NoMemory>
    ensures { OnOk result (before.new ≡ kept_range meets range before.old) }
{
    if meets {
        Ok(())
    } else {
        add_values(before, range)
    }
}

/// The choices that meet one of these ranges or an earlier one, one choice at a time.
fn repeated_along(
    found: &mut List<Finding>,
    before: &mut List<Option<Span>>,
    choices: &[ChoicePart],
) -> Result<(), NoMemory>
    ensures { OnOk result (found.new ≡ found.old ++ repeated_along before.old choices.now) }
{
    for choice in choices {
        let meets = meets_before(choice.values, before);
        broken_if(found, Rule::ConditionsAndChoices, meets, choice.place)?;
        keep_range(meets, choice.values, before)?;
    }
    Ok(())
}

/// The choices that meet an earlier one.
#[tactic(auto, using(crate::proofs::OneAtATime::repeated_is))]
pub fn repeated_choices(
    alloc: Global,
    found: &mut List<Finding>,
    choices: &[ChoicePart],
) -> Result<(), NoMemory>
    ensures { OnOk result (found.new ≡ found.old ++ repeated_choices [] choices.now) }
{
    let mut before = List::new(alloc);
    repeated_along(found, &mut before, choices)
}

/// Where a choice for all others stands.
fn others_place(choice: &ChoicePart) -> Option<Place>
    ensures { result ≡ others_place choice.now }
{
    if choice.is_others {
        Some(choice.place)
    } else {
        None
    }
}

/// A choice for all others, behind which another one stands.
fn others_here(found: &mut List<Finding>, place: Option<Place>) -> Result<(), NoMemory>
    ensures { OnOk result (found.new ≡ found.old ++ others_here place) }
{
    match place {
        None => Ok(()),
        Some(place) => broken_if(found, Rule::ConditionsAndChoices, true, place),
    }
}

/// The choices for all others before the last one, one choice at a time.
fn others_behind(found: &mut List<Finding>, choices: &[ChoicePart]) -> Result<(), NoMemory>
    ensures { OnOk result (found.new ≡ found.old ++ others_behind None choices.now) }
{
    let mut before: Option<Place> = None;
    for choice in choices {
        others_here(found, before)?;
        before = others_place(choice);
    }
    Ok(())
}

/// A choice for all others before the last.
#[tactic(auto, using(crate::proofs::OneAtATime::others_are))]
pub fn others_not_last(found: &mut List<Finding>, choices: &[ChoicePart]) -> Result<(), NoMemory>
    ensures { OnOk result (found.new ≡ found.old ++ others_not_last choices.now) }
{
    others_behind(found, choices)
}
