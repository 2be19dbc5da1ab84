//! Pragmas that break a rule (ISO/IEC 8652:2012, 2.8, D.2.2): a policy is given once, ranges of
//! priorities do not overlap, and one policy for all does not stand beside one for some.
ghost use Rattle.std.specs.Prelude.{◌≡◌, ◌++◌, ◌≤◌, [], ◌∷◌, codes, length, take, IfOk, OnOk};
ghost use Rattle.std.specs.List.{list_any};
ghost use Rattle.std.specs.Str.{bytes_eq};
ghost use Rattle.ada_legality.specs.Pragmas.{given_once, is_given_again, is_pragma_named};
ghost use Rattle.ada_legality.specs.Pragmas.{is_wrong_pragma, overlaps_before, pair_of};
ghost use Rattle.ada_legality.specs.Pragmas.{pragmas_judged, range_of_pragma, specific_numbers};
ghost use Rattle.ada_legality.specs.Pragmas.{stands_beside_specific, wrong_pragmas};
ghost use Rattle.ada_legality.specs.Choices.{meet};
ghost use Rattle.legality_pragmas.specs.Judging.{judged_along, pragma_judged};

use crate::arguments::number_in;
use crate::profile::is_pragma_of_profile;
use ada_legality::{Finding, Number, Rule, Span};
use ada_predefined::last_priority_of;
use ada_tree::Pragma;
use ann_base::NoMemory;
use legality_choices::{meet, span};
use legality_types::broken_if;
use world_tables::List;

/// Whether a pragma has this name.
fn is_pragma_named(name: &[u8], pragma: &Pragma) -> bool
    ensures { result ≡ is_pragma_named name.now pragma.now }
{
    pragma.name.text.as_slice() == name
}

/// Whether it is the name of a pragma that is given once.
fn is_given_once(name: &[u8]) -> bool
    ensures { result ≡ list_any (bytes_eq name.now) given_once }
{
    name == b"task_dispatching_policy".as_slice()
        || (name == b"locking_policy".as_slice()
            || (name == b"queuing_policy".as_slice() || name == b"priority_range".as_slice()))
}

fn any_named(name: &[u8], pragmas: &[Pragma]) -> bool
    ensures { result ≡ list_any (is_pragma_named name.now) pragmas.now }
{
    pragmas.iter().any(|pragma| is_pragma_named(name, pragma))
}

/// Whether an earlier pragma gives the same policy.
#[tactic(auto, unfolding(ada_legality::specs::Pragmas::is_given_again))]
fn is_given_again(before: &[Pragma], pragma: &Pragma) -> bool
    ensures { result ≡ is_given_again before.now pragma.now }
{
    let name = pragma.name.text.as_slice();
    is_given_once(name) && any_named(name, before)
}

/// Two numbers that are known.
fn pair(low: Option<Number>, high: Option<Number>) -> Option<Span>
    ensures { result ≡ pair_of (low ∷ high ∷ []) }
{
    let low = low?;
    let high = high?;
    Some(span(low, high))
}

/// The two priorities behind the policy of a pragma.
fn specific_pair(pragma: &Pragma) -> Result<Option<Span>, NoMemory>
    ensures { IfOk result (λ pair. pair ≡ pair_of (specific_numbers pragma.now)) }
{
    match pragma.arguments.others.as_slice() {
        [low, high] => Ok(pair(number_in(low)?, number_in(high)?)),
        _ => Ok(None),
    }
}

/// Whether a pragma gives a policy for some priorities.
fn is_for_some(pragma: &Pragma) -> bool
    ensures { result ≡ is_pragma_named (codes "priority_specific_dispatching") pragma.now }
{
    pragma.name.text.as_slice() == b"priority_specific_dispatching".as_slice()
}

/// Whether a pragma gives one policy for all priorities.
fn is_for_all(pragma: &Pragma) -> bool
    ensures { result ≡ is_pragma_named (codes "task_dispatching_policy") pragma.now }
{
    pragma.name.text.as_slice() == b"task_dispatching_policy".as_slice()
}

/// The range of a pragma for some priorities.
#[tactic(auto, unfolding(ada_legality::specs::Pragmas::range_of_pragma))]
fn range_of_pragma(last: u8, pragma: &Pragma) -> Result<Option<Span>, NoMemory>
    ensures { IfOk result (λ range. range ≡ range_of_pragma last pragma.now) }
{
    let is_of_profile = is_pragma_of_profile(last, pragma)?;
    if is_for_some(pragma) && is_of_profile {
        specific_pair(pragma)
    } else {
        Ok(None)
    }
}

/// Whether a range meets that of one of these pragmas.
fn meets_any(last: u8, before: &[Pragma], range: Option<Span>) -> Result<bool, NoMemory>
    ensures { IfOk result
        (λ meets. meets ≡ list_any (λ q. meet range (range_of_pragma last q)) before.now) }
{
    for earlier in before {
        if meet(range, range_of_pragma(last, earlier)?) {
            return Ok(true);
        }
    }
    Ok(false)
}

/// Whether a pragma's range meets an earlier one.
#[tactic(auto, unfolding(ada_legality::specs::Pragmas::overlaps_before))]
fn overlaps_before(last: u8, before: &[Pragma], pragma: &Pragma) -> Result<bool, NoMemory>
    ensures { IfOk result (λ overlaps. overlaps ≡ overlaps_before last before.now pragma.now) }
{
    let range = range_of_pragma(last, pragma)?;
    meets_any(last, before, range)
}

fn any_for_some(pragmas: &[Pragma]) -> bool
    ensures { result
        ≡ list_any (is_pragma_named (codes "priority_specific_dispatching")) pragmas.now }
{
    pragmas.iter().any(|pragma| is_for_some(pragma))
}

/// Whether one policy for all stands beside one for some.
#[tactic(auto, unfolding(ada_legality::specs::Pragmas::stands_beside_specific))]
fn stands_beside_specific(pragmas: &[Pragma], pragma: &Pragma) -> bool
    ensures { result ≡ stands_beside_specific pragmas.now pragma.now }
{
    is_for_all(pragma) && any_for_some(pragmas)
}

/// Whether a pragma is none of the profile, or clashes.
#[tactic(auto, unfolding(ada_legality::specs::Pragmas::is_wrong_pragma))]
fn is_wrong_pragma(
    last: u8,
    pragmas: &[Pragma],
    before: &[Pragma],
    pragma: &Pragma,
) -> Result<bool, NoMemory>
    ensures { IfOk result
        (λ wrong. wrong ≡ is_wrong_pragma last pragmas.now before.now pragma.now) }
{
    let is_of_profile = is_pragma_of_profile(last, pragma)?;
    let overlaps = overlaps_before(last, before, pragma)?;
    Ok(
        !is_of_profile
            || (is_given_again(before, pragma)
                || (overlaps || stands_beside_specific(pragmas, pragma))),
    )
}

/// The pragmas before a place.
fn before_place(pragmas: &[Pragma], place: usize) -> &[Pragma]
    requires { place ≤ length pragmas.now }
    ensures { result.now ≡ take place pragmas.now }
{
    pragmas.split_at(place).0
}

/// What a pragma breaks.
fn pragma_judged(
    found: &mut List<Finding>,
    last: u8,
    pragmas: &[Pragma],
    at: usize,
    pragma: &Pragma,
) -> Result<(), NoMemory>
    requires { at ≤ length pragmas.now }
    ensures { OnOk result (found.new ≡ found.old ++ pragma_judged last pragmas.now at pragma.now) }
{
    let wrong = is_wrong_pragma(last, pragmas, before_place(pragmas, at), pragma)?;
    broken_if(found, Rule::ConfigurationPragma, wrong, pragma.place)
}

/// What the pragmas break, one pragma at a time.
fn judged_along(found: &mut List<Finding>, last: u8, pragmas: &[Pragma]) -> Result<(), NoMemory>
    ensures { OnOk result (found.new ≡ found.old ++ judged_along last pragmas.now 0 pragmas.now) }
{
    let mut at = 0;
    for pragma in pragmas {
        pragma_judged(found, last, pragmas, at, pragma)?;
        at += 1;
    }
    Ok(())
}

/// What the pragmas break.
#[tactic(auto, using(crate::proofs::Wrong::wrong_is))]
fn wrong_pragmas(found: &mut List<Finding>, last: u8, pragmas: &[Pragma]) -> Result<(), NoMemory>
    ensures { OnOk result (found.new ≡ found.old ++ wrong_pragmas last pragmas.now 0 pragmas.now) }
{
    judged_along(found, last, pragmas)
}

/// The rule on pragmas: what breaks it stands behind what was found before.
#[tactic(auto, unfolding(ada_legality::specs::Pragmas::pragmas_judged))]
pub fn pragmas_judged(found: &mut List<Finding>, pragmas: &[Pragma]) -> Result<(), NoMemory>
    ensures { OnOk result (found.new ≡ found.old ++ pragmas_judged pragmas.now) }
{
    wrong_pragmas(found, last_priority_of(pragmas), pragmas)
}
