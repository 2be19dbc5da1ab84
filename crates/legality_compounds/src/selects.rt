//! Select statements (ISO/IEC 8652:2012, 9.7, D.7).
ghost use Rattle.std.specs.Prelude.{◌≡◌, ◌++◌, IfOk, OnOk, map};
ghost use Rattle.ada_regions.specs.Words.{all_of};
ghost use Rattle.ada_legality.specs.CallStatements.{found_if};
ghost use Rattle.ada_legality.specs.Places.{place_of_alternative, place_of_alternative_in};
ghost use Rattle.ada_legality.specs.SimpleStatements.{alternative_part, guard_found};
ghost use Rattle.ada_legality.specs.SimpleStatements.{kind_of_alternative, kind_of_delay};
ghost use Rattle.ada_legality.specs.Statements.{select_form_found, selective_accept_found};

use crate::judging::{Judge, judge_all, judge_if};
use ada_legality::{AlternativeKind, AlternativePart, Around, Finding, Known, Rule};
use ada_tree::{
    Alternative, AsynchronousSelect, ConditionalEntryCall, Guard, OneOrMore, SelectAlternative,
    SelectForm, SelectStatement, SelectiveAccept, TimedEntryCall,
};
use ann_base::{NoMemory, Place};
use legality_choices::selective_accept_judged;
use legality_entities::with_around;
use legality_statements::{delay_found, entry_call_found, guard_found, trigger_found};
use legality_types::broken_if;
use profile_image::ImageList;
use std::alloc::Global;
use world_tables::List;

/// The guard of an alternative, where it has one.
fn guard_if(
    alloc: Global,
    found: &mut List<Finding>,
    known: &Known<'_, '_>,
    guard: &Option<Guard>,
) -> Result<(), NoMemory>
    ensures { OnOk result (found.new ≡ found.old ++ found_if guard_found guard.now known.now) }
{
    match guard {
        None => Ok(()),
        Some(guard) => guard_found(alloc, found, known, guard),
    }
}

/// An alternative behind its guard.
impl<W, Q: Judge<W>> Judge<W> for Alternative<Q> {
    ghost use Rattle.ada_legality.specs.Statements.{alternative_found};

    ghost judged = { alternative_found Q.judged };

    fn judge(
        &self,
        alloc: Global,
        found: &mut List<Finding>,
        known: &Known<'_, '_>,
    ) -> Result<(), NoMemory> {
        match self {
            Alternative::Accept { accept, statements } => {
                accept.judge(alloc, found, known)?;
                judge_if(alloc, found, known, statements)
            }
            Alternative::Delay { delay, statements } => {
                delay_found(alloc, found, known, delay)?;
                judge_if(alloc, found, known, statements)
            }
            Alternative::Terminate { .. } => Ok(()),
        }
    }
}

/// An alternative of a selective accept.
impl<W, Q: Judge<W>> Judge<W> for SelectAlternative<Q> {
    ghost use Rattle.ada_legality.specs.Statements.{select_alternative_found};

    ghost judged = { select_alternative_found Q.judged };

    fn judge(
        &self,
        alloc: Global,
        found: &mut List<Finding>,
        known: &Known<'_, '_>,
    ) -> Result<(), NoMemory> {
        guard_if(alloc, found, known, &self.guard)?;
        self.alternative.judge(alloc, found, known)
    }
}

fn kind_of_delay(until: bool) -> AlternativeKind
    ensures { result ≡ kind_of_delay until }
{
    if until {
        AlternativeKind::DelayUntil
    } else {
        AlternativeKind::Delay
    }
}

/// The kind of an alternative.
fn kind_of_alternative<Q>(alternative: &Alternative<Q>) -> AlternativeKind
    ensures { result ≡ kind_of_alternative alternative.now }
{
    match alternative {
        Alternative::Accept { .. } => AlternativeKind::Accept,
        Alternative::Delay { delay, .. } => kind_of_delay(delay.until),
        Alternative::Terminate { .. } => AlternativeKind::Terminate,
    }
}

/// Where an alternative begins behind its guard.
fn place_of_alternative_in<Q>(alternative: &Alternative<Q>) -> Place
    ensures { result ≡ place_of_alternative_in alternative.now }
{
    match alternative {
        Alternative::Accept { accept, .. } => accept.place,
        Alternative::Delay { delay, .. } => delay.place,
        Alternative::Terminate { place } => *place,
    }
}

/// Where an alternative begins.
fn place_of_alternative<Q>(alternative: &SelectAlternative<Q>) -> Place
    ensures { result ≡ place_of_alternative alternative.now }
{
    match &alternative.guard {
        None => place_of_alternative_in(&alternative.alternative),
        Some(guard) => guard.place,
    }
}

/// An alternative's places and kind.
fn alternative_part<Q>(alternative: &SelectAlternative<Q>) -> AlternativePart
    ensures { result ≡ alternative_part alternative.now }
{
    AlternativePart {
        place: place_of_alternative(alternative),
        own_place: place_of_alternative_in(&alternative.alternative),
        kind: kind_of_alternative(&alternative.alternative),
    }
}

/// The places and kinds of all alternatives.
fn alternative_parts<Q>(
    alloc: Global,
    alternatives: &OneOrMore<SelectAlternative<Q>>,
) -> Result<ImageList<AlternativePart>, NoMemory>
    ensures { IfOk result (λ parts. parts ≡ map alternative_part (all_of alternatives.now)) }
{
    let mut parts = ImageList::new(alloc);
    parts.push(alternative_part(&alternatives.first))?;
    for alternative in alternatives.others.as_slice() {
        parts.push(alternative_part(alternative))?;
    }
    Ok(parts)
}

/// A selective accept.
#[tactic(auto, unfolding(ada_legality::specs::Statements::selective_accept_found))]
fn selective_accept_found<W, Q: Judge<W>>(
    alloc: Global,
    found: &mut List<Finding>,
    known: &Known<'_, '_>,
    place: Place,
    select: &SelectiveAccept<Q>,
) -> Result<(), NoMemory>
    ensures { OnOk result
        (found.new ≡ found.old ++ selective_accept_found Q.judged place select.now known.now) }
{
    let parts = alternative_parts(alloc, &select.alternatives)?;
    let otherwise = select.otherwise.is_some();
    selective_accept_judged(found, known, place, parts.as_slice(), otherwise)?;
    judge_all(alloc, found, known, &select.alternatives)?;
    judge_if(alloc, found, known, &select.otherwise)
}

/// A timed call.
impl<W, Q: Judge<W>> Judge<W> for TimedEntryCall<Q> {
    ghost use Rattle.ada_legality.specs.Statements.{timed_call_found};

    ghost judged = { timed_call_found Q.judged };

    #[tactic(auto, unfolding(ada_legality::specs::Statements::timed_call_found))]
    fn judge(
        &self,
        alloc: Global,
        found: &mut List<Finding>,
        known: &Known<'_, '_>,
    ) -> Result<(), NoMemory> {
        entry_call_found(alloc, found, known, &self.call)?;
        judge_if(alloc, found, known, &self.statements)?;
        delay_found(alloc, found, known, &self.delay)?;
        judge_if(alloc, found, known, &self.delay_statements)
    }
}

/// A conditional call.
impl<W, Q: Judge<W>> Judge<W> for ConditionalEntryCall<Q> {
    ghost use Rattle.ada_legality.specs.Statements.{conditional_call_found};

    ghost judged = { conditional_call_found Q.judged };

    #[tactic(auto, unfolding(ada_legality::specs::Statements::conditional_call_found))]
    fn judge(
        &self,
        alloc: Global,
        found: &mut List<Finding>,
        known: &Known<'_, '_>,
    ) -> Result<(), NoMemory> {
        entry_call_found(alloc, found, known, &self.call)?;
        judge_if(alloc, found, known, &self.statements)?;
        self.otherwise.judge(alloc, found, known)
    }
}

/// An asynchronous select.
impl<W, Q: Judge<W>> Judge<W> for AsynchronousSelect<Q> {
    ghost use Rattle.ada_legality.specs.Statements.{asynchronous_select_found};

    ghost judged = { asynchronous_select_found Q.judged };

    #[tactic(auto, unfolding(ada_legality::specs::Statements::asynchronous_select_found))]
    fn judge(
        &self,
        alloc: Global,
        found: &mut List<Finding>,
        known: &Known<'_, '_>,
    ) -> Result<(), NoMemory> {
        trigger_found(alloc, found, known, &self.trigger)?;
        let inside = with_around(known, Around::AsynchronousSelect)?;
        judge_if(alloc, found, &inside, &self.statements)?;
        self.abortable.judge(alloc, found, &inside)
    }
}

/// The form of a select statement.
fn select_form_found<W, Q: Judge<W>>(
    alloc: Global,
    found: &mut List<Finding>,
    known: &Known<'_, '_>,
    place: Place,
    form: &SelectForm<Q>,
) -> Result<(), NoMemory>
    ensures { OnOk result
        (found.new ≡ found.old ++ select_form_found Q.judged place form.now known.now) }
{
    match form {
        SelectForm::SelectiveAccept(select) => {
            selective_accept_found(alloc, found, known, place, select)
        }
        SelectForm::TimedEntryCall(call) => call.judge(alloc, found, known),
        SelectForm::ConditionalEntryCall(call) => call.judge(alloc, found, known),
        SelectForm::AsynchronousSelect(select) => select.judge(alloc, found, known),
    }
}

/// A select statement.
impl<W, Q: Judge<W>> Judge<W> for SelectStatement<Q> {
    ghost use Rattle.ada_legality.specs.Statements.{select_found};

    ghost judged = { select_found Q.judged };

    #[tactic(auto, unfolding(ada_legality::specs::Statements::select_found))]
    fn judge(
        &self,
        alloc: Global,
        found: &mut List<Finding>,
        known: &Known<'_, '_>,
    ) -> Result<(), NoMemory> {
        let broken = known.in_force.no_select_statements;
        broken_if(found, Rule::Restriction, broken, self.place)?;
        select_form_found(alloc, found, known, self.place, &self.form)
    }
}
