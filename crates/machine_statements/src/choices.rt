//! What if and case statements do (ISO/IEC 8652:2012, 5.3, 5.4).
ghost use Rattle.std.specs.Prelude.{◌≡◌, OnOk};
ghost use Rattle.profile_machine.specs.Statements.{if_statement, case_statement};
ghost use Rattle.profile_machine.specs.Statements.{go_to_alternative, chosen_alternative};
ghost use Rattle.profile_machine.specs.Statements.{any_chosen, is_chosen, branch};
ghost use Rattle.machine_frames.specs.Did.{Did};

use ann_base::{NoMemory, Raised};
use machine_frames::{Effect, goes, raises, refused};
use machine_operators::{is_less, same_value};
use machine_program::Program;
use machine_values::{condition, seen_by, value};
use profile_image::{CaseAlternative, Choice, ExprNo, StatementNo, Value};
use profile_machine::world::Part;
use trace_text::Who;

/// Where a condition leads.
pub(crate) fn branch(
    holds: bool,
    first: StatementNo,
    otherwise: Option<StatementNo>,
) -> Option<StatementNo>
    ensures { result ≡ branch holds first otherwise }
{
    if holds { Some(first) } else { otherwise }
}

/// An if statement, or what stands behind an elsif.
#[tactic(auto, unfolding(profile_machine::specs::Statements::if_statement))]
pub fn if_statement(
    p: &Program,
    effect: &mut Effect,
    name: Who,
    e: ExprNo,
    first: StatementNo,
    otherwise: Option<StatementNo>,
) -> Result<(), NoMemory>
    ensures { OnOk result (Did (if_statement p.now name e first otherwise) effect.old effect.new) }
{
    match condition(&seen_by(p, &effect.world, name), e) {
        Ok(holds) => {
            goes(effect, name, branch(holds, first, otherwise));
            Ok(())
        }
        Err(answer) => refused(effect, name, answer),
    }
}

fn is_chosen(value: Value, choice: Choice) -> bool
    ensures { result ≡ is_chosen value choice }
{
    match choice {
        Choice::Single(x) => same_value(value, x) == Ok(true),
        Choice::Range { low, high } => {
            is_less(value, low) != Ok(true) && is_less(high, value) != Ok(true)
        }
        Choice::Others => true,
    }
}

fn any_chosen(value: Value, choices: &[Choice]) -> bool
    ensures { result ≡ any_chosen value choices.now }
{
    choices.iter().any(|choice| is_chosen(value, *choice))
}

fn chosen_alternative(value: Value, alternatives: &[CaseAlternative]) -> Option<StatementNo>
    ensures { result ≡ chosen_alternative value alternatives.now }
{
    for alternative in alternatives {
        if any_chosen(value, alternative.choices.as_slice()) {
            return Some(alternative.first);
        }
    }
    None
}

// A value that no choice covers raises Constraint_Error.
#[tactic(auto, unfolding(profile_machine::specs::Statements::go_to_alternative))]
fn go_to_alternative(
    effect: &mut Effect,
    name: Who,
    first: Option<StatementNo>,
) -> Result<(), NoMemory>
    ensures { OnOk result (Did (go_to_alternative name first) effect.old effect.new) }
{
    match first {
        Some(first) => {
            goes(effect, name, Some(first));
            Ok(())
        }
        None => raises(effect, Part::Own, name, Raised::Constraint),
    }
}

/// A case statement.
#[tactic(auto, unfolding(profile_machine::specs::Statements::case_statement))]
pub fn case_statement(
    p: &Program,
    effect: &mut Effect,
    name: Who,
    e: ExprNo,
    alternatives: &[CaseAlternative],
) -> Result<(), NoMemory>
    ensures { OnOk result
        (Did (case_statement p.now name e alternatives.now) effect.old effect.new) }
{
    match value(&seen_by(p, &effect.world, name), e) {
        Ok(value) => go_to_alternative(effect, name, chosen_alternative(value, alternatives)),
        Err(answer) => refused(effect, name, answer),
    }
}
