//! Whether select statements have a form in an image (ISO/IEC 8652:2012, 9.7).
ghost use Rattle.std.specs.Prelude.{◌≡◌, ◌∷◌};
ghost use Rattle.ada_tree.specs.declared.selects.SelectForm.TheVariants as selecting;
ghost use Rattle.ada_image.specs.ImageOfStatements.{guard_of};
ghost use Rattle.ada_image.specs.BuiltStatements.{value_if_there};
ghost use Rattle.ada_image.specs.BuiltSequences.{alternative_built, select_alternative_built};
ghost use Rattle.ada_image.specs.BuiltSequences.{select_alternatives_built, select_built};

use crate::branches::{accept_body_built, sequence_if_built};
use crate::forms::SequenceHasForm;
use crate::simple::trigger_built;
use ada_regions::Names;
use ada_tree::{
    Alternative, AsynchronousSelect, ConditionalEntryCall, Guard, OneOrMore, SelectAlternative,
    SelectForm, SelectiveAccept, TimedEntryCall,
};
use expression_forms::{call_statement_built, expression_built, value_if_there};

/// A guard (9.7.1).
fn guard_built(guard: &Option<Guard>, names: &Names<'_>) -> bool
    ensures { result ≡ value_if_there (guard_of guard.now) names.now }
{
    match guard {
        None => value_if_there(None, names),
        Some(guard) => value_if_there(Some(&guard.condition), names),
    }
}

/// What an alternative of a selective accept waits for, and the statements behind it.
fn alternative_built<Q: SequenceHasForm>(alternative: &Alternative<Q>, names: &Names<'_>) -> bool
    ensures { result ≡ alternative_built Q.built alternative.now names.now }
{
    match alternative {
        Alternative::Accept { accept, statements } => {
            accept_body_built(&accept.body, names) && sequence_if_built(statements, names)
        }
        Alternative::Delay { delay, statements } => {
            expression_built(&delay.value, names) && sequence_if_built(statements, names)
        }
        Alternative::Terminate { .. } => true,
    }
}

/// An alternative of a selective accept with its guard.
fn select_alternative_built<Q: SequenceHasForm>(
    alternative: &SelectAlternative<Q>,
    names: &Names<'_>,
) -> bool
    ensures { result ≡ select_alternative_built Q.built alternative.now names.now }
{
    guard_built(&alternative.guard, names) && alternative_built(&alternative.alternative, names)
}

/// Alternatives of a selective accept.
fn other_alternatives_built<Q: SequenceHasForm>(
    alternatives: &[SelectAlternative<Q>],
    names: &Names<'_>,
) -> bool
    ensures { result ≡ select_alternatives_built Q.built alternatives.now names.now }
{
    alternatives
        .iter()
        .all(|alternative| select_alternative_built(alternative, names))
}

/// All alternatives of a selective accept.
fn select_alternatives_built<Q: SequenceHasForm>(
    alternatives: &OneOrMore<SelectAlternative<Q>>,
    names: &Names<'_>,
) -> bool
    ensures { result
        ≡ select_alternatives_built Q.built (alternatives.now.first ∷ alternatives.now.others)
        names.now }
{
    select_alternative_built(&alternatives.first, names)
        && other_alternatives_built(alternatives.others.as_slice(), names)
}

/// A selective accept (9.7.1).
fn selective_accept_built<Q: SequenceHasForm>(
    select: &SelectiveAccept<Q>,
    names: &Names<'_>,
) -> bool
    ensures { result ≡ select_built Q.built (selecting.SelectiveAccept select.now) names.now }
{
    select_alternatives_built(&select.alternatives, names)
        && sequence_if_built(&select.otherwise, names)
}

/// A timed entry call (9.7.2).
fn timed_entry_call_built<Q: SequenceHasForm>(select: &TimedEntryCall<Q>, names: &Names<'_>) -> bool
    ensures { result ≡ select_built Q.built (selecting.TimedEntryCall select.now) names.now }
{
    call_statement_built(&select.call, names)
        && (sequence_if_built(&select.statements, names)
            && (expression_built(&select.delay.value, names)
                && sequence_if_built(&select.delay_statements, names)))
}

/// A conditional entry call (9.7.3).
fn conditional_entry_call_built<Q: SequenceHasForm>(
    select: &ConditionalEntryCall<Q>,
    names: &Names<'_>,
) -> bool
    ensures { result ≡ select_built Q.built (selecting.ConditionalEntryCall select.now) names.now }
{
    call_statement_built(&select.call, names)
        && (sequence_if_built(&select.statements, names) && select.otherwise.is_built(names))
}

/// An asynchronous select (9.7.4).
fn asynchronous_select_built<Q: SequenceHasForm>(
    select: &AsynchronousSelect<Q>,
    names: &Names<'_>,
) -> bool
    ensures { result ≡ select_built Q.built (selecting.AsynchronousSelect select.now) names.now }
{
    trigger_built(&select.trigger, names)
        && (sequence_if_built(&select.statements, names) && select.abortable.is_built(names))
}

/// A select statement (9.7).
pub(crate) fn select_built<Q: SequenceHasForm>(select: &SelectForm<Q>, names: &Names<'_>) -> bool
    ensures { result ≡ select_built Q.built select.now names.now }
{
    match select {
        SelectForm::SelectiveAccept(select) => selective_accept_built(select, names),
        SelectForm::TimedEntryCall(select) => timed_entry_call_built(select, names),
        SelectForm::ConditionalEntryCall(select) => conditional_entry_call_built(select, names),
        SelectForm::AsynchronousSelect(select) => asynchronous_select_built(select, names),
    }
}
