//! The parts of if and case statements, handlers and accepts (ISO/IEC 8652:2012, 5.3, 5.4, 9.5.2,
//! 11.2).
ghost use Rattle.std.specs.Prelude.{◌≡◌, ◌∷◌};
ghost use Rattle.ada_image.specs.BuiltSequences.{sequence_if_built, elsif_built, elsifs_built};
ghost use Rattle.ada_image.specs.BuiltSequences.{case_alternative_built, alternatives_built};
ghost use Rattle.ada_image.specs.BuiltSequences.{handlers_built, accept_body_built};

use crate::forms::SequenceHasForm;
use crate::simple::choices_built;
use ada_regions::Names;
use ada_tree::{AcceptBody, CaseAlternative, Elsif, Handler, OneOrMore};
use expression_forms::expression_built;

/// Statements that may be missing.
pub(crate) fn sequence_if_built<Q: SequenceHasForm>(sequence: &Option<Q>, names: &Names<'_>) -> bool
    ensures { result ≡ sequence_if_built Q.built sequence.now names.now }
{
    match sequence {
        None => true,
        Some(sequence) => sequence.is_built(names),
    }
}

/// A further condition with the statements behind it.
fn elsif_built<Q: SequenceHasForm>(elsif: &Elsif<Q>, names: &Names<'_>) -> bool
    ensures { result ≡ elsif_built Q.built elsif.now names.now }
{
    expression_built(&elsif.condition, names) && elsif.statements.is_built(names)
}

/// The branches behind `elsif` (5.3).
pub(crate) fn elsifs_built<Q: SequenceHasForm>(elsifs: &[Elsif<Q>], names: &Names<'_>) -> bool
    ensures { result ≡ elsifs_built Q.built elsifs.now names.now }
{
    elsifs.iter().all(|elsif| elsif_built(elsif, names))
}

/// An alternative of a case statement.
fn case_alternative_built<Q: SequenceHasForm>(
    alternative: &CaseAlternative<Q>,
    names: &Names<'_>,
) -> bool
    ensures { result ≡ case_alternative_built Q.built alternative.now names.now }
{
    choices_built(&alternative.choices, names) && alternative.statements.is_built(names)
}

/// Alternatives of a case statement.
fn other_alternatives_built<Q: SequenceHasForm>(
    alternatives: &[CaseAlternative<Q>],
    names: &Names<'_>,
) -> bool
    ensures { result ≡ alternatives_built Q.built alternatives.now names.now }
{
    alternatives
        .iter()
        .all(|alternative| case_alternative_built(alternative, names))
}

/// All alternatives of a case statement (5.4).
pub(crate) fn alternatives_built<Q: SequenceHasForm>(
    alternatives: &OneOrMore<CaseAlternative<Q>>,
    names: &Names<'_>,
) -> bool
    ensures { result
        ≡ alternatives_built Q.built (alternatives.now.first ∷ alternatives.now.others) names.now }
{
    case_alternative_built(&alternatives.first, names)
        && other_alternatives_built(alternatives.others.as_slice(), names)
}

/// Exception handlers (11.2).
pub(crate) fn handlers_built<Q: SequenceHasForm>(handlers: &[Handler<Q>], names: &Names<'_>) -> bool
    ensures { result ≡ handlers_built Q.built handlers.now names.now }
{
    handlers
        .iter()
        .all(|handler| handler.statements.is_built(names))
}

/// What stands behind `do` of an accept (9.5.2).
pub(crate) fn accept_body_built<Q: SequenceHasForm>(
    body: &Option<AcceptBody<Q>>,
    names: &Names<'_>,
) -> bool
    ensures { result ≡ accept_body_built Q.built body.now names.now }
{
    match body {
        None => true,
        Some(body) => body.sequence.is_built(names),
    }
}
