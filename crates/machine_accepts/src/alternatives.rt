//! The open alternatives of a selective accept (ISO/IEC 8652:2012, 9.7.1).
ghost use Rattle.std.specs.Prelude.{◌≡◌, ◌++◌, IfOk, OnOk, option_to_list};
ghost use Rattle.ann_base.specs.Answers.{Answers};
ghost use Rattle.profile_machine.specs.Rendezvous.{is_open, open_alternatives, open_accepts};
ghost use Rattle.profile_machine.specs.Rendezvous.{has_terminate, delay_moment_in, delay_moment};
ghost use Rattle.profile_machine.specs.Rendezvous.{open_delays, earlier, least_delay, is_closed};
ghost use Rattle.machine_accepts.specs.Parts.{open_kind, accept_in, delay_in};

use ann_base::{Moment, NoMemory, OrMemory, Raised};
use machine_program::form_of;
use machine_values::{Seen, condition, moment, relative_moment};
use profile_image::{ExprNo, SelectAlternative, SelectKind, StatementForm, StatementNo};
use profile_machine::world::DelayMoment;
use std::alloc::Global;
use world_tables::List;

fn is_open(q: &Seen<'_>, guard: Option<ExprNo>) -> Result<bool, OrMemory<Raised>>
    ensures { Answers result (is_open q.now guard) }
{
    match guard {
        Some(guard) => condition(q, guard),
        None => Ok(true),
    }
}

// An item that may be there is added at the end.
fn push_some<T: Copy>(items: &mut List<T>, item: Option<T>) -> Result<(), NoMemory>
    ensures { OnOk result (items.new ≡ items.old ++ option_to_list item) }
{
    match item {
        Some(item) => {
            items.push_back(item)?;
            Ok(())
        }
        None => Ok(()),
    }
}

// What an alternative is, if it is open, or the exception that its guard raises.
fn open_kind(
    q: &Seen<'_>,
    alternative: SelectAlternative,
) -> Result<Result<Option<SelectKind>, Raised>, NoMemory>
    ensures { IfOk result (λ kind. kind ≡ open_kind q.now alternative) }
{
    match is_open(q, alternative.guard) {
        Ok(true) => Ok(Ok(Some(alternative.kind))),
        Ok(false) => Ok(Ok(None)),
        Err(OrMemory::Fault(exception)) => Ok(Err(exception)),
        Err(OrMemory::Memory) => Err(NoMemory),
    }
}

// The open alternatives. The guards are evaluated in order.
#[tactic(auto, using(crate::proofs::AlternativeLemmas::alternative_laws))]
pub(crate) fn open_alternatives(
    alloc: Global,
    q: &Seen<'_>,
    alternatives: &[SelectAlternative],
) -> Result<List<SelectKind>, OrMemory<Raised>>
    ensures { Answers result (open_alternatives q.now alternatives.now) }
{
    let mut kinds = List::new(alloc);
    for alternative in alternatives {
        match open_kind(q, *alternative)? {
            Ok(kind) => push_some(&mut kinds, kind)?,
            Err(exception) => return Err(OrMemory::Fault(exception)),
        }
    }
    Ok(kinds)
}

fn accept_in(kind: SelectKind) -> Option<StatementNo>
    ensures { result ≡ accept_in kind }
{
    match kind {
        SelectKind::Accept(s) => Some(s),
        SelectKind::Delay(_) => None,
        SelectKind::Terminate => None,
    }
}

// The accepts of open alternatives.
#[tactic(auto, using(crate::proofs::AlternativeLemmas::accept_laws))]
pub(crate) fn open_accepts(
    alloc: Global,
    kinds: &List<SelectKind>,
) -> Result<List<StatementNo>, NoMemory>
    ensures { IfOk result (λ accepts. accepts ≡ open_accepts kinds.now) }
{
    let mut accepts = List::new(alloc);
    for kind in kinds.iter() {
        push_some(&mut accepts, accept_in(*kind))?;
    }
    Ok(accepts)
}

pub(crate) fn has_terminate(kinds: &List<SelectKind>) -> bool
    ensures { result ≡ has_terminate kinds.now }
{
    for kind in kinds.iter() {
        if let SelectKind::Terminate = kind {
            return true;
        }
    }
    false
}

fn delay_moment_in(q: &Seen<'_>, form: &StatementForm) -> Result<Moment, OrMemory<Raised>>
    ensures { Answers result (delay_moment_in q.now form.now) }
{
    match form {
        StatementForm::Delay(e) => relative_moment(q, *e),
        StatementForm::DelayUntil(e) => moment(q, *e),
        _ => Ok(0),
    }
}

/// The moment of a delay statement.
///
/// Errors: the exception that its evaluation raises; memory ran out.
pub fn delay_moment(q: &Seen<'_>, s: StatementNo) -> Result<Moment, OrMemory<Raised>>
    ensures { Answers result (delay_moment q.now s) }
{
    delay_moment_in(q, form_of(q.program, s))
}

// The moment of a delay, or the exception that its evaluation raises.
fn delay_evaluated(q: &Seen<'_>, s: StatementNo) -> Result<Result<Moment, Raised>, NoMemory>
    ensures { IfOk result (λ m. m ≡ delay_moment q.now s) }
{
    match delay_moment(q, s) {
        Ok(m) => Ok(Ok(m)),
        Err(OrMemory::Fault(exception)) => Ok(Err(exception)),
        Err(OrMemory::Memory) => Err(NoMemory),
    }
}

fn delay_in(q: &Seen<'_>, kind: SelectKind) -> Result<Result<Option<DelayMoment>, Raised>, NoMemory>
    ensures { IfOk result (λ delay. delay ≡ delay_in q.now kind) }
{
    match kind {
        SelectKind::Accept(_) => Ok(Ok(None)),
        SelectKind::Delay(s) => match delay_evaluated(q, s)? {
            Ok(at) => Ok(Ok(Some(DelayMoment { delay: s, at }))),
            Err(exception) => Ok(Err(exception)),
        },
        SelectKind::Terminate => Ok(Ok(None)),
    }
}

// The delays of the open alternatives, in order.
#[tactic(auto, using(crate::proofs::AlternativeLemmas::delay_laws))]
pub(crate) fn open_delays(
    alloc: Global,
    q: &Seen<'_>,
    kinds: &List<SelectKind>,
) -> Result<List<DelayMoment>, OrMemory<Raised>>
    ensures { Answers result (open_delays q.now kinds.now) }
{
    let mut delays = List::new(alloc);
    for kind in kinds.iter() {
        match delay_in(q, *kind)? {
            Ok(delay) => push_some(&mut delays, delay)?,
            Err(exception) => return Err(OrMemory::Fault(exception)),
        }
    }
    Ok(delays)
}

// Of two delays the one of the earlier moment, and of one moment the first.
fn earlier(m: DelayMoment, other: Option<DelayMoment>) -> DelayMoment
    ensures { result ≡ earlier m other }
{
    match other {
        Some(n) if n.at < m.at => n,
        _ => m,
    }
}

// The delay of the least moment. The last comes first, since each stands before those behind it.
#[tactic(auto, using(crate::proofs::AlternativeLemmas::least_laws))]
pub(crate) fn least_delay(delays: &List<DelayMoment>) -> Option<DelayMoment>
    ensures { result ≡ least_delay delays.now }
{
    let mut least = None;
    let mut place = delays.len();
    while 0 < place {
        place -= 1;
        if let Some(m) = delays.get(place) {
            least = Some(earlier(*m, least));
        }
    }
    least
}

// Whether no alternative is open, and there is no else part.
pub(crate) fn is_closed(kinds: &List<SelectKind>, otherwise: Option<StatementNo>) -> bool
    ensures { result ≡ is_closed kinds.now otherwise }
{
    match kinds.front() {
        Some(_) => false,
        None => otherwise.is_none(),
    }
}
