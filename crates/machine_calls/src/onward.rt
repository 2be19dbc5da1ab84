//! Where a caller goes on behind its call (ISO/IEC 8652:2012, 9.5.3, 9.7).
ghost use Rattle.std.specs.Prelude.{◌≡◌};
ghost use Rattle.profile_machine.specs.CallEnds.{call_in, onward_when_done};
ghost use Rattle.profile_machine.specs.CallEnds.{otherwise_in, onward_when_cancelled};

use machine_program::{Program, form_of, next_of};
use profile_image::{StatementForm, StatementNo};

/// The entry call that a statement makes: itself, or the one in it.
pub fn call_in(form: &StatementForm, s: StatementNo) -> StatementNo
    ensures { result ≡ call_in form.now s }
{
    match form {
        StatementForm::ConditionalCall { call, .. } => *call,
        StatementForm::TimedCall { call, .. } => *call,
        StatementForm::AsynchronousSelect { trigger, .. } => *trigger,
        _ => s,
    }
}

/// Behind the call, or the trigger, of a statement.
pub fn onward_when_done(p: &Program, s: StatementNo) -> Option<StatementNo>
    ensures { result ≡ onward_when_done p.now s }
{
    next_of(p, call_in(form_of(p, s), s))
}

fn otherwise_in(p: &Program, form: &StatementForm, next: Option<StatementNo>) -> Option<StatementNo>
    ensures { result ≡ otherwise_in p.now form.now next }
{
    match form {
        StatementForm::ConditionalCall { otherwise, .. } => Some(*otherwise),
        StatementForm::TimedCall { delay, .. } => next_of(p, *delay),
        _ => next,
    }
}

/// Where a caller goes on whose call is cancelled: at the else part, or behind the delay.
pub fn onward_when_cancelled(p: &Program, s: StatementNo) -> Option<StatementNo>
    ensures { result ≡ onward_when_cancelled p.now s }
{
    otherwise_in(p, form_of(p, s), next_of(p, s))
}
