//! What opens with a scope: its marks, and how its cells begin.
ghost use Rattle.std.specs.Prelude.{◌≡◌};
ghost use Rattle.profile_image.specs.Program.{opens_handled, marks_with, marks_of};

use crate::items::{Program, form_of, scope_of};
use profile_image::{ScopeNo, StatementForm, StatementNo};

/// Whether a sequence with handlers begins here (11.2).
pub fn opens_handled(form: &StatementForm) -> bool
    ensures { result ≡ opens_handled form.now }
{
    matches!(form, StatementForm::Handled { .. })
}

/// How many marks one effect opens with a body or a block that begins with this action: the scope,
/// and its sequence with handlers where that comes first.
pub fn marks_with(p: &Program, first: Option<StatementNo>) -> u32
    ensures { result ≡ marks_with p.now first }
{
    match first {
        Some(s) if opens_handled(form_of(p, s)) => 2,
        _ => 1,
    }
}

/// The same, of a scope.
pub fn marks_of(p: &Program, s: ScopeNo) -> u32
    ensures { result ≡ marks_of p.now s }
{
    marks_with(p, scope_of(p, s).first)
}
