//! Small sources that are refused, one at least by each stage of the front end, each with the place
//! and the code that it is told.
ghost use Rattle.std.specs.Prelude.{◌≡◌, Err};
ghost use Rattle.ada_verdicts.specs.declared.refusals.Code.TheVariants as code;
ghost use Rattle.ada_verdicts.specs.Accepted.{judged};
ghost use Rattle.ada_verdicts.specs.Refusals.{refused_at};
ghost use Rattle.lesson_laws.specs.RefusedSources.{at, bad_byte_source};
ghost use Rattle.lesson_laws.specs.RefusedSources.{bad_number_source, open_text_source};
ghost use Rattle.lesson_laws.specs.RefusedSources.{unexpected_source, too_deep_source};
ghost use Rattle.lesson_laws.specs.RefusedSources.{unknown_source, twice_source};
ghost use Rattle.lesson_laws.specs.RefusedSources.{ambiguous_source, not_a_task_source};

/// F1: a byte that begins no token.
#[tactic(auto, using(crate::proofs::NotRead::bad_byte_is_refused))]
pub fn bad_byte_from_bytes()
    ensures { judged bad_byte_source ≡ Err (refused_at (at 3 10) code.BadByte) }
{}

/// F2: a number with a base.
#[tactic(auto, using(crate::proofs::NotRead::bad_number_is_refused))]
pub fn bad_number_from_bytes()
    ensures { judged bad_number_source ≡ Err (refused_at (at 3 10) code.BadNumber) }
{}

/// F3: a text without an end.
#[tactic(auto, using(crate::proofs::NotRead::open_text_is_refused))]
pub fn open_text_from_bytes()
    ensures { judged open_text_source ≡ Err (refused_at (at 3 14) code.OpenText) }
{}

/// F5: a statement without its semicolon.
#[tactic(auto, using(crate::proofs::NotRead::unexpected_is_refused))]
pub fn unexpected_from_bytes()
    ensures { judged unexpected_source ≡ Err (refused_at (at 4 1) code.Unexpected) }
{}

/// F6: a hundred brackets in one another.
#[tactic(auto, using(crate::proofs::NotRead::too_deep_is_refused))]
pub fn too_deep_from_bytes()
    ensures { judged too_deep_source ≡ Err (refused_at (at 1 133) code.TooDeep) }
{}

/// F7: a name without a declaration.
#[tactic(auto, using(crate::proofs::Unknown::unknown_is_refused))]
pub fn unknown_from_bytes()
    ensures { judged unknown_source ≡ Err (refused_at (at 3 4) code.Unknown) }
{}

/// F8: a name with two declarations.
#[tactic(auto, using(crate::proofs::Twice::twice_is_refused))]
pub fn twice_from_bytes()
    ensures { judged twice_source ≡ Err (refused_at (at 3 9) code.Twice) }
{}

/// F9: a name that two packages in use declare.
#[tactic(auto, using(crate::proofs::Ambiguous::ambiguous_is_refused))]
pub fn ambiguous_from_bytes()
    ensures { judged ambiguous_source ≡ Err (refused_at (at 11 10) code.Ambiguous) }
{}

/// L23: an abort of what is no task.
#[tactic(auto, using(crate::proofs::NotATask::not_a_task_is_refused))]
pub fn not_a_task_from_bytes()
    ensures { judged not_a_task_source ≡ Err (refused_at (at 3 4) (code.Rule 23)) }
{}
