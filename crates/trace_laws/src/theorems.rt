//! What the facts say of the laws, as a call that does nothing: its contract is theorems on the
//! definitions.
ghost use Rattle.std.specs.Prelude.{◌≡◌, ℕ, List, Ok};
ghost use Rattle.trace_text.specs.declared.events.Event.{Event};
ghost use Rattle.trace_text.specs.Queue.{TraceLine};
ghost use Rattle.trace_text.specs.Laws.{Formed, KeepsLaws};
ghost use Rattle.trace_lines.specs.Seen.{with_line};
ghost use Rattle.trace_laws.specs.Watched.{watched_of, watch_line, answer_after, answer_of};
ghost use Rattle.trace_laws.specs.Verdicts.{texts_in, laws_answer, Says};
ghost use Rattle.trace_laws.specs.Rows.{lawful_row, wrong_runner, low_ceiling};
ghost use Rattle.trace_laws.specs.Rows.{not_finalized, new_twice};

use crate::laws::Law;
use crate::verdicts::Verdict;
use trace_lines::facts_tell;
use trace_text::tests_tell;

/// What is answered by the facts of a list that is formed and keeps the laws is what is to be
/// answered of the list with the further line; where nothing is wrong, the longer list is formed
/// and keeps the laws.
pub fn answers_tell()
    ensures answer { (lines : List TraceLine) (tick : ℕ) (event : Event)
        → Formed lines → KeepsLaws lines
        → answer_after (watched_of lines) tick event ≡ answer_of (with_line lines tick event) }
    ensures more { (lines : List TraceLine) (tick : ℕ) (event : Event)
        → watched_of (with_line lines tick event) ≡ watch_line (watched_of lines) (tick, event) }
    ensures lawful { (lines : List TraceLine) → answer_of lines ≡ Ok tt
        → Formed lines × KeepsLaws lines }
{
    facts_tell();
    tests_tell();
}

/// What is answered of the bytes of a trace: that they are a formed list of lines that keeps the
/// laws, or the first line that breaks a law or is refused, behind lines that are formed and keep
/// the laws. Of no other answer this is true.
pub fn verdicts_tell()
    ensures says { (bytes : List ℕ) → Says (texts_in bytes) (laws_answer bytes) }
    ensures only { (bytes : List ℕ) (verdict : Verdict) → Says (texts_in bytes) verdict
        → laws_answer bytes ≡ verdict }
{
    answers_tell();
    tests_tell();
}

/// The verdicts on worked traces.
pub fn rows_tell()
    ensures lawful_row { laws_answer lawful_row ≡ Verdict.Lawful 29 }
    ensures wrong_runner { laws_answer wrong_runner ≡ Verdict.Broken 14 Law.Dispatch }
    ensures low_ceiling { laws_answer low_ceiling ≡ Verdict.Broken 5 Law.Ceiling }
    ensures not_finalized { laws_answer not_finalized ≡ Verdict.Broken 23 Law.Left }
    ensures new_twice { laws_answer new_twice ≡ Verdict.Refused 2 }
{}
