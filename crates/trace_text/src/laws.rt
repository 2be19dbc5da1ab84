//! The laws on lists of lines, as calls that do nothing: their contracts are theorems on the
//! definitions.
ghost use Rattle.std.specs.Prelude.{◌↔◌, IsTrue, List};
ghost use Rattle.trace_text.specs.Queue.{TraceLine, RisesFrom};
ghost use Rattle.trace_text.specs.Laws.{DispatchOk, CeilingOk, ExclusiveOk, HandlersOk};
ghost use Rattle.trace_text.specs.Laws.{LeftOk, Formed, follows_dispatch, follows_ceilings};
ghost use Rattle.trace_text.specs.Laws.{follows_exclusion, follows_handlers, follows_leaving};
ghost use Rattle.trace_text.specs.Laws.{follows_form, follows_laws, KeepsLaws};

/// Each law on lines, and what a trace is, holds exactly where the test beside it computes to true.
pub fn tests_tell()
    ensures dispatch { (lines : List TraceLine) → RisesFrom 0 lines
        → (IsTrue (follows_dispatch lines) ↔ DispatchOk lines) }
    ensures ceilings { (lines : List TraceLine)
        → (IsTrue (follows_ceilings lines) ↔ CeilingOk lines) }
    ensures exclusion { (lines : List TraceLine)
        → (IsTrue (follows_exclusion lines) ↔ ExclusiveOk lines) }
    ensures handlers { (lines : List TraceLine) → RisesFrom 0 lines
        → (IsTrue (follows_handlers lines) ↔ HandlersOk lines) }
    ensures leaving { (lines : List TraceLine) → (IsTrue (follows_leaving lines) ↔ LeftOk lines) }
    ensures laws { (lines : List TraceLine) → RisesFrom 0 lines → IsTrue (follows_laws lines)
        → KeepsLaws lines }
    ensures formed { (lines : List TraceLine) → (IsTrue (follows_form lines) ↔ Formed lines) }
{}
