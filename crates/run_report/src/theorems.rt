//! What the facts say of the list that they stand for, as a call that does nothing: its contract is
//! theorems on the definitions.
ghost use Rattle.std.specs.Prelude.{◌≡◌, ◌↔◌, ℕ, IsTrue, List};
ghost use Rattle.trace_text.specs.declared.events.Who.TheVariants as subject;
ghost use Rattle.trace_text.specs.declared.events.Event.{Event};
ghost use Rattle.trace_text.specs.Queue.{TraceLine, last_from};
ghost use Rattle.trace_text.specs.Laws.{Formed};
ghost use Rattle.trace_lines.specs.Seen.{with_line, is_formed_after};
ghost use Rattle.run_report.specs.Accounts.{accounts_of, run_of, idle_of};
ghost use Rattle.run_report.specs.Kept.{reported_of, report_line, accounts_in};

use trace_lines::facts_tell;
use trace_text::tests_tell;

/// What is kept of a formed list are the accounts of its tasks, as the definitions on lists say
/// them, and whether the list stays formed shows in it.
pub fn accounts_tell()
    ensures accounts { (lines : List TraceLine) → Formed lines
        → accounts_in (reported_of lines) ≡ accounts_of lines }
    ensures agent_run { (lines : List TraceLine) → Formed lines
        → (reported_of lines).agent_run ≡ run_of subject.Agent lines }
    ensures idle { (lines : List TraceLine) → Formed lines
        → (reported_of lines).idle ≡ idle_of lines }
    ensures ticks { (lines : List TraceLine) → (reported_of lines).seen.tick ≡ last_from 0 lines }
    ensures more { (lines : List TraceLine) (tick : ℕ) (event : Event)
        → reported_of (with_line lines tick event) ≡ report_line (reported_of lines) (tick, event) }
    ensures formed { (lines : List TraceLine) (tick : ℕ) (event : Event) → Formed lines
        → (IsTrue (is_formed_after (reported_of lines).seen tick event)
        ↔ Formed (with_line lines tick event)) }
{
    facts_tell();
    tests_tell();
}
