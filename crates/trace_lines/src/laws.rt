//! What the facts say of the list that they stand for, as a call that does nothing: its contract is
//! theorems on the definitions.
ghost use Rattle.std.specs.Prelude.{◌≡◌, ◌↔◌, ℕ, IsTrue, List};
ghost use Rattle.trace_text.specs.declared.events.Event.{Event};
ghost use Rattle.trace_text.specs.Queue.{TraceLine, see, nothing_seen, seen_from, last_from};
ghost use Rattle.trace_text.specs.Laws.{see_levels, no_levels, level_of, Formed};
ghost use Rattle.trace_lines.specs.Seen.{seen_of, see_line, with_line, is_formed_after};

use trace_text::tests_tell;

/// Each fact that is kept of a list is what the definition on lists says, and whether a list stays
/// formed shows in the facts.
pub fn facts_tell()
    ensures tick { (lines : List TraceLine) → (seen_of lines).tick ≡ last_from 0 lines }
    ensures runner { (lines : List TraceLine)
        → (seen_of lines).runner ≡ (seen_from see nothing_seen lines).runner }
    ensures queue { (lines : List TraceLine)
        → (seen_of lines).queue ≡ (seen_from see nothing_seen lines).queue }
    ensures base { (number : ℕ) (lines : List TraceLine)
        → level_of number (seen_of lines).bases
        ≡ level_of number (seen_from see_levels no_levels lines).bases }
    ensures ceiling { (number : ℕ) (lines : List TraceLine)
        → level_of number (seen_of lines).ceilings
        ≡ level_of number (seen_from see_levels no_levels lines).ceilings }
    ensures more { (lines : List TraceLine) (tick : ℕ) (event : Event)
        → seen_of (with_line lines tick event) ≡ see_line (seen_of lines) (tick, event) }
    ensures formed { (lines : List TraceLine) (tick : ℕ) (event : Event) → Formed lines
        → (IsTrue (is_formed_after (seen_of lines) tick event)
        ↔ Formed (with_line lines tick event)) }
{
    tests_tell();
}
