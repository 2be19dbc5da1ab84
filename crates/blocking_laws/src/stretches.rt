//! Stretches, by a test that computes, and lines that break the laws of blocking.
ghost use Rattle.std.specs.Prelude.{◌↔◌, IsTrue, List, ℕ};
ghost use Rattle.trace_text.specs.Queue.{TraceLine, RisesFrom};
ghost use Rattle.trace_rows.specs.First.{trace_06};
ghost use Rattle.trace_rows.specs.Plant.{trace_23};
ghost use Rattle.blocking_laws.specs.BlockingLaws.{BlockedOnceOk, NeverHeldOk};
ghost use Rattle.blocking_laws.specs.Examples.{HeldByInheritance, blocked_once};
ghost use Rattle.blocking_laws.specs.Examples.{blocked_outside, blocked_twice, found_held};
ghost use Rattle.blocking_laws.specs.Stretches.{Stretch, is_stretch};

/// Where the test computes to true there is a stretch, and nowhere else.
pub fn tests_tell()
    ensures { (lines : List TraceLine) (first last : ℕ) → RisesFrom 0 lines
        → (IsTrue (is_stretch first last lines) ↔ Stretch first last lines) }
{}

/// The trace of a plant of five tasks has a stretch from tick 1,000 to its end, so that the laws
/// say something of it.
pub fn plant_has_a_stretch()
    ensures { Stretch 1000 200000 trace_23 }
{}

/// Without the ceiling protocol a call finds its object held; a task is blocked by one that has no
/// action open, or by two tasks, one behind the other. All this happens in stretches. Where a task
/// inherits a priority without an action, as in a rendezvous, there is no stretch, and a call may
/// find its object held.
pub fn examples_are_told()
    ensures kept { Stretch 1 12 blocked_once }
    ensures held { ¬ (NeverHeldOk found_held) }
    ensures outside { ¬ (BlockedOnceOk blocked_outside) }
    ensures twice { ¬ (BlockedOnceOk blocked_twice) }
    ensures inherited { HeldByInheritance 18 26 30 trace_06 }
{}
