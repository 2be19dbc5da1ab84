//! The laws on lines, computed on traces: the worked traces keep each, and each broken trace breaks
//! the one that it is made to break. The calls do nothing: their contracts are theorems on these
//! traces.
#![tactic(auto)]

ghost use Rattle.trace_text.specs.Laws.{DispatchOk, CeilingOk, LeftOk, Formed};
ghost use Rattle.trace_rows.specs.Kept.{IsLawful};
ghost use Rattle.trace_rows.specs.First.{trace_01, trace_03, trace_04, trace_05a, trace_05b};
ghost use Rattle.trace_rows.specs.First.{trace_05c, trace_06, trace_08a, trace_08b};
ghost use Rattle.trace_rows.specs.First.{trace_09a, trace_09b, trace_10, trace_11, trace_12};
ghost use Rattle.trace_rows.specs.First.{trace_13, trace_14a, trace_14b, trace_15a};
ghost use Rattle.trace_rows.specs.First.{trace_15b, trace_15c, trace_15d};
ghost use Rattle.trace_rows.specs.Second.{trace_16, trace_19, trace_20a, trace_20b, trace_20c};
ghost use Rattle.trace_rows.specs.Second.{trace_adjust_1, trace_adjust_2, trace_budgets_1};
ghost use Rattle.trace_rows.specs.Second.{trace_controlled_1, trace_policies_1};
ghost use Rattle.trace_rows.specs.Second.{trace_representation, trace_requeue_1, trace_requeue_2};
ghost use Rattle.trace_rows.specs.Second.{trace_requeue_3, trace_wide_1, trace_wide_2};
ghost use Rattle.trace_rows.specs.Plant.{trace_23};
ghost use Rattle.trace_rows.specs.Broken.{wrong_runner, ceiling_too_low, final_left_out, new_twice};

use trace_text::tests_tell;

/// Worked traces are formed, and keep the five laws.
pub fn worked_traces_are_lawful()
    ensures trace_01 { IsLawful trace_01 }
    ensures trace_03 { IsLawful trace_03 }
    ensures trace_04 { IsLawful trace_04 }
    ensures trace_05a { IsLawful trace_05a }
    ensures trace_05b { IsLawful trace_05b }
    ensures trace_05c { IsLawful trace_05c }
    ensures trace_06 { IsLawful trace_06 }
    ensures trace_08a { IsLawful trace_08a }
    ensures trace_08b { IsLawful trace_08b }
    ensures trace_09a { IsLawful trace_09a }
    ensures trace_09b { IsLawful trace_09b }
    ensures trace_10 { IsLawful trace_10 }
    ensures trace_11 { IsLawful trace_11 }
    ensures trace_12 { IsLawful trace_12 }
    ensures trace_13 { IsLawful trace_13 }
    ensures trace_14a { IsLawful trace_14a }
    ensures trace_14b { IsLawful trace_14b }
    ensures trace_15a { IsLawful trace_15a }
    ensures trace_15b { IsLawful trace_15b }
    ensures trace_15c { IsLawful trace_15c }
    ensures trace_15d { IsLawful trace_15d }
{
    tests_tell();
}

/// More worked traces are formed, and keep the five laws.
pub fn more_worked_traces_are_lawful()
    ensures trace_16 { IsLawful trace_16 }
    ensures trace_19 { IsLawful trace_19 }
    ensures trace_20a { IsLawful trace_20a }
    ensures trace_20b { IsLawful trace_20b }
    ensures trace_20c { IsLawful trace_20c }
    ensures trace_adjust_1 { IsLawful trace_adjust_1 }
    ensures trace_adjust_2 { IsLawful trace_adjust_2 }
    ensures trace_budgets_1 { IsLawful trace_budgets_1 }
    ensures trace_controlled_1 { IsLawful trace_controlled_1 }
    ensures trace_policies_1 { IsLawful trace_policies_1 }
    ensures trace_representation { IsLawful trace_representation }
    ensures trace_requeue_1 { IsLawful trace_requeue_1 }
    ensures trace_requeue_2 { IsLawful trace_requeue_2 }
    ensures trace_requeue_3 { IsLawful trace_requeue_3 }
    ensures trace_wide_1 { IsLawful trace_wide_1 }
    ensures trace_wide_2 { IsLawful trace_wide_2 }
{
    tests_tell();
}

/// So is the trace of a plant of five tasks, and keeps them.
pub fn plant_is_lawful()
    ensures { IsLawful trace_23 }
{
    tests_tell();
}

/// A trace in which another task runs than the first breaks the law of dispatching, one whose
/// ceiling is too low that of ceilings, one that lacks a `final` line that of leaving, and one with
/// two `new` lines of one task is no trace.
pub fn broken_traces_are_told()
    ensures dispatch { ¬ (DispatchOk wrong_runner) }
    ensures ceilings { ¬ (CeilingOk ceiling_too_low) }
    ensures leaving { ¬ (LeftOk final_left_out) }
    ensures formed { ¬ (Formed new_twice) }
{
    tests_tell();
}
