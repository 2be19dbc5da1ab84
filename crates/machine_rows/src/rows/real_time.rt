//! Worked rows of priorities and policies, clocks, timers, budgets and interrupts.
ghost use Rattle.std.specs.Prelude.{◌≡◌, IsTrue};
ghost use Rattle.machine_rows.specs.Rows.RowAppointments_kinds.{row_appointments_kinds_lines, row_appointments_kinds_trace, row_appointments_kinds_worlds, row_appointments_kinds_handlers};
ghost use Rattle.machine_rows.specs.Rows.RowBudgets_1.{row_budgets_1_lines, row_budgets_1_trace, row_budgets_1_worlds, row_budgets_1_handlers};
ghost use Rattle.machine_rows.specs.Rows.RowBudgets_group.{row_budgets_group_lines, row_budgets_group_trace, row_budgets_group_worlds, row_budgets_group_handlers};
ghost use Rattle.machine_rows.specs.Rows.RowClocks_read.{row_clocks_read_lines, row_clocks_read_trace, row_clocks_read_worlds, row_clocks_read_handlers};
ghost use Rattle.machine_rows.specs.Rows.RowEdf_blocked.{row_edf_blocked_lines, row_edf_blocked_trace, row_edf_blocked_worlds, row_edf_blocked_handlers};
ghost use Rattle.machine_rows.specs.Rows.RowEdf_levels.{row_edf_levels_lines, row_edf_levels_trace, row_edf_levels_worlds, row_edf_levels_handlers};
ghost use Rattle.machine_rows.specs.Rows.RowEdf_made.{row_edf_made_lines, row_edf_made_trace, row_edf_made_worlds, row_edf_made_handlers};
ghost use Rattle.machine_rows.specs.Rows.RowEdf_rivals.{row_edf_rivals_lines, row_edf_rivals_trace, row_edf_rivals_worlds, row_edf_rivals_handlers};
ghost use Rattle.machine_rows.specs.Rows.RowEvents_order.{row_events_order_lines, row_events_order_trace, row_events_order_worlds, row_events_order_handlers};
ghost use Rattle.machine_rows.specs.Rows.RowEvents_pending.{row_events_pending_lines, row_events_pending_trace, row_events_pending_worlds, row_events_pending_handlers};
ghost use Rattle.machine_rows.specs.Rows.RowEvents_present.{row_events_present_lines, row_events_present_trace, row_events_present_worlds, row_events_present_handlers};
ghost use Rattle.machine_rows.specs.Rows.RowInterrupts_end.{row_interrupts_end_lines, row_interrupts_end_trace, row_interrupts_end_worlds, row_interrupts_end_handlers};
ghost use Rattle.machine_rows.specs.Rows.RowInterrupts_masked.{row_interrupts_masked_lines, row_interrupts_masked_trace, row_interrupts_masked_worlds, row_interrupts_masked_handlers};
ghost use Rattle.machine_rows.specs.Rows.RowPolicies_1.{row_policies_1_lines, row_policies_1_trace, row_policies_1_worlds, row_policies_1_handlers};
ghost use Rattle.machine_rows.specs.Rows.RowPolicies_deadlines.{row_policies_deadlines_lines, row_policies_deadlines_trace, row_policies_deadlines_worlds, row_policies_deadlines_handlers};
ghost use Rattle.machine_rows.specs.Rows.RowPolicies_priorities.{row_policies_priorities_lines, row_policies_priorities_trace, row_policies_priorities_worlds, row_policies_priorities_handlers};
ghost use Rattle.machine_rows.specs.Rows.RowPolicies_quanta.{row_policies_quanta_lines, row_policies_quanta_trace, row_policies_quanta_worlds, row_policies_quanta_handlers};
ghost use Rattle.machine_rows.specs.Rows.RowPriorities_blocked.{row_priorities_blocked_lines, row_priorities_blocked_trace, row_priorities_blocked_worlds, row_priorities_blocked_handlers};
ghost use Rattle.machine_rows.specs.Rows.RowPriorities_states.{row_priorities_states_lines, row_priorities_states_trace, row_priorities_states_worlds, row_priorities_states_handlers};
ghost use Rattle.machine_rows.specs.Rows.RowTimers_other.{row_timers_other_lines, row_timers_other_trace, row_timers_other_worlds, row_timers_other_handlers};
ghost use Rattle.machine_rows.specs.Rows.RowTimers_set.{row_timers_set_lines, row_timers_set_trace, row_timers_set_worlds, row_timers_set_handlers};
ghost use Rattle.machine_rows.specs.Rows.RowWide_1.{row_wide_1_lines, row_wide_1_trace, row_wide_1_worlds, row_wide_1_handlers};
ghost use Rattle.machine_rows.specs.Rows.RowWide_2.{row_wide_2_lines, row_wide_2_trace, row_wide_2_worlds, row_wide_2_handlers};

/// Row appointments.kinds, up to tick 59.
#[tactic(auto, using(crate::specs::Rows::RowAppointments_kinds::row_appointments_kinds_runs, crate::specs::Rows::RowAppointments_kinds::row_appointments_kinds_keeps, crate::specs::Rows::RowAppointments_kinds::row_appointments_kinds_releases))]
pub fn row_appointments_kinds()
    ensures runs { row_appointments_kinds_lines ≡ row_appointments_kinds_trace }
    ensures keeps { IsTrue row_appointments_kinds_worlds }
    ensures releases { IsTrue row_appointments_kinds_handlers }
{}

/// Row budgets.1, up to tick 14.
#[tactic(auto, using(crate::specs::Rows::RowBudgets_1::row_budgets_1_runs, crate::specs::Rows::RowBudgets_1::row_budgets_1_keeps, crate::specs::Rows::RowBudgets_1::row_budgets_1_releases))]
pub fn row_budgets_1()
    ensures runs { row_budgets_1_lines ≡ row_budgets_1_trace }
    ensures keeps { IsTrue row_budgets_1_worlds }
    ensures releases { IsTrue row_budgets_1_handlers }
{}

/// Row budgets.group, up to tick 53.
#[tactic(auto, using(crate::specs::Rows::RowBudgets_group::row_budgets_group_runs, crate::specs::Rows::RowBudgets_group::row_budgets_group_keeps, crate::specs::Rows::RowBudgets_group::row_budgets_group_releases))]
pub fn row_budgets_group()
    ensures runs { row_budgets_group_lines ≡ row_budgets_group_trace }
    ensures keeps { IsTrue row_budgets_group_worlds }
    ensures releases { IsTrue row_budgets_group_handlers }
{}

/// Row clocks.read, up to tick 58.
#[tactic(auto, using(crate::specs::Rows::RowClocks_read::row_clocks_read_runs, crate::specs::Rows::RowClocks_read::row_clocks_read_keeps, crate::specs::Rows::RowClocks_read::row_clocks_read_releases))]
pub fn row_clocks_read()
    ensures runs { row_clocks_read_lines ≡ row_clocks_read_trace }
    ensures keeps { IsTrue row_clocks_read_worlds }
    ensures releases { IsTrue row_clocks_read_handlers }
{}

/// Row edf.blocked, up to tick 46.
#[tactic(auto, using(crate::specs::Rows::RowEdf_blocked::row_edf_blocked_runs, crate::specs::Rows::RowEdf_blocked::row_edf_blocked_keeps, crate::specs::Rows::RowEdf_blocked::row_edf_blocked_releases))]
pub fn row_edf_blocked()
    ensures runs { row_edf_blocked_lines ≡ row_edf_blocked_trace }
    ensures keeps { IsTrue row_edf_blocked_worlds }
    ensures releases { IsTrue row_edf_blocked_handlers }
{}

/// Row edf.levels, up to tick 40.
#[tactic(auto, using(crate::specs::Rows::RowEdf_levels::row_edf_levels_runs, crate::specs::Rows::RowEdf_levels::row_edf_levels_keeps, crate::specs::Rows::RowEdf_levels::row_edf_levels_releases))]
pub fn row_edf_levels()
    ensures runs { row_edf_levels_lines ≡ row_edf_levels_trace }
    ensures keeps { IsTrue row_edf_levels_worlds }
    ensures releases { IsTrue row_edf_levels_handlers }
{}

/// Row edf.made, up to tick 42.
#[tactic(auto, using(crate::specs::Rows::RowEdf_made::row_edf_made_runs, crate::specs::Rows::RowEdf_made::row_edf_made_keeps, crate::specs::Rows::RowEdf_made::row_edf_made_releases))]
pub fn row_edf_made()
    ensures runs { row_edf_made_lines ≡ row_edf_made_trace }
    ensures keeps { IsTrue row_edf_made_worlds }
    ensures releases { IsTrue row_edf_made_handlers }
{}

/// Row edf.rivals, up to tick 57.
#[tactic(auto, using(crate::specs::Rows::RowEdf_rivals::row_edf_rivals_runs, crate::specs::Rows::RowEdf_rivals::row_edf_rivals_keeps, crate::specs::Rows::RowEdf_rivals::row_edf_rivals_releases))]
pub fn row_edf_rivals()
    ensures runs { row_edf_rivals_lines ≡ row_edf_rivals_trace }
    ensures keeps { IsTrue row_edf_rivals_worlds }
    ensures releases { IsTrue row_edf_rivals_handlers }
{}

/// Row events.order, up to tick 42.
#[tactic(auto, using(crate::specs::Rows::RowEvents_order::row_events_order_runs, crate::specs::Rows::RowEvents_order::row_events_order_keeps, crate::specs::Rows::RowEvents_order::row_events_order_releases))]
pub fn row_events_order()
    ensures runs { row_events_order_lines ≡ row_events_order_trace }
    ensures keeps { IsTrue row_events_order_worlds }
    ensures releases { IsTrue row_events_order_handlers }
{}

/// Row events.pending, up to tick 48.
#[tactic(auto, using(crate::specs::Rows::RowEvents_pending::row_events_pending_runs, crate::specs::Rows::RowEvents_pending::row_events_pending_keeps, crate::specs::Rows::RowEvents_pending::row_events_pending_releases))]
pub fn row_events_pending()
    ensures runs { row_events_pending_lines ≡ row_events_pending_trace }
    ensures keeps { IsTrue row_events_pending_worlds }
    ensures releases { IsTrue row_events_pending_handlers }
{}

/// Row events.present, up to tick 24.
#[tactic(auto, using(crate::specs::Rows::RowEvents_present::row_events_present_runs, crate::specs::Rows::RowEvents_present::row_events_present_keeps, crate::specs::Rows::RowEvents_present::row_events_present_releases))]
pub fn row_events_present()
    ensures runs { row_events_present_lines ≡ row_events_present_trace }
    ensures keeps { IsTrue row_events_present_worlds }
    ensures releases { IsTrue row_events_present_handlers }
{}

/// Row interrupts.end, up to tick 10.
#[tactic(auto, using(crate::specs::Rows::RowInterrupts_end::row_interrupts_end_runs, crate::specs::Rows::RowInterrupts_end::row_interrupts_end_keeps, crate::specs::Rows::RowInterrupts_end::row_interrupts_end_releases))]
pub fn row_interrupts_end()
    ensures runs { row_interrupts_end_lines ≡ row_interrupts_end_trace }
    ensures keeps { IsTrue row_interrupts_end_worlds }
    ensures releases { IsTrue row_interrupts_end_handlers }
{}

/// Row interrupts.masked, up to tick 43.
#[tactic(auto, using(crate::specs::Rows::RowInterrupts_masked::row_interrupts_masked_runs, crate::specs::Rows::RowInterrupts_masked::row_interrupts_masked_keeps, crate::specs::Rows::RowInterrupts_masked::row_interrupts_masked_releases))]
pub fn row_interrupts_masked()
    ensures runs { row_interrupts_masked_lines ≡ row_interrupts_masked_trace }
    ensures keeps { IsTrue row_interrupts_masked_worlds }
    ensures releases { IsTrue row_interrupts_masked_handlers }
{}

/// Row policies.1, up to tick 29.
#[tactic(auto, using(crate::specs::Rows::RowPolicies_1::row_policies_1_runs, crate::specs::Rows::RowPolicies_1::row_policies_1_keeps, crate::specs::Rows::RowPolicies_1::row_policies_1_releases))]
pub fn row_policies_1()
    ensures runs { row_policies_1_lines ≡ row_policies_1_trace }
    ensures keeps { IsTrue row_policies_1_worlds }
    ensures releases { IsTrue row_policies_1_handlers }
{}

/// Row policies.deadlines, up to tick 233.
#[tactic(auto, using(crate::specs::Rows::RowPolicies_deadlines::row_policies_deadlines_runs, crate::specs::Rows::RowPolicies_deadlines::row_policies_deadlines_keeps, crate::specs::Rows::RowPolicies_deadlines::row_policies_deadlines_releases))]
pub fn row_policies_deadlines()
    ensures runs { row_policies_deadlines_lines ≡ row_policies_deadlines_trace }
    ensures keeps { IsTrue row_policies_deadlines_worlds }
    ensures releases { IsTrue row_policies_deadlines_handlers }
{}

/// Row policies.priorities, up to tick 158.
#[tactic(auto, using(crate::specs::Rows::RowPolicies_priorities::row_policies_priorities_runs, crate::specs::Rows::RowPolicies_priorities::row_policies_priorities_keeps, crate::specs::Rows::RowPolicies_priorities::row_policies_priorities_releases))]
pub fn row_policies_priorities()
    ensures runs { row_policies_priorities_lines ≡ row_policies_priorities_trace }
    ensures keeps { IsTrue row_policies_priorities_worlds }
    ensures releases { IsTrue row_policies_priorities_handlers }
{}

/// Row policies.quanta, up to tick 35.
#[tactic(auto, using(crate::specs::Rows::RowPolicies_quanta::row_policies_quanta_runs, crate::specs::Rows::RowPolicies_quanta::row_policies_quanta_keeps, crate::specs::Rows::RowPolicies_quanta::row_policies_quanta_releases))]
pub fn row_policies_quanta()
    ensures runs { row_policies_quanta_lines ≡ row_policies_quanta_trace }
    ensures keeps { IsTrue row_policies_quanta_worlds }
    ensures releases { IsTrue row_policies_quanta_handlers }
{}

/// Row priorities.blocked, up to tick 61.
#[tactic(auto, using(crate::specs::Rows::RowPriorities_blocked::row_priorities_blocked_runs, crate::specs::Rows::RowPriorities_blocked::row_priorities_blocked_keeps, crate::specs::Rows::RowPriorities_blocked::row_priorities_blocked_releases))]
pub fn row_priorities_blocked()
    ensures runs { row_priorities_blocked_lines ≡ row_priorities_blocked_trace }
    ensures keeps { IsTrue row_priorities_blocked_worlds }
    ensures releases { IsTrue row_priorities_blocked_handlers }
{}

/// Row priorities.states, up to tick 45.
#[tactic(auto, using(crate::specs::Rows::RowPriorities_states::row_priorities_states_runs, crate::specs::Rows::RowPriorities_states::row_priorities_states_keeps, crate::specs::Rows::RowPriorities_states::row_priorities_states_releases))]
pub fn row_priorities_states()
    ensures runs { row_priorities_states_lines ≡ row_priorities_states_trace }
    ensures keeps { IsTrue row_priorities_states_worlds }
    ensures releases { IsTrue row_priorities_states_handlers }
{}

/// Row timers.other, up to tick 28.
#[tactic(auto, using(crate::specs::Rows::RowTimers_other::row_timers_other_runs, crate::specs::Rows::RowTimers_other::row_timers_other_keeps, crate::specs::Rows::RowTimers_other::row_timers_other_releases))]
pub fn row_timers_other()
    ensures runs { row_timers_other_lines ≡ row_timers_other_trace }
    ensures keeps { IsTrue row_timers_other_worlds }
    ensures releases { IsTrue row_timers_other_handlers }
{}

/// Row timers.set, up to tick 50.
#[tactic(auto, using(crate::specs::Rows::RowTimers_set::row_timers_set_runs, crate::specs::Rows::RowTimers_set::row_timers_set_keeps, crate::specs::Rows::RowTimers_set::row_timers_set_releases))]
pub fn row_timers_set()
    ensures runs { row_timers_set_lines ≡ row_timers_set_trace }
    ensures keeps { IsTrue row_timers_set_worlds }
    ensures releases { IsTrue row_timers_set_handlers }
{}

/// Row wide.1, up to tick 70.
#[tactic(auto, using(crate::specs::Rows::RowWide_1::row_wide_1_runs, crate::specs::Rows::RowWide_1::row_wide_1_keeps, crate::specs::Rows::RowWide_1::row_wide_1_releases))]
pub fn row_wide_1()
    ensures runs { row_wide_1_lines ≡ row_wide_1_trace }
    ensures keeps { IsTrue row_wide_1_worlds }
    ensures releases { IsTrue row_wide_1_handlers }
{}

/// Row wide.2, up to tick 10.
#[tactic(auto, using(crate::specs::Rows::RowWide_2::row_wide_2_runs, crate::specs::Rows::RowWide_2::row_wide_2_keeps, crate::specs::Rows::RowWide_2::row_wide_2_releases))]
pub fn row_wide_2()
    ensures runs { row_wide_2_lines ≡ row_wide_2_trace }
    ensures keeps { IsTrue row_wide_2_worlds }
    ensures releases { IsTrue row_wide_2_handlers }
{}
