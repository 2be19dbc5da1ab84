//! Worked rows of tasks, protected objects, entry calls and select statements.
ghost use Rattle.std.specs.Prelude.{◌≡◌, IsTrue};
ghost use Rattle.machine_rows.specs.Rows.RowAbort_action.{row_abort_action_lines, row_abort_action_trace, row_abort_action_worlds, row_abort_action_handlers};
ghost use Rattle.machine_rows.specs.Rows.RowAbort_blocked.{row_abort_blocked_lines, row_abort_blocked_trace, row_abort_blocked_worlds, row_abort_blocked_handlers};
ghost use Rattle.machine_rows.specs.Rows.RowActivation_failed.{row_activation_failed_lines, row_activation_failed_trace, row_activation_failed_worlds, row_activation_failed_handlers};
ghost use Rattle.machine_rows.specs.Rows.RowActivation_made.{row_activation_made_lines, row_activation_made_trace, row_activation_made_worlds, row_activation_made_handlers};
ghost use Rattle.machine_rows.specs.Rows.RowCalls_gone.{row_calls_gone_lines, row_calls_gone_trace, row_calls_gone_worlds, row_calls_gone_handlers};
ghost use Rattle.machine_rows.specs.Rows.RowCalls_inside.{row_calls_inside_lines, row_calls_inside_trace, row_calls_inside_worlds, row_calls_inside_handlers};
ghost use Rattle.machine_rows.specs.Rows.RowCalls_order.{row_calls_order_lines, row_calls_order_trace, row_calls_order_worlds, row_calls_order_handlers};
ghost use Rattle.machine_rows.specs.Rows.RowCalls_results.{row_calls_results_lines, row_calls_results_trace, row_calls_results_worlds, row_calls_results_handlers};
ghost use Rattle.machine_rows.specs.Rows.RowCalls_undeclared.{row_calls_undeclared_lines, row_calls_undeclared_trace, row_calls_undeclared_worlds, row_calls_undeclared_handlers};
ghost use Rattle.machine_rows.specs.Rows.RowDeferred_inside.{row_deferred_inside_lines, row_deferred_inside_trace, row_deferred_inside_worlds, row_deferred_inside_handlers};
ghost use Rattle.machine_rows.specs.Rows.RowMasters_completion.{row_masters_completion_lines, row_masters_completion_trace, row_masters_completion_worlds, row_masters_completion_handlers};
ghost use Rattle.machine_rows.specs.Rows.RowProtected_forbidden.{row_protected_forbidden_lines, row_protected_forbidden_trace, row_protected_forbidden_worlds, row_protected_forbidden_handlers};
ghost use Rattle.machine_rows.specs.Rows.RowProtected_internal.{row_protected_internal_lines, row_protected_internal_trace, row_protected_internal_worlds, row_protected_internal_handlers};
ghost use Rattle.machine_rows.specs.Rows.RowProtected_raised.{row_protected_raised_lines, row_protected_raised_trace, row_protected_raised_worlds, row_protected_raised_handlers};
ghost use Rattle.machine_rows.specs.Rows.RowProtected_readers.{row_protected_readers_lines, row_protected_readers_trace, row_protected_readers_worlds, row_protected_readers_handlers};
ghost use Rattle.machine_rows.specs.Rows.RowProtected_undeclared.{row_protected_undeclared_lines, row_protected_undeclared_trace, row_protected_undeclared_worlds, row_protected_undeclared_handlers};
ghost use Rattle.machine_rows.specs.Rows.RowProtected_writer.{row_protected_writer_lines, row_protected_writer_trace, row_protected_writer_worlds, row_protected_writer_handlers};
ghost use Rattle.machine_rows.specs.Rows.RowQueues_best.{row_queues_best_lines, row_queues_best_trace, row_queues_best_worlds, row_queues_best_handlers};
ghost use Rattle.machine_rows.specs.Rows.RowQueues_protected.{row_queues_protected_lines, row_queues_protected_trace, row_queues_protected_worlds, row_queues_protected_handlers};
ghost use Rattle.machine_rows.specs.Rows.RowRendezvous_abort.{row_rendezvous_abort_lines, row_rendezvous_abort_trace, row_rendezvous_abort_worlds, row_rendezvous_abort_handlers};
ghost use Rattle.machine_rows.specs.Rows.RowRendezvous_handled.{row_rendezvous_handled_lines, row_rendezvous_handled_trace, row_rendezvous_handled_worlds, row_rendezvous_handled_handlers};
ghost use Rattle.machine_rows.specs.Rows.RowRequeue_1.{row_requeue_1_lines, row_requeue_1_trace, row_requeue_1_worlds, row_requeue_1_handlers};
ghost use Rattle.machine_rows.specs.Rows.RowRequeue_2.{row_requeue_2_lines, row_requeue_2_trace, row_requeue_2_worlds, row_requeue_2_handlers};
ghost use Rattle.machine_rows.specs.Rows.RowRequeue_3.{row_requeue_3_lines, row_requeue_3_trace, row_requeue_3_worlds, row_requeue_3_handlers};
ghost use Rattle.machine_rows.specs.Rows.RowRequeue_dropped.{row_requeue_dropped_lines, row_requeue_dropped_trace, row_requeue_dropped_worlds, row_requeue_dropped_handlers};
ghost use Rattle.machine_rows.specs.Rows.RowRequeue_ever.{row_requeue_ever_lines, row_requeue_ever_trace, row_requeue_ever_worlds, row_requeue_ever_handlers};
ghost use Rattle.machine_rows.specs.Rows.RowRequeue_firm.{row_requeue_firm_lines, row_requeue_firm_trace, row_requeue_firm_worlds, row_requeue_firm_handlers};
ghost use Rattle.machine_rows.specs.Rows.RowRequeue_kinds.{row_requeue_kinds_lines, row_requeue_kinds_trace, row_requeue_kinds_worlds, row_requeue_kinds_handlers};
ghost use Rattle.machine_rows.specs.Rows.RowRequeue_late.{row_requeue_late_lines, row_requeue_late_trace, row_requeue_late_worlds, row_requeue_late_handlers};
ghost use Rattle.machine_rows.specs.Rows.RowRequeue_meets.{row_requeue_meets_lines, row_requeue_meets_trace, row_requeue_meets_worlds, row_requeue_meets_handlers};
ghost use Rattle.machine_rows.specs.Rows.RowRequeue_own.{row_requeue_own_lines, row_requeue_own_trace, row_requeue_own_worlds, row_requeue_own_handlers};
ghost use Rattle.machine_rows.specs.Rows.RowRequeue_parameters.{row_requeue_parameters_lines, row_requeue_parameters_trace, row_requeue_parameters_worlds, row_requeue_parameters_handlers};
ghost use Rattle.machine_rows.specs.Rows.RowRequeue_raised.{row_requeue_raised_lines, row_requeue_raised_trace, row_requeue_raised_worlds, row_requeue_raised_handlers};
ghost use Rattle.machine_rows.specs.Rows.RowRequeue_triggers.{row_requeue_triggers_lines, row_requeue_triggers_trace, row_requeue_triggers_worlds, row_requeue_triggers_handlers};
ghost use Rattle.machine_rows.specs.Rows.RowRequeue_unwound.{row_requeue_unwound_lines, row_requeue_unwound_trace, row_requeue_unwound_worlds, row_requeue_unwound_handlers};
ghost use Rattle.machine_rows.specs.Rows.RowSelect_ended.{row_select_ended_lines, row_select_ended_trace, row_select_ended_worlds, row_select_ended_handlers};
ghost use Rattle.machine_rows.specs.Rows.RowSelect_left.{row_select_left_lines, row_select_left_trace, row_select_left_worlds, row_select_left_handlers};
ghost use Rattle.machine_rows.specs.Rows.RowSelect_moments.{row_select_moments_lines, row_select_moments_trace, row_select_moments_worlds, row_select_moments_handlers};
ghost use Rattle.machine_rows.specs.Rows.RowSelect_outer.{row_select_outer_lines, row_select_outer_trace, row_select_outer_worlds, row_select_outer_handlers};
ghost use Rattle.machine_rows.specs.Rows.RowSelect_own.{row_select_own_lines, row_select_own_trace, row_select_own_worlds, row_select_own_handlers};
ghost use Rattle.machine_rows.specs.Rows.RowSelect_past.{row_select_past_lines, row_select_past_trace, row_select_past_worlds, row_select_past_handlers};
ghost use Rattle.machine_rows.specs.Rows.RowSelect_raised.{row_select_raised_lines, row_select_raised_trace, row_select_raised_worlds, row_select_raised_handlers};
ghost use Rattle.machine_rows.specs.Rows.RowSelect_wait.{row_select_wait_lines, row_select_wait_trace, row_select_wait_worlds, row_select_wait_handlers};
ghost use Rattle.machine_rows.specs.Rows.RowSequences_activation.{row_sequences_activation_lines, row_sequences_activation_trace, row_sequences_activation_worlds, row_sequences_activation_handlers};
ghost use Rattle.machine_rows.specs.Rows.RowSequences_call.{row_sequences_call_lines, row_sequences_call_trace, row_sequences_call_worlds, row_sequences_call_handlers};
ghost use Rattle.machine_rows.specs.Rows.RowSequences_opening.{row_sequences_opening_lines, row_sequences_opening_trace, row_sequences_opening_worlds, row_sequences_opening_handlers};
ghost use Rattle.machine_rows.specs.Rows.RowSequences_trigger.{row_sequences_trigger_lines, row_sequences_trigger_trace, row_sequences_trigger_worlds, row_sequences_trigger_handlers};

/// Row abort.action, up to tick 41.
#[tactic(auto, using(crate::specs::Rows::RowAbort_action::row_abort_action_runs, crate::specs::Rows::RowAbort_action::row_abort_action_keeps, crate::specs::Rows::RowAbort_action::row_abort_action_releases))]
pub fn row_abort_action()
    ensures runs { row_abort_action_lines ≡ row_abort_action_trace }
    ensures keeps { IsTrue row_abort_action_worlds }
    ensures releases { IsTrue row_abort_action_handlers }
{}

/// Row abort.blocked, up to tick 34.
#[tactic(auto, using(crate::specs::Rows::RowAbort_blocked::row_abort_blocked_runs, crate::specs::Rows::RowAbort_blocked::row_abort_blocked_keeps, crate::specs::Rows::RowAbort_blocked::row_abort_blocked_releases))]
pub fn row_abort_blocked()
    ensures runs { row_abort_blocked_lines ≡ row_abort_blocked_trace }
    ensures keeps { IsTrue row_abort_blocked_worlds }
    ensures releases { IsTrue row_abort_blocked_handlers }
{}

/// Row activation.failed, up to tick 26.
#[tactic(auto, using(crate::specs::Rows::RowActivation_failed::row_activation_failed_runs, crate::specs::Rows::RowActivation_failed::row_activation_failed_keeps, crate::specs::Rows::RowActivation_failed::row_activation_failed_releases))]
pub fn row_activation_failed()
    ensures runs { row_activation_failed_lines ≡ row_activation_failed_trace }
    ensures keeps { IsTrue row_activation_failed_worlds }
    ensures releases { IsTrue row_activation_failed_handlers }
{}

/// Row activation.made, up to tick 32.
#[tactic(auto, using(crate::specs::Rows::RowActivation_made::row_activation_made_runs, crate::specs::Rows::RowActivation_made::row_activation_made_keeps, crate::specs::Rows::RowActivation_made::row_activation_made_releases))]
pub fn row_activation_made()
    ensures runs { row_activation_made_lines ≡ row_activation_made_trace }
    ensures keeps { IsTrue row_activation_made_worlds }
    ensures releases { IsTrue row_activation_made_handlers }
{}

/// Row calls.gone, up to tick 40.
#[tactic(auto, using(crate::specs::Rows::RowCalls_gone::row_calls_gone_runs, crate::specs::Rows::RowCalls_gone::row_calls_gone_keeps, crate::specs::Rows::RowCalls_gone::row_calls_gone_releases))]
pub fn row_calls_gone()
    ensures runs { row_calls_gone_lines ≡ row_calls_gone_trace }
    ensures keeps { IsTrue row_calls_gone_worlds }
    ensures releases { IsTrue row_calls_gone_handlers }
{}

/// Row calls.inside, up to tick 54.
#[tactic(auto, using(crate::specs::Rows::RowCalls_inside::row_calls_inside_runs, crate::specs::Rows::RowCalls_inside::row_calls_inside_keeps, crate::specs::Rows::RowCalls_inside::row_calls_inside_releases))]
pub fn row_calls_inside()
    ensures runs { row_calls_inside_lines ≡ row_calls_inside_trace }
    ensures keeps { IsTrue row_calls_inside_worlds }
    ensures releases { IsTrue row_calls_inside_handlers }
{}

/// Row calls.order, up to tick 39.
#[tactic(auto, using(crate::specs::Rows::RowCalls_order::row_calls_order_runs, crate::specs::Rows::RowCalls_order::row_calls_order_keeps, crate::specs::Rows::RowCalls_order::row_calls_order_releases))]
pub fn row_calls_order()
    ensures runs { row_calls_order_lines ≡ row_calls_order_trace }
    ensures keeps { IsTrue row_calls_order_worlds }
    ensures releases { IsTrue row_calls_order_handlers }
{}

/// Row calls.results, up to tick 39.
#[tactic(auto, using(crate::specs::Rows::RowCalls_results::row_calls_results_runs, crate::specs::Rows::RowCalls_results::row_calls_results_keeps, crate::specs::Rows::RowCalls_results::row_calls_results_releases))]
pub fn row_calls_results()
    ensures runs { row_calls_results_lines ≡ row_calls_results_trace }
    ensures keeps { IsTrue row_calls_results_worlds }
    ensures releases { IsTrue row_calls_results_handlers }
{}

/// Row calls.undeclared, up to tick 33.
#[tactic(auto, using(crate::specs::Rows::RowCalls_undeclared::row_calls_undeclared_runs, crate::specs::Rows::RowCalls_undeclared::row_calls_undeclared_keeps, crate::specs::Rows::RowCalls_undeclared::row_calls_undeclared_releases))]
pub fn row_calls_undeclared()
    ensures runs { row_calls_undeclared_lines ≡ row_calls_undeclared_trace }
    ensures keeps { IsTrue row_calls_undeclared_worlds }
    ensures releases { IsTrue row_calls_undeclared_handlers }
{}

/// Row deferred.inside, up to tick 38.
#[tactic(auto, using(crate::specs::Rows::RowDeferred_inside::row_deferred_inside_runs, crate::specs::Rows::RowDeferred_inside::row_deferred_inside_keeps, crate::specs::Rows::RowDeferred_inside::row_deferred_inside_releases))]
pub fn row_deferred_inside()
    ensures runs { row_deferred_inside_lines ≡ row_deferred_inside_trace }
    ensures keeps { IsTrue row_deferred_inside_worlds }
    ensures releases { IsTrue row_deferred_inside_handlers }
{}

/// Row masters.completion, up to tick 56.
#[tactic(auto, using(crate::specs::Rows::RowMasters_completion::row_masters_completion_runs, crate::specs::Rows::RowMasters_completion::row_masters_completion_keeps, crate::specs::Rows::RowMasters_completion::row_masters_completion_releases))]
pub fn row_masters_completion()
    ensures runs { row_masters_completion_lines ≡ row_masters_completion_trace }
    ensures keeps { IsTrue row_masters_completion_worlds }
    ensures releases { IsTrue row_masters_completion_handlers }
{}

/// Row protected.forbidden, up to tick 30.
#[tactic(auto, using(crate::specs::Rows::RowProtected_forbidden::row_protected_forbidden_runs, crate::specs::Rows::RowProtected_forbidden::row_protected_forbidden_keeps, crate::specs::Rows::RowProtected_forbidden::row_protected_forbidden_releases))]
pub fn row_protected_forbidden()
    ensures runs { row_protected_forbidden_lines ≡ row_protected_forbidden_trace }
    ensures keeps { IsTrue row_protected_forbidden_worlds }
    ensures releases { IsTrue row_protected_forbidden_handlers }
{}

/// Row protected.internal, up to tick 39.
#[tactic(auto, using(crate::specs::Rows::RowProtected_internal::row_protected_internal_runs, crate::specs::Rows::RowProtected_internal::row_protected_internal_keeps, crate::specs::Rows::RowProtected_internal::row_protected_internal_releases))]
pub fn row_protected_internal()
    ensures runs { row_protected_internal_lines ≡ row_protected_internal_trace }
    ensures keeps { IsTrue row_protected_internal_worlds }
    ensures releases { IsTrue row_protected_internal_handlers }
{}

/// Row protected.raised, up to tick 62.
#[tactic(auto, using(crate::specs::Rows::RowProtected_raised::row_protected_raised_runs, crate::specs::Rows::RowProtected_raised::row_protected_raised_keeps, crate::specs::Rows::RowProtected_raised::row_protected_raised_releases))]
pub fn row_protected_raised()
    ensures runs { row_protected_raised_lines ≡ row_protected_raised_trace }
    ensures keeps { IsTrue row_protected_raised_worlds }
    ensures releases { IsTrue row_protected_raised_handlers }
{}

/// Row protected.readers, up to tick 52.
#[tactic(auto, using(crate::specs::Rows::RowProtected_readers::row_protected_readers_runs, crate::specs::Rows::RowProtected_readers::row_protected_readers_keeps, crate::specs::Rows::RowProtected_readers::row_protected_readers_releases))]
pub fn row_protected_readers()
    ensures runs { row_protected_readers_lines ≡ row_protected_readers_trace }
    ensures keeps { IsTrue row_protected_readers_worlds }
    ensures releases { IsTrue row_protected_readers_handlers }
{}

/// Row protected.undeclared, up to tick 21.
#[tactic(auto, using(crate::specs::Rows::RowProtected_undeclared::row_protected_undeclared_runs, crate::specs::Rows::RowProtected_undeclared::row_protected_undeclared_keeps, crate::specs::Rows::RowProtected_undeclared::row_protected_undeclared_releases))]
pub fn row_protected_undeclared()
    ensures runs { row_protected_undeclared_lines ≡ row_protected_undeclared_trace }
    ensures keeps { IsTrue row_protected_undeclared_worlds }
    ensures releases { IsTrue row_protected_undeclared_handlers }
{}

/// Row protected.writer, up to tick 43.
#[tactic(auto, using(crate::specs::Rows::RowProtected_writer::row_protected_writer_runs, crate::specs::Rows::RowProtected_writer::row_protected_writer_keeps, crate::specs::Rows::RowProtected_writer::row_protected_writer_releases))]
pub fn row_protected_writer()
    ensures runs { row_protected_writer_lines ≡ row_protected_writer_trace }
    ensures keeps { IsTrue row_protected_writer_worlds }
    ensures releases { IsTrue row_protected_writer_handlers }
{}

/// Row queues.best, up to tick 62.
#[tactic(auto, using(crate::specs::Rows::RowQueues_best::row_queues_best_runs, crate::specs::Rows::RowQueues_best::row_queues_best_keeps, crate::specs::Rows::RowQueues_best::row_queues_best_releases))]
pub fn row_queues_best()
    ensures runs { row_queues_best_lines ≡ row_queues_best_trace }
    ensures keeps { IsTrue row_queues_best_worlds }
    ensures releases { IsTrue row_queues_best_handlers }
{}

/// Row queues.protected, up to tick 10.
#[tactic(auto, using(crate::specs::Rows::RowQueues_protected::row_queues_protected_runs, crate::specs::Rows::RowQueues_protected::row_queues_protected_keeps, crate::specs::Rows::RowQueues_protected::row_queues_protected_releases))]
pub fn row_queues_protected()
    ensures runs { row_queues_protected_lines ≡ row_queues_protected_trace }
    ensures keeps { IsTrue row_queues_protected_worlds }
    ensures releases { IsTrue row_queues_protected_handlers }
{}

/// Row rendezvous.abort, up to tick 43.
#[tactic(auto, using(crate::specs::Rows::RowRendezvous_abort::row_rendezvous_abort_runs, crate::specs::Rows::RowRendezvous_abort::row_rendezvous_abort_keeps, crate::specs::Rows::RowRendezvous_abort::row_rendezvous_abort_releases))]
pub fn row_rendezvous_abort()
    ensures runs { row_rendezvous_abort_lines ≡ row_rendezvous_abort_trace }
    ensures keeps { IsTrue row_rendezvous_abort_worlds }
    ensures releases { IsTrue row_rendezvous_abort_handlers }
{}

/// Row rendezvous.handled, up to tick 40.
#[tactic(auto, using(crate::specs::Rows::RowRendezvous_handled::row_rendezvous_handled_runs, crate::specs::Rows::RowRendezvous_handled::row_rendezvous_handled_keeps, crate::specs::Rows::RowRendezvous_handled::row_rendezvous_handled_releases))]
pub fn row_rendezvous_handled()
    ensures runs { row_rendezvous_handled_lines ≡ row_rendezvous_handled_trace }
    ensures keeps { IsTrue row_rendezvous_handled_worlds }
    ensures releases { IsTrue row_rendezvous_handled_handlers }
{}

/// Row requeue.1, up to tick 27.
#[tactic(auto, using(crate::specs::Rows::RowRequeue_1::row_requeue_1_runs, crate::specs::Rows::RowRequeue_1::row_requeue_1_keeps, crate::specs::Rows::RowRequeue_1::row_requeue_1_releases))]
pub fn row_requeue_1()
    ensures runs { row_requeue_1_lines ≡ row_requeue_1_trace }
    ensures keeps { IsTrue row_requeue_1_worlds }
    ensures releases { IsTrue row_requeue_1_handlers }
{}

/// Row requeue.2, up to tick 22.
#[tactic(auto, using(crate::specs::Rows::RowRequeue_2::row_requeue_2_runs, crate::specs::Rows::RowRequeue_2::row_requeue_2_keeps, crate::specs::Rows::RowRequeue_2::row_requeue_2_releases))]
pub fn row_requeue_2()
    ensures runs { row_requeue_2_lines ≡ row_requeue_2_trace }
    ensures keeps { IsTrue row_requeue_2_worlds }
    ensures releases { IsTrue row_requeue_2_handlers }
{}

/// Row requeue.3, up to tick 10.
#[tactic(auto, using(crate::specs::Rows::RowRequeue_3::row_requeue_3_runs, crate::specs::Rows::RowRequeue_3::row_requeue_3_keeps, crate::specs::Rows::RowRequeue_3::row_requeue_3_releases))]
pub fn row_requeue_3()
    ensures runs { row_requeue_3_lines ≡ row_requeue_3_trace }
    ensures keeps { IsTrue row_requeue_3_worlds }
    ensures releases { IsTrue row_requeue_3_handlers }
{}

/// Row requeue.dropped, up to tick 50.
#[tactic(auto, using(crate::specs::Rows::RowRequeue_dropped::row_requeue_dropped_runs, crate::specs::Rows::RowRequeue_dropped::row_requeue_dropped_keeps, crate::specs::Rows::RowRequeue_dropped::row_requeue_dropped_releases))]
pub fn row_requeue_dropped()
    ensures runs { row_requeue_dropped_lines ≡ row_requeue_dropped_trace }
    ensures keeps { IsTrue row_requeue_dropped_worlds }
    ensures releases { IsTrue row_requeue_dropped_handlers }
{}

/// Row requeue.ever, up to tick 16.
#[tactic(auto, using(crate::specs::Rows::RowRequeue_ever::row_requeue_ever_runs, crate::specs::Rows::RowRequeue_ever::row_requeue_ever_keeps, crate::specs::Rows::RowRequeue_ever::row_requeue_ever_releases))]
pub fn row_requeue_ever()
    ensures runs { row_requeue_ever_lines ≡ row_requeue_ever_trace }
    ensures keeps { IsTrue row_requeue_ever_worlds }
    ensures releases { IsTrue row_requeue_ever_handlers }
{}

/// Row requeue.firm, up to tick 39.
#[tactic(auto, using(crate::specs::Rows::RowRequeue_firm::row_requeue_firm_runs, crate::specs::Rows::RowRequeue_firm::row_requeue_firm_keeps, crate::specs::Rows::RowRequeue_firm::row_requeue_firm_releases))]
pub fn row_requeue_firm()
    ensures runs { row_requeue_firm_lines ≡ row_requeue_firm_trace }
    ensures keeps { IsTrue row_requeue_firm_worlds }
    ensures releases { IsTrue row_requeue_firm_handlers }
{}

/// Row requeue.kinds, up to tick 45.
#[tactic(auto, using(crate::specs::Rows::RowRequeue_kinds::row_requeue_kinds_runs, crate::specs::Rows::RowRequeue_kinds::row_requeue_kinds_keeps, crate::specs::Rows::RowRequeue_kinds::row_requeue_kinds_releases))]
pub fn row_requeue_kinds()
    ensures runs { row_requeue_kinds_lines ≡ row_requeue_kinds_trace }
    ensures keeps { IsTrue row_requeue_kinds_worlds }
    ensures releases { IsTrue row_requeue_kinds_handlers }
{}

/// Row requeue.late, up to tick 48.
#[tactic(auto, using(crate::specs::Rows::RowRequeue_late::row_requeue_late_runs, crate::specs::Rows::RowRequeue_late::row_requeue_late_keeps, crate::specs::Rows::RowRequeue_late::row_requeue_late_releases))]
pub fn row_requeue_late()
    ensures runs { row_requeue_late_lines ≡ row_requeue_late_trace }
    ensures keeps { IsTrue row_requeue_late_worlds }
    ensures releases { IsTrue row_requeue_late_handlers }
{}

/// Row requeue.meets, up to tick 56.
#[tactic(auto, using(crate::specs::Rows::RowRequeue_meets::row_requeue_meets_runs, crate::specs::Rows::RowRequeue_meets::row_requeue_meets_keeps, crate::specs::Rows::RowRequeue_meets::row_requeue_meets_releases))]
pub fn row_requeue_meets()
    ensures runs { row_requeue_meets_lines ≡ row_requeue_meets_trace }
    ensures keeps { IsTrue row_requeue_meets_worlds }
    ensures releases { IsTrue row_requeue_meets_handlers }
{}

/// Row requeue.own, up to tick 32.
#[tactic(auto, using(crate::specs::Rows::RowRequeue_own::row_requeue_own_runs, crate::specs::Rows::RowRequeue_own::row_requeue_own_keeps, crate::specs::Rows::RowRequeue_own::row_requeue_own_releases))]
pub fn row_requeue_own()
    ensures runs { row_requeue_own_lines ≡ row_requeue_own_trace }
    ensures keeps { IsTrue row_requeue_own_worlds }
    ensures releases { IsTrue row_requeue_own_handlers }
{}

/// Row requeue.parameters, up to tick 19.
#[tactic(auto, using(crate::specs::Rows::RowRequeue_parameters::row_requeue_parameters_runs, crate::specs::Rows::RowRequeue_parameters::row_requeue_parameters_keeps, crate::specs::Rows::RowRequeue_parameters::row_requeue_parameters_releases))]
pub fn row_requeue_parameters()
    ensures runs { row_requeue_parameters_lines ≡ row_requeue_parameters_trace }
    ensures keeps { IsTrue row_requeue_parameters_worlds }
    ensures releases { IsTrue row_requeue_parameters_handlers }
{}

/// Row requeue.raised, up to tick 25.
#[tactic(auto, using(crate::specs::Rows::RowRequeue_raised::row_requeue_raised_runs, crate::specs::Rows::RowRequeue_raised::row_requeue_raised_keeps, crate::specs::Rows::RowRequeue_raised::row_requeue_raised_releases))]
pub fn row_requeue_raised()
    ensures runs { row_requeue_raised_lines ≡ row_requeue_raised_trace }
    ensures keeps { IsTrue row_requeue_raised_worlds }
    ensures releases { IsTrue row_requeue_raised_handlers }
{}

/// Row requeue.triggers, up to tick 172.
#[tactic(auto, using(crate::specs::Rows::RowRequeue_triggers::row_requeue_triggers_runs, crate::specs::Rows::RowRequeue_triggers::row_requeue_triggers_keeps, crate::specs::Rows::RowRequeue_triggers::row_requeue_triggers_releases))]
pub fn row_requeue_triggers()
    ensures runs { row_requeue_triggers_lines ≡ row_requeue_triggers_trace }
    ensures keeps { IsTrue row_requeue_triggers_worlds }
    ensures releases { IsTrue row_requeue_triggers_handlers }
{}

/// Row requeue.unwound, up to tick 26.
#[tactic(auto, using(crate::specs::Rows::RowRequeue_unwound::row_requeue_unwound_runs, crate::specs::Rows::RowRequeue_unwound::row_requeue_unwound_keeps, crate::specs::Rows::RowRequeue_unwound::row_requeue_unwound_releases))]
pub fn row_requeue_unwound()
    ensures runs { row_requeue_unwound_lines ≡ row_requeue_unwound_trace }
    ensures keeps { IsTrue row_requeue_unwound_worlds }
    ensures releases { IsTrue row_requeue_unwound_handlers }
{}

/// Row select.ended, up to tick 41.
#[tactic(auto, using(crate::specs::Rows::RowSelect_ended::row_select_ended_runs, crate::specs::Rows::RowSelect_ended::row_select_ended_keeps, crate::specs::Rows::RowSelect_ended::row_select_ended_releases))]
pub fn row_select_ended()
    ensures runs { row_select_ended_lines ≡ row_select_ended_trace }
    ensures keeps { IsTrue row_select_ended_worlds }
    ensures releases { IsTrue row_select_ended_handlers }
{}

/// Row select.left, up to tick 43.
#[tactic(auto, using(crate::specs::Rows::RowSelect_left::row_select_left_runs, crate::specs::Rows::RowSelect_left::row_select_left_keeps, crate::specs::Rows::RowSelect_left::row_select_left_releases))]
pub fn row_select_left()
    ensures runs { row_select_left_lines ≡ row_select_left_trace }
    ensures keeps { IsTrue row_select_left_worlds }
    ensures releases { IsTrue row_select_left_handlers }
{}

/// Row select.moments, up to tick 40.
#[tactic(auto, using(crate::specs::Rows::RowSelect_moments::row_select_moments_runs, crate::specs::Rows::RowSelect_moments::row_select_moments_keeps, crate::specs::Rows::RowSelect_moments::row_select_moments_releases))]
pub fn row_select_moments()
    ensures runs { row_select_moments_lines ≡ row_select_moments_trace }
    ensures keeps { IsTrue row_select_moments_worlds }
    ensures releases { IsTrue row_select_moments_handlers }
{}

/// Row select.outer, up to tick 44.
#[tactic(auto, using(crate::specs::Rows::RowSelect_outer::row_select_outer_runs, crate::specs::Rows::RowSelect_outer::row_select_outer_keeps, crate::specs::Rows::RowSelect_outer::row_select_outer_releases))]
pub fn row_select_outer()
    ensures runs { row_select_outer_lines ≡ row_select_outer_trace }
    ensures keeps { IsTrue row_select_outer_worlds }
    ensures releases { IsTrue row_select_outer_handlers }
{}

/// Row select.own, up to tick 19.
#[tactic(auto, using(crate::specs::Rows::RowSelect_own::row_select_own_runs, crate::specs::Rows::RowSelect_own::row_select_own_keeps, crate::specs::Rows::RowSelect_own::row_select_own_releases))]
pub fn row_select_own()
    ensures runs { row_select_own_lines ≡ row_select_own_trace }
    ensures keeps { IsTrue row_select_own_worlds }
    ensures releases { IsTrue row_select_own_handlers }
{}

/// Row select.past, up to tick 43.
#[tactic(auto, using(crate::specs::Rows::RowSelect_past::row_select_past_runs, crate::specs::Rows::RowSelect_past::row_select_past_keeps, crate::specs::Rows::RowSelect_past::row_select_past_releases))]
pub fn row_select_past()
    ensures runs { row_select_past_lines ≡ row_select_past_trace }
    ensures keeps { IsTrue row_select_past_worlds }
    ensures releases { IsTrue row_select_past_handlers }
{}

/// Row select.raised, up to tick 36.
#[tactic(auto, using(crate::specs::Rows::RowSelect_raised::row_select_raised_runs, crate::specs::Rows::RowSelect_raised::row_select_raised_keeps, crate::specs::Rows::RowSelect_raised::row_select_raised_releases))]
pub fn row_select_raised()
    ensures runs { row_select_raised_lines ≡ row_select_raised_trace }
    ensures keeps { IsTrue row_select_raised_worlds }
    ensures releases { IsTrue row_select_raised_handlers }
{}

/// Row select.wait, up to tick 37.
#[tactic(auto, using(crate::specs::Rows::RowSelect_wait::row_select_wait_runs, crate::specs::Rows::RowSelect_wait::row_select_wait_keeps, crate::specs::Rows::RowSelect_wait::row_select_wait_releases))]
pub fn row_select_wait()
    ensures runs { row_select_wait_lines ≡ row_select_wait_trace }
    ensures keeps { IsTrue row_select_wait_worlds }
    ensures releases { IsTrue row_select_wait_handlers }
{}

/// Row sequences.activation, up to tick 9.
#[tactic(auto, using(crate::specs::Rows::RowSequences_activation::row_sequences_activation_runs, crate::specs::Rows::RowSequences_activation::row_sequences_activation_keeps, crate::specs::Rows::RowSequences_activation::row_sequences_activation_releases))]
pub fn row_sequences_activation()
    ensures runs { row_sequences_activation_lines ≡ row_sequences_activation_trace }
    ensures keeps { IsTrue row_sequences_activation_worlds }
    ensures releases { IsTrue row_sequences_activation_handlers }
{}

/// Row sequences.call, up to tick 23.
#[tactic(auto, using(crate::specs::Rows::RowSequences_call::row_sequences_call_runs, crate::specs::Rows::RowSequences_call::row_sequences_call_keeps, crate::specs::Rows::RowSequences_call::row_sequences_call_releases))]
pub fn row_sequences_call()
    ensures runs { row_sequences_call_lines ≡ row_sequences_call_trace }
    ensures keeps { IsTrue row_sequences_call_worlds }
    ensures releases { IsTrue row_sequences_call_handlers }
{}

/// Row sequences.opening, up to tick 16.
#[tactic(auto, using(crate::specs::Rows::RowSequences_opening::row_sequences_opening_runs, crate::specs::Rows::RowSequences_opening::row_sequences_opening_keeps, crate::specs::Rows::RowSequences_opening::row_sequences_opening_releases))]
pub fn row_sequences_opening()
    ensures runs { row_sequences_opening_lines ≡ row_sequences_opening_trace }
    ensures keeps { IsTrue row_sequences_opening_worlds }
    ensures releases { IsTrue row_sequences_opening_handlers }
{}

/// Row sequences.trigger, up to tick 45.
#[tactic(auto, using(crate::specs::Rows::RowSequences_trigger::row_sequences_trigger_runs, crate::specs::Rows::RowSequences_trigger::row_sequences_trigger_keeps, crate::specs::Rows::RowSequences_trigger::row_sequences_trigger_releases))]
pub fn row_sequences_trigger()
    ensures runs { row_sequences_trigger_lines ≡ row_sequences_trigger_trace }
    ensures keeps { IsTrue row_sequences_trigger_worlds }
    ensures releases { IsTrue row_sequences_trigger_handlers }
{}
