//! Worked rows of what a task does by itself: values, statements, subprograms, exceptions and controlled objects.
ghost use Rattle.std.specs.Prelude.{◌≡◌, IsTrue};
ghost use Rattle.machine_rows.specs.Rows.RowAdjust_1.{row_adjust_1_lines, row_adjust_1_trace, row_adjust_1_worlds, row_adjust_1_handlers};
ghost use Rattle.machine_rows.specs.Rows.RowAdjust_2.{row_adjust_2_lines, row_adjust_2_trace, row_adjust_2_worlds, row_adjust_2_handlers};
ghost use Rattle.machine_rows.specs.Rows.RowBodies_left.{row_bodies_left_lines, row_bodies_left_trace, row_bodies_left_worlds, row_bodies_left_handlers};
ghost use Rattle.machine_rows.specs.Rows.RowControlled_1.{row_controlled_1_lines, row_controlled_1_trace, row_controlled_1_worlds, row_controlled_1_handlers};
ghost use Rattle.machine_rows.specs.Rows.RowControlled_assign.{row_controlled_assign_lines, row_controlled_assign_trace, row_controlled_assign_worlds, row_controlled_assign_handlers};
ghost use Rattle.machine_rows.specs.Rows.RowControlled_beside.{row_controlled_beside_lines, row_controlled_beside_trace, row_controlled_beside_worlds, row_controlled_beside_handlers};
ghost use Rattle.machine_rows.specs.Rows.RowControlled_dropped.{row_controlled_dropped_lines, row_controlled_dropped_trace, row_controlled_dropped_worlds, row_controlled_dropped_handlers};
ghost use Rattle.machine_rows.specs.Rows.RowControlled_initialize.{row_controlled_initialize_lines, row_controlled_initialize_trace, row_controlled_initialize_worlds, row_controlled_initialize_handlers};
ghost use Rattle.machine_rows.specs.Rows.RowControlled_named.{row_controlled_named_lines, row_controlled_named_trace, row_controlled_named_worlds, row_controlled_named_handlers};
ghost use Rattle.machine_rows.specs.Rows.RowExceptions_named.{row_exceptions_named_lines, row_exceptions_named_trace, row_exceptions_named_worlds, row_exceptions_named_handlers};
ghost use Rattle.machine_rows.specs.Rows.RowExceptions_raised.{row_exceptions_raised_lines, row_exceptions_raised_trace, row_exceptions_raised_worlds, row_exceptions_raised_handlers};
ghost use Rattle.machine_rows.specs.Rows.RowLoops_kinds.{row_loops_kinds_lines, row_loops_kinds_trace, row_loops_kinds_worlds, row_loops_kinds_handlers};
ghost use Rattle.machine_rows.specs.Rows.RowRoom_accept.{row_room_accept_lines, row_room_accept_trace, row_room_accept_worlds, row_room_accept_handlers};
ghost use Rattle.machine_rows.specs.Rows.RowRoom_activation.{row_room_activation_lines, row_room_activation_trace, row_room_activation_worlds, row_room_activation_handlers};
ghost use Rattle.machine_rows.specs.Rows.RowRoom_adjust.{row_room_adjust_lines, row_room_adjust_trace, row_room_adjust_worlds, row_room_adjust_handlers};
ghost use Rattle.machine_rows.specs.Rows.RowRoom_bodies.{row_room_bodies_lines, row_room_bodies_trace, row_room_bodies_worlds, row_room_bodies_handlers};
ghost use Rattle.machine_rows.specs.Rows.RowRoom_handled.{row_room_handled_lines, row_room_handled_trace};
ghost use Rattle.machine_rows.specs.Rows.RowRoom_operations.{row_room_operations_lines, row_room_operations_trace, row_room_operations_worlds, row_room_operations_handlers};
ghost use Rattle.machine_rows.specs.Rows.RowScopes_exits.{row_scopes_exits_lines, row_scopes_exits_trace, row_scopes_exits_worlds, row_scopes_exits_handlers};
ghost use Rattle.machine_rows.specs.Rows.RowValues_bounds.{row_values_bounds_lines, row_values_bounds_trace, row_values_bounds_worlds, row_values_bounds_handlers};
ghost use Rattle.machine_rows.specs.Rows.RowValues_case.{row_values_case_lines, row_values_case_trace, row_values_case_worlds, row_values_case_handlers};
ghost use Rattle.machine_rows.specs.Rows.RowValues_comparisons.{row_values_comparisons_lines, row_values_comparisons_trace, row_values_comparisons_worlds, row_values_comparisons_handlers};
ghost use Rattle.machine_rows.specs.Rows.RowValues_defaults.{row_values_defaults_lines, row_values_defaults_trace, row_values_defaults_worlds, row_values_defaults_handlers};
ghost use Rattle.machine_rows.specs.Rows.RowValues_edges.{row_values_edges_lines, row_values_edges_trace, row_values_edges_worlds, row_values_edges_handlers};
ghost use Rattle.machine_rows.specs.Rows.RowValues_fall_through.{row_values_fall_through_lines, row_values_fall_through_trace, row_values_fall_through_worlds, row_values_fall_through_handlers};
ghost use Rattle.machine_rows.specs.Rows.RowValues_functions.{row_values_functions_lines, row_values_functions_trace, row_values_functions_worlds, row_values_functions_handlers};
ghost use Rattle.machine_rows.specs.Rows.RowValues_operators.{row_values_operators_lines, row_values_operators_trace, row_values_operators_worlds, row_values_operators_handlers};
ghost use Rattle.machine_rows.specs.Rows.RowValues_overflow.{row_values_overflow_lines, row_values_overflow_trace, row_values_overflow_worlds, row_values_overflow_handlers};
ghost use Rattle.machine_rows.specs.Rows.RowValues_ranges.{row_values_ranges_lines, row_values_ranges_trace, row_values_ranges_worlds, row_values_ranges_handlers};

/// Row adjust.1, up to tick 41.
#[tactic(auto, using(crate::specs::Rows::RowAdjust_1::row_adjust_1_runs, crate::specs::Rows::RowAdjust_1::row_adjust_1_keeps, crate::specs::Rows::RowAdjust_1::row_adjust_1_releases))]
pub fn row_adjust_1()
    ensures runs { row_adjust_1_lines ≡ row_adjust_1_trace }
    ensures keeps { IsTrue row_adjust_1_worlds }
    ensures releases { IsTrue row_adjust_1_handlers }
{}

/// Row adjust.2, up to tick 38.
#[tactic(auto, using(crate::specs::Rows::RowAdjust_2::row_adjust_2_runs, crate::specs::Rows::RowAdjust_2::row_adjust_2_keeps, crate::specs::Rows::RowAdjust_2::row_adjust_2_releases))]
pub fn row_adjust_2()
    ensures runs { row_adjust_2_lines ≡ row_adjust_2_trace }
    ensures keeps { IsTrue row_adjust_2_worlds }
    ensures releases { IsTrue row_adjust_2_handlers }
{}

/// Row bodies.left, up to tick 57.
#[tactic(auto, using(crate::specs::Rows::RowBodies_left::row_bodies_left_runs, crate::specs::Rows::RowBodies_left::row_bodies_left_keeps, crate::specs::Rows::RowBodies_left::row_bodies_left_releases))]
pub fn row_bodies_left()
    ensures runs { row_bodies_left_lines ≡ row_bodies_left_trace }
    ensures keeps { IsTrue row_bodies_left_worlds }
    ensures releases { IsTrue row_bodies_left_handlers }
{}

/// Row controlled.1, up to tick 23.
#[tactic(auto, using(crate::specs::Rows::RowControlled_1::row_controlled_1_runs, crate::specs::Rows::RowControlled_1::row_controlled_1_keeps, crate::specs::Rows::RowControlled_1::row_controlled_1_releases))]
pub fn row_controlled_1()
    ensures runs { row_controlled_1_lines ≡ row_controlled_1_trace }
    ensures keeps { IsTrue row_controlled_1_worlds }
    ensures releases { IsTrue row_controlled_1_handlers }
{}

/// Row controlled.assign, up to tick 57.
#[tactic(auto, using(crate::specs::Rows::RowControlled_assign::row_controlled_assign_runs, crate::specs::Rows::RowControlled_assign::row_controlled_assign_keeps, crate::specs::Rows::RowControlled_assign::row_controlled_assign_releases))]
pub fn row_controlled_assign()
    ensures runs { row_controlled_assign_lines ≡ row_controlled_assign_trace }
    ensures keeps { IsTrue row_controlled_assign_worlds }
    ensures releases { IsTrue row_controlled_assign_handlers }
{}

/// Row controlled.beside, up to tick 40.
#[tactic(auto, using(crate::specs::Rows::RowControlled_beside::row_controlled_beside_runs, crate::specs::Rows::RowControlled_beside::row_controlled_beside_keeps, crate::specs::Rows::RowControlled_beside::row_controlled_beside_releases))]
pub fn row_controlled_beside()
    ensures runs { row_controlled_beside_lines ≡ row_controlled_beside_trace }
    ensures keeps { IsTrue row_controlled_beside_worlds }
    ensures releases { IsTrue row_controlled_beside_handlers }
{}

/// Row controlled.dropped, up to tick 39.
#[tactic(auto, using(crate::specs::Rows::RowControlled_dropped::row_controlled_dropped_runs, crate::specs::Rows::RowControlled_dropped::row_controlled_dropped_keeps, crate::specs::Rows::RowControlled_dropped::row_controlled_dropped_releases))]
pub fn row_controlled_dropped()
    ensures runs { row_controlled_dropped_lines ≡ row_controlled_dropped_trace }
    ensures keeps { IsTrue row_controlled_dropped_worlds }
    ensures releases { IsTrue row_controlled_dropped_handlers }
{}

/// Row controlled.initialize, up to tick 31.
#[tactic(auto, using(crate::specs::Rows::RowControlled_initialize::row_controlled_initialize_runs, crate::specs::Rows::RowControlled_initialize::row_controlled_initialize_keeps, crate::specs::Rows::RowControlled_initialize::row_controlled_initialize_releases))]
pub fn row_controlled_initialize()
    ensures runs { row_controlled_initialize_lines ≡ row_controlled_initialize_trace }
    ensures keeps { IsTrue row_controlled_initialize_worlds }
    ensures releases { IsTrue row_controlled_initialize_handlers }
{}

/// Row controlled.named, up to tick 61.
#[tactic(auto, using(crate::specs::Rows::RowControlled_named::row_controlled_named_runs, crate::specs::Rows::RowControlled_named::row_controlled_named_keeps, crate::specs::Rows::RowControlled_named::row_controlled_named_releases))]
pub fn row_controlled_named()
    ensures runs { row_controlled_named_lines ≡ row_controlled_named_trace }
    ensures keeps { IsTrue row_controlled_named_worlds }
    ensures releases { IsTrue row_controlled_named_handlers }
{}

/// Row exceptions.named, up to tick 37.
#[tactic(auto, using(crate::specs::Rows::RowExceptions_named::row_exceptions_named_runs, crate::specs::Rows::RowExceptions_named::row_exceptions_named_keeps, crate::specs::Rows::RowExceptions_named::row_exceptions_named_releases))]
pub fn row_exceptions_named()
    ensures runs { row_exceptions_named_lines ≡ row_exceptions_named_trace }
    ensures keeps { IsTrue row_exceptions_named_worlds }
    ensures releases { IsTrue row_exceptions_named_handlers }
{}

/// Row exceptions.raised, up to tick 33.
#[tactic(auto, using(crate::specs::Rows::RowExceptions_raised::row_exceptions_raised_runs, crate::specs::Rows::RowExceptions_raised::row_exceptions_raised_keeps, crate::specs::Rows::RowExceptions_raised::row_exceptions_raised_releases))]
pub fn row_exceptions_raised()
    ensures runs { row_exceptions_raised_lines ≡ row_exceptions_raised_trace }
    ensures keeps { IsTrue row_exceptions_raised_worlds }
    ensures releases { IsTrue row_exceptions_raised_handlers }
{}

/// Row loops.kinds, up to tick 53.
#[tactic(auto, using(crate::specs::Rows::RowLoops_kinds::row_loops_kinds_runs, crate::specs::Rows::RowLoops_kinds::row_loops_kinds_keeps, crate::specs::Rows::RowLoops_kinds::row_loops_kinds_releases))]
pub fn row_loops_kinds()
    ensures runs { row_loops_kinds_lines ≡ row_loops_kinds_trace }
    ensures keeps { IsTrue row_loops_kinds_worlds }
    ensures releases { IsTrue row_loops_kinds_handlers }
{}

/// Row room.accept, up to tick 37.
#[tactic(auto, using(crate::specs::Rows::RowRoom_accept::row_room_accept_runs, crate::specs::Rows::RowRoom_accept::row_room_accept_keeps, crate::specs::Rows::RowRoom_accept::row_room_accept_releases))]
pub fn row_room_accept()
    ensures runs { row_room_accept_lines ≡ row_room_accept_trace }
    ensures keeps { IsTrue row_room_accept_worlds }
    ensures releases { IsTrue row_room_accept_handlers }
{}

/// Row room.activation, up to tick 12.
#[tactic(auto, using(crate::specs::Rows::RowRoom_activation::row_room_activation_runs, crate::specs::Rows::RowRoom_activation::row_room_activation_keeps, crate::specs::Rows::RowRoom_activation::row_room_activation_releases))]
pub fn row_room_activation()
    ensures runs { row_room_activation_lines ≡ row_room_activation_trace }
    ensures keeps { IsTrue row_room_activation_worlds }
    ensures releases { IsTrue row_room_activation_handlers }
{}

/// Row room.adjust, up to tick 25.
#[tactic(auto, using(crate::specs::Rows::RowRoom_adjust::row_room_adjust_runs, crate::specs::Rows::RowRoom_adjust::row_room_adjust_keeps, crate::specs::Rows::RowRoom_adjust::row_room_adjust_releases))]
pub fn row_room_adjust()
    ensures runs { row_room_adjust_lines ≡ row_room_adjust_trace }
    ensures keeps { IsTrue row_room_adjust_worlds }
    ensures releases { IsTrue row_room_adjust_handlers }
{}

/// Row room.bodies, up to tick 32.
#[tactic(auto, using(crate::specs::Rows::RowRoom_bodies::row_room_bodies_runs, crate::specs::Rows::RowRoom_bodies::row_room_bodies_keeps, crate::specs::Rows::RowRoom_bodies::row_room_bodies_releases))]
pub fn row_room_bodies()
    ensures runs { row_room_bodies_lines ≡ row_room_bodies_trace }
    ensures keeps { IsTrue row_room_bodies_worlds }
    ensures releases { IsTrue row_room_bodies_handlers }
{}

/// Row room.handled, up to tick 521.
#[tactic(auto, using(crate::specs::Rows::RowRoom_handled::row_room_handled_runs))]
pub fn row_room_handled()
    ensures { row_room_handled_lines ≡ row_room_handled_trace }
{}

/// Row room.operations, up to tick 33.
#[tactic(auto, using(crate::specs::Rows::RowRoom_operations::row_room_operations_runs, crate::specs::Rows::RowRoom_operations::row_room_operations_keeps, crate::specs::Rows::RowRoom_operations::row_room_operations_releases))]
pub fn row_room_operations()
    ensures runs { row_room_operations_lines ≡ row_room_operations_trace }
    ensures keeps { IsTrue row_room_operations_worlds }
    ensures releases { IsTrue row_room_operations_handlers }
{}

/// Row scopes.exits, up to tick 94.
#[tactic(auto, using(crate::specs::Rows::RowScopes_exits::row_scopes_exits_runs, crate::specs::Rows::RowScopes_exits::row_scopes_exits_keeps, crate::specs::Rows::RowScopes_exits::row_scopes_exits_releases))]
pub fn row_scopes_exits()
    ensures runs { row_scopes_exits_lines ≡ row_scopes_exits_trace }
    ensures keeps { IsTrue row_scopes_exits_worlds }
    ensures releases { IsTrue row_scopes_exits_handlers }
{}

/// Row values.bounds, up to tick 21.
#[tactic(auto, using(crate::specs::Rows::RowValues_bounds::row_values_bounds_runs, crate::specs::Rows::RowValues_bounds::row_values_bounds_keeps, crate::specs::Rows::RowValues_bounds::row_values_bounds_releases))]
pub fn row_values_bounds()
    ensures runs { row_values_bounds_lines ≡ row_values_bounds_trace }
    ensures keeps { IsTrue row_values_bounds_worlds }
    ensures releases { IsTrue row_values_bounds_handlers }
{}

/// Row values.case, up to tick 23.
#[tactic(auto, using(crate::specs::Rows::RowValues_case::row_values_case_runs, crate::specs::Rows::RowValues_case::row_values_case_keeps, crate::specs::Rows::RowValues_case::row_values_case_releases))]
pub fn row_values_case()
    ensures runs { row_values_case_lines ≡ row_values_case_trace }
    ensures keeps { IsTrue row_values_case_worlds }
    ensures releases { IsTrue row_values_case_handlers }
{}

/// Row values.comparisons, up to tick 59.
#[tactic(auto, using(crate::specs::Rows::RowValues_comparisons::row_values_comparisons_runs, crate::specs::Rows::RowValues_comparisons::row_values_comparisons_keeps, crate::specs::Rows::RowValues_comparisons::row_values_comparisons_releases))]
pub fn row_values_comparisons()
    ensures runs { row_values_comparisons_lines ≡ row_values_comparisons_trace }
    ensures keeps { IsTrue row_values_comparisons_worlds }
    ensures releases { IsTrue row_values_comparisons_handlers }
{}

/// Row values.defaults, up to tick 15.
#[tactic(auto, using(crate::specs::Rows::RowValues_defaults::row_values_defaults_runs, crate::specs::Rows::RowValues_defaults::row_values_defaults_keeps, crate::specs::Rows::RowValues_defaults::row_values_defaults_releases))]
pub fn row_values_defaults()
    ensures runs { row_values_defaults_lines ≡ row_values_defaults_trace }
    ensures keeps { IsTrue row_values_defaults_worlds }
    ensures releases { IsTrue row_values_defaults_handlers }
{}

/// Row values.edges, up to tick 40.
#[tactic(auto, using(crate::specs::Rows::RowValues_edges::row_values_edges_runs, crate::specs::Rows::RowValues_edges::row_values_edges_keeps, crate::specs::Rows::RowValues_edges::row_values_edges_releases))]
pub fn row_values_edges()
    ensures runs { row_values_edges_lines ≡ row_values_edges_trace }
    ensures keeps { IsTrue row_values_edges_worlds }
    ensures releases { IsTrue row_values_edges_handlers }
{}

/// Row values.fall_through, up to tick 34.
#[tactic(auto, using(crate::specs::Rows::RowValues_fall_through::row_values_fall_through_runs, crate::specs::Rows::RowValues_fall_through::row_values_fall_through_keeps, crate::specs::Rows::RowValues_fall_through::row_values_fall_through_releases))]
pub fn row_values_fall_through()
    ensures runs { row_values_fall_through_lines ≡ row_values_fall_through_trace }
    ensures keeps { IsTrue row_values_fall_through_worlds }
    ensures releases { IsTrue row_values_fall_through_handlers }
{}

/// Row values.functions, up to tick 243.
#[tactic(auto, using(crate::specs::Rows::RowValues_functions::row_values_functions_runs, crate::specs::Rows::RowValues_functions::row_values_functions_keeps, crate::specs::Rows::RowValues_functions::row_values_functions_releases))]
pub fn row_values_functions()
    ensures runs { row_values_functions_lines ≡ row_values_functions_trace }
    ensures keeps { IsTrue row_values_functions_worlds }
    ensures releases { IsTrue row_values_functions_handlers }
{}

/// Row values.operators, up to tick 56.
#[tactic(auto, using(crate::specs::Rows::RowValues_operators::row_values_operators_runs, crate::specs::Rows::RowValues_operators::row_values_operators_keeps, crate::specs::Rows::RowValues_operators::row_values_operators_releases))]
pub fn row_values_operators()
    ensures runs { row_values_operators_lines ≡ row_values_operators_trace }
    ensures keeps { IsTrue row_values_operators_worlds }
    ensures releases { IsTrue row_values_operators_handlers }
{}

/// Row values.overflow, up to tick 50.
#[tactic(auto, using(crate::specs::Rows::RowValues_overflow::row_values_overflow_runs, crate::specs::Rows::RowValues_overflow::row_values_overflow_keeps, crate::specs::Rows::RowValues_overflow::row_values_overflow_releases))]
pub fn row_values_overflow()
    ensures runs { row_values_overflow_lines ≡ row_values_overflow_trace }
    ensures keeps { IsTrue row_values_overflow_worlds }
    ensures releases { IsTrue row_values_overflow_handlers }
{}

/// Row values.ranges, up to tick 45.
#[tactic(auto, using(crate::specs::Rows::RowValues_ranges::row_values_ranges_runs, crate::specs::Rows::RowValues_ranges::row_values_ranges_keeps, crate::specs::Rows::RowValues_ranges::row_values_ranges_releases))]
pub fn row_values_ranges()
    ensures runs { row_values_ranges_lines ≡ row_values_ranges_trace }
    ensures keeps { IsTrue row_values_ranges_worlds }
    ensures releases { IsTrue row_values_ranges_handlers }
{}
