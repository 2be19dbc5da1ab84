//! What the pragmas of a source forbid or limit (ISO/IEC 8652:2012, 13.12, D.2.6, D.7).
ghost use Rattle.std.specs.Prelude.{◌≡◌, codes, IfOk};
ghost use Rattle.ada_legality.specs.InForce.{in_force_by, in_force_with, is_given};
ghost use Rattle.ada_legality.specs.InForce.{least_limit_in, restriction_arguments};

use crate::deadlines::deadline_ranges_of;
use crate::restrictions::{has_longest, is_given, least_limit_in};
use ada_legality::{InForce, Number};
use ada_tree::Pragma;
use ann_base::NoMemory;
use std::alloc::Global;

/// Whether No_Task_Hierarchy is given.
fn no_task_hierarchy(pragmas: &[Pragma]) -> bool
    ensures { result ≡ is_given (restriction_arguments pragmas.now) (codes "no_task_hierarchy") }
{
    is_given(pragmas, b"no_task_hierarchy".as_slice())
}

/// Whether No_Abort_Statements is given.
fn no_abort_statements(pragmas: &[Pragma]) -> bool
    ensures { result ≡ is_given (restriction_arguments pragmas.now) (codes "no_abort_statements") }
{
    is_given(pragmas, b"no_abort_statements".as_slice())
}

/// Whether No_Dynamic_Priorities is given.
fn no_dynamic_priorities(pragmas: &[Pragma]) -> bool
    ensures { result
        ≡ is_given (restriction_arguments pragmas.now) (codes "no_dynamic_priorities") }
{
    is_given(pragmas, b"no_dynamic_priorities".as_slice())
}

/// Whether No_Relative_Delay is given.
fn no_relative_delay(pragmas: &[Pragma]) -> bool
    ensures { result ≡ is_given (restriction_arguments pragmas.now) (codes "no_relative_delay") }
{
    is_given(pragmas, b"no_relative_delay".as_slice())
}

/// Whether No_Select_Statements is given.
fn no_select_statements(pragmas: &[Pragma]) -> bool
    ensures { result ≡ is_given (restriction_arguments pragmas.now) (codes "no_select_statements") }
{
    is_given(pragmas, b"no_select_statements".as_slice())
}

/// Whether No_Terminate_Alternatives is given.
fn no_terminate_alternatives(pragmas: &[Pragma]) -> bool
    ensures { result
        ≡ is_given (restriction_arguments pragmas.now) (codes "no_terminate_alternatives") }
{
    is_given(pragmas, b"no_terminate_alternatives".as_slice())
}

/// Whether Simple_Barriers is given.
fn simple_barriers(pragmas: &[Pragma]) -> bool
    ensures { result ≡ is_given (restriction_arguments pragmas.now) (codes "simple_barriers") }
{
    is_given(pragmas, b"simple_barriers".as_slice())
}

/// The least Max_Task_Entries that is given.
fn max_task_entries(pragmas: &[Pragma]) -> Result<Option<Number>, NoMemory>
    ensures { IfOk result
        (λ least.
        least ≡ least_limit_in (codes "max_task_entries") (restriction_arguments pragmas.now)) }
{
    least_limit_in(pragmas, b"max_task_entries".as_slice())
}

/// The least Max_Protected_Entries that is given.
fn max_protected_entries(pragmas: &[Pragma]) -> Result<Option<Number>, NoMemory>
    ensures { IfOk result
        (λ least.
        least
        ≡ least_limit_in (codes "max_protected_entries") (restriction_arguments pragmas.now)) }
{
    least_limit_in(pragmas, b"max_protected_entries".as_slice())
}

/// The least Max_Select_Alternatives that is given.
fn max_select_alternatives(pragmas: &[Pragma]) -> Result<Option<Number>, NoMemory>
    ensures { IfOk result
        (λ least.
        least
        ≡ least_limit_in (codes "max_select_alternatives") (restriction_arguments pragmas.now)) }
{
    least_limit_in(pragmas, b"max_select_alternatives".as_slice())
}

/// What the restrictions of these pragmas forbid or limit.
#[tactic(auto, unfolding(ada_legality::specs::InForce::in_force_with))]
fn in_force_with(
    pragmas: &[Pragma],
    has_longest_queue: bool,
    has_deadlines: bool,
) -> Result<InForce, NoMemory>
    ensures { IfOk result
        (λ force.
        force ≡ in_force_with (restriction_arguments pragmas.now) has_longest_queue has_deadlines) }
{
    let max_task_entries = max_task_entries(pragmas)?;
    let max_protected_entries = max_protected_entries(pragmas)?;
    let max_select_alternatives = max_select_alternatives(pragmas)?;
    Ok(InForce {
        no_task_hierarchy: no_task_hierarchy(pragmas),
        no_abort_statements: no_abort_statements(pragmas),
        no_dynamic_priorities: no_dynamic_priorities(pragmas),
        no_relative_delay: no_relative_delay(pragmas),
        no_select_statements: no_select_statements(pragmas),
        no_terminate_alternatives: no_terminate_alternatives(pragmas),
        simple_barriers: simple_barriers(pragmas),
        max_task_entries,
        max_protected_entries,
        max_select_alternatives,
        has_longest_queue,
        has_deadlines,
    })
}

/// What the pragmas of a source forbid or limit.
#[tactic(auto, unfolding(ada_legality::specs::InForce::in_force_by))]
pub fn in_force_by(alloc: Global, pragmas: &[Pragma]) -> Result<InForce, NoMemory>
    ensures { IfOk result (λ force. force ≡ in_force_by pragmas.now) }
{
    let ranges = deadline_ranges_of(alloc, pragmas)?;
    in_force_with(pragmas, has_longest(pragmas), !ranges.as_slice().is_empty())
}
