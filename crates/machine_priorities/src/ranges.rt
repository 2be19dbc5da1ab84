//! Priorities that are given by expressions (ISO/IEC 8652:2012, D.1).
ghost use Rattle.ann_base.specs.Answers.{Answers};
ghost use Rattle.profile_machine.specs.Priorities.{priority_in_range};

use ann_base::{Level, OrMemory, Raised};

/// The priority of an Integer.
///
/// Errors: `Fault(Constraint)` where it is below 0 or above the last.
pub(crate) fn priority_in_range(last: u32, n: i32) -> Result<Level, OrMemory<Raised>>
    ensures { Answers result (priority_in_range last n) }
{
    match u32::try_from(n) {
        Ok(level) if level <= last => Ok(Level::try_from(level).map_err(|_| OrMemory::Memory)?),
        _ => Err(OrMemory::Fault(Raised::Constraint)),
    }
}
