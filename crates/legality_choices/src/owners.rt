//! On what an aspect stands (ISO/IEC 8652:2012, 13.1.1, C.3.1).
ghost use Rattle.std.specs.Prelude.{◌≡◌};
ghost use Rattle.ada_legality.specs.Aspects.{is_priority_name, is_cpu_name, is_deadline_name};
ghost use Rattle.ada_legality.specs.Aspects.{is_attach_name, is_known_name, may_have_aspect};
ghost use Rattle.ada_legality.specs.Aspects.{asks_priority, asks_cpu, is_task_owner};
ghost use Rattle.ada_legality.specs.Aspects.{may_be_attached, attaches_again, attaches_to};

use ada_legality::{AspectName, AspectOwner};

/// Priority or Interrupt_Priority.
pub(crate) fn is_priority_name(name: AspectName) -> bool
    ensures { result ≡ is_priority_name name }
{
    match name {
        AspectName::Priority => true,
        AspectName::InterruptPriority => true,
        _ => false,
    }
}

/// CPU.
pub(crate) fn is_cpu_name(name: AspectName) -> bool
    ensures { result ≡ is_cpu_name name }
{
    match name {
        AspectName::Cpu => true,
        _ => false,
    }
}

/// Relative_Deadline.
pub(crate) fn is_deadline_name(name: AspectName) -> bool
    ensures { result ≡ is_deadline_name name }
{
    match name {
        AspectName::RelativeDeadline => true,
        _ => false,
    }
}

/// Attach_Handler.
pub(crate) fn is_attach_name(name: AspectName) -> bool
    ensures { result ≡ is_attach_name name }
{
    match name {
        AspectName::AttachHandler => true,
        _ => false,
    }
}

fn is_known_name(owner: AspectOwner, name: AspectName) -> bool
    ensures { result ≡ is_known_name owner name }
{
    match owner {
        AspectOwner::OnMain => is_priority_name(name) || is_cpu_name(name),
        AspectOwner::OnTask => is_priority_name(name) || is_cpu_name(name),
        AspectOwner::OnProtected => is_priority_name(name),
        AspectOwner::OnOperation { .. } => false,
        AspectOwner::OnSubprogram => false,
    }
}

/// An aspect may stand there, or has a rule of its own.
#[tactic(auto, unfolding(ada_legality::specs::Aspects::may_have_aspect))]
pub(crate) fn may_have_aspect(owner: AspectOwner, name: AspectName) -> bool
    ensures { result ≡ may_have_aspect owner name }
{
    is_deadline_name(name) || (is_attach_name(name) || is_known_name(owner, name))
}

/// Priorities are asked of the main procedure, of tasks and of protected units.
pub(crate) fn asks_priority(owner: AspectOwner) -> bool
    ensures { result ≡ asks_priority owner }
{
    match owner {
        AspectOwner::OnMain => true,
        AspectOwner::OnTask => true,
        AspectOwner::OnProtected => true,
        _ => false,
    }
}

/// CPU is asked of the main procedure and of tasks.
pub(crate) fn asks_cpu(owner: AspectOwner) -> bool
    ensures { result ≡ asks_cpu owner }
{
    match owner {
        AspectOwner::OnMain => true,
        AspectOwner::OnTask => true,
        _ => false,
    }
}

/// A task.
pub(crate) fn is_task_owner(owner: AspectOwner) -> bool
    ensures { result ≡ is_task_owner owner }
{
    match owner {
        AspectOwner::OnTask => true,
        _ => false,
    }
}

/// What an interrupt may be attached to: a procedure without parameters of a protected unit.
pub fn may_be_attached(owner: AspectOwner) -> bool
    ensures { result ≡ may_be_attached owner }
{
    match owner {
        AspectOwner::OnOperation {
            is_parameterless,
            ..
        } => is_parameterless,
        _ => false,
    }
}

/// A body that completes such a procedure attaches nothing.
pub fn attaches_again(owner: AspectOwner) -> bool
    ensures { result ≡ attaches_again owner }
{
    match owner {
        AspectOwner::OnOperation {
            is_parameterless,
            completes,
            ..
        } => is_parameterless && completes,
        _ => false,
    }
}

/// The unit whose procedure is attached.
pub fn attaches_to(owner: AspectOwner) -> Option<u32>
    ensures { result ≡ attaches_to owner }
{
    match owner {
        AspectOwner::OnOperation {
            is_parameterless,
            completes,
            unit,
        } => {
            if is_parameterless && !completes {
                Some(unit)
            } else {
                None
            }
        }
        _ => None,
    }
}
