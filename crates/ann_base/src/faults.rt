//! The answers that many calls share.
ghost use Rattle.std.specs.Prelude.{◌≡◌};
ghost use Rattle.ann_base.specs.declared.faults.OrMemory.TheVariants as answer;

use std::alloc::{AllocError, AllocFailed};
use thiserror::Error;

/// Memory ran out.
#[derive(Clone, Copy, Debug, PartialEq, Eq, Error)]
#[error("no memory")]
pub struct NoMemory;

/// A call on a shelf or a sink failed.
#[derive(Clone, Copy, Debug, PartialEq, Eq, Error)]
#[error("the outside failed")]
pub struct Failed;

/// A table has no room for one more.
#[derive(Clone, Copy, Debug, PartialEq, Eq, Error)]
#[error("full")]
pub struct Full;

/// Why a call answers nothing: a fault of its own, or memory ran out. No clause says when memory
/// runs out.
#[derive(Clone, Copy, Debug, PartialEq, Eq)]
pub enum OrMemory<F> {
    /// Memory ran out.
    Memory,
    /// The call's own fault.
    Fault(F),
}

impl From<AllocError> for NoMemory {
    fn from(_: AllocError) -> Self {
        NoMemory
    }
}

impl<T: Drop> From<AllocFailed<T>> for NoMemory {
    fn from(_: AllocFailed<T>) -> Self {
        NoMemory
    }
}

impl<F> From<NoMemory> for OrMemory<F> {
    ghost from_gives = { λ _ e. e ≡ answer.Memory };

    fn from(_: NoMemory) -> Self {
        OrMemory::Memory
    }
}

impl<F> From<AllocError> for OrMemory<F> {
    ghost from_gives = { λ _ e. e ≡ answer.Memory };

    fn from(_: AllocError) -> Self {
        OrMemory::Memory
    }
}

impl<F, T: Drop> From<AllocFailed<T>> for OrMemory<F> {
    ghost from_gives = { λ _ e. e ≡ answer.Memory };

    fn from(_: AllocFailed<T>) -> Self {
        OrMemory::Memory
    }
}
