//! The numbers by which run-time things are named.
ghost use Rattle.std.specs.Prelude.{◌≡◌, ◌+◌, ◌^◌, ◌≤◌, IfOk, OnErr};

use crate::NoMemory;

/// A slot of the tables: 0 to 255 for live tasks, 256 for the agent that runs handlers.
#[derive(Clone, Copy, Debug, PartialEq, Eq, PartialOrd, Ord)]
pub struct Slot(pub u16);

/// How many slots there are.
pub const SLOTS: usize = 257;

/// A task, numbered in order of creation; 0 is the environment task (ISO/IEC 8652:2012, 10.2).
#[derive(Clone, Copy, PartialEq, Eq)]
pub struct TaskNo(pub u32);

/// An entry call, numbered from 1 in the order in which calls are made (9.5.3).
#[derive(Clone, Copy, PartialEq, Eq)]
pub struct CallNo(pub u32);

/// A protected object, numbered from 1 in order of creation (9.4).
#[derive(Clone, Copy, PartialEq, Eq)]
pub struct ObjectNo(pub u32);

/// The region of a kept scope, numbered from 1 in the order in which such scopes begin (7.6.1,
/// 9.3).
#[derive(Clone, Copy, PartialEq, Eq)]
pub struct RegionNo(pub u32);

/// A moment or a span of virtual time, in ticks of one microsecond.
pub type Moment = i64;

/// A priority level (D.1).
pub type Level = u8;

/// The number behind this one.
///
/// Errors: one beyond the last of 32 bits is in no memory.
pub fn next_number(number: u32) -> Result<u32, NoMemory>
    ensures ok { IfOk result (λ next. next ≡ number + 1) }
    ensures err { OnErr result (2 ^ 32 ≤ number + 1) }
{
    match number.checked_add(1) {
        Some(next) => Ok(next),
        None => Err(NoMemory),
    }
}
