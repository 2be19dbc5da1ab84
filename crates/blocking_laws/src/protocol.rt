//! The ceiling protocol bounds blocking: a theorem on lists of lines.
ghost use Rattle.std.specs.Prelude.{◌↔◌, IsTrue, List};
ghost use Rattle.trace_text.specs.Queue.{TraceLine, RisesFrom};
ghost use Rattle.trace_rows.specs.Plant.{trace_23};
ghost use Rattle.blocking_laws.specs.BlockingLaws.{BlockedOnceOk, NeverHeldOk};
ghost use Rattle.blocking_laws.specs.Examples.{blocked_once};
ghost use Rattle.blocking_laws.specs.Holds.{BlockingBoundOk, OneActionOk};
ghost use Rattle.blocking_laws.specs.MovingLaws.{HoldersStandLowOk, HoldersStandOk, KeepsProtocol};
ghost use Rattle.blocking_laws.specs.MovingLaws.{MovedOk, follows_holders, follows_low_holders};
ghost use Rattle.blocking_laws.specs.MovingLaws.{follows_moves, follows_protocol};

/// Where lines keep the laws of dispatching, of ceilings and of exclusion, where only who runs is
/// placed before others and enters an object, and where whoever has one open keeps its place at the
/// ceiling, in a stretch no call finds its object held, and each task is blocked by one task at
/// most, in actions of which one was open before. While somebody, a task or the agent, stands at a
/// level or above it, tasks of lower base priority run in one action at most, on an object whose
/// ceiling is not below that level. Where deadlines decide between tasks of one level it is so too
/// (D.2.6).
pub fn protocol_bounds_blocking()
    ensures held { (lines : List TraceLine) → KeepsProtocol lines → NeverHeldOk lines }
    ensures blocked { (lines : List TraceLine) → KeepsProtocol lines → BlockedOnceOk lines }
    ensures one_action { (lines : List TraceLine) → KeepsProtocol lines → OneActionOk lines }
{}

/// Where one action blocks whoever waits, it does so for no more ticks than are run in one action
/// on an object whose ceiling is not below the level: the blocking term of an analysis of response
/// times, of these lines.
pub fn blocking_is_bounded()
    ensures { (lines : List TraceLine) → OneActionOk lines → BlockingBoundOk lines }
{}

/// Each of these laws holds where its test computes to true.
pub fn protocol_is_told()
    ensures moved { (lines : List TraceLine) → (IsTrue (follows_moves lines) ↔ MovedOk lines) }
    ensures holders { (lines : List TraceLine) → RisesFrom 0 lines
        → (IsTrue (follows_holders lines) ↔ HoldersStandOk lines) }
    ensures low { (lines : List TraceLine) → RisesFrom 0 lines
        → (IsTrue (follows_low_holders lines) ↔ HoldersStandLowOk lines) }
    ensures protocol { (lines : List TraceLine) → IsTrue (follows_protocol lines)
        → KeepsProtocol lines }
{}

/// The trace of a plant of five tasks keeps the protocol, and so do a few lines in which a task is
/// blocked once.
pub fn protocol_is_kept()
    ensures plant { KeepsProtocol trace_23 }
    ensures blocked_once { KeepsProtocol blocked_once }
{}
