//! Blocking in every run: laws of the profile machine's definitions alone, which hold of every
//! program, script and bound. Each is the contract of a function that does nothing.
ghost use Rattle.blocking_laws.specs.DatedLines.{RunsDateRightly};
ghost use Rattle.blocking_laws.specs.FreeLines.{RunsBlockFree};
ghost use Rattle.blocking_laws.specs.FreshLines.{RunsEnterFresh};
ghost use Rattle.blocking_laws.specs.LastExits.{RunsExitLast};
ghost use Rattle.blocking_laws.specs.LowLines.{RunsEnterLow};
ghost use Rattle.blocking_laws.specs.NumberLines.{RunsNumberObjects};
ghost use Rattle.blocking_laws.specs.OpenActions.{OpenActionsAreTold};
ghost use Rattle.blocking_laws.specs.OwnLines.{RunsEnterFirst, RunsTellOwnLines};
ghost use Rattle.blocking_laws.specs.RestLaws.{RestMovesRightly};
ghost use Rattle.blocking_laws.specs.RunLaws.{RightMovesBoundBlocking};
ghost use Rattle.blocking_laws.specs.TaskLines.{RunsNumberTasks, RunsPlaceKnown};

use crate::protocol::protocol_bounds_blocking;
use ceiling_laws::runs_keep_the_law_of_ceilings;
use line_laws::{runs_are_in_tick_order, runs_keep_exclusion};
use machine_laws::dispatching::runs_dispatch;
use machine_laws::runs::ticks_never_fall;

/// A run of a source whose interrupts have no deadlines bounds blocking in each of its stretches,
/// if its lines move everybody rightly: since it keeps the laws of dispatching, of ceilings and of
/// exclusion, and chooses last in each tick.
pub fn right_moves_bound_blocking()
    ensures { RightMovesBoundBlocking }
{
    ticks_never_fall();
    runs_dispatch();
    runs_keep_the_law_of_ceilings();
    runs_keep_exclusion();
    runs_are_in_tick_order();
    protocol_bounds_blocking();
}

/// In every run only who has run up to then is placed before others, and only it enters an object
/// or finds one held: nobody else is preferred to those of its level (D.2.3).
pub fn only_who_runs_goes_before()
    ensures { RunsTellOwnLines }
{}

/// In every run whoever enters an object, or finds one held, stands first in the ready queues at
/// that line: nobody is placed before it in the effect of its action before that (D.2.1, 9.5.1).
pub fn who_enters_is_first()
    ensures { RunsEnterFirst }
{}

/// In every run the base priority of a task that enters an object, or finds one held, is not above
/// the object's ceiling, whatever the task has inherited (D.3).
pub fn tasks_enter_at_their_base()
    ensures { RunsEnterLow }
{}

/// In every run of a source whose interrupts have no deadlines only tasks are placed with one
/// (D.2.6).
pub fn only_tasks_have_deadlines()
    ensures { RunsDateRightly }
{}

/// In every run each protected object that is made has a number that no object had.
pub fn numbers_of_objects_are_new()
    ensures { RunsNumberObjects }
{}

/// In every run each task that is made has a number that no task had.
pub fn numbers_of_tasks_are_new()
    ensures { RunsNumberTasks }
{}

/// In every run only tasks are placed that have been made: lines have told their base priority
/// (D.1, D.2.1).
pub fn who_is_placed_is_known()
    ensures { RunsPlaceKnown }
{}

/// In every run whoever enters an object has in that tick neither been placed nor taken out before,
/// nor entered or left one: an action begins first (D.2.1, 9.5.1).
pub fn who_enters_has_not_moved()
    ensures { RunsEnterFresh }
{}

/// A run of a source whose interrupts have no deadlines moves everybody rightly if it keeps the
/// rest: what the laws above say of every run need not be asked of it.
pub fn the_rest_moves_rightly()
    ensures { RestMovesRightly }
{}

/// In every run the action that somebody ends is the last one that it began: actions end in the
/// reverse order of their beginning (9.5.1).
pub fn actions_end_in_reverse_order()
    ensures { RunsExitLast }
{}

/// In every run the actions that lines show as open are those of the marks, of each task that is
/// there and of the agent, before each instant and behind it (9.5.1).
pub fn open_actions_are_those_of_marks()
    ensures { OpenActionsAreTold }
{}

/// In every run whoever blocks has no protected action open: it waits in no object (9.5.1, D.3).
pub fn who_blocks_has_no_action_open()
    ensures { RunsBlockFree }
{}
