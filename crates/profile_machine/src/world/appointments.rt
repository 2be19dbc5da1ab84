//! What comes at a moment, and handlers: appointments, timers, budgets, controlled objects and
//! releases (7.6.1, 9.6, C.3, D.14, D.15).
use crate::world::scopes::Located;
use ann_base::{CallNo, Moment, ObjectNo, RegionNo, TaskNo};
use profile_image::SubprogramNo;

/// A handler: an object and its procedure.
#[derive(Clone, Copy)]
pub struct HandlerOf {
    pub object: ObjectNo,
    pub procedure: SubprogramNo,
}

/// What an appointment is for.
#[derive(Clone, Copy)]
pub enum Due {
    /// A timing event, by number, with its handler (D.15).
    Event(u32, HandlerOf),
    /// The delay of a task (9.6).
    Delay(TaskNo),
    /// The end of a timed call (9.7.2).
    Timeout(CallNo),
    /// The abortable part of the task with so many frames below it (9.7.4).
    Trigger(TaskNo, u32),
}

/// Something that comes at a moment.
#[derive(Clone, Copy)]
pub struct Appointment {
    pub due: Due,
    pub moment: Moment,
}

/// The value to which a timer is set, with its handler.
#[derive(Clone, Copy)]
pub struct TimerSetting {
    pub value: Moment,
    pub handler: HandlerOf,
}

/// A timer of a task (D.14.1).
#[derive(Clone, Copy)]
pub struct Timer {
    pub task: TaskNo,
    pub setting: Option<TimerSetting>,
}

/// A group budget (D.14.2).
#[derive(Clone, Copy)]
pub struct Budget {
    /// What is left of it, in ticks.
    pub remaining: Moment,
    pub handler: Option<HandlerOf>,
}

/// A registered controlled object (7.6).
#[derive(Clone, Copy)]
pub struct Registered {
    pub object: u32,
    pub region: RegionNo,
    pub located: Located,
}

/// The release of a handler, with the event, timer or budget for which it is.
#[derive(Clone, Copy)]
pub struct Release {
    pub number: u32,
    pub handler: HandlerOf,
    pub argument: Option<u32>,
}
