//! The account of a task.
use ann_base::{Name, TaskNo};

/// What a list of lines shows of one task. Times are in ticks.
#[derive(Drop)]
pub struct Account {
    /// The task.
    pub task: TaskNo,
    /// Its expanded name.
    pub name: Name,
    /// How many jobs ended: each from a line by which it enters the ready queue to the next by
    /// which it leaves it.
    pub jobs: u64,
    /// The longest response of a job, 0 where none ended.
    pub worst: u64,
    /// The responses of the jobs, added up.
    pub sum: u64,
    /// The ticks in which it ran.
    pub run: u64,
    /// How often another subject was chosen while it ran and was ready, and was not placed behind
    /// all of its level at that tick.
    pub preempted: u64,
    /// The ticks in which it was ready and a task of lower base priority ran.
    pub lower: u64,
    /// The most of these in unbroken order.
    pub longest: u64,
}
