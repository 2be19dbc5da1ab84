//! What a trace shows of each task, kept line by line: its jobs, its running, its preemptions and
//! its waiting.
#![tactic(auto)]

mod accounts;
mod clocks;
mod dated;
mod report;
mod tallies;
mod theorems;
mod writing;

pub use accounts::Account;
pub use report::Report;
pub use theorems::accounts_tell;
pub use writing::{REPORT_BYTES, write_account, write_totals};
