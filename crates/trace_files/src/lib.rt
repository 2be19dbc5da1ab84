//! What a trace in a file shows, line by line as it is read.
#![tactic(auto)]

mod judging;
mod reporting;
mod texts;
mod theorems;
mod writing;

pub use judging::judge_file;
pub use reporting::{FileReport, report_file};
pub use theorems::lines_tell;
pub use writing::write_report;
