//! Tests of schedulability over a table of duties, after Burns and Wellings: response times under
//! fixed priorities, and the processor demand under earliest deadline first.
//! `docs/SCHEDULING.md` explains both.
#![tactic(auto)]

mod demands;
mod duties;
mod laws;
mod reading;
mod responses;

pub use demands::{busy, first_over};
pub use duties::{
    Duty, LONGEST, MOST_DUTIES, MOST_PRIORITY, NAME_LENGTH, TABLE_BYTES, Table, TableFault,
    TableFaultKind,
};
pub use laws::cut_tables_are_read_alike;
pub use reading::read_table;
pub use responses::response;
