//! Scopes in use: how one begins and ends, what stands round it, the cells that it holds, and the
//! results of a call, which are copied back into them (ISO/IEC 8652:2012, 6.4.1). Each function has
//! the name of the machine's definition of which it is the counterpart. A number that its type
//! cannot hold is answered as want of memory.
#![tactic(auto)]

mod openings;
mod results;
mod scopes;

pub use openings::{
    begin_scope, draw_region, end_scope, is_library, new_scope_mark, next_id, open_scope, plainly,
    region_of_next,
};
pub use results::{store, with_results};
pub use scopes::{
    Sought, first_id, first_outwards, home, id_in, innermost, is_of_unit, put_cells, read_cell,
    same_id, scope_in_use, scope_mut, works_on_unit, write_cell,
};
