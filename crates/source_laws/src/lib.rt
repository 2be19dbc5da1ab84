//! Laws of the names and the image of a source. `name_laws` has those of every tree whose bodies of
//! units complete them, `read_laws` those of a tree that is read from a source, and `accepted_laws`
//! those of every source that is accepted.
#![tactic(auto)]

mod accepted_laws;
mod name_laws;
mod read_laws;

pub use accepted_laws::{
    accepted_names_by_position, nothing_accepted_is_lost, nothing_read_is_lost, scopes_are_own,
};
pub use name_laws::{
    declarations_by_position, direct_names_by_position, directly_by_position, exports_by_position,
    names_by_position, open_regions_by_position, regions_by_position, table_at_the_end,
};
pub use read_laws::{
    bodies_complete_where_known, names_stand_apart, read_names_by_position,
    unbroken_bodies_complete, unbroken_names_by_position,
};
