//! The table of the names of a text: what is looked up in it, and how it is changed (ISO/IEC
//! 8652:2012, 8.1, 8.3). Each function has the name of the definition of `ada_regions` of which it
//! is the counterpart.
#![tactic(auto)]

mod bindings;
mod denotations;
mod frames;
mod places;
mod texts;

pub use bindings::{binding_in, binds, bound_in};
pub use denotations::{
    denoted_at, denoted_by, earlier, entity_at, entity_denoted, entity_of, is_package_at,
    is_used_package, kind_at, last_part, noted, region_of_entity, told,
};
pub use frames::{
    enclosure_here, enclosure_of, ended, no_frame, opened, outside_enclosure, owner_here,
    region_here, scope_in, scope_of_loops,
};
pub use places::{same_place, stands_before};
pub use texts::{append, copy, expanded};
