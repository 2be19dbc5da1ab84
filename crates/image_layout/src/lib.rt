//! What the making of an image stands on: its lists, the places of statements, the cells of
//! declarations, the arguments of calls, and what rules of legality ask for too, overriding
//! procedures, the units of entries, operators and the parts of names (ISO/IEC 8652:2012, 3.3.1,
//! 3.5, 3.6, 4.1.3, 4.5, 5.1, 6.4.1, 7.6, 9.5.2). Each function has the name of the definition of
//! `ada_image` of which it is the counterpart.
#![tactic(auto)]

mod arguments;
mod entries;
mod first_values;
mod making;
mod names;
mod operators;
mod overriding;
mod places;
mod subprograms;
mod subtypes;
mod widths;
mod within;

pub use arguments::{argument_from, first_argument};
pub use entries::same_entry_unit;
pub use first_values::first_value;
pub use making::{action_put, counted, first_put, put_at, reserved, the_action, value_put};
pub use names::prefix_part;
pub use operators::{
    adding_operator, highest_operator, logical_operator, multiplying_operator, relational_operator,
};
pub use overriding::{has_one_of_type, is_in_out};
pub use places::{is_component_of, is_in_scope};
pub use subprograms::{enumerations_made, formal_made, formals_made};
pub use subtypes::{
    array_of, index_range, is_kept, is_thing, range_of_cells, subtype_is_array, subtype_is_kept,
    subtype_is_thing,
};
pub use widths::{added, cells_of_declaration, width_of_object, width_of_subtype};
pub use within::{
    in_body_of, in_construct, in_handler, in_loops, in_scope, in_units, loops_inside, nothing_made,
    outermost, units_inside,
};
