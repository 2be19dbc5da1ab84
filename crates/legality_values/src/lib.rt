//! What names are as values, their attributes, and what both break beside their actuals; barriers
//! among them (ISO/IEC 8652:2012, 4.1, 4.1.4, 4.4, 9.5.2). Each function has the name of the
//! definition of `ada_legality` of which it is the counterpart.
#![tactic(auto)]

mod attributed;
mod barriers;
mod values;

pub use attributed::{attribute_alone, attribute_read, is_unclear_mark, other_attribute};
pub use values::{
    index_fits, index_fitted, is_unclear_object, name_read, names_object, names_value,
    owner_of_name, place_of,
};
