//! What names of objects denote in an image, their attributes, and what a call of a predefined
//! function counts (ISO/IEC 8652:2012, 4.1, 4.1.3, 4.1.4, 6.4, 8.6). Each function has the name of
//! the definition of `ada_image` of which it is the counterpart.
#![tactic(auto)]

mod attributes;
mod calls;
mod names;

pub use attributes::{attribute_made, known, no_value};
pub use calls::called_counts;
pub use names::{
    declared_as, kind_named, named_before, no_declaration_no, object_before, object_named,
    object_number, thing_in, thing_named,
};
