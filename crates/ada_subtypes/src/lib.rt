//! Static values and subtypes, given what their names denote (ISO/IEC 8652:2012, 3.2.2, 3.5, 3.6,
//! 4.9, 6.1). Each function has the name of the definition of `ada_regions` of which it is the
//! counterpart.
#![tactic(auto)]

mod formals;
mod literals;
mod ranges;
mod statics;
mod subtypes;

pub use formals::{formals_of, mode_of};
pub use literals::{micros_of, static_literal, static_negative};
pub use ranges::{high_of, low_of, range_between, range_named};
pub use statics::{
    attribute_value, literal_of, static_value, subtype_denoted, subtype_of_item, subtype_of_name,
    value_denoted,
};
pub use subtypes::{array_type, indicated_subtype, mark_denoted};
