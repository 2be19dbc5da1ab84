//! Of which type a name is, its attributes and prefixes, and which names are variables, as the
//! rules of legality ask it (ISO/IEC 8652:2012, 3.3, 3.5, 4.1, 4.4, 4.9, 6.4, 9.9). Each function
//! has the name of the definition of `ada_legality` of which it is the counterpart.
#![tactic(auto)]

mod attributes;
mod prefixes;
mod types;
mod variables;

pub use attributes::{
    counts, ends_of_mark, ends_of_object, has_images, is_task_object, takes_arguments,
    type_of_ends, typed_attribute, typed_attribute_of,
};
pub use prefixes::{
    handler_object, is_library_entity, is_library_handler, object_prefix, typed_access,
};
pub use types::{
    denotes_function, denotes_object, denotes_procedure, denotes_value, typed_denoted, typed_name,
};
pub use variables::{is_own_entry, is_variable};
