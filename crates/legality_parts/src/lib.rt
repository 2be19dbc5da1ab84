//! What is found in parts of statements and declarations: bounds, subtype indications, parameters
//! and aspects (ISO/IEC 8652:2012, 3.2.2, 3.5, 6.1, 13.1.1). Each function has the name of the
//! definition of `ada_legality` of which it is the counterpart.
#![tactic(auto)]

mod aspects;
mod bounds;
mod marks;
mod parameters;

pub use aspects::aspects_found;
pub use bounds::{bounds_if, bounds_judged};
pub use marks::{indication_found, type_of_mark};
pub use parameters::parameters_found;
