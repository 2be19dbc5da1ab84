//! Declarations: what a declaration binds in its region, and what entity it declares (ISO/IEC
//! 8652:2012, 3.1, 8.1, 8.3). Each function has the name of the definition of `ada_regions` of
//! which it is the counterpart.
#![tactic(auto)]

mod entering;
mod enumerations;
mod numbering;
mod objects;
mod subprograms;
mod types;
mod units;

pub use entering::{entered, entered_as_unit, entered_here, hidden, is_taken, number};
pub use enumerations::{enumeration_declared, literal_declared};
pub use numbering::with_region;
pub use objects::{
    component_declared, exception_declared, label_declared, loop_parameter_declared,
    object_declared, parameter_declared,
};
pub use subprograms::{entry_declared, subprogram_declared};
pub use types::{array_declared, derived_declared, subtype_declared};
pub use units::{main_declared, package_declared, protected_declared, task_declared};
