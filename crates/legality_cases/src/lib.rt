//! The choices of case statements, as they are read, and what is found in them (ISO/IEC 8652:2012,
//! 5.4). Each function has the name of the definition of `ada_legality` of which it is the
//! counterpart.
#![tactic(auto)]

mod choices;

pub use choices::{ChoiceOf, add_choices, case_judged, choices_read, type_of_selector};
