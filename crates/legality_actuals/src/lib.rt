//! What names break as elements and calls, and attributes with arguments, where each actual is
//! judged with its formal (ISO/IEC 8652:2012, 3.5, 4.1, 6.4, 6.4.1). Each function has the name of
//! the definition of `ada_legality` of which it is the counterpart.
#![tactic(auto)]

mod attributes;
mod fitting;
mod names;

pub use attributes::attribute_judged;
pub use fitting::actuals_judged;
pub use names::name_judged;
