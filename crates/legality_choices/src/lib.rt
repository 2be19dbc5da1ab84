//! Static numbers and ranges of them, and what is told of choices of case statements, alternatives
//! of selective accepts, and aspects (ISO/IEC 8652:2012, 2.4, 3.5, 4.9, 5.4, 9.7.1, 13.1.1, C.3.1,
//! D.1, D.2.6, D.3, D.16). Each function has the name of the definition of `ada_legality` of which
//! it is the counterpart. Only a literal of more than 128 bits, which no token is, is answered as
//! want of memory where there is some.
#![tactic(auto)]

mod alternatives;
mod aspects;
mod completeness;
mod distinct;
mod literals;
mod numbers;
mod owners;
mod priorities;
mod ranges;
mod spans;
mod statics;

pub use alternatives::selective_accept_judged;
pub use aspects::aspects_from;
pub use completeness::{is_complete, wrong_choices};
pub use distinct::{others_not_last, repeated_choices};
pub use literals::{number_of_literal, number_of_negative};
pub use numbers::{lies_between, number_of_value, same_number};
pub use owners::{attaches_again, attaches_to, may_be_attached};
pub use priorities::{is_other_ceiling, place_of_priority, stands_before_attach, stated_value};
pub use ranges::{range_typed, whole_range_of};
pub use spans::{ends_of, meet, span};
pub use statics::{number_of_expression, static_number};
