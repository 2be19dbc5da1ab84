//! What expressions are read as, and what is asked of one that is read, in its place (ISO/IEC
//! 8652:2012, 2.4, 4.4, 4.5, 8.6, A.10.7). Each function has the name of the definition of
//! `ada_legality` of which it is the counterpart.
#![tactic(auto)]

mod asked;
mod lengths;
mod literals;
mod operations;
mod reads;

pub use asked::{
    as_operand, call_inside, expected, fitted, is_discrete_or_refused, value_judged, without_point,
};
pub use lengths::{image_length, type_of_prefix};
pub use literals::{integer_literal, literal_in, other_pointed_literal};
pub use operations::{
    concatenation_judged, operation_judged, operation_of_one_judged, signed_judged, sum_judged,
};
pub use reads::{
    bracketed_read, compared_read, first_relation, first_term, highest_read, number_read,
    plain_read, signed_read, text_read, with_factor, with_relation, with_term,
};
