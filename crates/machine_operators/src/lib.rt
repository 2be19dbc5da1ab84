//! The operators of values: what the machine computes without a world.
//! Each function has the name of the machine's definition of which it is the counterpart.
#![tactic(auto)]

mod operators;
mod ranges;
mod texts;

pub use operators::{
    absolute, added, binary_value, decides, divided, inverted, is_less, modulus, multiplied,
    negated, remainder, same_value, subtracted, unary_value,
};
pub use ranges::{
    checked, component_place, held_behind, held_moment, held_sum, is_in, place_in, ticks, whole,
};
pub use texts::{text_of_literal, text_of_truth, text_of_whole};
