//! What the front end says of a source: that it is accepted as an image, or why and where it is
//! refused, and what each stage's fault says. The definitions of all stand in `specs/`; `ada_front`
//! answers by them.
#![tactic(auto)]

mod laws;
mod refusals;
mod refusing;

pub use laws::long_sources_are_refused;
pub use refusals::{Code, Refusal};
pub use refusing::{of_forms, of_grammar, of_names, of_rules, of_tokens};
