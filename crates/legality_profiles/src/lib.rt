//! Conformance of profiles, and what completes a declaration (ISO/IEC 8652:2012, 3.11.1, 6.3.1).
//! Each function has the name of the definition of `ada_legality` of which it is the counterpart.
#![tactic(auto)]

mod completions;
mod conformance;
mod declared;
mod indications;
mod named;

pub use completions::{
    accept_conforms, body_noted, body_profile_judged, declaration_noted, entry_body_profile_judged,
};
pub use conformance::{conforms, conforms_to};
pub use declared::declares_entity;
pub use indications::{has_range, same_indication, same_mode};
