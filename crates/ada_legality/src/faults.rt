//! Faults.
use crate::Rule;
use ann_base::Place;

/// A rule that a source breaks, and where.
#[derive(Clone, Copy)]
pub struct Fault {
    /// The first token of what breaks it.
    pub place: Place,
    /// The rule.
    pub rule: Rule,
}
