//! Names that cannot be numbered.
use ann_base::Place;

/// A name of a source that has no declaration, has two, or could be either of two (ISO/IEC
/// 8652:2012, 8.3, 8.4).
#[derive(Clone, Copy)]
pub enum NameFault {
    /// No declaration of the name is visible there.
    Unknown(Place),
    /// The region has a declaration of the name already, and this one completes none.
    Twice(Place),
    /// Two use clauses make different declarations of the name visible there.
    Ambiguous(Place),
}
