//! Laws of sources whose tables of names are clear.
//!
//! `specs/Tables` says when a table is: each entity has the type that its declaration asks for, and
//! each range and constant its value; `specs/Loops` that each name of a loop parameter stands in
//! its loop. `proofs/Names` and `Attributes` have the names in expressions, and `Expressions` goes
//! through the forms of expressions. `Standing` has what is known where a construct stands, and
//! `Parts`, `Assignments` and `Values` the parts of statements. `Statements`, `Sequences` and
//! `Units` go through a tree by its levels.
ghost use Rattle.form_laws.specs.Laws.{ClearExpressions, UnitsBuilt};

/// Each expression that breaks no rule has clear names, where the table of names is clear and each
/// loop parameter in it stands in its loop.
#[tactic(auto, using(crate::proofs::Expressions::clear_expressions))]
pub fn clear_expressions()
    ensures { ClearExpressions }
{}

/// Each form of a source that breaks no rule is one that an image has, where the table of its names
/// is clear and each loop parameter stands in its loop.
#[tactic(auto, using(crate::proofs::Units::units_built))]
pub fn units_built()
    ensures { UnitsBuilt }
{}
