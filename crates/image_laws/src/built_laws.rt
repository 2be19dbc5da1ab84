//! Laws of sources that legality reads: what stands in them is built, so that an image has a form
//! for it.
//!
//! `specs/Clear` says of an expression that the table of names is whole where its names stand.
//! `proofs/Forms/Nothing` takes apart what is found where no rule is broken, `Operators` says of
//! which types the operands of operators are, `Actuals` that a predefined function has its actuals,
//! and `Denotations` and `Expressions` go through the forms beside what legality reads in them.
//! `StatementValues` has the places of statements where values stand, `FormalNames`, `Variables`
//! and `Calls` the actuals of calls, `Texts`, `Formals`, `Moments` and `Procedures` the calls of
//! predefined procedures, `Sources` the calls of functions, and `Assignments` assignments and
//! returns.
ghost use Rattle.image_laws.specs.Laws.{ExpectedExpressionsBuilt, ReadActualsBuilt};
ghost use Rattle.image_laws.specs.Laws.{ReadAssignmentsBuilt, ReadCallsBuilt, ReadConditionsBuilt};
ghost use Rattle.image_laws.specs.Laws.{ReadDelaysBuilt, ReadExpressionsBuilt};
ghost use Rattle.image_laws.specs.Laws.{ReadIterationsBuilt, ReadProceduresBuilt};
ghost use Rattle.image_laws.specs.Laws.{ReadReturnsBuilt, ReadSelectorsBuilt, ReadSourcesBuilt};

/// Each expression of clear names in which no rule is broken, which has a type of values and is not
/// the call of a function of the source, is built.
#[tactic(auto, using(crate::proofs::Forms::Expressions::read_expressions_built))]
pub fn read_expressions_built()
    ensures { ReadExpressionsBuilt }
{}

/// Each expression of clear names that stands where a value of some type is expected, and breaks no
/// rule there, is built.
#[tactic(auto, using(crate::proofs::Forms::Expressions::expected_expressions_built))]
pub fn expected_expressions_built()
    ensures { ExpectedExpressionsBuilt }
{}

/// Each condition of clear names that breaks no rule is built.
#[tactic(auto, using(crate::proofs::Forms::StatementValues::read_conditions_built))]
pub fn read_conditions_built()
    ensures { ReadConditionsBuilt }
{}

/// The moment or span of each delay, of clear names, that breaks no rule is built.
#[tactic(auto, using(crate::proofs::Forms::StatementValues::read_delays_built))]
pub fn read_delays_built()
    ensures { ReadDelaysBuilt }
{}

/// The condition or the bounds of each loop, of clear names, that break no rule are built.
#[tactic(auto, using(crate::proofs::Forms::StatementValues::read_iterations_built))]
pub fn read_iterations_built()
    ensures { ReadIterationsBuilt }
{}

/// What each case selects by, of clear names, is built, where it breaks no rule.
#[tactic(auto, using(crate::proofs::Forms::StatementValues::read_selectors_built))]
pub fn read_selectors_built()
    ensures { ReadSelectorsBuilt }
{}

/// The actuals of each call of what the source declares, of clear names, that break no rule are
/// built.
#[tactic(auto, using(crate::proofs::Forms::Calls::read_actuals_built))]
pub fn read_actuals_built()
    ensures { ReadActualsBuilt }
{}

/// Each call statement of a subprogram, an entry or the main procedure, of clear names, that breaks
/// no rule is built.
#[tactic(auto, using(crate::proofs::Forms::Calls::read_calls_built))]
pub fn read_calls_built()
    ensures { ReadCallsBuilt }
{}

/// Each call statement of a predefined procedure, of clear names, that breaks no rule is built.
#[tactic(auto, using(crate::proofs::Forms::Procedures::read_procedures_built))]
pub fn read_procedures_built()
    ensures { ReadProceduresBuilt }
{}

/// Each value that stands where a function of the source may be called, of clear names, is built,
/// where it breaks no rule.
#[tactic(auto, using(crate::proofs::Forms::Sources::read_sources_built))]
pub fn read_sources_built()
    ensures { ReadSourcesBuilt }
{}

/// Each assignment of values, of clear names, that breaks no rule is built.
#[tactic(auto, using(crate::proofs::Forms::Assignments::read_assignments_built))]
pub fn read_assignments_built()
    ensures { ReadAssignmentsBuilt }
{}

/// The value of each return, of clear names, that breaks no rule is built.
#[tactic(auto, using(crate::proofs::Forms::Assignments::read_returns_built))]
pub fn read_returns_built()
    ensures { ReadReturnsBuilt }
{}
