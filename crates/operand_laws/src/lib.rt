//! Operands of images: each is made before what it stands in. A law is the contract of a function
//! that does nothing.
//!
//! `proofs/Rising` says what a step of making keeps and what it answers, and the files behind it go
//! through the forms of the text. The laws are of every tree, legal or not: what no accepted source
//! has becomes a value without operands.
#![tactic(auto)]

ghost use Rattle.operand_laws.specs.OperandLaws.{OperandsAreMadeFirst, ValuesOfSourcesEnd};

/// In the image of each source, legal or not, each operand of an expression has a smaller number
/// than the expression.
#[tactic(auto, using(crate::proofs::Whole::operands_are_made_first))]
pub fn operands_are_made_first()
    ensures { OperandsAreMadeFirst }
{}

/// So the value of each expression of a source's image is found before the machine has counted as
/// many turns as there are expressions: with more to count down it is the same, in whatever world
/// it is asked for.
#[tactic(auto, using(crate::proofs::Sources::values_of_sources_end))]
pub fn values_of_sources_end()
    ensures { ValuesOfSourcesEnd }
{}
