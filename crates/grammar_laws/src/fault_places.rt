//! Laws of the places of faults. Each is the contract of a function without a body: whoever calls
//! it knows the law.
ghost use Rattle.grammar_laws.specs.FaultLaws.{NoTreeGoesDeeper, NoTreeGoesOn};

/// No shaped tree begins with the tokens of a source up to the one where reading stops, itself
/// counted.
#[tactic(auto, using(crate::proofs::Faults::Faults::no_tree_goes_on))]
pub fn no_tree_goes_on()
    ensures { NoTreeGoesOn }
{}

/// No shaped tree begins with the tokens of a source up to the one that opens level 101, itself
/// counted.
#[tactic(auto, using(crate::proofs::Faults::Faults::no_tree_goes_deeper))]
pub fn no_tree_goes_deeper()
    ensures { NoTreeGoesDeeper }
{}
