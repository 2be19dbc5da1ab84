//! Laws of the grammar. Each is the contract of a function without a body: whoever calls it knows
//! the law.
ghost use Rattle.grammar_laws.specs.GrammarLaws.{ReadIsSpelt, SpeltIsRead};
ghost use Rattle.grammar_laws.specs.GrammarLaws.{OneTreeSpells, ExpressionIsSpelt};

/// The tree that is read of a source's tokens spells them, and is shaped (docs/LANGUAGE.md, section
/// 2).
pub fn read_is_spelt()
    ensures { ReadIsSpelt }
{}

/// A shaped tree that spells a source's tokens is the one that is read of them.
#[tactic(auto, using(crate::proofs::Reading::Whole::spelt_is_read))]
pub fn spelt_is_read()
    ensures { SpeltIsRead }
{}

/// Two shaped trees that spell the same tokens, with the same places, are one.
#[tactic(auto, using(crate::proofs::Reading::Whole::one_tree_spells))]
pub fn one_tree_spells()
    ensures { OneTreeSpells }
{}

/// An expression that is read spells the tokens before those that are left, and keeps precedence
/// (4.4).
pub fn expression_is_spelt()
    ensures { ExpressionIsSpelt }
{}
