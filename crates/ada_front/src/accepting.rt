//! The stages of the front end.
ghost use Rattle.std.specs.Prelude.{◌≡◌, ◌≤◌, length, Ok, None, true, IfOk};
ghost use Rattle.ann_base.specs.Answers.{Answers};
ghost use Rattle.ada_lex.specs.Lexed.{AreTokensOf};
ghost use Rattle.ada_tree.specs.Written.{lexemes_of};
ghost use Rattle.ada_grammar.specs.ReadingUnits.{unit_of};
ghost use Rattle.ada_regions.specs.Numbered.{names_of, name_fault_of};
ghost use Rattle.ada_legality.specs.Faults.{first_fault_of};
ghost use Rattle.ada_image.specs.BuiltUnits.{unit_built};
ghost use Rattle.ada_image.specs.ImageOfUnits.{program_of};
ghost use Rattle.profile_image.specs.declared.image.Image.{Image};
ghost use Rattle.ada_verdicts.specs.Accepted.{Accepted, AcceptedTokens, AcceptedTree, judged};
ghost use Rattle.ada_verdicts.specs.Accepted.{by_grammar, by_names, by_rules, by_forms};

use ada_legality::Fault;
use ada_lex::{MAX_SOURCE, Token, lex};
use ada_naming::names_of;
use ada_parse::parse;
use ada_regions::{NameFault, Names};
use ada_tree::Unit;
use ada_verdicts::{Refusal, of_forms, of_grammar, of_names, of_rules, of_tokens};
use ann_base::{NoMemory, OrMemory};
use image_forms::unit_built;
use image_programs::program_from;
use legality::first_fault;
use profile_image::Image;
use std::alloc::Global;

/// The image of a source, or why it is refused.
#[tactic(auto, unfolding(ada_verdicts::specs::Accepted::judged))]
pub fn accept(alloc: Global, source: &[u8]) -> Result<Image, OrMemory<Refusal>>
    // The answer is the stated one, unless memory ran out.
    ensures exact { Answers result (judged source.now) }
    // What it answers is accepted, and what is accepted it answers.
    ensures accepted { IfOk result (λ image. Accepted source.now image) }
    ensures only { (image : Image) → Accepted source.now image → Answers result (Ok image) }
{
    match lex(alloc, source) {
        Ok(tokens) => accept_tokens(alloc, source, &tokens),
        Err(OrMemory::Fault(fault)) => Err(OrMemory::Fault(of_tokens(fault))),
        Err(OrMemory::Memory) => Err(OrMemory::Memory),
    }
}

/// From tokens on.
fn accept_tokens(alloc: Global, source: &[u8], tokens: &[Token]) -> Result<Image, OrMemory<Refusal>>
    requires inside { AreTokensOf source.now tokens.now }
    requires count { length tokens.now ≤ length source.now }
    requires short { length source.now ≤ MAX_SOURCE }
    ensures exact { Answers result
        (by_grammar source.now tokens.now (unit_of (lexemes_of source.now tokens.now))) }
    ensures accepted { IfOk result (λ image. AcceptedTokens source.now tokens.now image) }
    ensures only { (image : Image) → AcceptedTokens source.now tokens.now image
        → Answers result (Ok image) }
{
    match parse(alloc, source, tokens) {
        Ok(tree) => accept_tree(alloc, &tree),
        Err(OrMemory::Fault(fault)) => Err(OrMemory::Fault(of_grammar(source, tokens, fault))),
        Err(OrMemory::Memory) => Err(OrMemory::Memory),
    }
}

/// From the tree on.
fn accept_tree(alloc: Global, tree: &Unit) -> Result<Image, OrMemory<Refusal>>
    ensures exact { Answers result (by_names tree.now (name_fault_of tree.now)) }
    ensures accepted { IfOk result (λ image. AcceptedTree tree.now image) }
{
    match names_of(alloc, tree) {
        Ok(names) => accept_names(alloc, tree, &names, names.fault),
        Err(_) => Err(OrMemory::Memory),
    }
}

/// From the table of its names on, and the first fault of these, where there is one.
fn accept_names<'t>(
    alloc: Global,
    tree: &'t Unit,
    names: &Names<'t>,
    fault: Option<NameFault>,
) -> Result<Image, OrMemory<Refusal>>
    requires { names.now ≡ names_of tree.now }
    ensures exact { Answers result (by_names tree.now fault) }
    ensures accepted { IfOk result
        (λ image.
        (image ≡ program_of tree.now) × (first_fault_of tree.now ≡ None)
        × (unit_built tree.now (names_of tree.now) ≡ true) × (fault ≡ None)) }
{
    match fault {
        None => accept_named(alloc, tree, names),
        Some(fault) => Err(OrMemory::Fault(of_names(fault))),
    }
}

/// From names without a fault on.
fn accept_named<'t>(
    alloc: Global,
    tree: &'t Unit,
    names: &Names<'t>,
) -> Result<Image, OrMemory<Refusal>>
    requires { names.now ≡ names_of tree.now }
    ensures exact { Answers result (by_rules tree.now (first_fault_of tree.now)) }
    ensures accepted { IfOk result
        (λ image.
        (image ≡ program_of tree.now) × (first_fault_of tree.now ≡ None)
        × (unit_built tree.now (names_of tree.now) ≡ true)) }
{
    match first_fault_of(alloc, tree, names) {
        Ok(fault) => accept_judged(alloc, tree, names, fault),
        Err(_) => Err(OrMemory::Memory),
    }
}

/// The first rule that a source breaks.
#[tactic(auto, unfolding(ada_legality::specs::Faults::faults_of))]
fn first_fault_of<'t>(
    alloc: Global,
    tree: &'t Unit,
    names: &Names<'t>,
) -> Result<Option<Fault>, NoMemory>
    requires { names.now ≡ names_of tree.now }
    ensures { IfOk result (λ fault. fault ≡ first_fault_of tree.now) }
{
    first_fault(alloc, tree, names)
}

/// From the first rule that is broken on, where there is one.
fn accept_judged(
    alloc: Global,
    tree: &Unit,
    names: &Names<'_>,
    fault: Option<Fault>,
) -> Result<Image, OrMemory<Refusal>>
    requires { names.now ≡ names_of tree.now }
    ensures exact { Answers result (by_rules tree.now fault) }
    ensures accepted { IfOk result
        (λ image.
        (image ≡ program_of tree.now) × (unit_built tree.now (names_of tree.now) ≡ true)
        × (fault ≡ None)) }
{
    match fault {
        None => accept_legal(alloc, tree, names),
        Some(fault) => Err(OrMemory::Fault(of_rules(fault))),
    }
}

/// From a source that breaks no rule on.
fn accept_legal(alloc: Global, tree: &Unit, names: &Names<'_>) -> Result<Image, OrMemory<Refusal>>
    requires { names.now ≡ names_of tree.now }
    ensures exact { Answers result (by_rules tree.now None) }
    ensures accepted { IfOk result
        (λ image.
        (image ≡ program_of tree.now) × (unit_built tree.now (names_of tree.now) ≡ true)) }
{
    accept_formed(alloc, tree, names, has_forms(tree, names))
}

/// Whether each of its forms is one that an image has.
fn has_forms(tree: &Unit, names: &Names<'_>) -> bool
    requires { names.now ≡ names_of tree.now }
    ensures { result ≡ unit_built tree.now (names_of tree.now) }
{
    unit_built(tree, names)
}

/// From whether each of its forms is one that an image has on.
fn accept_formed(
    alloc: Global,
    tree: &Unit,
    names: &Names<'_>,
    is_built: bool,
) -> Result<Image, OrMemory<Refusal>>
    requires { names.now ≡ names_of tree.now }
    ensures exact { Answers result (by_forms tree.now is_built) }
    ensures accepted { IfOk result (λ image. (image ≡ program_of tree.now) × (is_built ≡ true)) }
{
    if is_built {
        accept_built(alloc, tree, names)
    } else {
        Err(OrMemory::Fault(of_forms(tree)))
    }
}

/// The image of a source that no stage refuses.
fn accept_built(alloc: Global, tree: &Unit, names: &Names<'_>) -> Result<Image, OrMemory<Refusal>>
    requires { names.now ≡ names_of tree.now }
    ensures exact { Answers result (by_forms tree.now true) }
    ensures accepted { IfOk result (λ image. image ≡ program_of tree.now) }
{
    match program_of(alloc, tree, names) {
        Ok(image) => Ok(image),
        Err(_) => Err(OrMemory::Memory),
    }
}

/// The image of a source.
#[tactic(auto, unfolding(ada_image::specs::ImageOfUnits::program_of))]
fn program_of(alloc: Global, tree: &Unit, names: &Names<'_>) -> Result<Image, NoMemory>
    requires { names.now ≡ names_of tree.now }
    ensures { IfOk result (λ image. image ≡ program_of tree.now) }
{
    program_from(alloc, names, tree)
}
