//! Library units and the source, as they are read (ISO/IEC 8652:2012, 2.8, clause 7, 10.1).
ghost use Rattle.std.specs.Prelude.{◌≡◌, ◌≤◌, length, true, IfErr, IfOk, Ok};
ghost use Rattle.ann_base.specs.Answers.{Answers, OfFault};
ghost use Rattle.ada_lex.specs.Lexed.{AreTokensOf};
ghost use Rattle.ada_tree.specs.declared.units.Unit.{Unit as Tree};
ghost use Rattle.ada_tree.specs.Written.{lexemes_of};
ghost use Rattle.ada_tree.specs.Spelling.{SpellsTokens};
ghost use Rattle.ada_tree.specs.Shape.{is_shaped};
ghost use Rattle.ada_grammar.specs.Reads.{Reads};
ghost use Rattle.grammar_laws.specs.FaultLaws.{NoneGoesOn};
ghost use Rattle.ada_grammar.specs.ReadingUnits.{finished, main_of, package_body_of};
ghost use Rattle.ada_grammar.specs.ReadingUnits.{package_declaration_of, package_of};
ghost use Rattle.ada_grammar.specs.ReadingUnits.{package_statements_of, packages_of, placed_fault};
ghost use Rattle.ada_grammar.specs.ReadingUnits.{pragma_of, private_part_of, source_of, unit_of};

use ada_clauses::{aspects, context_clauses};
use ada_expressions::{argument, items, separated};
use ada_grammar::{Cursor, ParseFault, Stuck};
use ada_lex::{Delimiter, MAX_SOURCE, Reserved, Token};
use ada_selects::end_name;
use ada_sequences::{below, body, declarations, sequence};
use ada_tree::{
    ContextClause, Declaration, LibraryPackage, MAX_NESTING, MainProcedure, Package, PackageBody,
    PackageDeclaration, Pragma, Sequence, SequenceRole, Unit,
};
use ann_base::{OrMemory, Place};
use grammar_laws::{no_tree_goes_deeper, no_tree_goes_on, read_is_spelt, spelt_is_read};
use sqlite_items::Items;
use std::alloc::Global;

/// The tree that the tokens of a source spell (10.1), or the first token with which reading cannot
/// go on, or the one that opens nesting 101. `tokens` are those that `lex` answers for the source.
pub fn parse(alloc: Global, source: &[u8], tokens: &[Token]) -> Result<Unit, OrMemory<ParseFault>>
    requires tokens { AreTokensOf source.now tokens.now }
    requires count { length tokens.now ≤ MAX_SOURCE }
    // The tree spells the tokens, and is shaped.
    ensures found { IfOk result (λ unit. SpellsTokens unit (lexemes_of source.now tokens.now)) }
    ensures shaped { IfOk result (λ unit. is_shaped unit ≡ true) }
    // Any shaped tree that spells the tokens is the answer, unless memory runs out; so it is
    // refused only where there is none.
    ensures only { (unit : Tree) → SpellsTokens unit (lexemes_of source.now tokens.now)
        → is_shaped unit ≡ true → Answers result (Ok unit) }
    // Otherwise the fault is at the first token with which the reading from left to right cannot go
    // on.
    ensures exact { Answers result (unit_of (lexemes_of source.now tokens.now)) }
    // No shaped tree begins with the tokens up to that of the fault, itself counted.
    ensures place { IfErr result (OfFault (NoneGoesOn (lexemes_of source.now tokens.now))) }
{
    // What the laws of the grammar say of what is read, and of where the reading stops.
    read_is_spelt();
    spelt_is_read();
    no_tree_goes_on();
    no_tree_goes_deeper();
    read(alloc, source, tokens)
}

/// What reading the tokens from left to right gives.
fn read(alloc: Global, source: &[u8], tokens: &[Token]) -> Result<Unit, OrMemory<ParseFault>>
    requires tokens { AreTokensOf source.now tokens.now }
    requires count { length tokens.now ≤ MAX_SOURCE }
    ensures exact { Answers result (unit_of (lexemes_of source.now tokens.now)) }
{
    let mut cursor = Cursor::new(source, tokens);
    match source_unit(alloc, &mut cursor, MAX_NESTING) {
        Ok(unit) => Ok(unit),
        Err(OrMemory::Fault(stuck)) => Err(OrMemory::Fault(fault(tokens, stuck))),
        Err(OrMemory::Memory) => Err(OrMemory::Memory),
    }
}

/// The fault where reading these tokens is stuck: how many tokens were read before it.
fn fault(tokens: &[Token], stuck: Stuck) -> ParseFault
    requires count { length tokens.now ≤ MAX_SOURCE }
    ensures { result ≡ placed_fault (length tokens.now) stuck }
{
    match stuck {
        Stuck::At { remaining } => ParseFault::Unexpected {
            token: tokens.len().saturating_sub(remaining) as u32,
        },
        Stuck::TooDeep { remaining } => ParseFault::TooDeep {
            token: tokens.len().saturating_sub(remaining) as u32,
        },
    }
}

/// `{PRAGMA} {PACKAGE} MAIN` (10.1)
#[tactic(auto, unfolding(ada_grammar::specs::ReadingUnits::source_of))]
fn source_unit(alloc: Global, cursor: &mut Cursor<'_>, left: usize) -> Result<Unit, OrMemory<Stuck>>
    ensures { Reads result cursor.new (source_of left cursor.old) }
{
    let pragmas = items(
        alloc,
        cursor,
        |cursor| cursor.is_word(Reserved::Pragma),
        |cursor| pragma_line(alloc, cursor, left),
    )?;
    let (packages, context) = packages(alloc, cursor, left)?;
    let main = main_procedure(alloc, cursor, left)?;
    finished(
        cursor,
        Unit {
            pragmas,
            packages,
            context,
            main,
        },
    )
}

/// The unit, where nothing stands behind it.
#[tactic(auto, using(crate::proofs::Sources::finished_at_end, crate::proofs::Sources::finished_too_early))]
fn finished(cursor: &mut Cursor<'_>, unit: Unit) -> Result<Unit, OrMemory<Stuck>>
    ensures { Reads result cursor.new (finished unit cursor.old) }
{
    if cursor.remaining() > 0 {
        Err(cursor.stuck())
    } else {
        Ok(unit)
    }
}

/// A pragma (2.8).
#[tactic(auto, unfolding(ada_grammar::specs::ReadingUnits::pragma_of))]
fn pragma_line(
    alloc: Global,
    cursor: &mut Cursor<'_>,
    left: usize,
) -> Result<Pragma, OrMemory<Stuck>>
    ensures { Reads result cursor.new (pragma_of left cursor.old) }
{
    let place = cursor.word(Reserved::Pragma)?;
    let name = cursor.identifier(alloc)?;
    cursor.open(left)?;
    let arguments = separated(alloc, cursor, Delimiter::Comma, |cursor| {
        argument(alloc, cursor, left)
    })?;
    cursor.delimiter(Delimiter::CloseBracket)?;
    cursor.delimiter(Delimiter::Semicolon)?;
    Ok(Pragma {
        place,
        name,
        arguments,
    })
}

/// `[private {DECLARATION}]` (7.1)
#[tactic(auto, unfolding(ada_grammar::specs::ReadingUnits::private_part_of))]
fn private_part(
    alloc: Global,
    cursor: &mut Cursor<'_>,
    left: usize,
) -> Result<Option<Items<Declaration<Sequence>>>, OrMemory<Stuck>>
    ensures { Reads result cursor.new (private_part_of left cursor.old) }
{
    if cursor.is_word(Reserved::Private) {
        cursor.word(Reserved::Private)?;
        let hidden = declarations(alloc, cursor, left)?;
        Ok(Some(hidden))
    } else {
        Ok(None)
    }
}

/// A package declaration, behind `package` (7.1).
#[tactic(auto, unfolding(ada_grammar::specs::ReadingUnits::package_declaration_of))]
fn package_declaration(
    alloc: Global,
    cursor: &mut Cursor<'_>,
    left: usize,
    place: Place,
) -> Result<Package, OrMemory<Stuck>>
    ensures { Reads result cursor.new (package_declaration_of left place cursor.old) }
{
    let name = cursor.identifier(alloc)?;
    cursor.word(Reserved::Is)?;
    let declarations = declarations(alloc, cursor, left)?;
    let private = private_part(alloc, cursor, left)?;
    cursor.word(Reserved::End)?;
    let named_at_end = end_name(cursor, &name)?;
    cursor.delimiter(Delimiter::Semicolon)?;
    Ok(Package::Declaration(PackageDeclaration {
        place,
        name,
        declarations,
        private,
        named_at_end,
    }))
}

/// `[begin SEQUENCE]` (7.2)
#[tactic(auto, unfolding(ada_grammar::specs::ReadingUnits::package_statements_of))]
fn package_statements(
    alloc: Global,
    cursor: &mut Cursor<'_>,
    left: usize,
) -> Result<Option<Sequence>, OrMemory<Stuck>>
    ensures { Reads result cursor.new (package_statements_of left cursor.old) }
{
    if cursor.is_word(Reserved::Begin) {
        cursor.word(Reserved::Begin)?;
        let statements = sequence(alloc, cursor, left, SequenceRole::Handled)?;
        Ok(Some(statements))
    } else {
        Ok(None)
    }
}

/// A package body, behind `package` (7.2).
#[tactic(auto, unfolding(ada_grammar::specs::ReadingUnits::package_body_of))]
fn package_body(
    alloc: Global,
    cursor: &mut Cursor<'_>,
    left: usize,
    place: Place,
) -> Result<Package, OrMemory<Stuck>>
    ensures { Reads result cursor.new (package_body_of left place cursor.old) }
{
    cursor.word(Reserved::Body)?;
    let name = cursor.identifier(alloc)?;
    cursor.open_is(left)?;
    let inside = below(left);
    let declarations = declarations(alloc, cursor, inside)?;
    let sequence = package_statements(alloc, cursor, inside)?;
    cursor.word(Reserved::End)?;
    let named_at_end = end_name(cursor, &name)?;
    cursor.delimiter(Delimiter::Semicolon)?;
    Ok(Package::Body(PackageBody {
        place,
        name,
        declarations,
        sequence,
        named_at_end,
    }))
}

/// A package declaration or a package body (7.1, 7.2).
#[tactic(auto, unfolding(ada_grammar::specs::ReadingUnits::package_of))]
fn package(alloc: Global, cursor: &mut Cursor<'_>, left: usize) -> Result<Package, OrMemory<Stuck>>
    ensures { Reads result cursor.new (package_of left cursor.old) }
{
    let place = cursor.word(Reserved::Package)?;
    if cursor.is_word(Reserved::Body) {
        package_body(alloc, cursor, left, place)
    } else {
        package_declaration(alloc, cursor, left, place)
    }
}

/// Packages, each with its context, and the context that no package follows (10.1.1).
#[tactic(auto, unfolding(ada_grammar::specs::ReadingUnits::packages_of))]
fn packages(
    alloc: Global,
    cursor: &mut Cursor<'_>,
    left: usize,
) -> Result<(Items<LibraryPackage>, Items<ContextClause>), OrMemory<Stuck>>
    ensures { Reads result cursor.new (packages_of left cursor.old) }
{
    let mut found = Items::new(alloc);
    for _turn in 0..cursor.remaining() {
        let context = context_clauses(alloc, cursor)?;
        if !cursor.is_word(Reserved::Package) {
            return Ok((found, context));
        }
        let package = package(alloc, cursor, left)?;
        found.push(LibraryPackage { context, package })?;
    }
    let last = context_clauses(alloc, cursor)?;
    Ok((found, last))
}

/// The main procedure (6.3).
#[tactic(auto, unfolding(ada_grammar::specs::ReadingUnits::main_of))]
fn main_procedure(
    alloc: Global,
    cursor: &mut Cursor<'_>,
    left: usize,
) -> Result<MainProcedure, OrMemory<Stuck>>
    ensures { Reads result cursor.new (main_of left cursor.old) }
{
    let place = cursor.word(Reserved::Procedure)?;
    let name = cursor.identifier(alloc)?;
    let aspects = aspects(alloc, cursor, left)?;
    let body = body(alloc, cursor, left, &name)?;
    Ok(MainProcedure {
        place,
        name,
        aspects,
        body,
    })
}
