//! The first reason for which a source is refused, in the order of the steps that refuse.
ghost use Rattle.std.specs.Prelude.{◌≡◌, ◌≤◌, length};
ghost use Rattle.ada_verdicts.specs.Refusals.{of_tokens, of_grammar, of_names, of_rules};
ghost use Rattle.ada_verdicts.specs.Refusals.{of_forms, place_of, end_of, place_after};

use crate::refusals::{Code, Refusal};
use ada_grammar::ParseFault;
use ada_legality::{Fault, number_of_rule};
use ada_lex::{LexFault, MAX_SOURCE, Token};
use ada_regions::NameFault;
use ada_tree::Unit;
use ann_base::Place;

/// The place of a source's first byte.
const FIRST: Place = Place { line: 1, column: 1 };

/// The refusal of a source without tokens.
pub fn of_tokens(fault: LexFault) -> Refusal
    ensures { result ≡ of_tokens fault }
{
    match fault {
        LexFault::BadByte(place) => refused_at(place, Code::BadByte),
        LexFault::BadNumber(place) => refused_at(place, Code::BadNumber),
        LexFault::OpenString(place) => refused_at(place, Code::OpenText),
        LexFault::TooLong => refused_at(FIRST, Code::TooLong),
    }
}

/// The refusal of tokens that spell no tree, at the place of the token; the end of the source
/// stands after its last byte.
pub fn of_grammar(source: &[u8], tokens: &[Token], fault: ParseFault) -> Refusal
    requires { length source.now ≤ MAX_SOURCE }
    ensures { result ≡ of_grammar source.now tokens.now fault }
{
    match fault {
        ParseFault::Unexpected { token } => {
            refused_at(place_of(source, tokens, token), Code::Unexpected)
        }
        ParseFault::TooDeep { token } => {
            refused_at(place_of(source, tokens, token), Code::TooDeep)
        }
    }
}

/// The refusal of a name that has no declaration, two, or an unclear one.
pub fn of_names(fault: NameFault) -> Refusal
    ensures { result ≡ of_names fault }
{
    match fault {
        NameFault::Unknown(place) => refused_at(place, Code::Unknown),
        NameFault::Twice(place) => refused_at(place, Code::Twice),
        NameFault::Ambiguous(place) => refused_at(place, Code::Ambiguous),
    }
}

/// The refusal of what breaks a rule, at its first token.
pub fn of_rules(fault: Fault) -> Refusal
    ensures { result ≡ of_rules fault }
{
    refused_at(fault.place, Code::Rule(number_of_rule(fault.rule)))
}

/// The refusal of a form that no image has, at the main procedure's name.
pub fn of_forms(tree: &Unit) -> Refusal
    ensures { result ≡ of_forms tree.now }
{
    refused_at(tree.main.name.place, Code::Rule(40))
}

/// A refusal for this reason at this place.
fn refused_at(place: Place, code: Code) -> Refusal
    ensures { result ≡ record { place = place; code = code } }
{
    Refusal { place, code }
}

/// The place of a token, or of the end.
fn place_of(source: &[u8], tokens: &[Token], token: u32) -> Place
    requires { length source.now ≤ MAX_SOURCE }
    ensures { result ≡ place_of source.now tokens.now token }
{
    let token = token as usize;
    if token < tokens.len() {
        tokens[token].place
    } else {
        end_of(source)
    }
}

/// The place after the last byte.
fn end_of(source: &[u8]) -> Place
    requires { length source.now ≤ MAX_SOURCE }
    ensures { result ≡ end_of source.now }
{
    let mut place = FIRST;
    let mut rest = source;
    while let [byte, after @ ..] = rest {
        place = place_after(place, *byte);
        rest = after;
    }
    place
}

/// The place after a byte; a line feed alone ends a line.
fn place_after(place: Place, byte: u8) -> Place
    requires line { place.line ≤ MAX_SOURCE }
    requires column { place.column ≤ MAX_SOURCE }
    ensures { result ≡ place_after place byte }
{
    if byte == b'\n' {
        Place {
            line: place.line + 1,
            column: 1,
        }
    } else {
        Place {
            line: place.line,
            column: place.column + 1,
        }
    }
}
