//! A source is cut into its tokens.
ghost use Rattle.std.specs.Prelude.{◌≡◌, ◌≤◌, ◌++◌, length, option_to_list, OnOk, IfOk, Ok, List};
ghost use Rattle.ann_base.specs.Answers.{AnswersAs};
ghost use Rattle.ada_lex.specs.declared.tokens.Token.{Token};
ghost use Rattle.ada_lex.specs.Lexed.{Lexed, AreTokensOf};
ghost use Rattle.ada_lex.specs.Reading.{tokens_from, tokens_of, start};

use crate::scan::{Spot, piece_at};
use crate::tokens::{LexFault, Token};
use ann_base::{NoMemory, OrMemory, Place};
use std::alloc::Global;

/// The most bytes that a source has.
pub const MAX_SOURCE: usize = 262_144;

fn push_found(tokens: &mut Vec<Token>, token: Option<Token>) -> Result<(), NoMemory>
    ensures { OnOk result (tokens.new.items ≡ tokens.old.items ++ option_to_list token) }
{
    if let Some(token) = token {
        tokens.push(token)?;
    }
    Ok(())
}

fn tokens_of(alloc: Global, source: &[u8]) -> Result<Vec<Token>, OrMemory<LexFault>>
    requires { length source.now ≤ MAX_SOURCE }
    ensures { AnswersAs (λ v. v.items) result (tokens_from source.now 0 start) }
{
    let mut tokens = Vec::new(alloc);
    let mut spot = Spot {
        offset: 0,
        place: Place { line: 1, column: 1 },
    };
    let mut rest = source;
    while !rest.is_empty() {
        let (token, n) = match piece_at(spot, rest) {
            Ok(piece) => piece,
            Err(fault) => return Err(OrMemory::Fault(fault)),
        };
        push_found(&mut tokens, token)?;
        let (piece, after) = rest.split_at(n);
        spot = spot.behind(piece);
        rest = after;
    }
    Ok(tokens)
}

#[tactic(auto, unfolding(crate::specs::Reading::tokens_of))]
/// The tokens of a source in order, or its first fault (clause 2).
pub fn lex(alloc: Global, source: &[u8]) -> Result<Vec<Token>, OrMemory<LexFault>>
    // What it answers are the tokens of the source, each at its place.
    ensures found { IfOk result (λ v. Lexed source.now v.items) }
    // No other tokens are those of the source, and where there are some it answers them, unless
    // memory runs out.
    ensures only { (tokens : List Token) → Lexed source.now tokens
        → AnswersAs (λ v. v.items) result (Ok tokens) }
    // A fault is the first one from left to right; the length is asked before all.
    ensures exact { AnswersAs (λ v. v.items) result (tokens_of source.now) }
    // Each token lies inside the source, and there are no more than bytes.
    ensures inside { IfOk result (λ v. AreTokensOf source.now v.items) }
    ensures count { IfOk result (λ v. length v.items ≤ length source.now) }
    ensures short { IfOk result (λ v. length source.now ≤ MAX_SOURCE) }
{
    if source.len() > MAX_SOURCE {
        return Err(OrMemory::Fault(LexFault::TooLong));
    }
    tokens_of(alloc, source)
}
