//! Reading tokens one after another.
ghost use Rattle.std.specs.Prelude.{◌≡◌, [], List, length, map, IfOk};
ghost use Rattle.std.specs.Char.{to_ascii_lowercase};
ghost use Rattle.ada_lex.specs.Lexed.{IsTokenOf, AreTokensOf};
ghost use Rattle.ada_lex.specs.ReservedLetters.{word_letters};
ghost use Rattle.ada_lex.specs.DelimiterLetters.{delimiter_letters};
ghost use Rattle.ada_tree.specs.Written.{lexeme_of, lexemes_of};
ghost use Rattle.ann_base.specs.declared.faults.OrMemory.TheVariants as answer;
ghost use Rattle.ada_grammar.specs.declared.stuck.Stuck.TheVariants.{At, TooDeep};
ghost use Rattle.ada_grammar.specs.Reading.{is_this_word, is_this_delimiter, is_identifier};
ghost use Rattle.ada_grammar.specs.Reading.{is_numeral, is_string, starts, starts_both};
ghost use Rattle.ada_grammar.specs.Reading.{sees_word, sees_delimiter, sees_identifier, the_word};
ghost use Rattle.ada_grammar.specs.Reading.{the_delimiter, an_identifier, a_number, a_text};
ghost use Rattle.ada_grammar.specs.Reading.{flag_of, end_name_of, opening_of, opening_is_of};
ghost use Rattle.ada_grammar.specs.Reads.{Reads};

use crate::stuck::Stuck;
use ada_lex::{
    Delimiter, Kind, Reserved, Token, is_reserved, lower_case, same_word, spelling, text_value,
};
use ada_tree::{Bytes, Identifier};
use ann_base::{OrMemory, Place};
use std::alloc::Global;
use std::marker::Model;

/// The tokens of a source that are still to read. Contracts see what they say.
#[derive(Drop)]
pub struct Cursor<'a> {
    source: &'a [u8],
    rest: &'a [Token],
}

impl<'a> Model for Cursor<'a> {
    ghost use Rattle.std.specs.Prelude.{List};
    ghost use Rattle.ada_lex.specs.Lexed.{AreTokensOf};
    ghost use Rattle.ada_tree.specs.Written.{Lexeme, lexemes_of};

    ghost Value = { List Lexeme };

    ghost view = { λ cursor. lexemes_of cursor.source.now cursor.rest.now };

    ghost invariant = { λ cursor. AreTokensOf cursor.source.now cursor.rest.now };
}

fn is_this_word(source: &[u8], token: Token, word: Reserved) -> bool
    requires { IsTokenOf source.now token }
    ensures { result ≡ is_this_word (word_letters word) (lexeme_of source.now token) }
{
    token.kind == Kind::Word && word.is_spelt(spelling(source, token))
}

fn is_word_spelt(source: &[u8], token: Token, text: &[u8]) -> bool
    requires { IsTokenOf source.now token }
    ensures { result ≡ is_this_word (map to_ascii_lowercase text.now) (lexeme_of source.now token) }
{
    token.kind == Kind::Word && same_word(spelling(source, token), text)
}

fn is_this_delimiter(source: &[u8], token: Token, delimiter: Delimiter) -> bool
    requires { IsTokenOf source.now token }
    ensures { result
        ≡ is_this_delimiter (delimiter_letters delimiter) (lexeme_of source.now token) }
{
    token.kind == Kind::Delimiter && spelling(source, token) == delimiter.letters()
}

fn is_identifier(source: &[u8], token: Token) -> bool
    requires { IsTokenOf source.now token }
    ensures { result ≡ is_identifier (lexeme_of source.now token) }
{
    token.kind == Kind::Word && !is_reserved(spelling(source, token))
}

impl<'a> Cursor<'a> {
    /// All tokens are still to read.
    pub fn new(source: &'a [u8], tokens: &'a [Token]) -> Cursor<'a>
        requires { AreTokensOf source.now tokens.now }
        ensures { result ≡ lexemes_of source.now tokens.now }
    {
        Cursor {
            source,
            rest: tokens,
        }
    }

    /// How many tokens remain to be read.
    pub fn remaining(&self) -> usize
        ensures { result ≡ length self.now }
    {
        self.rest.len()
    }

    /// That the next token cannot stand here.
    pub fn stuck(&self) -> OrMemory<Stuck>
        ensures { result ≡ answer.Fault (At (length self.now)) }
    {
        OrMemory::Fault(Stuck::At {
            remaining: self.rest.len(),
        })
    }

    /// That the next token opens a level beyond the limit.
    pub fn too_deep(&self) -> OrMemory<Stuck>
        ensures { result ≡ answer.Fault (TooDeep (length self.now)) }
    {
        OrMemory::Fault(Stuck::TooDeep {
            remaining: self.rest.len(),
        })
    }

    /// Whether the next token is this reserved word.
    #[tactic(auto, unfolding(crate::specs::Reading::starts))]
    pub fn is_word(&self, word: Reserved) -> bool
        ensures { result ≡ sees_word (word_letters word) self.now }
    {
        match self.rest {
            [] => false,
            [token, ..] => is_this_word(self.source, *token, word),
        }
    }

    /// Whether the next token is a word that is spelt so, in any case, as the names of attributes
    /// and constructs are.
    #[tactic(auto, unfolding(crate::specs::Reading::starts))]
    pub fn is_spelt(&self, text: &[u8]) -> bool
        ensures { result ≡ sees_word (map to_ascii_lowercase text.now) self.now }
    {
        match self.rest {
            [] => false,
            [token, ..] => is_word_spelt(self.source, *token, text),
        }
    }

    /// Whether the next token is this delimiter.
    #[tactic(auto, unfolding(crate::specs::Reading::starts))]
    pub fn is_delimiter(&self, delimiter: Delimiter) -> bool
        ensures { result ≡ sees_delimiter (delimiter_letters delimiter) self.now }
    {
        match self.rest {
            [] => false,
            [token, ..] => is_this_delimiter(self.source, *token, delimiter),
        }
    }

    /// Whether the next token is an identifier.
    #[tactic(auto, unfolding(crate::specs::Reading::starts))]
    pub fn is_identifier(&self) -> bool
        ensures { result ≡ sees_identifier self.now }
    {
        match self.rest {
            [] => false,
            [token, ..] => is_identifier(self.source, *token),
        }
    }

    /// Whether the next token is a number.
    #[tactic(auto, unfolding(crate::specs::Reading::starts))]
    pub fn is_number(&self) -> bool
        ensures { result ≡ starts is_numeral self.now }
    {
        match self.rest {
            [] => false,
            [token, ..] => token.kind == Kind::Number,
        }
    }

    /// Whether the next token is a text.
    #[tactic(auto, unfolding(crate::specs::Reading::starts))]
    pub fn is_text(&self) -> bool
        ensures { result ≡ starts is_string self.now }
    {
        match self.rest {
            [] => false,
            [token, ..] => token.kind == Kind::Text,
        }
    }

    /// Whether the next two tokens are an identifier and this delimiter.
    #[tactic(auto, unfolding(crate::specs::Reading::starts, crate::specs::Reading::starts_both))]
    pub fn is_identifier_before(&self, delimiter: Delimiter) -> bool
        ensures { result ≡ starts_both is_identifier
            (is_this_delimiter (delimiter_letters delimiter)) self.now }
    {
        match self.rest {
            [] => false,
            [_] => false,
            [first, second, ..] => {
                is_identifier(self.source, *first)
                    && is_this_delimiter(self.source, *second, delimiter)
            }
        }
    }

    /// Reads this reserved word.
    #[tactic(auto, unfolding(crate::specs::Reading::token, crate::specs::Reading::the_word))]
    pub fn word(&mut self, word: Reserved) -> Result<Place, OrMemory<Stuck>>
        ensures { Reads result self.new (the_word (word_letters word) self.old) }
    {
        match self.rest {
            [] => Err(self.stuck()),
            [token, rest @ ..] => {
                if is_this_word(self.source, *token, word) {
                    self.rest = rest;
                    Ok(token.place)
                } else {
                    Err(self.stuck())
                }
            }
        }
    }

    /// Reads a word that is spelt so, in any case.
    #[tactic(auto, unfolding(crate::specs::Reading::token, crate::specs::Reading::the_word))]
    pub fn spelt(&mut self, text: &[u8]) -> Result<Place, OrMemory<Stuck>>
        ensures { Reads result self.new (the_word (map to_ascii_lowercase text.now) self.old) }
    {
        match self.rest {
            [] => Err(self.stuck()),
            [token, rest @ ..] => {
                if is_word_spelt(self.source, *token, text) {
                    self.rest = rest;
                    Ok(token.place)
                } else {
                    Err(self.stuck())
                }
            }
        }
    }

    /// Reads this delimiter.
    #[tactic(auto, unfolding(crate::specs::Reading::token, crate::specs::Reading::the_delimiter))]
    pub fn delimiter(&mut self, delimiter: Delimiter) -> Result<Place, OrMemory<Stuck>>
        ensures { Reads result self.new (the_delimiter (delimiter_letters delimiter) self.old) }
    {
        match self.rest {
            [] => Err(self.stuck()),
            [token, rest @ ..] => {
                if is_this_delimiter(self.source, *token, delimiter) {
                    self.rest = rest;
                    Ok(token.place)
                } else {
                    Err(self.stuck())
                }
            }
        }
    }

    /// Reads an identifier, a word that is not reserved, and answers it in lower case.
    #[tactic(auto, unfolding(crate::specs::Reading::token, crate::specs::Reading::an_identifier))]
    pub fn identifier(&mut self, alloc: Global) -> Result<Identifier, OrMemory<Stuck>>
        ensures reads { Reads result self.new (an_identifier self.old) }
        ensures lower { IfOk result (λ name. map to_ascii_lowercase name.text ≡ name.text) }
    {
        match self.rest {
            [] => Err(self.stuck()),
            [token, rest @ ..] => {
                if is_identifier(self.source, *token) {
                    let text = lower_case(alloc, spelling(self.source, *token))?;
                    self.rest = rest;
                    Ok(Identifier {
                        place: token.place,
                        text: Bytes::from_vec(text),
                    })
                } else {
                    Err(self.stuck())
                }
            }
        }
    }

    /// Reads a number, and answers its place and how it is written.
    #[tactic(auto, unfolding(crate::specs::Reading::token, crate::specs::Reading::a_number))]
    pub fn number(&mut self, alloc: Global) -> Result<(Place, Bytes), OrMemory<Stuck>>
        ensures { Reads result self.new (a_number self.old) }
    {
        match self.rest {
            [] => Err(self.stuck()),
            [token, rest @ ..] => {
                if token.kind == Kind::Number {
                    let literal = Bytes::copy_of(alloc, spelling(self.source, *token))?;
                    self.rest = rest;
                    Ok((token.place, literal))
                } else {
                    Err(self.stuck())
                }
            }
        }
    }

    /// Reads a text, and answers its place and what stands between its quotation marks, a doubled
    /// mark once.
    #[tactic(auto, unfolding(crate::specs::Reading::token, crate::specs::Reading::a_text))]
    pub fn text(&mut self, alloc: Global) -> Result<(Place, Bytes), OrMemory<Stuck>>
        ensures { Reads result self.new (a_text self.old) }
    {
        match self.rest {
            [] => Err(self.stuck()),
            [token, rest @ ..] => {
                if token.kind == Kind::Text {
                    let text = text_value(alloc, spelling(self.source, *token))?;
                    self.rest = rest;
                    Ok((token.place, Bytes::from_vec(text)))
                } else {
                    Err(self.stuck())
                }
            }
        }
    }

    /// Reads this reserved word if it comes next, and answers whether it did.
    #[tactic(auto, unfolding(crate::specs::Reading::flag_of))]
    pub fn flag(&mut self, word: Reserved) -> Result<bool, OrMemory<Stuck>>
        ensures { Reads result self.new (flag_of (word_letters word) self.old) }
    {
        if self.is_word(word) {
            self.word(word)?;
            Ok(true)
        } else {
            Ok(false)
        }
    }

    /// Reads the name of a construct behind its `end` if it comes next, and answers whether it did.
    #[tactic(auto, unfolding(crate::specs::Reading::flag_of, crate::specs::Reading::end_name_of))]
    pub fn end_name(&mut self, name: &[u8]) -> Result<bool, OrMemory<Stuck>>
        ensures { Reads result self.new (end_name_of (map to_ascii_lowercase name.now) self.old) }
    {
        if self.is_spelt(name) {
            self.spelt(name)?;
            Ok(true)
        } else {
            Ok(false)
        }
    }

    /// Reads an opening bracket, where `left` levels may still be opened.
    #[tactic(auto, unfolding(crate::specs::Reading::opening_of))]
    pub fn open(&mut self, left: usize) -> Result<Place, OrMemory<Stuck>>
        ensures { Reads result self.new (opening_of left self.old) }
    {
        match left {
            0 => {
                if self.is_delimiter(Delimiter::OpenBracket) {
                    Err(self.too_deep())
                } else {
                    Err(self.stuck())
                }
            }
            _ => self.delimiter(Delimiter::OpenBracket),
        }
    }

    /// Reads the `is` of a body, where `left` levels may still be opened.
    #[tactic(auto, unfolding(crate::specs::Reading::opening_is_of))]
    pub fn open_is(&mut self, left: usize) -> Result<Place, OrMemory<Stuck>>
        ensures { Reads result self.new (opening_is_of left self.old) }
    {
        match left {
            0 => {
                if self.is_word(Reserved::Is) {
                    Err(self.too_deep())
                } else {
                    Err(self.stuck())
                }
            }
            _ => self.word(Reserved::Is),
        }
    }
}
