//! Accept statements, as they are read (ISO/IEC 8652:2012, 9.5.2).
ghost use Rattle.std.specs.Prelude.{◌≡◌, suc, map};
ghost use Rattle.std.specs.Char.{to_ascii_lowercase};
ghost use Rattle.ada_grammar.specs.Reading.{end_name_of};
ghost use Rattle.ada_grammar.specs.Reads.{Reads};
ghost use Rattle.ada_selects.specs.Inside.{ReadsInside};
ghost use Rattle.ada_grammar.specs.ReadingStatements.{accept_body_of, accept_of};

use crate::nested::Nested;
use crate::reader::SelectReader;
use ada_expressions::parameters;
use ada_grammar::{Cursor, Stuck};
use ada_lex::{Delimiter, Reserved};
use ada_tree::{Accept, AcceptBody, Identifier, SequenceRole};
use ann_base::OrMemory;
use std::alloc::Global;

/// The construct's own name behind its `end`, or none: whether it stands there.
pub fn end_name(cursor: &mut Cursor<'_>, name: &Identifier) -> Result<bool, OrMemory<Stuck>>
    requires lower { map to_ascii_lowercase name.now.text ≡ name.now.text }
    ensures { Reads result cursor.new (end_name_of name.now.text cursor.old) }
{
    cursor.end_name(name.text.as_slice())
}

impl<
    Q: Nested,
    F: Fn(Global, &mut Cursor<'_>, usize, SequenceRole) -> Result<Q, OrMemory<Stuck>> + Copy,
> SelectReader<F> {
    /// `[do SEQUENCE end [NAME]]` (9.5.2)
    #[tactic(auto, unfolding(ada_grammar::specs::ReadingStatements::accept_body_of))]
    fn accept_body(
        &self,
        cursor: &mut Cursor<'_>,
        name: &Identifier,
    ) -> Result<Option<AcceptBody<Q>>, OrMemory<Stuck>>
        requires reads { ReadsInside Q.reading (suc self.now.left) (F.pre self.now.read)
            (F.post self.now.read) }
        requires lower { map to_ascii_lowercase name.now.text ≡ name.now.text }
        ensures { Reads result cursor.new
            (accept_body_of self.now.left (Q.reading self.now.left) name.now.text cursor.old) }
    {
        if cursor.is_word(Reserved::Do) {
            cursor.word(Reserved::Do)?;
            let sequence = self.sequence(cursor, SequenceRole::Handled)?;
            cursor.word(Reserved::End)?;
            let named_at_end = end_name(cursor, name)?;
            Ok(Some(AcceptBody {
                sequence,
                named_at_end,
            }))
        } else {
            Ok(None)
        }
    }

    /// An accept statement (9.5.2).
    #[tactic(auto, unfolding(ada_grammar::specs::ReadingStatements::accept_of))]
    pub fn accept(&self, cursor: &mut Cursor<'_>) -> Result<Accept<Q>, OrMemory<Stuck>>
        requires reads { ReadsInside Q.reading (suc self.now.left) (F.pre self.now.read)
            (F.post self.now.read) }
        ensures { Reads result cursor.new
            (accept_of self.now.left (Q.reading self.now.left) cursor.old) }
    {
        let place = cursor.word(Reserved::Accept)?;
        let entry = cursor.identifier(self.alloc)?;
        let parameters = parameters(self.alloc, cursor, self.left)?;
        let body = self.accept_body(cursor, &entry)?;
        cursor.delimiter(Delimiter::Semicolon)?;
        Ok(Accept {
            place,
            entry,
            parameters,
            body,
        })
    }
}
