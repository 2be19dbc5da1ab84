//! Bodies, and all declarations (ISO/IEC 8652:2012, 3.11, 6.3, 9.1, 9.4, 9.5.2).
ghost use Rattle.std.specs.Prelude.{◌≡◌, map};
ghost use Rattle.std.specs.Char.{to_ascii_lowercase};
ghost use Rattle.ada_grammar.specs.Reading.{below};
ghost use Rattle.ada_grammar.specs.Reads.{Reads};
ghost use Rattle.ada_grammar.specs.ReadingDeclarations.{begins_operation};
ghost use Rattle.ada_selects.specs.Inside.{ReadsInside};
ghost use Rattle.ada_grammar.specs.ReadingBodies.{any_protected_of, any_task_of};
ghost use Rattle.ada_grammar.specs.ReadingBodies.{begins_declaration, begins_unit, body_of};
ghost use Rattle.ada_grammar.specs.ReadingBodies.{declaration_of, entry_operation_of};
ghost use Rattle.ada_grammar.specs.ReadingBodies.{operation_body_of, protected_body_of};
ghost use Rattle.ada_grammar.specs.ReadingBodies.{subprogram_body_of, subprogram_of};
ghost use Rattle.ada_grammar.specs.ReadingBodies.{subprogram_operation_of, task_body_of};
ghost use Rattle.ada_grammar.specs.ReadingSequences.{inside_of, sequence_of};

use crate::sequences::SequenceReader;
use ada_clauses::{
    begins_operation, begins_specification, entry_head, named_declaration, protected_declaration,
    specification, subtype_declaration, task_declaration, type_declaration, use_clause,
};
use ada_expressions::items;
use ada_grammar::{Cursor, Stuck};
use ada_lex::{Delimiter, Reserved};
use ada_selects::end_name;
use ada_tree::{
    Body, Declaration, Identifier, OperationBody, ProtectedBody, Sequence, SequenceRole,
    SubprogramSpecification,
};
use ann_base::{OrMemory, Place};
use std::alloc::Global;

/// How many levels are left behind one that is opened.
pub fn below(left: usize) -> usize
    ensures { result ≡ below left }
{
    match left {
        0 => 0,
        left => left - 1,
    }
}

/// Whether a declaration that begins with another word than `type` or `subtype`, and with no name,
/// begins here (3.1).
fn begins_unit(cursor: &Cursor<'_>) -> bool
    ensures { result ≡ begins_unit cursor.now }
{
    cursor.is_word(Reserved::Task)
        || cursor.is_word(Reserved::Protected)
        || cursor.is_word(Reserved::Use)
        || begins_specification(cursor)
}

/// Whether a declaration begins here (3.1).
#[tactic(auto, unfolding(ada_grammar::specs::ReadingBodies::begins_declaration))]
pub fn begins_declaration(cursor: &Cursor<'_>) -> bool
    ensures { result ≡ begins_declaration cursor.now }
{
    cursor.is_identifier()
        || cursor.is_word(Reserved::TypeWord)
        || cursor.is_word(Reserved::Subtype)
        || begins_unit(cursor)
}

impl<
    F: Fn(Global, &mut Cursor<'_>, usize, SequenceRole) -> Result<Sequence, OrMemory<Stuck>> + Copy,
> SequenceReader<F> {
    /// `is BODY end [NAME];` (3.11)
    #[tactic(auto, unfolding(ada_grammar::specs::ReadingBodies::body_of))]
    pub fn body(
        &self,
        cursor: &mut Cursor<'_>,
        name: &Identifier,
    ) -> Result<Body<Sequence>, OrMemory<Stuck>>
        requires reads { ReadsInside sequence_of self.now.left (F.pre self.now.read)
            (F.post self.now.read) }
        requires lower { map to_ascii_lowercase name.now.text ≡ name.now.text }
        ensures { Reads result cursor.new
            (body_of self.now.left (inside_of self.now.left) name.now.text cursor.old) }
    {
        cursor.open_is(self.left)?;
        let sequence = self.inner(cursor, SequenceRole::Body)?;
        cursor.word(Reserved::End)?;
        let named_at_end = end_name(cursor, name)?;
        cursor.delimiter(Delimiter::Semicolon)?;
        Ok(Body {
            sequence,
            named_at_end,
        })
    }

    /// The body of a protected procedure or function (9.4).
    #[tactic(auto, unfolding(ada_grammar::specs::ReadingBodies::subprogram_operation_of))]
    fn subprogram_operation(
        &self,
        cursor: &mut Cursor<'_>,
    ) -> Result<OperationBody<Sequence>, OrMemory<Stuck>>
        requires reads { ReadsInside sequence_of self.now.left (F.pre self.now.read)
            (F.post self.now.read) }
        ensures { Reads result cursor.new
            (subprogram_operation_of self.now.left (inside_of self.now.left) cursor.old) }
    {
        let specification = specification(self.alloc, cursor, self.left)?;
        let body = self.body(cursor, &specification.name)?;
        Ok(OperationBody::Subprogram {
            specification,
            body,
        })
    }

    /// An entry body (9.5.2).
    #[tactic(auto, unfolding(ada_grammar::specs::ReadingBodies::entry_operation_of))]
    fn entry_operation(
        &self,
        cursor: &mut Cursor<'_>,
    ) -> Result<OperationBody<Sequence>, OrMemory<Stuck>>
        requires reads { ReadsInside sequence_of self.now.left (F.pre self.now.read)
            (F.post self.now.read) }
        ensures { Reads result cursor.new
            (entry_operation_of self.now.left (inside_of self.now.left) cursor.old) }
    {
        let head = entry_head(self.alloc, cursor, self.left)?;
        let body = self.body(cursor, &head.name)?;
        Ok(OperationBody::Entry { head, body })
    }

    /// A body in a protected body (9.4).
    #[tactic(auto, unfolding(ada_grammar::specs::ReadingBodies::operation_body_of))]
    fn operation_body(
        &self,
        cursor: &mut Cursor<'_>,
    ) -> Result<OperationBody<Sequence>, OrMemory<Stuck>>
        requires reads { ReadsInside sequence_of self.now.left (F.pre self.now.read)
            (F.post self.now.read) }
        ensures { Reads result cursor.new
            (operation_body_of self.now.left (inside_of self.now.left) cursor.old) }
    {
        if cursor.is_word(Reserved::Entry) {
            self.entry_operation(cursor)
        } else {
            self.subprogram_operation(cursor)
        }
    }

    /// A subprogram body, behind its specification (6.3).
    #[tactic(auto, unfolding(ada_grammar::specs::ReadingBodies::subprogram_body_of))]
    fn subprogram_body(
        &self,
        cursor: &mut Cursor<'_>,
        specification: SubprogramSpecification,
    ) -> Result<Declaration<Sequence>, OrMemory<Stuck>>
        requires reads { ReadsInside sequence_of self.now.left (F.pre self.now.read)
            (F.post self.now.read) }
        requires lower { map to_ascii_lowercase specification.name.text ≡ specification.name.text }
        ensures { Reads result cursor.new
            (subprogram_body_of self.now.left (inside_of self.now.left) specification cursor.old) }
    {
        let body = self.body(cursor, &specification.name)?;
        Ok(Declaration::SubprogramBody {
            specification,
            body,
        })
    }

    /// A subprogram declaration or a subprogram body (6.1, 6.3).
    #[tactic(auto, unfolding(ada_grammar::specs::ReadingBodies::subprogram_of))]
    fn subprogram(&self, cursor: &mut Cursor<'_>) -> Result<Declaration<Sequence>, OrMemory<Stuck>>
        requires reads { ReadsInside sequence_of self.now.left (F.pre self.now.read)
            (F.post self.now.read) }
        ensures { Reads result cursor.new
            (subprogram_of self.now.left (inside_of self.now.left) cursor.old) }
    {
        let specification = specification(self.alloc, cursor, self.left)?;
        if cursor.is_delimiter(Delimiter::Semicolon) {
            cursor.delimiter(Delimiter::Semicolon)?;
            Ok(Declaration::Subprogram(specification))
        } else {
            self.subprogram_body(cursor, specification)
        }
    }

    /// A task body, behind `task` (9.1).
    #[tactic(auto, unfolding(ada_grammar::specs::ReadingBodies::task_body_of))]
    fn task_body(
        &self,
        cursor: &mut Cursor<'_>,
        place: Place,
    ) -> Result<Declaration<Sequence>, OrMemory<Stuck>>
        requires reads { ReadsInside sequence_of self.now.left (F.pre self.now.read)
            (F.post self.now.read) }
        ensures { Reads result cursor.new
            (task_body_of self.now.left (inside_of self.now.left) place cursor.old) }
    {
        cursor.word(Reserved::Body)?;
        let name = cursor.identifier(self.alloc)?;
        let body = self.body(cursor, &name)?;
        Ok(Declaration::TaskBody { place, name, body })
    }

    /// A task declaration or a task body (9.1).
    #[tactic(auto, unfolding(ada_grammar::specs::ReadingBodies::any_task_of))]
    fn any_task(&self, cursor: &mut Cursor<'_>) -> Result<Declaration<Sequence>, OrMemory<Stuck>>
        requires reads { ReadsInside sequence_of self.now.left (F.pre self.now.read)
            (F.post self.now.read) }
        ensures { Reads result cursor.new
            (any_task_of self.now.left (inside_of self.now.left) cursor.old) }
    {
        let place = cursor.word(Reserved::Task)?;
        if cursor.is_word(Reserved::Body) {
            self.task_body(cursor, place)
        } else {
            task_declaration(self.alloc, cursor, self.left, place)
        }
    }

    /// An operation of a protected body, one level further in (9.4).
    fn inner_operation_body(
        &self,
        cursor: &mut Cursor<'_>,
    ) -> Result<OperationBody<Sequence>, OrMemory<Stuck>>
        requires reads { ReadsInside sequence_of self.now.left (F.pre self.now.read)
            (F.post self.now.read) }
        ensures { Reads result cursor.new
            (operation_body_of (below self.now.left) (inside_of (below self.now.left)) cursor.old) }
    {
        SequenceReader {
            alloc: self.alloc,
            left: below(self.left),
            read: self.read,
        }
        .operation_body(cursor)
    }

    /// A protected body, behind `protected` (9.4).
    #[tactic(auto, unfolding(ada_grammar::specs::ReadingBodies::protected_body_of))]
    fn protected_body(
        &self,
        cursor: &mut Cursor<'_>,
        place: Place,
    ) -> Result<Declaration<Sequence>, OrMemory<Stuck>>
        requires reads { ReadsInside sequence_of self.now.left (F.pre self.now.read)
            (F.post self.now.read) }
        ensures { Reads result cursor.new
            (protected_body_of self.now.left (inside_of self.now.left)
            (inside_of (below self.now.left)) place cursor.old) }
    {
        cursor.word(Reserved::Body)?;
        let name = cursor.identifier(self.alloc)?;
        cursor.open_is(self.left)?;
        let operations = items(
            self.alloc,
            cursor,
            |cursor| begins_operation(cursor),
            |cursor| self.inner_operation_body(cursor),
        )?;
        cursor.word(Reserved::End)?;
        let named_at_end = end_name(cursor, &name)?;
        cursor.delimiter(Delimiter::Semicolon)?;
        Ok(Declaration::ProtectedBody(ProtectedBody {
            place,
            name,
            operations,
            named_at_end,
        }))
    }

    /// A protected declaration or a protected body (9.4).
    #[tactic(auto, unfolding(ada_grammar::specs::ReadingBodies::any_protected_of))]
    fn any_protected(
        &self,
        cursor: &mut Cursor<'_>,
    ) -> Result<Declaration<Sequence>, OrMemory<Stuck>>
        requires reads { ReadsInside sequence_of self.now.left (F.pre self.now.read)
            (F.post self.now.read) }
        ensures { Reads result cursor.new
            (any_protected_of self.now.left (inside_of self.now.left)
            (inside_of (below self.now.left)) cursor.old) }
    {
        let place = cursor.word(Reserved::Protected)?;
        if cursor.is_word(Reserved::Body) {
            self.protected_body(cursor, place)
        } else {
            protected_declaration(self.alloc, cursor, self.left, place)
        }
    }

    /// A declaration (3.1).
    #[tactic(auto, unfolding(ada_grammar::specs::ReadingBodies::declaration_of))]
    pub fn declaration(
        &self,
        cursor: &mut Cursor<'_>,
    ) -> Result<Declaration<Sequence>, OrMemory<Stuck>>
        requires reads { ReadsInside sequence_of self.now.left (F.pre self.now.read)
            (F.post self.now.read) }
        ensures { Reads result cursor.new
            (declaration_of self.now.left (inside_of self.now.left)
            (inside_of (below self.now.left)) cursor.old) }
    {
        if cursor.is_identifier() {
            named_declaration(self.alloc, cursor, self.left)
        } else if cursor.is_word(Reserved::TypeWord) {
            type_declaration(self.alloc, cursor, self.left)
        } else if cursor.is_word(Reserved::Subtype) {
            subtype_declaration(self.alloc, cursor, self.left)
        } else if cursor.is_word(Reserved::Task) {
            self.any_task(cursor)
        } else if cursor.is_word(Reserved::Protected) {
            self.any_protected(cursor)
        } else if cursor.is_word(Reserved::Use) {
            use_clause(self.alloc, cursor)
        } else {
            self.subprogram(cursor)
        }
    }
}
