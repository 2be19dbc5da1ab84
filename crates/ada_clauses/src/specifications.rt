//! Specifications of subprograms, entries, tasks and protected units, with their aspects (ISO/IEC
//! 8652:2012, 6.1, 9.1, 9.4, 9.5.2, 13.1.1).
ghost use Rattle.std.specs.Prelude.{◌≡◌, IfOk, map};
ghost use Rattle.std.specs.Char.{to_ascii_lowercase};
ghost use Rattle.ada_grammar.specs.ReadingDeclarations.{aspect_of, aspect_value_of, aspects_of};
ghost use Rattle.ada_grammar.specs.ReadingDeclarations.{begins_operation, begins_specification};
ghost use Rattle.ada_grammar.specs.ReadingDeclarations.{entry_head_of, entry_of, function_of};
ghost use Rattle.ada_grammar.specs.ReadingDeclarations.{given_aspects_of, operation_of};
ghost use Rattle.ada_grammar.specs.ReadingDeclarations.{overriding_of, private_of, procedure_of};
ghost use Rattle.ada_grammar.specs.ReadingDeclarations.{protected_of, specification_of};
ghost use Rattle.ada_grammar.specs.ReadingDeclarations.{specified_operation_of};
ghost use Rattle.ada_grammar.specs.ReadingDeclarations.{task_definition_of, task_of};
ghost use Rattle.ada_grammar.specs.Reads.{Reads};

use crate::declarations::components;
use ada_expressions::{
    expression, first_before, items, items_behind, parameters, subtype_indication,
};
use ada_grammar::{Cursor, Stuck};
use ada_lex::{Delimiter, Reserved};
use ada_tree::{
    Aspect, Component, Declaration, EntryDeclaration, EntryHead, Expression, ProtectedDeclaration,
    ProtectedOperation, SubprogramSpecification, TaskDeclaration, TaskDefinition,
};
use ann_base::{OrMemory, Place};
use sqlite_items::Items;
use std::alloc::Global;

/// `[=> EXPRESSION]` (13.1.1)
#[tactic(auto, unfolding(ada_grammar::specs::ReadingDeclarations::aspect_value_of))]
fn aspect_value(
    alloc: Global,
    cursor: &mut Cursor<'_>,
    left: usize,
) -> Result<Option<Expression>, OrMemory<Stuck>>
    ensures { Reads result cursor.new (aspect_value_of left cursor.old) }
{
    if cursor.is_delimiter(Delimiter::Arrow) {
        cursor.delimiter(Delimiter::Arrow)?;
        Ok(Some(expression(alloc, cursor, left)?))
    } else {
        Ok(None)
    }
}

/// `NAME [=> EXPRESSION]` (13.1.1)
#[tactic(auto, unfolding(ada_grammar::specs::ReadingDeclarations::aspect_of))]
fn aspect(alloc: Global, cursor: &mut Cursor<'_>, left: usize) -> Result<Aspect, OrMemory<Stuck>>
    ensures { Reads result cursor.new (aspect_of left cursor.old) }
{
    let name = cursor.identifier(alloc)?;
    let value = aspect_value(alloc, cursor, left)?;
    Ok(Aspect { name, value })
}

/// `with ASPECT {, ASPECT}` (13.1.1)
#[tactic(auto, unfolding(ada_grammar::specs::ReadingDeclarations::given_aspects_of))]
fn given_aspects(
    alloc: Global,
    cursor: &mut Cursor<'_>,
    left: usize,
) -> Result<Items<Aspect>, OrMemory<Stuck>>
    ensures { Reads result cursor.new (given_aspects_of left cursor.old) }
{
    cursor.word(Reserved::With)?;
    let first = aspect(alloc, cursor, left)?;
    let others = items_behind(alloc, cursor, Delimiter::Comma, |cursor| {
        aspect(alloc, cursor, left)
    })?;
    Ok(first_before(alloc, first, others)?)
}

/// `[with ASPECT {, ASPECT}]`, empty where no `with` stands (13.1.1).
#[tactic(auto, unfolding(ada_grammar::specs::ReadingDeclarations::aspects_of))]
pub fn aspects(
    alloc: Global,
    cursor: &mut Cursor<'_>,
    left: usize,
) -> Result<Items<Aspect>, OrMemory<Stuck>>
    ensures { Reads result cursor.new (aspects_of left cursor.old) }
{
    if cursor.is_word(Reserved::With) {
        given_aspects(alloc, cursor, left)
    } else {
        Ok(Items::new(alloc))
    }
}

/// `[overriding]` (8.3.1)
#[tactic(auto, unfolding(ada_grammar::specs::ReadingDeclarations::overriding_of))]
fn overriding_indicator(cursor: &mut Cursor<'_>) -> Result<Option<Place>, OrMemory<Stuck>>
    ensures { Reads result cursor.new (overriding_of cursor.old) }
{
    if cursor.is_word(Reserved::Overriding) {
        Ok(Some(cursor.word(Reserved::Overriding)?))
    } else {
        Ok(None)
    }
}

/// `procedure NAME [PARAMETERS] [ASPECTS]` (6.1)
#[tactic(auto, unfolding(ada_grammar::specs::ReadingDeclarations::procedure_of))]
fn procedure_specification(
    alloc: Global,
    cursor: &mut Cursor<'_>,
    left: usize,
    overriding: Option<Place>,
) -> Result<SubprogramSpecification, OrMemory<Stuck>>
    ensures reads { Reads result cursor.new (procedure_of left overriding cursor.old) }
    ensures lower { IfOk result (λ it. map to_ascii_lowercase it.name.text ≡ it.name.text) }
{
    let place = cursor.word(Reserved::Procedure)?;
    let name = cursor.identifier(alloc)?;
    let parameters = parameters(alloc, cursor, left)?;
    let aspects = aspects(alloc, cursor, left)?;
    Ok(SubprogramSpecification {
        overriding,
        place,
        name,
        parameters,
        result: None,
        aspects,
    })
}

/// `function NAME [PARAMETERS] return SUBTYPE [ASPECTS]` (6.1)
#[tactic(auto, unfolding(ada_grammar::specs::ReadingDeclarations::function_of))]
fn function_specification(
    alloc: Global,
    cursor: &mut Cursor<'_>,
    left: usize,
    overriding: Option<Place>,
) -> Result<SubprogramSpecification, OrMemory<Stuck>>
    ensures reads { Reads result cursor.new (function_of left overriding cursor.old) }
    ensures lower { IfOk result (λ it. map to_ascii_lowercase it.name.text ≡ it.name.text) }
{
    let place = cursor.word(Reserved::Function)?;
    let name = cursor.identifier(alloc)?;
    let parameters = parameters(alloc, cursor, left)?;
    cursor.word(Reserved::Return)?;
    let result = subtype_indication(alloc, cursor, left)?;
    let aspects = aspects(alloc, cursor, left)?;
    Ok(SubprogramSpecification {
        overriding,
        place,
        name,
        parameters,
        result: Some(result),
        aspects,
    })
}

/// A subprogram specification with its aspects; its name is in lower case (6.1, 8.3.1).
#[tactic(auto, unfolding(ada_grammar::specs::ReadingDeclarations::specification_of))]
pub fn specification(
    alloc: Global,
    cursor: &mut Cursor<'_>,
    left: usize,
) -> Result<SubprogramSpecification, OrMemory<Stuck>>
    ensures reads { Reads result cursor.new (specification_of left cursor.old) }
    ensures lower { IfOk result (λ it. map to_ascii_lowercase it.name.text ≡ it.name.text) }
{
    let overriding = overriding_indicator(cursor)?;
    if cursor.is_word(Reserved::Function) {
        function_specification(alloc, cursor, left, overriding)
    } else {
        procedure_specification(alloc, cursor, left, overriding)
    }
}

/// Whether a subprogram specification begins here (6.1, 8.3.1).
pub fn begins_specification(cursor: &Cursor<'_>) -> bool
    ensures { result ≡ begins_specification cursor.now }
{
    cursor.is_word(Reserved::Overriding)
        || cursor.is_word(Reserved::Procedure)
        || cursor.is_word(Reserved::Function)
}

/// `entry NAME [PARAMETERS];` (9.5.2)
#[tactic(auto, unfolding(ada_grammar::specs::ReadingDeclarations::entry_of))]
pub fn entry_declaration(
    alloc: Global,
    cursor: &mut Cursor<'_>,
    left: usize,
) -> Result<EntryDeclaration, OrMemory<Stuck>>
    ensures { Reads result cursor.new (entry_of left cursor.old) }
{
    let place = cursor.word(Reserved::Entry)?;
    let name = cursor.identifier(alloc)?;
    let parameters = parameters(alloc, cursor, left)?;
    cursor.delimiter(Delimiter::Semicolon)?;
    Ok(EntryDeclaration {
        place,
        name,
        parameters,
    })
}

/// `[is {ENTRY} end [NAME]]`, of the task with this name (9.1)
#[tactic(auto, unfolding(ada_grammar::specs::ReadingDeclarations::task_definition_of))]
fn task_definition(
    alloc: Global,
    cursor: &mut Cursor<'_>,
    left: usize,
    name: &[u8],
) -> Result<Option<TaskDefinition>, OrMemory<Stuck>>
    requires lower { map to_ascii_lowercase name.now ≡ name.now }
    ensures { Reads result cursor.new (task_definition_of left name.now cursor.old) }
{
    if cursor.is_word(Reserved::Is) {
        cursor.word(Reserved::Is)?;
        let entries = items(
            alloc,
            cursor,
            |cursor| cursor.is_word(Reserved::Entry),
            |cursor| entry_declaration(alloc, cursor, left),
        )?;
        cursor.word(Reserved::End)?;
        let named_at_end = cursor.end_name(name)?;
        Ok(Some(TaskDefinition {
            entries,
            named_at_end,
        }))
    } else {
        Ok(None)
    }
}

/// `[type] NAME [ASPECTS] [DEFINITION];`, behind the `task` at this place (9.1)
#[tactic(auto, unfolding(ada_grammar::specs::ReadingDeclarations::task_of))]
pub fn task_declaration<Q>(
    alloc: Global,
    cursor: &mut Cursor<'_>,
    left: usize,
    place: Place,
) -> Result<Declaration<Q>, OrMemory<Stuck>>
    ensures { Reads result cursor.new (task_of left place cursor.old) }
{
    let is_type = cursor.flag(Reserved::TypeWord)?;
    let name = cursor.identifier(alloc)?;
    let aspects = aspects(alloc, cursor, left)?;
    let definition = task_definition(alloc, cursor, left, name.text.as_slice())?;
    cursor.delimiter(Delimiter::Semicolon)?;
    Ok(Declaration::Task(TaskDeclaration {
        place,
        is_type,
        name,
        aspects,
        definition,
    }))
}

/// `SPECIFICATION;` (9.4)
#[tactic(auto, unfolding(ada_grammar::specs::ReadingDeclarations::specified_operation_of))]
fn protected_subprogram(
    alloc: Global,
    cursor: &mut Cursor<'_>,
    left: usize,
) -> Result<ProtectedOperation, OrMemory<Stuck>>
    ensures { Reads result cursor.new (specified_operation_of left cursor.old) }
{
    let specification = specification(alloc, cursor, left)?;
    cursor.delimiter(Delimiter::Semicolon)?;
    Ok(ProtectedOperation::Subprogram(specification))
}

/// An operation that a protected declaration names (9.4).
#[tactic(auto, unfolding(ada_grammar::specs::ReadingDeclarations::operation_of))]
pub fn protected_operation(
    alloc: Global,
    cursor: &mut Cursor<'_>,
    left: usize,
) -> Result<ProtectedOperation, OrMemory<Stuck>>
    ensures { Reads result cursor.new (operation_of left cursor.old) }
{
    if cursor.is_word(Reserved::Entry) {
        Ok(ProtectedOperation::Entry(entry_declaration(alloc, cursor, left)?))
    } else {
        protected_subprogram(alloc, cursor, left)
    }
}

/// Whether an operation of a protected unit begins here (9.4).
pub fn begins_operation(cursor: &Cursor<'_>) -> bool
    ensures { result ≡ begins_operation cursor.now }
{
    cursor.is_word(Reserved::Entry) || begins_specification(cursor)
}

/// `[private {COMPONENT}]` (9.4)
#[tactic(auto, unfolding(ada_grammar::specs::ReadingDeclarations::private_of))]
fn private_part(
    alloc: Global,
    cursor: &mut Cursor<'_>,
    left: usize,
) -> Result<Option<Items<Component>>, OrMemory<Stuck>>
    ensures { Reads result cursor.new (private_of left cursor.old) }
{
    if cursor.is_word(Reserved::Private) {
        cursor.word(Reserved::Private)?;
        Ok(Some(components(alloc, cursor, left)?))
    } else {
        Ok(None)
    }
}

/// `[type] NAME [ASPECTS] is {OPERATION} [private {COMPONENT}] end [NAME];`, behind the `protected`
/// at this place (9.4)
#[tactic(auto, unfolding(ada_grammar::specs::ReadingDeclarations::protected_of))]
pub fn protected_declaration<Q>(
    alloc: Global,
    cursor: &mut Cursor<'_>,
    left: usize,
    place: Place,
) -> Result<Declaration<Q>, OrMemory<Stuck>>
    ensures { Reads result cursor.new (protected_of left place cursor.old) }
{
    let is_type = cursor.flag(Reserved::TypeWord)?;
    let name = cursor.identifier(alloc)?;
    let aspects = aspects(alloc, cursor, left)?;
    cursor.word(Reserved::Is)?;
    let operations = items(alloc, cursor, begins_operation, |cursor| {
        protected_operation(alloc, cursor, left)
    })?;
    let components = private_part(alloc, cursor, left)?;
    cursor.word(Reserved::End)?;
    let named_at_end = cursor.end_name(name.text.as_slice())?;
    cursor.delimiter(Delimiter::Semicolon)?;
    Ok(Declaration::Protected(ProtectedDeclaration {
        place,
        is_type,
        name,
        aspects,
        operations,
        components,
        named_at_end,
    }))
}

/// `entry NAME [PARAMETERS] when EXPRESSION`; the name is in lower case (9.5.2)
#[tactic(auto, unfolding(ada_grammar::specs::ReadingDeclarations::entry_head_of))]
pub fn entry_head(
    alloc: Global,
    cursor: &mut Cursor<'_>,
    left: usize,
) -> Result<EntryHead, OrMemory<Stuck>>
    ensures reads { Reads result cursor.new (entry_head_of left cursor.old) }
    ensures lower { IfOk result (λ head. map to_ascii_lowercase head.name.text ≡ head.name.text) }
{
    let place = cursor.word(Reserved::Entry)?;
    let name = cursor.identifier(alloc)?;
    let parameters = parameters(alloc, cursor, left)?;
    cursor.word(Reserved::When)?;
    let barrier = expression(alloc, cursor, left)?;
    Ok(EntryHead {
        place,
        name,
        parameters,
        barrier,
    })
}
