//! Declarations of objects, exceptions, types and subtypes, and use clauses (ISO/IEC 8652:2012,
//! clauses 3, 8.4 and 11.1).
ghost use Rattle.ada_grammar.specs.ReadingDeclarations.{array_of, component_of};
ghost use Rattle.ada_grammar.specs.ReadingDeclarations.{components_record_of, definition_of};
ghost use Rattle.ada_grammar.specs.ReadingDeclarations.{derived_of, enumeration_of};
ghost use Rattle.ada_grammar.specs.ReadingDeclarations.{exception_of, extension_of, initial_of};
ghost use Rattle.ada_grammar.specs.ReadingDeclarations.{named_declaration_of, null_record_of};
ghost use Rattle.ada_grammar.specs.ReadingDeclarations.{object_of, subtype_of, type_of, use_of};
ghost use Rattle.ada_grammar.specs.Reading.{items_of, sees_identifier};
ghost use Rattle.ada_grammar.specs.Reads.{Reads};

use ada_expressions::{below, bounds, expression, identifiers, items, name, subtype_indication};
use ada_grammar::{Cursor, Stuck};
use ada_lex::{Delimiter, Reserved};
use ada_tree::{
    Component, Declaration, Expression, Identifier, ObjectDeclaration, OneOrMore,
    SubtypeDeclaration, TypeDeclaration, TypeDefinition,
};
use ann_base::OrMemory;
use sqlite_items::Items;
use std::alloc::Global;

/// `[:= EXPRESSION]` (3.3.1)
#[tactic(auto, unfolding(ada_grammar::specs::ReadingDeclarations::initial_of))]
fn initial_value(
    alloc: Global,
    cursor: &mut Cursor<'_>,
    left: usize,
) -> Result<Option<Expression>, OrMemory<Stuck>>
    ensures { Reads result cursor.new (initial_of left cursor.old) }
{
    if cursor.is_delimiter(Delimiter::Becomes) {
        cursor.delimiter(Delimiter::Becomes)?;
        Ok(Some(expression(alloc, cursor, left)?))
    } else {
        Ok(None)
    }
}

/// `[aliased] [constant] SUBTYPE [:= EXPRESSION];`, behind the names and the colon (3.3.1)
#[tactic(auto, unfolding(ada_grammar::specs::ReadingDeclarations::object_of))]
fn object_declaration<Q>(
    alloc: Global,
    cursor: &mut Cursor<'_>,
    left: usize,
    names: OneOrMore<Identifier>,
) -> Result<Declaration<Q>, OrMemory<Stuck>>
    ensures { Reads result cursor.new (object_of left names cursor.old) }
{
    let aliased = cursor.flag(Reserved::Aliased)?;
    let constant = cursor.flag(Reserved::Constant)?;
    let subtype = subtype_indication(alloc, cursor, left)?;
    let initial = initial_value(alloc, cursor, left)?;
    cursor.delimiter(Delimiter::Semicolon)?;
    Ok(Declaration::Object(ObjectDeclaration {
        names,
        aliased,
        constant,
        subtype,
        initial,
    }))
}

/// `exception;`, behind the names and the colon (11.1)
#[tactic(auto, unfolding(ada_grammar::specs::ReadingDeclarations::exception_of))]
fn exception_declaration<Q>(
    cursor: &mut Cursor<'_>,
    names: OneOrMore<Identifier>,
) -> Result<Declaration<Q>, OrMemory<Stuck>>
    ensures { Reads result cursor.new (exception_of names cursor.old) }
{
    cursor.word(Reserved::Exception)?;
    cursor.delimiter(Delimiter::Semicolon)?;
    Ok(Declaration::Exception { names })
}

/// An object declaration, or an exception declaration (3.3.1, 11.1).
#[tactic(auto, unfolding(ada_grammar::specs::ReadingDeclarations::named_declaration_of))]
pub fn named_declaration<Q>(
    alloc: Global,
    cursor: &mut Cursor<'_>,
    left: usize,
) -> Result<Declaration<Q>, OrMemory<Stuck>>
    ensures { Reads result cursor.new (named_declaration_of left cursor.old) }
{
    let names = identifiers(alloc, cursor)?;
    cursor.delimiter(Delimiter::Colon)?;
    if cursor.is_word(Reserved::Exception) {
        exception_declaration(cursor, names)
    } else {
        object_declaration(alloc, cursor, left, names)
    }
}

/// `NAME {, NAME} : SUBTYPE [:= EXPRESSION];` (3.8)
#[tactic(auto, unfolding(ada_grammar::specs::ReadingDeclarations::component_of))]
fn component(
    alloc: Global,
    cursor: &mut Cursor<'_>,
    left: usize,
) -> Result<Component, OrMemory<Stuck>>
    ensures { Reads result cursor.new (component_of left cursor.old) }
{
    let names = identifiers(alloc, cursor)?;
    cursor.delimiter(Delimiter::Colon)?;
    let subtype = subtype_indication(alloc, cursor, left)?;
    let initial = initial_value(alloc, cursor, left)?;
    cursor.delimiter(Delimiter::Semicolon)?;
    Ok(Component {
        names,
        subtype,
        initial,
    })
}

/// Components as long as one begins.
pub(crate) fn components(
    alloc: Global,
    cursor: &mut Cursor<'_>,
    left: usize,
) -> Result<Items<Component>, OrMemory<Stuck>>
    ensures { Reads result cursor.new
        (items_of sees_identifier (component_of left) cursor.old) }
{
    items(
        alloc,
        cursor,
        |cursor| cursor.is_identifier(),
        |cursor| component(alloc, cursor, left),
    )
}

/// `(NAME {, NAME})` (3.5.1)
#[tactic(auto, unfolding(ada_grammar::specs::ReadingDeclarations::enumeration_of))]
fn enumeration(
    alloc: Global,
    cursor: &mut Cursor<'_>,
    left: usize,
) -> Result<TypeDefinition, OrMemory<Stuck>>
    ensures { Reads result cursor.new (enumeration_of left cursor.old) }
{
    cursor.open(left)?;
    let literals = identifiers(alloc, cursor)?;
    cursor.delimiter(Delimiter::CloseBracket)?;
    Ok(TypeDefinition::Enumeration { literals })
}

/// `array (LOW .. HIGH) of SUBTYPE` (3.6)
#[tactic(auto, unfolding(ada_grammar::specs::ReadingDeclarations::array_of))]
fn array(
    alloc: Global,
    cursor: &mut Cursor<'_>,
    left: usize,
) -> Result<TypeDefinition, OrMemory<Stuck>>
    ensures { Reads result cursor.new (array_of left cursor.old) }
{
    cursor.word(Reserved::Array)?;
    cursor.open(left)?;
    let (low, high) = bounds(alloc, cursor, below(left))?;
    cursor.delimiter(Delimiter::CloseBracket)?;
    cursor.word(Reserved::Of)?;
    let component = subtype_indication(alloc, cursor, left)?;
    Ok(TypeDefinition::Array {
        low,
        high,
        component,
    })
}

/// `null record` (3.8)
#[tactic(auto, unfolding(ada_grammar::specs::ReadingDeclarations::null_record_of))]
fn null_record(cursor: &mut Cursor<'_>) -> Result<Option<OneOrMore<Component>>, OrMemory<Stuck>>
    ensures { Reads result cursor.new (null_record_of cursor.old) }
{
    cursor.word(Reserved::Null)?;
    cursor.word(Reserved::Record)?;
    Ok(None)
}

/// `record COMPONENT {COMPONENT} end record` (3.8)
#[tactic(auto, unfolding(ada_grammar::specs::ReadingDeclarations::components_record_of))]
fn components_record(
    alloc: Global,
    cursor: &mut Cursor<'_>,
    left: usize,
) -> Result<Option<OneOrMore<Component>>, OrMemory<Stuck>>
    ensures { Reads result cursor.new (components_record_of left cursor.old) }
{
    cursor.word(Reserved::Record)?;
    let first = component(alloc, cursor, left)?;
    let others = components(alloc, cursor, left)?;
    cursor.word(Reserved::End)?;
    cursor.word(Reserved::Record)?;
    Ok(Some(OneOrMore { first, others }))
}

/// The record that extends a parent type (3.9.1).
#[tactic(auto, unfolding(ada_grammar::specs::ReadingDeclarations::extension_of))]
fn extension(
    alloc: Global,
    cursor: &mut Cursor<'_>,
    left: usize,
) -> Result<Option<OneOrMore<Component>>, OrMemory<Stuck>>
    ensures { Reads result cursor.new (extension_of left cursor.old) }
{
    if cursor.is_word(Reserved::Null) {
        null_record(cursor)
    } else {
        components_record(alloc, cursor, left)
    }
}

/// `new NAME with RECORD` (3.4, 3.9.1)
#[tactic(auto, unfolding(ada_grammar::specs::ReadingDeclarations::derived_of))]
fn derived(
    alloc: Global,
    cursor: &mut Cursor<'_>,
    left: usize,
) -> Result<TypeDefinition, OrMemory<Stuck>>
    ensures { Reads result cursor.new (derived_of left cursor.old) }
{
    cursor.word(Reserved::New)?;
    let parent = name(alloc, cursor)?;
    cursor.word(Reserved::With)?;
    let components = extension(alloc, cursor, left)?;
    Ok(TypeDefinition::Derived { parent, components })
}

/// How a type is defined (3.2.1).
#[tactic(auto, unfolding(ada_grammar::specs::ReadingDeclarations::definition_of))]
fn type_definition(
    alloc: Global,
    cursor: &mut Cursor<'_>,
    left: usize,
) -> Result<TypeDefinition, OrMemory<Stuck>>
    ensures { Reads result cursor.new (definition_of left cursor.old) }
{
    if cursor.is_delimiter(Delimiter::OpenBracket) {
        enumeration(alloc, cursor, left)
    } else if cursor.is_word(Reserved::Array) {
        array(alloc, cursor, left)
    } else {
        derived(alloc, cursor, left)
    }
}

/// `type NAME is DEFINITION;` (3.2.1)
#[tactic(auto, unfolding(ada_grammar::specs::ReadingDeclarations::type_of))]
pub fn type_declaration<Q>(
    alloc: Global,
    cursor: &mut Cursor<'_>,
    left: usize,
) -> Result<Declaration<Q>, OrMemory<Stuck>>
    ensures { Reads result cursor.new (type_of left cursor.old) }
{
    let place = cursor.word(Reserved::TypeWord)?;
    let name = cursor.identifier(alloc)?;
    cursor.word(Reserved::Is)?;
    let definition = type_definition(alloc, cursor, left)?;
    cursor.delimiter(Delimiter::Semicolon)?;
    Ok(Declaration::Type(TypeDeclaration {
        place,
        name,
        definition,
    }))
}

/// `subtype NAME is SUBTYPE;` (3.2.2)
#[tactic(auto, unfolding(ada_grammar::specs::ReadingDeclarations::subtype_of))]
pub fn subtype_declaration<Q>(
    alloc: Global,
    cursor: &mut Cursor<'_>,
    left: usize,
) -> Result<Declaration<Q>, OrMemory<Stuck>>
    ensures { Reads result cursor.new (subtype_of left cursor.old) }
{
    let place = cursor.word(Reserved::Subtype)?;
    let name = cursor.identifier(alloc)?;
    cursor.word(Reserved::Is)?;
    let subtype = subtype_indication(alloc, cursor, left)?;
    cursor.delimiter(Delimiter::Semicolon)?;
    Ok(Declaration::Subtype(SubtypeDeclaration {
        place,
        name,
        subtype,
    }))
}

/// `use NAME;` (8.4)
#[tactic(auto, unfolding(ada_grammar::specs::ReadingDeclarations::use_of))]
pub fn use_clause<Q>(
    alloc: Global,
    cursor: &mut Cursor<'_>,
) -> Result<Declaration<Q>, OrMemory<Stuck>>
    ensures { Reads result cursor.new (use_of cursor.old) }
{
    let place = cursor.word(Reserved::Use)?;
    let name = name(alloc, cursor)?;
    cursor.delimiter(Delimiter::Semicolon)?;
    Ok(Declaration::Use { place, name })
}
