//! Whether call statements have a form in an image (ISO/IEC 8652:2012, 6.4, 9.5.3): of a
//! subprogram, an entry or a predefined procedure.
ghost use Rattle.std.specs.Prelude.{◌≡◌};
ghost use Rattle.ada_image.specs.BuiltStatements.{entity_call_built, item_call_built};
ghost use Rattle.ada_image.specs.BuiltStatements.{denoted_call_built, call_statement_built};

use crate::actuals::arguments_built;
use crate::procedures::procedure_built;
use ada_entities::{denoted_by, kind_at};
use ada_regions::{Denoted, EntityKind, Names, Predefined};
use ada_tree::{Argument, Call, Expression};

/// A call of what an entity is.
fn entity_call_built(
    arguments: &[Argument<Expression>],
    kind: &EntityKind,
    names: &Names<'_>,
) -> bool
    ensures { result ≡ entity_call_built arguments.now kind.now names.now }
{
    match kind {
        EntityKind::Main => true,
        EntityKind::Subprogram { formals, .. } => {
            arguments_built(formals.as_slice(), arguments, names)
        }
        EntityKind::Entry { formals, .. } => {
            arguments_built(formals.as_slice(), arguments, names)
        }
        _ => false,
    }
}

/// A call of what a predefined unit declares.
fn item_call_built(item: Predefined, arguments: &[Argument<Expression>], names: &Names<'_>) -> bool
    ensures { result ≡ item_call_built item arguments.now names.now }
{
    match item {
        Predefined::Operation(operation) => procedure_built(operation, arguments, names),
        _ => false,
    }
}

/// A call of what a name denotes.
fn denoted_call_built(
    arguments: &[Argument<Expression>],
    denoted: Option<Denoted>,
    names: &Names<'_>,
) -> bool
    ensures { result ≡ denoted_call_built arguments.now denoted names.now }
{
    match denoted {
        None => false,
        Some(Denoted::Entity(entity)) => match kind_at(names, entity) {
            None => false,
            Some(kind) => entity_call_built(arguments, kind, names),
        },
        Some(Denoted::Unit(_)) => false,
        Some(Denoted::Item { item, .. }) => item_call_built(item, arguments, names),
    }
}

/// A call statement (6.4, 9.5.3).
pub fn call_statement_built(call: &Call, names: &Names<'_>) -> bool
    ensures { result ≡ call_statement_built call.now names.now }
{
    denoted_call_built(
        call.arguments.as_slice(),
        denoted_by(names, &call.name),
        names,
    )
}
