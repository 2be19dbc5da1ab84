//! Declarations, and the bodies among them (ISO/IEC 8652:2012, 3.11, 6.3, 9.1, 9.4).
ghost use Rattle.std.specs.Prelude.{◌≡◌};
ghost use Rattle.ada_image.specs.BuiltSequences.{operation_body_built, operations_built};
ghost use Rattle.ada_image.specs.BuiltSequences.{declaration_built, declarations_built};

use crate::forms::SequenceHasForm;
use ada_regions::Names;
use ada_tree::{Declaration, OperationBody};
use expression_forms::initial_built;

/// The body of an operation of a protected unit.
fn operation_body_built<Q: SequenceHasForm>(operation: &OperationBody<Q>, names: &Names<'_>) -> bool
    ensures { result ≡ operation_body_built Q.built operation.now names.now }
{
    match operation {
        OperationBody::Subprogram { body, .. } => body.sequence.is_built(names),
        OperationBody::Entry { body, .. } => body.sequence.is_built(names),
    }
}

/// The bodies of the operations of a protected unit (9.4).
fn operations_built<Q: SequenceHasForm>(operations: &[OperationBody<Q>], names: &Names<'_>) -> bool
    ensures { result ≡ operations_built Q.built operations.now names.now }
{
    operations
        .iter()
        .all(|operation| operation_body_built(operation, names))
}

/// A declaration, or the body that it is.
fn declaration_built<Q: SequenceHasForm>(declaration: &Declaration<Q>, names: &Names<'_>) -> bool
    ensures { result ≡ declaration_built Q.built declaration.now names.now }
{
    match declaration {
        Declaration::Object(object) => initial_built(&object.initial, names),
        Declaration::SubprogramBody { body, .. } => body.sequence.is_built(names),
        Declaration::TaskBody { body, .. } => body.sequence.is_built(names),
        Declaration::ProtectedBody(protected) => {
            operations_built(protected.operations.as_slice(), names)
        }
        _ => true,
    }
}

/// The declarations of a part (3.11).
pub(crate) fn declarations_built<Q: SequenceHasForm>(
    declarations: &[Declaration<Q>],
    names: &Names<'_>,
) -> bool
    ensures { result ≡ declarations_built Q.built declarations.now names.now }
{
    declarations
        .iter()
        .all(|declaration| declaration_built(declaration, names))
}
