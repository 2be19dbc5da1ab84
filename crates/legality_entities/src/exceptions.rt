//! Names of exceptions (ISO/IEC 8652:2012, 11.1).
ghost use Rattle.std.specs.Prelude.{◌≡◌};
ghost use Rattle.ada_legality.specs.Values.{is_denoted};
ghost use Rattle.ada_legality.specs.SimpleStatements.{is_exception_kind, is_exception_item};
ghost use Rattle.ada_legality.specs.SimpleStatements.{denotes_exception};

use crate::entities::denoted_kind;
use ada_entities::denoted_by;
use ada_legality::Known;
use ada_regions::{Denoted, EntityKind, Predefined};
use ada_tree::Name;

fn is_exception_kind(kind: &EntityKind) -> bool
    ensures { result ≡ is_exception_kind kind.now }
{
    match kind {
        EntityKind::Exception(_) => true,
        _ => false,
    }
}

fn is_exception_item(item: Predefined) -> bool
    ensures { result ≡ is_exception_item item }
{
    match item {
        Predefined::Exception(_) => true,
        _ => false,
    }
}

/// An exception.
#[tactic(auto, unfolding(ada_legality::specs::SimpleStatements::denotes_exception))]
fn denotes_exception(known: &Known<'_, '_>, denoted: Denoted) -> bool
    ensures { result ≡ denotes_exception known.now denoted }
{
    match denoted {
        Denoted::Item { item, .. } => is_exception_item(item),
        _ => match denoted_kind(known.names.get(), denoted) {
            None => false,
            Some(kind) => is_exception_kind(kind),
        },
    }
}

/// A name denotes an exception.
pub fn names_exception(known: &Known<'_, '_>, name: &Name) -> bool
    ensures { result ≡ is_denoted (denotes_exception known.now) known.now name.now }
{
    match denoted_by(known.names.get(), name) {
        None => false,
        Some(denoted) => denotes_exception(known, denoted),
    }
}
