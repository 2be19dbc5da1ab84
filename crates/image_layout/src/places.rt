//! Which declarations have cells where: in a scope, or among the components of an owner (ISO/IEC
//! 8652:2012, 3.8, 9.4).
ghost use Rattle.std.specs.Prelude.{◌≡◌};
ghost use Rattle.ada_image.specs.Layout.{same_owner, is_component_of, stands_in_scope, is_in_scope};

use ada_regions::{ComponentOwner, NumberedDeclaration, Sort};

/// Whether both are the same objects.
fn same_owner(a: ComponentOwner, b: ComponentOwner) -> bool
    ensures { result ≡ same_owner a b }
{
    match (a, b) {
        (ComponentOwner::Protected(a), ComponentOwner::Protected(b)) => a.0 == b.0,
        (ComponentOwner::Protected(_), ComponentOwner::Controlled(_)) => false,
        (ComponentOwner::Controlled(_), ComponentOwner::Protected(_)) => false,
        (ComponentOwner::Controlled(a), ComponentOwner::Controlled(b)) => a.0 == b.0,
    }
}

/// Whether what is declared is a component of these objects (3.8, 9.4).
pub fn is_component_of(owner: ComponentOwner, sort: Sort) -> bool
    ensures { result ≡ is_component_of owner sort }
{
    match sort {
        Sort::Component(other) => same_owner(owner, other),
        _ => false,
    }
}

/// Whether what is declared has cells in its scope.
fn stands_in_scope(sort: Sort) -> bool
    ensures { result ≡ stands_in_scope sort }
{
    match sort {
        Sort::Object => true,
        Sort::Component(_) => false,
        Sort::Parameter => true,
        Sort::LoopParameter => true,
        Sort::Exception => false,
    }
}

/// Whether the cells of a declaration stand in this scope.
pub fn is_in_scope(scope: u32, declaration: &NumberedDeclaration<'_>) -> bool
    ensures { result ≡ is_in_scope scope declaration.now }
{
    stands_in_scope(declaration.sort) && declaration.scope == scope
}
