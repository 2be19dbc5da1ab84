//! A body that completes nothing sees what the unit declares, in a region of its own.
ghost use Rattle.std.specs.Prelude.{◌≡◌, Some, IfOk};
ghost use Rattle.ada_regions.specs.Words.{and_then};
ghost use Rattle.ada_regions.specs.Names.{kind_at};
ghost use Rattle.ada_regions.specs.Completions.{is_component, holds_of, is_declared_in_unit};
ghost use Rattle.ada_regions.specs.Completions.{bound_again, seen_among, seen_again};

use ada_entities::{copy, kind_at};
use ada_regions::{Binding, EntityKind, Names};
use ann_base::NoMemory;
use std::alloc::Global;
use world_tables::List;

fn is_component(kind: &EntityKind) -> bool
    ensures { result ≡ is_component kind.now }
{
    matches!(kind, EntityKind::Component { .. })
}

/// Whether an entity is a component.
fn is_component_at(names: &Names<'_>, entity: Option<u32>) -> bool
    ensures { result ≡ holds_of is_component (and_then entity (kind_at names.now)) }
{
    match entity {
        None => false,
        Some(entity) => match kind_at(names, entity) {
            None => false,
            Some(kind) => is_component(kind),
        },
    }
}

/// Whether a binding is one that the unit declares, as its body sees it.
fn is_declared_in_unit(names: &Names<'_>, binding: &Binding) -> bool
    ensures { result ≡ is_declared_in_unit names.now binding.now }
{
    binding.entity.is_some() && (binding.exported || is_component_at(names, binding.entity))
}

/// A binding again, for another region.
fn bound_again(alloc: Global, binding: &Binding) -> Result<Binding, NoMemory>
    ensures { IfOk result (λ again. again ≡ bound_again binding.now) }
{
    let name = copy(alloc, binding.name.as_slice())?;
    Ok(Binding {
        name,
        entity: binding.entity,
        exported: false,
    })
}

/// What a unit declares of the names that its region binds, to be bound again.
fn seen_among(
    alloc: Global,
    names: &Names<'_>,
    bound: &List<Binding>,
) -> Result<List<Binding>, NoMemory>
    ensures { IfOk result (λ seen. seen ≡ seen_among names.now (Some bound.now)) }
{
    let mut seen = List::new(alloc);
    for binding in bound.iter() {
        if is_declared_in_unit(names, binding) {
            seen.push_back(bound_again(alloc, binding)?)?;
        }
    }
    Ok(seen)
}

/// What the unit of this region declares, to be bound again in the region that is to be opened.
#[tactic(auto, unfolding(ada_regions::specs::Completions::seen_again))]
pub(crate) fn seen_again(
    alloc: Global,
    names: &Names<'_>,
    region: u32,
) -> Result<List<Binding>, NoMemory>
    ensures { IfOk result (λ seen. seen ≡ seen_again names.now region) }
{
    match names.bindings.get(region) {
        None => Ok(List::new(alloc)),
        Some(bound) => seen_among(alloc, names, bound),
    }
}
