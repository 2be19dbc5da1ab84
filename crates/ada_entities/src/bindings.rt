//! What names regions bind (ISO/IEC 8652:2012, 8.1).
ghost use Rattle.std.specs.Prelude.{◌≡◌, None, OnOk, find, option_copied};
ghost use Rattle.ada_regions.specs.Names.{binds, binding_in, bound_among, bound_in};

use ada_regions::Binding;
use ann_base::NoMemory;
use std::alloc::Global;
use world_tables::{List, Table};

/// Whether a binding is that of this name.
pub fn binds(name: &[u8], binding: &Binding) -> bool
    ensures { result ≡ binds name.now binding.now }
{
    binding.name.as_slice() == name
}

/// The binding of a name among those of a region.
fn binding_among<'n>(bound: &'n List<Binding>, name: &[u8]) -> Option<&'n Binding>
    ensures { option_copied result ≡ find (binds name.now) bound.now }
{
    bound.iter().find(|binding| binds(name, binding))
}

/// The binding of a name in a region, if there is one.
pub fn binding_in<'n>(
    bindings: &'n Table<List<Binding>>,
    region: u32,
    name: &[u8],
) -> Option<&'n Binding>
    ensures { option_copied result ≡ binding_in bindings.now region name.now }
{
    let bound = bindings.get(region)?;
    binding_among(bound, name)
}

/// A region binds its first name.
fn bound_first(
    alloc: Global,
    bindings: &mut Table<List<Binding>>,
    region: u32,
    binding: Binding,
) -> Result<(), NoMemory>
    ensures { OnOk result (bindings.new ≡ bound_among None region binding bindings.old) }
{
    let mut bound = List::new(alloc);
    bound.push_front(binding)?;
    bindings.put(region, bound)?;
    Ok(())
}

/// A region binds one more name.
pub fn bound_in(
    alloc: Global,
    bindings: &mut Table<List<Binding>>,
    region: u32,
    binding: Binding,
) -> Result<(), NoMemory>
    ensures { OnOk result (bindings.new ≡ bound_in region binding bindings.old) }
{
    match bindings.get_mut(region) {
        Some(bound) => {
            bound.push_front(binding)?;
            Ok(())
        }
        None => bound_first(alloc, bindings, region, binding),
    }
}
