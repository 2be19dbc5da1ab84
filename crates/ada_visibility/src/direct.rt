//! Direct visibility: the declaration of the innermost region around a name that has one (ISO/IEC
//! 8652:2012, 8.3).
ghost use Rattle.std.specs.Prelude.{◌≡◌, option_copied};
ghost use Rattle.ada_regions.specs.Visibility.{innermost_binding, item_of};
ghost use Rattle.ada_regions.specs.Visibility.{in_standard, bound, directly};

use ada_entities::binding_in;
use ada_predefined::{item_in, root_unit};
use ada_regions::{Binding, Denoted, Frame, Names, PredefinedUnit};
use world_tables::{List, Table};

/// The binding of a name in the innermost of these frames that has one.
fn innermost_binding<'n>(
    bindings: &'n Table<List<Binding>>,
    name: &[u8],
    frames: &List<Frame>,
) -> Option<&'n Binding>
    ensures { option_copied result ≡ innermost_binding bindings.now name.now frames.now }
{
    for frame in frames.iter() {
        if let Some(binding) = binding_in(bindings, frame.region, name) {
            return Some(binding);
        }
    }
    None
}

/// What a predefined unit has under a name, where the last Priority is given.
#[tactic(auto, unfolding(ada_regions::specs::Visibility::item_of))]
pub fn item_of(last: u8, unit: PredefinedUnit, name: &[u8]) -> Option<Denoted>
    ensures { result ≡ item_of last unit name.now }
{
    let item = item_in(last, unit, name)?;
    Some(Denoted::Item { unit, item })
}

/// What package Standard has under a name, with the library units that stand in no other (10.1).
#[tactic(auto, unfolding(ada_regions::specs::Visibility::in_standard))]
pub fn in_standard(last: u8, name: &[u8]) -> Option<Denoted>
    ensures { result ≡ in_standard last name.now }
{
    match item_of(last, PredefinedUnit::Standard, name) {
        Some(item) => Some(item),
        None => Some(Denoted::Unit(root_unit(name)?)),
    }
}

/// The entity of a binding; nothing where the name is hidden.
pub fn bound(binding: &Binding) -> Option<Denoted>
    ensures { result ≡ bound binding.now }
{
    Some(Denoted::Entity(binding.entity?))
}

/// Where a name has a declaration in the regions around it, or hides those outside: what it
/// denotes, if it is visible.
#[tactic(auto, unfolding(ada_regions::specs::Visibility::directly))]
pub(crate) fn directly(names: &Names<'_>, name: &[u8]) -> Option<Option<Denoted>>
    ensures { result ≡ directly names.now name.now }
{
    match innermost_binding(&names.bindings, name, &names.frames) {
        Some(binding) => Some(bound(binding)),
        None => Some(Some(in_standard(names.last_priority, name)?)),
    }
}
