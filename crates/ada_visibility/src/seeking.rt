//! What a direct name denotes (ISO/IEC 8652:2012, 8.3, 8.4).
ghost use Rattle.std.specs.Prelude.{◌≡◌, OnOk};
ghost use Rattle.ada_regions.specs.Visibility.{found_if, sought, answered, resolved};

use crate::direct::directly;
use crate::use_clauses::used_around;
use ada_entities::{noted, told};
use ada_regions::{Denoted, NameFault, Names, Sought};
use ada_tree::Identifier;
use ann_base::NoMemory;
use std::alloc::Global;

fn found_if(denoted: Option<Denoted>) -> Sought
    ensures { result ≡ found_if denoted }
{
    match denoted {
        None => Sought::Unknown,
        Some(denoted) => Sought::Found(denoted),
    }
}

/// What a direct name denotes here.
#[tactic(auto, unfolding(ada_regions::specs::Visibility::sought))]
pub fn sought(names: &Names<'_>, name: &[u8]) -> Sought
    ensures { result ≡ sought names.now name.now }
{
    match directly(names, name) {
        None => used_around(names, name),
        Some(denoted) => found_if(denoted),
    }
}

fn answered(
    alloc: Global,
    names: &mut Names<'_>,
    identifier: &Identifier,
    answer: Sought,
) -> Result<(), NoMemory>
    ensures { OnOk result (names.new ≡ answered identifier.now answer names.old) }
{
    match answer {
        Sought::Found(denoted) => noted(alloc, names, identifier.place, denoted),
        Sought::Unknown => {
            told(names, NameFault::Unknown(identifier.place));
            Ok(())
        }
        Sought::Ambiguous => {
            told(names, NameFault::Ambiguous(identifier.place));
            Ok(())
        }
    }
}

/// A direct name is used.
#[tactic(auto, unfolding(ada_regions::specs::Visibility::resolved))]
pub fn resolved(
    alloc: Global,
    names: &mut Names<'_>,
    identifier: &Identifier,
) -> Result<(), NoMemory>
    ensures { OnOk result (names.new ≡ resolved identifier.now names.old) }
{
    let answer = sought(names, identifier.text.as_slice());
    answered(alloc, names, identifier, answer)
}
