//! The frame of a body.
ghost use Rattle.std.specs.Prelude.{◌≡◌, OnOk};
ghost use Rattle.ada_regions.specs.Names.{innermost_frame};
ghost use Rattle.ada_regions.specs.Regions.{ended};
ghost use Rattle.ada_regions.specs.Completions.{owned};

use ada_entities::{copy, no_frame};
use ada_regions::{Frame, Names};
use ann_base::NoMemory;
use std::alloc::Global;

/// Takes the innermost frame out.
pub fn take_innermost(names: &mut Names<'_>) -> Frame
    ensures frame { result ≡ innermost_frame names.old.frames }
    ensures rest { names.new ≡ ended names.old }
{
    match names.frames.pop_front() {
        Some(frame) => frame,
        None => no_frame(),
    }
}

/// The region of a body is that of its entity from here on, and has its name in expanded names.
#[tactic(auto, unfolding(ada_regions::specs::Completions::owned))]
pub fn owned(
    alloc: Global,
    names: &mut Names<'_>,
    owner: Option<u32>,
    name: &[u8],
) -> Result<(), NoMemory>
    ensures { OnOk result (names.new ≡ owned owner name.now names.old) }
{
    let name = copy(alloc, name)?;
    let mut frame = take_innermost(names);
    frame.owner = owner;
    frame.name = Some(name);
    names.frames.push_front(frame)?;
    Ok(())
}
