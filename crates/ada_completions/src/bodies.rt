//! Bodies in regions of their own.
ghost use Rattle.std.specs.Prelude.{◌≡◌, IfOk, OnOk};
ghost use Rattle.ada_regions.specs.Completions.{body_frame, body_apart};

use ada_entities::{copy, opened};
use ada_regions::{Binding, Frame, Names};
use ada_tree::Identifier;
use ann_base::NoMemory;
use std::alloc::Global;
use world_tables::List;

/// The frame of a body.
pub(crate) fn body_frame(
    alloc: Global,
    region: u32,
    owner: Option<u32>,
    identifier: &Identifier,
    scope: Option<u32>,
) -> Result<Frame, NoMemory>
    ensures { IfOk result (λ frame. frame ≡ body_frame region owner identifier.now scope) }
{
    let name = copy(alloc, identifier.text.as_slice())?;
    Ok(Frame {
        region,
        owner,
        scope,
        is_accept: false,
        name: Some(name),
        exports: false,
        components: None,
        part: 0,
    })
}

/// A body with a region of its own, in which these names are bound.
#[tactic(auto, unfolding(ada_regions::specs::Completions::body_apart))]
pub fn body_apart(
    alloc: Global,
    names: &mut Names<'_>,
    owner: Option<u32>,
    identifier: &Identifier,
    scope: Option<u32>,
    seen: List<Binding>,
) -> Result<(), NoMemory>
    ensures { OnOk result (names.new ≡ body_apart owner identifier.now scope seen names.old) }
{
    let region = names.regions;
    let next = region.checked_add(1).ok_or(NoMemory)?;
    let frame = body_frame(alloc, region, owner, identifier, scope)?;
    names.regions = next;
    names.bindings.put(region, seen)?;
    opened(names, frame)
}
