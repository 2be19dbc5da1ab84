//! Regions that begin, and their scopes (ISO/IEC 8652:2012, 8.1).
ghost use Rattle.std.specs.Prelude.{◌≡◌, IfOk, OnOk};
ghost use Rattle.ada_regions.specs.Regions.{opened_new, with_scope, next_scope, frame_with_scope};
ghost use Rattle.ada_regions.specs.Regions.{scope_begun, made_private, named_as};

use ada_completions::take_innermost;
use ada_declarations::{number, with_region};
use ada_entities::{copy, opened, scope_in};
use ada_regions::{Frame, Names, NumberedScope};
use ada_tree::Identifier;
use ann_base::{NoMemory, Place};
use profile_image::Text;
use std::alloc::Global;

/// A region begins for the first time.
pub(crate) fn opened_new(names: &mut Names<'_>, frame: Frame) -> Result<(), NoMemory>
    ensures { OnOk result (names.new ≡ opened_new frame names.old) }
{
    let region = names.regions;
    with_region(names)?;
    let mut frame = frame;
    frame.region = region;
    opened(names, frame)
}

/// A scope is new; the innermost open one stands around it.
pub(crate) fn with_scope(
    names: &mut Names<'_>,
    place: Place,
    is_function: bool,
    is_accept: bool,
) -> Result<(), NoMemory>
    ensures { OnOk result (names.new ≡ with_scope place is_function is_accept names.old) }
{
    let outer = scope_in(&names.frames);
    names.scopes.push_back(NumberedScope {
        place,
        outer: Some(outer),
        is_function,
        is_accept,
    })?;
    Ok(())
}

/// The number of the next scope.
pub(crate) fn next_scope(names: &Names<'_>) -> Result<Option<u32>, NoMemory>
    ensures { IfOk result (λ scope. scope ≡ next_scope names.now) }
{
    Ok(Some(number(names.scopes.len())?))
}

fn frame_with_scope(scope: Option<u32>, owner: Option<u32>, name: Option<Text>) -> Frame
    ensures { result ≡ frame_with_scope scope owner name }
{
    Frame {
        region: 0,
        owner,
        scope,
        is_accept: false,
        name,
        exports: false,
        components: None,
        part: 0,
    }
}

/// A construct begins with a region and a scope of its own.
#[tactic(auto, unfolding(ada_regions::specs::Regions::scope_begun))]
pub(crate) fn scope_begun(
    names: &mut Names<'_>,
    place: Place,
    is_function: bool,
    owner: Option<u32>,
    name: Option<Text>,
) -> Result<(), NoMemory>
    ensures { OnOk result (names.new ≡ scope_begun place is_function owner name names.old) }
{
    let scope = next_scope(names)?;
    with_scope(names, place, is_function, false)?;
    opened_new(names, frame_with_scope(scope, owner, name))
}

/// Behind `private` nothing is exported.
pub(crate) fn made_private(names: &mut Names<'_>) -> Result<(), NoMemory>
    ensures { OnOk result (names.new ≡ made_private names.old) }
{
    let mut frame = take_innermost(names);
    frame.exports = false;
    names.frames.push_front(frame)?;
    Ok(())
}

/// The region has this name in expanded names from here on.
pub(crate) fn named_as(
    alloc: Global,
    names: &mut Names<'_>,
    identifier: &Identifier,
) -> Result<(), NoMemory>
    ensures { OnOk result (names.new ≡ named_as identifier.now names.old) }
{
    let name = copy(alloc, identifier.text.as_slice())?;
    let mut frame = take_innermost(names);
    frame.name = Some(name);
    names.frames.push_front(frame)?;
    Ok(())
}
