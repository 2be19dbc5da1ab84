//! The regions that are open (ISO/IEC 8652:2012, 8.1).
ghost use Rattle.std.specs.Prelude.{◌≡◌, OnOk};
ghost use Rattle.world_tables.specs.Lists.{rest_of};
ghost use Rattle.ada_regions.specs.Names.{no_frame, innermost_frame, enclosure_of, opened};
ghost use Rattle.ada_regions.specs.Names.{region_here, enclosure_here, scope_in, scope_of_loops};
ghost use Rattle.ada_regions.specs.Regions.{ended};

use ada_regions::{Enclosure, Frame, Names};
use ann_base::NoMemory;
use world_tables::List;

/// A frame of a region that has nothing of its own.
pub fn no_frame() -> Frame
    ensures { result ≡ no_frame }
{
    Frame {
        region: 0,
        owner: None,
        scope: None,
        is_accept: false,
        name: None,
        exports: false,
        components: None,
        part: 0,
    }
}

/// What a declaration takes from its frame.
pub fn enclosure_of(frame: &Frame) -> Enclosure
    ensures { result ≡ enclosure_of frame.now }
{
    Enclosure {
        region: frame.region,
        exports: frame.exports,
        components: frame.components,
        part: frame.part,
    }
}

/// What a declaration takes from the innermost of these frames.
fn enclosure_in(frames: &List<Frame>) -> Enclosure
    ensures { result ≡ enclosure_of (innermost_frame frames.now) }
{
    match frames.front() {
        Some(frame) => enclosure_of(frame),
        None => enclosure_of(&no_frame()),
    }
}

/// What a declaration takes from the frame in which it stands.
pub fn enclosure_here(names: &Names<'_>) -> Enclosure
    ensures { result ≡ enclosure_here names.now }
{
    enclosure_in(&names.frames)
}

/// What a declaration takes from the frame outside the innermost one.
pub fn outside_enclosure(names: &Names<'_>) -> Enclosure
    ensures { result ≡ enclosure_of (innermost_frame (rest_of names.now.frames)) }
{
    match names.frames.get(1) {
        Some(frame) => enclosure_of(frame),
        None => enclosure_of(&no_frame()),
    }
}

/// The region in which a name stands.
pub fn region_here(names: &Names<'_>) -> u32
    ensures { result ≡ region_here names.now }
{
    enclosure_here(names).region
}

/// The construct whose region it is.
pub fn owner_here(names: &Names<'_>) -> Option<u32>
    ensures { result ≡ (innermost_frame names.now.frames).owner }
{
    names.frames.front()?.owner
}

/// A region is opened; this is a new part.
pub fn opened(names: &mut Names<'_>, frame: Frame) -> Result<(), NoMemory>
    ensures { OnOk result (names.new ≡ opened frame names.old) }
{
    let part = names.parts;
    let next = part.checked_add(1).ok_or(NoMemory)?;
    let mut frame = frame;
    frame.part = part;
    names.frames.push_front(frame)?;
    names.parts = next;
    Ok(())
}

/// The innermost region ends.
pub fn ended(names: &mut Names<'_>)
    ensures { names.new ≡ ended names.old }
{
    names.frames.pop_front();
}

/// The scope that has the cells of what stands in these frames; that of the environment outside all
/// others.
pub fn scope_in(frames: &List<Frame>) -> u32
    ensures { result ≡ scope_in frames.now }
{
    for frame in frames.iter() {
        if let Some(scope) = frame.scope {
            return scope;
        }
    }
    0
}

/// The same for loop parameters: an accept statement has cells for its parameters alone.
pub fn scope_of_loops(frames: &List<Frame>) -> u32
    ensures { result ≡ scope_of_loops frames.now }
{
    for frame in frames.iter() {
        if let Some(scope) = frame.scope {
            if !frame.is_accept {
                return scope;
            }
        }
    }
    0
}
