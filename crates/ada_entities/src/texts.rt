//! Names as texts, and expanded names (ISO/IEC 8652:2012, 4.1.3).
ghost use Rattle.std.specs.Prelude.{◌≡◌, ◌++◌, ◌≤◌, drop, length, IfOk, OnOk};
ghost use Rattle.ada_regions.specs.Names.{prefix_of, prefix_with, expanded};

use ada_regions::Frame;
use ann_base::NoMemory;
use profile_image::{ImageList, Text};
use std::alloc::Global;
use world_tables::List;

/// Adds bytes to a text.
pub fn append(text: &mut Text, bytes: &[u8]) -> Result<(), NoMemory>
    ensures { OnOk result (text.new ≡ text.old ++ bytes.now) }
{
    for byte in bytes {
        text.push(*byte)?;
    }
    Ok(())
}

/// The same bytes in a text of its own.
pub fn copy(alloc: Global, bytes: &[u8]) -> Result<Text, NoMemory>
    ensures { IfOk result (λ text. text ≡ bytes.now) }
{
    let mut text = ImageList::new(alloc);
    append(&mut text, bytes)?;
    Ok(text)
}

// The name of a frame and a point, behind those of the frames outside it.
fn append_name(text: &mut Text, name: &Option<Text>) -> Result<(), NoMemory>
    ensures { OnOk result (text.new ≡ prefix_with text.old name.now) }
{
    match name {
        None => Ok(()),
        Some(name) => {
            append(text, name.as_slice())?;
            text.push(b'.')?;
            Ok(())
        }
    }
}

// The names of the frames from this one outwards.
#[tactic(auto, using(crate::proofs::Drops::drop_there, crate::proofs::Drops::drop_past, std::proofs::lemmas::List::drop_all))]
fn prefix_from(alloc: Global, frames: &List<Frame>, place: usize) -> Result<Text, NoMemory>
    requires { place ≤ length frames.now }
    ensures { IfOk result (λ text. text ≡ prefix_of (drop place frames.now)) }
{
    if place >= frames.len() {
        return Ok(ImageList::new(alloc));
    }
    match frames.get(place) {
        None => Ok(ImageList::new(alloc)),
        Some(frame) => {
            let mut text = prefix_from(alloc, frames, place + 1)?;
            append_name(&mut text, &frame.name)?;
            Ok(text)
        }
    }
}

/// The expanded name of what is declared under a name in the innermost of these frames.
#[tactic(auto, unfolding(ada_regions::specs::Names::expanded))]
pub fn expanded(alloc: Global, frames: &List<Frame>, name: &[u8]) -> Result<Text, NoMemory>
    ensures { IfOk result (λ text. text ≡ expanded frames.now name.now) }
{
    let mut text = prefix_from(alloc, frames, 0)?;
    append(&mut text, name)?;
    Ok(text)
}
