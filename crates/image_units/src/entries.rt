//! Entries, and the barriers of their bodies (ISO/IEC 8652:2012, 9.5.2).
ghost use Rattle.std.specs.Prelude.{◌≡◌, [], take, IfOk};
ghost use Rattle.ada_image.specs.Made.{Made};
ghost use Rattle.ada_image.specs.UnitsOfImage.{entry_with, entry_body_made, entries_made};
ghost use Rattle.image_units.specs.Parts.{entry_made};

use crate::unit_entries::place_among;
use ada_entities::copy;
use ada_image::{Lists, Within};
use ada_regions::{Names, NumberedEntry, NumberedEntryBody};
use ann_base::NoMemory;
use image_expressions::expression_made;
use image_layout::formals_made;
use image_scopes::scope_no;
use profile_image::{Entry, EntryBody, ImageList};
use std::alloc::Global;

/// An entry, where so many stand before it in the table and its body is given.
#[tactic(auto, unfolding(ada_image::specs::UnitsOfImage::entry_with))]
fn entry_with(
    alloc: Global,
    names: &Names<'_>,
    before: usize,
    entry: &NumberedEntry<'_>,
    body: Option<EntryBody>,
) -> Result<Entry, NoMemory>
    ensures { IfOk result
        (λ made. made ≡ entry_with names.now (take before names.now.entries) entry.now body) }
{
    Ok(Entry {
        name: copy(alloc, entry.name.as_slice())?,
        unit: entry.unit,
        place: place_among(names, before, entry.unit)?,
        formals: formals_made(alloc, names, entry.formals.as_slice())?,
        body,
    })
}

/// The body of a protected entry, if there is one: its barrier is made.
#[tactic(auto, unfolding(ada_image::specs::UnitsOfImage::entry_body_made))]
fn entry_body_made(
    lists: &mut Lists,
    within: &Within<'_, '_>,
    body: &Option<NumberedEntryBody<'_>>,
) -> Result<Option<EntryBody>, NoMemory>
    ensures { Made (entry_body_made within.now body.now) lists.old lists.new result }
{
    match body {
        None => Ok(None),
        Some(body) => {
            let barrier = expression_made(lists, body.barrier.get(), within)?;
            Ok(Some(EntryBody {
                barrier,
                scope: scope_no(body.scope),
            }))
        }
    }
}

/// An entry is made: its barrier, and what it is.
#[tactic(auto, unfolding(crate::specs::Parts::entry_made))]
fn entry_made(
    alloc: Global,
    lists: &mut Lists,
    within: &Within<'_, '_>,
    before: usize,
    entry: &NumberedEntry<'_>,
) -> Result<Entry, NoMemory>
    ensures { Made (entry_made within.now (take before within.now.names.entries) entry.now)
        lists.old lists.new result }
{
    let body = entry_body_made(lists, within, &entry.body)?;
    entry_with(alloc, within.names.get(), before, entry, body)
}

/// The entries, in the order of the text.
#[tactic(auto, unfolding(ada_image::specs::UnitsOfImage::entries_made))]
pub fn entries_made(
    alloc: Global,
    lists: &mut Lists,
    within: &Within<'_, '_>,
) -> Result<ImageList<Entry>, NoMemory>
    ensures { Made (entries_made within.now [] within.now.names.entries) lists.old lists.new
        result }
{
    let names = within.names.get();
    let mut made = ImageList::new(alloc);
    let mut before = 0;
    for entry in names.entries.iter() {
        let one = entry_made(alloc, lists, within, before, entry)?;
        made.push(one)?;
        before += 1;
    }
    Ok(made)
}
