//! All policies of a source (ISO/IEC 8652:2012, D.2.2, D.4, D.7).
ghost use Rattle.std.specs.Prelude.{◌≡◌, IfOk};
ghost use Rattle.ada_image.specs.PoliciesOfImage.{policies_of};

use crate::dispatching::ranges_sorted;
use crate::queuing::{longest_of, queuing_of};
use ada_tree::Pragma;
use ann_base::{Level, NoMemory};
use profile_image::Policies;
use std::alloc::Global;

/// What the pragmas of a source ask for, where its last Priority is given.
#[tactic(auto, unfolding(ada_image::specs::PoliciesOfImage::policies_of))]
pub fn policies_of(alloc: Global, last: Level, pragmas: &[Pragma]) -> Result<Policies, NoMemory>
    ensures { IfOk result (λ policies. policies ≡ policies_of last pragmas.now) }
{
    Ok(Policies {
        dispatching: ranges_sorted(alloc, last, pragmas)?,
        queuing: queuing_of(pragmas),
        longest_queue: longest_of(pragmas)?,
        last_priority: last,
    })
}
