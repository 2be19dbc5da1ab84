//! What is found of the whole of a source, beside what a walk over it found.
ghost use Rattle.std.specs.Prelude.{◌≡◌, ◌++◌, ◌≤◌, length, take, OnOk};
ghost use Rattle.legality_beside.specs.Judging.{judged_along};
ghost use Rattle.ada_legality.specs.WholeSource.{judged_beside, judged_from, found_beside};
ghost use Rattle.ada_legality.specs.WholeSource.{handlers_of_object as handlers_of};
ghost use Rattle.ada_legality.specs.WholeSource.{numbers_of_object as numbers_of};

use crate::attached::{clashes_before, handlers_of_object, has_attached, numbers_of_object};
use crate::cells::passing_cells;
use crate::completions::{has_return, is_uncompleted, names_task};
use crate::deadlines::ranges_judged;
use crate::findings::{before_place, in_one_piece};
use ada_legality::{DeadlineRange, Finding, ProtectedObject, Rule};
use ada_regions::Names;
use ann_base::NoMemory;
use legality_types::{broken_if, broken_unless};
use std::alloc::Global;
use world_tables::List;

/// What a protected object breaks.
fn object_judged(
    judged: &mut List<Finding>,
    found: &[Finding],
    at: usize,
    object: &ProtectedObject,
) -> Result<(), NoMemory>
    requires { at ≤ length found.now }
    ensures { OnOk result
        (judged.new
        ≡ judged.old
        ++ (handlers_of found.now object.now
        ++ numbers_of found.now (take at found.now) object.now)) }
{
    handlers_of_object(judged, found, object)?;
    numbers_of_object(judged, found, before_place(found, at), object)
}

/// What a finding breaks beside the others.
#[tactic(auto, unfolding(ada_legality::specs::WholeSource::judged_beside))]
fn judged_beside(
    judged: &mut List<Finding>,
    names: &Names<'_>,
    found: &[Finding],
    at: usize,
    finding: &Finding,
) -> Result<(), NoMemory>
    requires { at ≤ length found.now }
    ensures { OnOk result
        (judged.new
        ≡ judged.old ++ judged_beside names.now found.now (take at found.now) finding.now) }
{
    match finding {
        Finding::Declared {
            kind,
            entity,
            place,
        } => broken_if(
            judged,
            Rule::Completions,
            is_uncompleted(names, found, *kind, *entity),
            *place,
        ),
        Finding::Function { function, place } => broken_unless(
            judged,
            Rule::ReturnStatement,
            has_return(found, *function),
            *place,
        ),
        Finding::Attached(attached) => broken_if(
            judged,
            Rule::AttachedInterrupt,
            clashes_before(found, at, attached),
            attached.aspect,
        ),
        Finding::ProtectedObject(object) => object_judged(judged, found, at, object),
        Finding::OtherCeiling { unit, place } => broken_if(
            judged,
            Rule::PriorityAspect,
            has_attached(found, *unit),
            *place,
        ),
        Finding::Timer { task, place } => broken_unless(
            judged,
            Rule::LibraryLevelObject,
            names_task(found, *task),
            *place,
        ),
        _ => Ok(()),
    }
}

/// What each finding breaks beside the others, one finding at a time.
fn judged_along(
    judged: &mut List<Finding>,
    names: &Names<'_>,
    found: &[Finding],
) -> Result<(), NoMemory>
    ensures { OnOk result
        (judged.new ≡ judged.old ++ judged_along names.now found.now 0 found.now) }
{
    let mut at = 0;
    for finding in found {
        judged_beside(judged, names, found, at, finding)?;
        at += 1;
    }
    Ok(())
}

/// What each finding breaks beside the others.
#[tactic(auto, using(crate::proofs::JudgedFrom::judged_is))]
fn judged_from(
    judged: &mut List<Finding>,
    names: &Names<'_>,
    found: &[Finding],
) -> Result<(), NoMemory>
    ensures { OnOk result (judged.new ≡ judged.old ++ judged_from names.now found.now 0 found.now) }
{
    judged_along(judged, names, found)
}

/// What is found of the whole of a source, beside what a walk over it found; ranges are those of
/// its pragmas that are dispatched by deadlines.
#[tactic(auto, unfolding(ada_legality::specs::WholeSource::found_beside))]
pub fn found_beside(
    alloc: Global,
    judged: &mut List<Finding>,
    names: &Names<'_>,
    ranges: &[DeadlineRange],
    found: &List<Finding>,
) -> Result<(), NoMemory>
    // It stands behind what was judged before.
    ensures { OnOk result (judged.new ≡ judged.old ++ found_beside names.now ranges.now found.now) }
{
    let all = in_one_piece(alloc, found)?;
    let found = all.as_slice();
    judged_from(judged, names, found)?;
    ranges_judged(judged, names.last_priority, found, ranges)?;
    passing_cells(judged, names, found)
}
