//! The regions that begin with each construct (ISO/IEC 8652:2012, 8.1).
ghost use Rattle.std.specs.Prelude.{◌≡◌, None, Some, OnOk};
ghost use Rattle.ada_regions.specs.Occurrences.{the_context, the_context_of, further_context};
ghost use Rattle.ada_regions.specs.Occurrences.{package_region, package_body, main_body, a_profile};
ghost use Rattle.ada_regions.specs.Occurrences.{subprogram_body, a_unit, task_body, protected_body};
ghost use Rattle.ada_regions.specs.Occurrences.{entry_body, an_accept, a_block, a_loop, a_record};
ghost use Rattle.ada_regions.specs.Regions.{begun};

use crate::constructs::{accept_begun, loop_begun, record_begun, unit_begun};
use crate::entries::{entry_body_begun, entry_owner};
use crate::frames::{next_scope, opened_new, scope_begun, with_scope};
use crate::packages::{
    context_again, context_named, package_begun, package_body_begun, package_named,
};
use ada_completions::body_begun;
use ada_entities::{copy, entity_denoted, no_frame};
use ada_regions::{Names, UnitKind};
use ada_tree::{Expression, Identifier};
use ann_base::{NoMemory, Place};
use std::alloc::Global;

/// The context of a library unit begins.
#[tactic(auto, unfolding(ada_regions::specs::Regions::begun, ada_regions::specs::Regions::context_again))]
pub(crate) fn begin_context(alloc: Global, names: &mut Names<'_>) -> Result<(), NoMemory>
    ensures { OnOk result (names.new ≡ begun the_context names.old) }
{
    context_again(alloc, names, None)
}

/// The context of a package's declaration begins again.
#[tactic(auto, unfolding(ada_regions::specs::Regions::begun))]
pub(crate) fn begin_context_of(
    alloc: Global,
    names: &mut Names<'_>,
    name: &Identifier,
) -> Result<(), NoMemory>
    ensures { OnOk result (names.new ≡ begun (the_context_of name.now) names.old) }
{
    let context = context_named(names, name.text.as_slice())?;
    context_again(alloc, names, context)
}

/// What a package's body adds to its context begins.
#[tactic(auto, unfolding(ada_regions::specs::Regions::begun))]
pub(crate) fn begin_further_context(names: &mut Names<'_>) -> Result<(), NoMemory>
    ensures { OnOk result (names.new ≡ begun further_context names.old) }
{
    opened_new(names, no_frame())
}

/// A package's declaration begins.
#[tactic(auto, unfolding(ada_regions::specs::Regions::begun))]
pub(crate) fn begin_package(
    alloc: Global,
    names: &mut Names<'_>,
    name: &Identifier,
) -> Result<(), NoMemory>
    ensures { OnOk result (names.new ≡ begun (package_region name.now) names.old) }
{
    let package = entity_denoted(names, name.place);
    package_begun(alloc, names, package, name)
}

/// A package's body begins.
#[tactic(auto, unfolding(ada_regions::specs::Regions::begun))]
pub(crate) fn begin_package_body(
    alloc: Global,
    names: &mut Names<'_>,
    name: &Identifier,
) -> Result<(), NoMemory>
    ensures { OnOk result (names.new ≡ begun (package_body name.now) names.old) }
{
    let package = package_named(names, name.text.as_slice());
    package_body_begun(alloc, names, package, name)
}

/// The main procedure's body begins.
#[tactic(auto, unfolding(ada_regions::specs::Regions::begun))]
pub(crate) fn begin_main(
    alloc: Global,
    names: &mut Names<'_>,
    name: &Identifier,
    place: Place,
) -> Result<(), NoMemory>
    ensures { OnOk result (names.new ≡ begun (main_body name.now place) names.old) }
{
    let owner = entity_denoted(names, name.place);
    let called = copy(alloc, name.text.as_slice())?;
    scope_begun(names, place, false, owner, Some(called))
}

/// The profile of a declaration begins.
#[tactic(auto, unfolding(ada_regions::specs::Regions::begun))]
pub(crate) fn begin_profile(names: &mut Names<'_>) -> Result<(), NoMemory>
    ensures { OnOk result (names.new ≡ begun a_profile names.old) }
{
    opened_new(names, no_frame())
}

/// A subprogram's body begins.
#[tactic(auto, unfolding(ada_regions::specs::Regions::begun))]
pub(crate) fn begin_subprogram_body(
    names: &mut Names<'_>,
    place: Place,
    is_function: bool,
) -> Result<(), NoMemory>
    ensures { OnOk result (names.new ≡ begun (subprogram_body place is_function) names.old) }
{
    scope_begun(names, place, is_function, None, None)
}

/// A task or protected declaration begins.
#[tactic(auto, unfolding(ada_regions::specs::Regions::begun))]
pub(crate) fn begin_unit(
    alloc: Global,
    names: &mut Names<'_>,
    name: &Identifier,
) -> Result<(), NoMemory>
    ensures { OnOk result (names.new ≡ begun (a_unit name.now) names.old) }
{
    let unit = entity_denoted(names, name.place);
    unit_begun(alloc, names, unit, name)
}

/// A task's body begins.
#[tactic(auto, unfolding(ada_regions::specs::Regions::begun))]
pub(crate) fn begin_task_body(
    alloc: Global,
    names: &mut Names<'_>,
    name: &Identifier,
    place: Place,
) -> Result<(), NoMemory>
    ensures { OnOk result (names.new ≡ begun (task_body name.now place) names.old) }
{
    let scope = next_scope(names)?;
    with_scope(names, place, false, false)?;
    body_begun(alloc, names, UnitKind::Task, name, scope)
}

/// A protected body begins.
#[tactic(auto, unfolding(ada_regions::specs::Regions::begun))]
pub(crate) fn begin_protected_body(
    alloc: Global,
    names: &mut Names<'_>,
    name: &Identifier,
) -> Result<(), NoMemory>
    ensures { OnOk result (names.new ≡ begun (protected_body name.now) names.old) }
{
    body_begun(alloc, names, UnitKind::Protected, name, None)
}

/// An entry's body begins.
#[tactic(auto, unfolding(ada_regions::specs::Regions::begun))]
pub(crate) fn begin_entry_body<'t>(
    names: &mut Names<'t>,
    name: &'t Identifier,
    place: Place,
    barrier: &'t Expression,
) -> Result<(), NoMemory>
    ensures { OnOk result (names.new ≡ begun (entry_body name.now place barrier.now) names.old) }
{
    let denoted = entity_denoted(names, name.place);
    let entry = entry_owner(names, denoted);
    entry_body_begun(names, entry, place, barrier)
}

/// An accept statement begins.
#[tactic(auto, unfolding(ada_regions::specs::Regions::begun))]
pub(crate) fn begin_accept(
    names: &mut Names<'_>,
    name: &Identifier,
    place: Place,
) -> Result<(), NoMemory>
    ensures { OnOk result (names.new ≡ begun (an_accept name.now place) names.old) }
{
    let entry = entity_denoted(names, name.place);
    accept_begun(names, entry, place)
}

/// A block without a name begins.
#[tactic(auto, unfolding(ada_regions::specs::Regions::begun))]
pub(crate) fn begin_block(names: &mut Names<'_>, place: Place) -> Result<(), NoMemory>
    ensures { OnOk result (names.new ≡ begun (a_block None place) names.old) }
{
    scope_begun(names, place, false, None, None)
}

/// A block with a name begins.
#[tactic(auto, unfolding(ada_regions::specs::Regions::begun))]
pub(crate) fn begin_named_block(
    alloc: Global,
    names: &mut Names<'_>,
    name: &Identifier,
    place: Place,
) -> Result<(), NoMemory>
    ensures { OnOk result (names.new ≡ begun (a_block (Some name.now) place) names.old) }
{
    let label = entity_denoted(names, name.place);
    let called = copy(alloc, name.text.as_slice())?;
    scope_begun(names, place, false, label, Some(called))
}

/// A loop without a name begins.
#[tactic(auto, unfolding(ada_regions::specs::Regions::begun))]
pub(crate) fn begin_loop(names: &mut Names<'_>) -> Result<(), NoMemory>
    ensures { OnOk result (names.new ≡ begun (a_loop None) names.old) }
{
    loop_begun(names, None)
}

/// A loop with a name begins.
#[tactic(auto, unfolding(ada_regions::specs::Regions::begun))]
pub(crate) fn begin_named_loop(names: &mut Names<'_>, name: &Identifier) -> Result<(), NoMemory>
    ensures { OnOk result (names.new ≡ begun (a_loop (Some name.now)) names.old) }
{
    let label = entity_denoted(names, name.place);
    loop_begun(names, label)
}

/// The components of a controlled type begin.
#[tactic(auto, unfolding(ada_regions::specs::Regions::begun))]
pub(crate) fn begin_record(
    alloc: Global,
    names: &mut Names<'_>,
    name: &Identifier,
) -> Result<(), NoMemory>
    ensures { OnOk result (names.new ≡ begun (a_record name.now) names.old) }
{
    let of_type = entity_denoted(names, name.place);
    record_begun(alloc, names, of_type, name)
}
