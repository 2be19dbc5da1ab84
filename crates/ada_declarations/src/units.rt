//! Library units, and task and protected units: a type, or a single object of a type without a name
//! (ISO/IEC 8652:2012, 9.1, 9.4, 10.1).
ghost use Rattle.std.specs.Prelude.{◌≡◌, OnOk};
ghost use Rattle.ada_regions.specs.Occurrences.{the_package, the_main_procedure};
ghost use Rattle.ada_regions.specs.Declaring.{unit_entered, task_declared};
ghost use Rattle.ada_regions.specs.Declaring.{protected_declared, declared};

use crate::entering::{entered_as_unit, entered_here, number};
use crate::numbering::{next_declaration, numbered, with_region};
use ada_entities::scope_in;
use ada_regions::{
    AdaType, AspectsOf, EntityKind, Names, NumberedProtected, NumberedTask, Sort, Subtype,
    free_subtype,
};
use ada_tree::{Aspect, Identifier};
use ann_base::NoMemory;
use profile_image::{ProtectedUnitNo, TaskUnitNo};
use std::alloc::Global;

/// A library package is declared.
#[tactic(auto, unfolding(ada_regions::specs::Declaring::declared))]
pub fn package_declared(
    alloc: Global,
    names: &mut Names<'_>,
    identifier: &Identifier,
) -> Result<(), NoMemory>
    ensures { OnOk result (names.new ≡ declared identifier.now the_package names.old) }
{
    let region = names.regions;
    with_region(names)?;
    entered_as_unit(alloc, names, identifier, EntityKind::Package, Some(region))
}

/// The main procedure is declared.
#[tactic(auto, unfolding(ada_regions::specs::Declaring::declared))]
pub fn main_declared(
    alloc: Global,
    names: &mut Names<'_>,
    identifier: &Identifier,
) -> Result<(), NoMemory>
    ensures { OnOk result (names.new ≡ declared identifier.now the_main_procedure names.old) }
{
    entered_as_unit(alloc, names, identifier, EntityKind::Main, None)
}

/// A unit is declared: a type of this subtype, or an object of it.
#[tactic(auto, unfolding(ada_regions::specs::Declaring::unit_entered))]
fn unit_entered(
    alloc: Global,
    names: &mut Names<'_>,
    is_type: bool,
    identifier: &Identifier,
    subtype: Subtype,
) -> Result<(), NoMemory>
    ensures { OnOk result (names.new ≡ unit_entered is_type identifier.now subtype names.old) }
{
    let region = names.regions;
    if is_type {
        with_region(names)?;
        let kind = EntityKind::Mark(Some(subtype));
        entered_here(alloc, names, identifier, kind, Some(region))
    } else {
        let kind = EntityKind::Object {
            subtype: Some(subtype),
            constant: false,
            value: None,
            declaration: next_declaration(names)?,
        };
        let scope = scope_in(&names.frames);
        numbered(alloc, names, identifier, Sort::Object, scope, Some(subtype))?;
        with_region(names)?;
        entered_here(alloc, names, identifier, kind, Some(region))
    }
}

/// A task or a task type is declared.
#[tactic(auto, unfolding(ada_regions::specs::Declaring::task_declared))]
pub fn task_declared<'t>(
    alloc: Global,
    names: &mut Names<'t>,
    is_type: bool,
    aspects: &'t [Aspect],
    identifier: &Identifier,
) -> Result<(), NoMemory>
    ensures { OnOk result (names.new ≡ task_declared is_type aspects.now identifier.now names.old) }
{
    let unit = TaskUnitNo(number(names.task_units.len())?);
    let region = names.regions;
    names.task_units.push_back(NumberedTask {
        region,
        aspects: AspectsOf::new(aspects),
        scope: 0,
    })?;
    let subtype = free_subtype(AdaType::Task(unit));
    unit_entered(alloc, names, is_type, identifier, subtype)
}

/// A protected object or type is declared.
#[tactic(auto, unfolding(ada_regions::specs::Declaring::protected_declared))]
pub fn protected_declared<'t>(
    alloc: Global,
    names: &mut Names<'t>,
    is_type: bool,
    aspects: &'t [Aspect],
    identifier: &Identifier,
) -> Result<(), NoMemory>
    ensures { OnOk result
        (names.new ≡ protected_declared is_type aspects.now identifier.now names.old) }
{
    let unit = ProtectedUnitNo(number(names.protected_units.len())?);
    let region = names.regions;
    names.protected_units.push_back(NumberedProtected {
        region,
        aspects: AspectsOf::new(aspects),
    })?;
    let subtype = free_subtype(AdaType::Protected(unit));
    unit_entered(alloc, names, is_type, identifier, subtype)
}
