//! Packages and the main procedure (ISO/IEC 8652:2012, 7.1, 7.2, 10.2, D.1).
ghost use Rattle.std.specs.Prelude.{◌≡◌, ◌++◌, ◌∷◌, [], OnOk, pos, unwrap_or};
ghost use Rattle.ada_regions.specs.PredefinedUnits.{default_priority};
ghost use Rattle.ada_legality.specs.Aspects.{stated_value};
ghost use Rattle.ada_legality.specs.CallStatements.{all_found, found_if};
ghost use Rattle.ada_legality.specs.Units.{library_package_found, main_found, main_priority_noted};
ghost use Rattle.ada_legality.specs.Units.{package_body_found, package_declaration_found};
ghost use Rattle.ada_legality.specs.Units.{package_found, part_found, units_found};

use ada_legality::{Around, AspectOwner, AspectPart, Finding, Known, Number};
use ada_predefined::default_priority;
use ada_tree::{
    Declaration, LibraryPackage, MainProcedure, Package, PackageBody, PackageDeclaration, Sequence,
    Unit,
};
use ann_base::{NoMemory, Place};
use legality_choices::{place_of_priority, stated_value};
use legality_compounds::{Judge, judge_each, judge_if};
use legality_contexts::context_found;
use legality_entities::with_around;
use legality_parts::aspects_found;
use legality_types::note;
use sqlite_items::Items;
use std::alloc::Global;
use world_tables::List;

/// The declarations of a package.
fn part_found(
    alloc: Global,
    found: &mut List<Finding>,
    known: &Known<'_, '_>,
    declarations: &[Declaration<Sequence>],
) -> Result<(), NoMemory>
    ensures { OnOk result (found.new ≡ found.old ++ part_found declarations.now known.now) }
{
    judge_each(alloc, found, known, declarations)
}

/// The private part of a package, where it has one.
fn private_found(
    alloc: Global,
    found: &mut List<Finding>,
    known: &Known<'_, '_>,
    declarations: &Option<Items<Declaration<Sequence>>>,
) -> Result<(), NoMemory>
    ensures { OnOk result
        (found.new ≡ found.old ++ found_if part_found declarations.now known.now) }
{
    match declarations {
        None => Ok(()),
        Some(declarations) => part_found(alloc, found, known, declarations.as_slice()),
    }
}

/// A package declaration.
#[tactic(auto, unfolding(ada_legality::specs::Units::package_declaration_found))]
fn package_declaration_found(
    alloc: Global,
    found: &mut List<Finding>,
    known: &Known<'_, '_>,
    declared: &PackageDeclaration,
) -> Result<(), NoMemory>
    ensures { OnOk result
        (found.new ≡ found.old ++ package_declaration_found declared.now known.now) }
{
    let inside = with_around(known, Around::Package)?;
    part_found(alloc, found, &inside, declared.declarations.as_slice())?;
    private_found(alloc, found, &inside, &declared.private)
}

/// A package body.
#[tactic(auto, unfolding(ada_legality::specs::Units::package_body_found))]
fn package_body_found(
    alloc: Global,
    found: &mut List<Finding>,
    known: &Known<'_, '_>,
    body: &PackageBody,
) -> Result<(), NoMemory>
    ensures { OnOk result (found.new ≡ found.old ++ package_body_found body.now known.now) }
{
    let inside = with_around(known, Around::Package)?;
    part_found(alloc, found, &inside, body.declarations.as_slice())?;
    judge_if(alloc, found, &inside, &body.sequence)
}

/// A package.
fn package_found(
    alloc: Global,
    found: &mut List<Finding>,
    known: &Known<'_, '_>,
    unit: &Package,
) -> Result<(), NoMemory>
    ensures { OnOk result (found.new ≡ found.old ++ package_found unit.now known.now) }
{
    match unit {
        Package::Declaration(declared) => package_declaration_found(alloc, found, known, declared),
        Package::Body(body) => package_body_found(alloc, found, known, body),
    }
}

/// A package with its context.
#[tactic(auto, unfolding(ada_legality::specs::Units::library_package_found))]
fn library_package_found(
    alloc: Global,
    found: &mut List<Finding>,
    known: &Known<'_, '_>,
    unit: &LibraryPackage,
) -> Result<(), NoMemory>
    ensures { OnOk result (found.new ≡ found.old ++ library_package_found unit.now known.now) }
{
    context_found(found, known, unit.context.as_slice())?;
    package_found(alloc, found, known, &unit.package)
}

/// All packages of a source.
fn packages_found(
    alloc: Global,
    found: &mut List<Finding>,
    known: &Known<'_, '_>,
    packages: &[LibraryPackage],
) -> Result<(), NoMemory>
    ensures { OnOk result
        (found.new ≡ found.old ++ all_found library_package_found packages.now known.now) }
{
    for unit in packages {
        library_package_found(alloc, found, known, unit)?;
    }
    Ok(())
}

/// The base priority of the main procedure.
fn priority_of_main(last: u8, aspects: &[AspectPart]) -> Number
    ensures { result ≡ unwrap_or (stated_value last aspects.now) (pos (default_priority last)) }
{
    match stated_value(last, aspects) {
        Some(number) => number,
        None => Number::of(i64::from(default_priority(last))),
    }
}

/// The main procedure's base priority.
#[tactic(auto, unfolding(ada_legality::specs::Units::main_priority_noted))]
fn main_priority_noted(
    found: &mut List<Finding>,
    last: u8,
    aspects: &[AspectPart],
    place: Place,
) -> Result<(), NoMemory>
    ensures { OnOk result
        (found.new ≡ found.old ++ main_priority_noted last aspects.now place ∷ []) }
{
    note(
        found,
        Finding::MainPriority {
            number: priority_of_main(last, aspects),
            place: place_of_priority(last, aspects, place),
        },
    )
}

/// The main procedure.
#[tactic(auto, unfolding(ada_legality::specs::Units::main_found))]
fn main_found(
    alloc: Global,
    found: &mut List<Finding>,
    known: &Known<'_, '_>,
    main: &MainProcedure,
) -> Result<(), NoMemory>
    ensures { OnOk result (found.new ≡ found.old ++ main_found main.now known.now) }
{
    let aspects = aspects_found(
        alloc,
        found,
        known,
        AspectOwner::OnMain,
        main.place,
        main.aspects.as_slice(),
    )?;
    let last = known.names.get().last_priority;
    main_priority_noted(found, last, aspects.as_slice(), main.place)?;
    let inside = with_around(known, Around::Main)?;
    main.body.sequence.judge(alloc, found, &inside)
}

/// All units of a source.
#[tactic(auto, unfolding(ada_legality::specs::Units::units_found))]
pub fn units_found(
    alloc: Global,
    found: &mut List<Finding>,
    known: &Known<'_, '_>,
    tree: &Unit,
) -> Result<(), NoMemory>
    ensures { OnOk result (found.new ≡ found.old ++ units_found tree.now known.now) }
{
    packages_found(alloc, found, known, tree.packages.as_slice())?;
    context_found(found, known, tree.context.as_slice())?;
    main_found(alloc, found, known, &tree.main)
}
