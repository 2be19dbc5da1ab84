//! Library packages: a package's body has the region and the context of its declaration (ISO/IEC
//! 8652:2012, 7.1, 7.2, 10.1).
ghost use Rattle.std.specs.Prelude.{◌≡◌, [], None, IfOk, OnOk, eqb, find, option_copied};
ghost use Rattle.ada_regions.specs.Words.{and_then};
ghost use Rattle.ada_regions.specs.Completions.{body_apart};
ghost use Rattle.ada_regions.specs.Regions.{package_if, package_named, context_of_package};
ghost use Rattle.ada_regions.specs.Regions.{context_again, frame_of_package, with_context};
ghost use Rattle.ada_regions.specs.Regions.{package_opened, package_begun, package_body_begun};

use crate::frames::opened_new;
use ada_completions::{body_apart, entity_bound};
use ada_entities::{copy, is_package_at, no_frame, noted, opened, region_here, region_of_entity};
use ada_regions::{Denoted, Frame, Names, PackageContext};
use ada_tree::Identifier;
use ann_base::NoMemory;
use std::alloc::Global;
use world_tables::List;

fn package_if(names: &Names<'_>, entity: u32) -> Option<u32>
    ensures { result ≡ package_if names.now entity }
{
    if is_package_at(names, entity) {
        Some(entity)
    } else {
        None
    }
}

/// The library package with this name.
#[tactic(auto, unfolding(ada_regions::specs::Regions::package_named))]
pub(crate) fn package_named(names: &Names<'_>, name: &[u8]) -> Option<u32>
    ensures { result ≡ package_named names.now name.now }
{
    let entity = entity_bound(names, 0, name)?;
    package_if(names, entity)
}

fn context_found<'n>(names: &'n Names<'_>, entity: u32) -> Option<&'n PackageContext>
    ensures { option_copied result ≡ find (λ c. eqb c.of_package entity) names.now.contexts }
{
    names
        .contexts
        .iter()
        .find(|context| context.of_package == entity)
}

/// The context of a package's declaration.
#[tactic(auto, unfolding(ada_regions::specs::Regions::context_of_package))]
fn context_of_package<'n>(names: &'n Names<'_>, entity: u32) -> Option<&'n PackageContext>
    ensures { option_copied result ≡ context_of_package names.now entity }
{
    context_found(names, entity)
}

/// The same context.
fn copy_of(context: &PackageContext) -> Result<PackageContext, NoMemory>
    ensures { IfOk result (λ copy. copy ≡ context.now) }
{
    let withs = context.withs.clone()?;
    Ok(PackageContext {
        of_package: context.of_package,
        region: context.region,
        withs,
    })
}

/// The context of the declaration of the package with this name.
pub(crate) fn context_named(
    names: &Names<'_>,
    name: &[u8],
) -> Result<Option<PackageContext>, NoMemory>
    ensures { IfOk result
        (λ context.
        context ≡ and_then (package_named names.now name.now) (context_of_package names.now)) }
{
    match package_named(names, name) {
        None => Ok(None),
        Some(package) => match context_of_package(names, package) {
            None => Ok(None),
            Some(context) => Ok(Some(copy_of(context)?)),
        },
    }
}

/// The context of a package's declaration begins again.
#[tactic(auto, unfolding(ada_regions::specs::Regions::context_again))]
pub(crate) fn context_again(
    alloc: Global,
    names: &mut Names<'_>,
    context: Option<PackageContext>,
) -> Result<(), NoMemory>
    ensures { OnOk result (names.new ≡ context_again context names.old) }
{
    match context {
        None => {
            names.withs = List::new(alloc);
            opened_new(names, no_frame())
        }
        Some(context) => {
            let PackageContext {
                of_package: _,
                region,
                withs,
            } = context;
            let mut frame = no_frame();
            frame.region = region;
            names.withs = withs;
            opened(names, frame)
        }
    }
}

fn frame_of_package(
    alloc: Global,
    entity: u32,
    identifier: &Identifier,
    exports: bool,
    region: u32,
) -> Result<Frame, NoMemory>
    ensures { IfOk result (λ frame. frame ≡ frame_of_package entity identifier.now exports region) }
{
    let name = copy(alloc, identifier.text.as_slice())?;
    Ok(Frame {
        region,
        owner: Some(entity),
        scope: None,
        is_accept: false,
        name: Some(name),
        exports,
        components: None,
        part: 0,
    })
}

/// The context of a package is kept for its body.
fn with_context(names: &mut Names<'_>, entity: u32) -> Result<(), NoMemory>
    ensures { OnOk result (names.new ≡ with_context entity names.old) }
{
    let region = region_here(names);
    let withs = names.withs.clone()?;
    names.contexts.push_front(PackageContext {
        of_package: entity,
        region,
        withs,
    })?;
    Ok(())
}

/// A package in a region of its own.
fn package_apart(
    alloc: Global,
    names: &mut Names<'_>,
    identifier: &Identifier,
) -> Result<(), NoMemory>
    ensures { OnOk result (names.new ≡ body_apart None identifier.now None [] names.old) }
{
    body_apart(alloc, names, None, identifier, None, List::new(alloc))
}

fn package_opened(
    alloc: Global,
    names: &mut Names<'_>,
    entity: u32,
    identifier: &Identifier,
    exports: bool,
    region: Option<u32>,
) -> Result<(), NoMemory>
    ensures { OnOk result
        (names.new ≡ package_opened entity identifier.now exports region names.old) }
{
    match region {
        None => package_apart(alloc, names, identifier),
        Some(region) => {
            let frame = frame_of_package(alloc, entity, identifier, exports, region)?;
            opened(names, frame)
        }
    }
}

/// A package's declaration begins.
#[tactic(auto, unfolding(ada_regions::specs::Regions::package_begun))]
pub(crate) fn package_begun(
    alloc: Global,
    names: &mut Names<'_>,
    entity: Option<u32>,
    identifier: &Identifier,
) -> Result<(), NoMemory>
    ensures { OnOk result (names.new ≡ package_begun entity identifier.now names.old) }
{
    match entity {
        None => package_apart(alloc, names, identifier),
        Some(entity) => {
            let region = region_of_entity(names, entity);
            with_context(names, entity)?;
            package_opened(alloc, names, entity, identifier, true, region)
        }
    }
}

/// A package's body begins.
#[tactic(auto, unfolding(ada_regions::specs::Regions::package_body_begun))]
pub(crate) fn package_body_begun(
    alloc: Global,
    names: &mut Names<'_>,
    entity: Option<u32>,
    identifier: &Identifier,
) -> Result<(), NoMemory>
    ensures { OnOk result (names.new ≡ package_body_begun entity identifier.now names.old) }
{
    match entity {
        None => package_apart(alloc, names, identifier),
        Some(entity) => {
            let region = region_of_entity(names, entity);
            noted(alloc, names, identifier.place, Denoted::Entity(entity))?;
            package_opened(alloc, names, entity, identifier, false, region)
        }
    }
}
