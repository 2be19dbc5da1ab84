//! Packages (7.2, 10.1.4): a body follows its declaration, and only one does; a declaration that
//! needs a body has one.
ghost use Rattle.std.specs.Prelude.{◌≡◌, ◌++◌, IfOk, OnOk, map};
ghost use Rattle.std.specs.List.{flat_map, list_any};
ghost use Rattle.ada_regions.specs.Names.{entity_denoted};
ghost use Rattle.ada_legality.specs.Values.{is_entity};
ghost use Rattle.ada_legality.specs.Packages.{denote_entity, body_named_in, bodies_of_packages};
ghost use Rattle.ada_legality.specs.Packages.{is_first_of, completes_package, body_judged};
ghost use Rattle.ada_legality.specs.Packages.{body_named, private_part, bodies_in_package};
ghost use Rattle.ada_legality.specs.Packages.{package_needs_body, has_package_body};
ghost use Rattle.ada_legality.specs.Packages.{declaration_judged, package_judged, packages_judged};
ghost use Rattle.legality_beside.specs.Bodies.{denoted_in, has_entity, has_body_among, lacks_body};
ghost use Rattle.legality_beside.specs.Bodies.{package_lacks, body_of, completes_some, first_among};

use ada_entities::{entity_denoted, is_package_at, same_place};
use ada_legality::{Finding, Rule};
use ada_regions::Names;
use ada_tree::{
    Declaration, Identifier, LibraryPackage, Package, PackageBody, PackageDeclaration, Sequence,
};
use ann_base::{NoMemory, Place};
use legality_entities::is_entity;
use legality_types::{broken_if, broken_unless};
use std::alloc::Global;
use world_tables::List;

fn denoted_in(names: &Names<'_>, name: &Identifier) -> Option<u32>
    ensures { result ≡ denoted_in names.now name.now }
{
    entity_denoted(names, name.place)
}

/// What the name of a declaration's body denotes is put behind others.
fn body_put(
    bodies: &mut List<Option<u32>>,
    names: &Names<'_>,
    declaration: &Declaration<Sequence>,
) -> Result<(), NoMemory>
    ensures { OnOk result
        (bodies.new ≡ bodies.old ++ map (denoted_in names.now) (body_named declaration.now)) }
{
    match declaration {
        Declaration::SubprogramBody { specification, .. } => {
            bodies.push_back(denoted_in(names, &specification.name))?;
        }
        Declaration::TaskBody { name, .. } => bodies.push_back(denoted_in(names, name))?,
        Declaration::ProtectedBody(body) => bodies.push_back(denoted_in(names, &body.name))?,
        _ => {}
    }
    Ok(())
}

fn bodies_put(
    bodies: &mut List<Option<u32>>,
    names: &Names<'_>,
    declarations: &[Declaration<Sequence>],
) -> Result<(), NoMemory>
    ensures { OnOk result
        (bodies.new
        ≡ bodies.old ++ map (denoted_in names.now) (flat_map body_named declarations.now)) }
{
    for declaration in declarations {
        body_put(bodies, names, declaration)?;
    }
    Ok(())
}

/// What the names of bodies in the declarations of a package denote.
#[tactic(auto, unfolding(ada_legality::specs::Packages::bodies_in_package))]
fn bodies_in_package(
    alloc: Global,
    names: &Names<'_>,
    declared: &PackageDeclaration,
) -> Result<List<Option<u32>>, NoMemory>
    ensures { IfOk result
        (λ bodies. bodies ≡ map (denoted_in names.now) (bodies_in_package declared.now)) }
{
    let mut bodies = List::new(alloc);
    bodies_put(&mut bodies, names, declared.declarations.as_slice())?;
    match &declared.private {
        None => Ok(bodies),
        Some(declarations) => {
            bodies_put(&mut bodies, names, declarations.as_slice())?;
            Ok(bodies)
        }
    }
}

/// Whether one of these bodies is of the entity.
fn has_entity(bodies: &List<Option<u32>>, entity: u32) -> bool
    ensures { result ≡ has_entity bodies.now entity }
{
    bodies.iter().any(|body| is_entity(entity, *body))
}

/// Whether one of these bodies is of the entity that the name denotes.
fn has_body_among(
    names: &Names<'_>,
    bodies: &List<Option<u32>>,
    name: &Identifier,
    otherwise: bool,
) -> bool
    ensures { result ≡ has_body_among names.now bodies.now name.now otherwise }
{
    match entity_denoted(names, name.place) {
        None => otherwise,
        Some(entity) => has_entity(bodies, entity),
    }
}

/// Whether a declaration needs a body, and has none among these.
fn lacks_body(
    names: &Names<'_>,
    bodies: &List<Option<u32>>,
    declaration: &Declaration<Sequence>,
) -> bool
    ensures { result ≡ lacks_body names.now bodies.now declaration.now }
{
    match declaration {
        Declaration::Subprogram(specification) => {
            !has_body_among(names, bodies, &specification.name, true)
        }
        Declaration::Task(task) => !has_body_among(names, bodies, &task.name, true),
        Declaration::Protected(protected) => !has_body_among(names, bodies, &protected.name, true),
        _ => false,
    }
}

fn any_lacks_body(
    names: &Names<'_>,
    bodies: &List<Option<u32>>,
    declarations: &[Declaration<Sequence>],
) -> bool
    ensures { result ≡ list_any (lacks_body names.now bodies.now) declarations.now }
{
    declarations
        .iter()
        .any(|declaration| lacks_body(names, bodies, declaration))
}

fn private_lacks_body(
    names: &Names<'_>,
    bodies: &List<Option<u32>>,
    declared: &PackageDeclaration,
) -> bool
    ensures { result ≡ list_any (lacks_body names.now bodies.now) (private_part declared.now) }
{
    match &declared.private {
        None => false,
        Some(declarations) => any_lacks_body(names, bodies, declarations.as_slice()),
    }
}

/// Whether some declaration of a package has no body among these.
fn package_lacks(
    names: &Names<'_>,
    bodies: &List<Option<u32>>,
    declared: &PackageDeclaration,
) -> bool
    ensures { result ≡ package_lacks names.now bodies.now declared.now }
{
    any_lacks_body(names, bodies, declared.declarations.as_slice())
        || private_lacks_body(names, bodies, declared)
}

/// Whether some declaration of a package needs a body outside it.
#[tactic(auto, using(crate::proofs::BodiesNamed::package_needs_is))]
fn package_needs_body(
    alloc: Global,
    names: &Names<'_>,
    declared: &PackageDeclaration,
) -> Result<bool, NoMemory>
    ensures { IfOk result (λ needs. needs ≡ package_needs_body names.now declared.now) }
{
    let bodies = bodies_in_package(alloc, names, declared)?;
    Ok(package_lacks(names, &bodies, declared))
}

/// What the name of a package's body denotes is put behind others.
fn package_body_put(
    bodies: &mut List<Option<u32>>,
    names: &Names<'_>,
    unit: &Package,
) -> Result<(), NoMemory>
    ensures { OnOk result
        (bodies.new ≡ bodies.old ++ map (denoted_in names.now) (body_named_in unit.now)) }
{
    match unit {
        Package::Declaration(_) => Ok(()),
        Package::Body(body) => {
            bodies.push_back(denoted_in(names, &body.name))?;
            Ok(())
        }
    }
}

/// What the names of all package bodies denote.
#[tactic(auto, unfolding(ada_legality::specs::Packages::bodies_of_packages))]
fn bodies_of_packages(
    alloc: Global,
    names: &Names<'_>,
    packages: &[LibraryPackage],
) -> Result<List<Option<u32>>, NoMemory>
    ensures { IfOk result
        (λ bodies. bodies ≡ map (denoted_in names.now) (bodies_of_packages packages.now)) }
{
    let mut bodies = List::new(alloc);
    for library in packages {
        package_body_put(&mut bodies, names, &library.package)?;
    }
    Ok(bodies)
}

/// The body of a package, where its name denotes the entity.
fn body_of(names: &Names<'_>, entity: u32, unit: &Package) -> Option<Place>
    ensures { result ≡ body_of names.now entity unit.now }
{
    match unit {
        Package::Declaration(_) => None,
        Package::Body(body) => {
            if is_entity(entity, denoted_in(names, &body.name)) {
                Some(body.name.place)
            } else {
                None
            }
        }
    }
}

/// Whether the first body of an entity among these packages has its name at the place.
fn first_among(names: &Names<'_>, entity: u32, place: Place, packages: &[LibraryPackage]) -> bool
    ensures { result ≡ first_among names.now entity place packages.now }
{
    for library in packages {
        match body_of(names, entity, &library.package) {
            None => {}
            Some(other) => return same_place(other, place),
        }
    }
    false
}

/// Whether the name at a place is that of an entity's first body.
#[tactic(auto, using(crate::proofs::BodiesNamed::first_is))]
fn is_first_of(names: &Names<'_>, entity: u32, place: Place, packages: &[LibraryPackage]) -> bool
    ensures { result
        ≡ is_first_of place (denote_entity names.now entity (bodies_of_packages packages.now)) }
{
    first_among(names, entity, place, packages)
}

/// Whether a body is the first of its package.
#[tactic(auto, unfolding(ada_legality::specs::Packages::completes_package))]
fn completes_package(
    names: &Names<'_>,
    packages: &[LibraryPackage],
    name: &Identifier,
    entity: u32,
) -> bool
    ensures { result
        ≡ completes_package names.now (bodies_of_packages packages.now) name.now entity }
{
    is_package_at(names, entity) && is_first_of(names, entity, name.place, packages)
}

fn completes_some(names: &Names<'_>, packages: &[LibraryPackage], name: &Identifier) -> bool
    ensures { result ≡ completes_some names.now (bodies_of_packages packages.now) name.now }
{
    match entity_denoted(names, name.place) {
        None => false,
        Some(entity) => completes_package(names, packages, name, entity),
    }
}

/// A package's body without its package, or a later one.
#[tactic(auto, unfolding(ada_legality::specs::Packages::body_judged))]
fn body_judged(
    judged: &mut List<Finding>,
    names: &Names<'_>,
    packages: &[LibraryPackage],
    body: &PackageBody,
) -> Result<(), NoMemory>
    ensures { OnOk result
        (judged.new
        ≡ judged.old ++ body_judged names.now (bodies_of_packages packages.now) body.now) }
{
    broken_unless(
        judged,
        Rule::PackageBodies,
        completes_some(names, packages, &body.name),
        body.place,
    )
}

/// Whether a package has a body in the text.
#[tactic(auto, using(crate::proofs::BodiesNamed::has_body_is), unfolding(ada_legality::specs::Packages::has_package_body))]
fn has_package_body(
    alloc: Global,
    names: &Names<'_>,
    packages: &[LibraryPackage],
    name: &Identifier,
) -> Result<bool, NoMemory>
    ensures { IfOk result
        (λ has. has ≡ has_package_body names.now (bodies_of_packages packages.now) name.now) }
{
    let bodies = bodies_of_packages(alloc, names, packages)?;
    Ok(has_body_among(names, &bodies, name, false))
}

/// A package that needs a body and has none.
#[tactic(auto, unfolding(ada_legality::specs::Packages::declaration_judged))]
fn declaration_judged(
    alloc: Global,
    judged: &mut List<Finding>,
    names: &Names<'_>,
    packages: &[LibraryPackage],
    declared: &PackageDeclaration,
) -> Result<(), NoMemory>
    ensures { OnOk result
        (judged.new
        ≡ judged.old
        ++ declaration_judged names.now (bodies_of_packages packages.now) declared.now) }
{
    let needs = package_needs_body(alloc, names, declared)?;
    let has = has_package_body(alloc, names, packages, &declared.name)?;
    broken_if(judged, Rule::PackageBodies, needs && !has, declared.place)
}

/// A package of a source.
fn package_judged(
    alloc: Global,
    judged: &mut List<Finding>,
    names: &Names<'_>,
    packages: &[LibraryPackage],
    unit: &Package,
) -> Result<(), NoMemory>
    ensures { OnOk result
        (judged.new
        ≡ judged.old ++ package_judged names.now (bodies_of_packages packages.now) unit.now) }
{
    match unit {
        Package::Declaration(declaration) => {
            declaration_judged(alloc, judged, names, packages, declaration)
        }
        Package::Body(body) => body_judged(judged, names, packages, body),
    }
}

/// All packages of a source: each body completes its package, and each package that needs a body
/// has one.
#[tactic(auto, unfolding(ada_legality::specs::Packages::packages_judged))]
pub fn packages_judged(
    alloc: Global,
    judged: &mut List<Finding>,
    names: &Names<'_>,
    packages: &[LibraryPackage],
) -> Result<(), NoMemory>
    // What they break stands behind what was judged before.
    ensures { OnOk result (judged.new ≡ judged.old ++ packages_judged names.now packages.now) }
{
    for library in packages {
        package_judged(alloc, judged, names, packages, &library.package)?;
    }
    Ok(())
}
