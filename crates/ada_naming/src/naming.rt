//! The table of a source, and the first of its names that has no declaration, two, or an unclear
//! one.
ghost use Rattle.std.specs.Prelude.{◌≡◌, IfOk, OnOk, map};
ghost use Rattle.ada_regions.specs.Occurrences.{a_subprogram};
ghost use Rattle.ada_regions.specs.Declaring.{library_frame, declared};
ghost use Rattle.ada_regions.specs.Regions.{ended, library_unit, withed};
ghost use Rattle.ada_regions.specs.Numbered.{last_priority_of, nothing_known, behind};
ghost use Rattle.ada_regions.specs.Numbered.{behind_all, names_of, name_fault_of};
ghost use Rattle.ada_regions.specs.Shown.{occurrence_shown};

use crate::beginnings::{
    begin_accept, begin_block, begin_context, begin_context_of, begin_entry_body,
    begin_further_context, begin_loop, begin_main, begin_named_block, begin_named_loop,
    begin_package, begin_package_body, begin_profile, begin_protected_body, begin_record,
    begin_subprogram_body, begin_task_body, begin_unit,
};
use crate::clauses::{library_unit, used, withed};
use crate::frames::{made_private, named_as};
use ada_completions::{completed, entry_mentioned, headed};
use ada_declarations::{
    array_declared, component_declared, derived_declared, entry_declared, enumeration_declared,
    exception_declared, hidden, label_declared, literal_declared, loop_parameter_declared,
    main_declared, object_declared, package_declared, parameter_declared, protected_declared,
    subprogram_declared, subtype_declared, task_declared,
};
use ada_entities::{enclosure_here, ended};
use ada_occurrences::occurrences_of;
use ada_predefined::last_priority_of;
use ada_regions::{Frame, NameFault, Names, NumberedScope, Occurrence};
use ada_tree::{Identifier, Name, SubprogramSpecification, Unit};
use ada_visibility::{name_resolved, resolved};
use ann_base::{NoMemory, Place};
use std::alloc::Global;
use world_tables::{List, Table};

/// The innermost region ends.
fn end(names: &mut Names<'_>) -> Result<(), NoMemory>
    ensures { OnOk result (names.new ≡ ended names.old) }
{
    ended(names);
    Ok(())
}

/// A with clause names a unit.
fn with_unit(alloc: Global, names: &mut Names<'_>, name: &Name) -> Result<(), NoMemory>
    ensures { OnOk result
        (names.new ≡ withed name.now (library_unit names.old name.now) names.old) }
{
    let unit = library_unit(names, name);
    withed(alloc, names, name, unit)
}

/// A subprogram's declaration is declared.
#[tactic(auto, unfolding(ada_regions::specs::Declaring::declared))]
fn specification_declared<'t>(
    alloc: Global,
    names: &mut Names<'t>,
    identifier: &'t Identifier,
    specification: &'t SubprogramSpecification,
) -> Result<(), NoMemory>
    ensures { OnOk result
        (names.new ≡ declared identifier.now (a_subprogram specification.now) names.old) }
{
    let enclosure = enclosure_here(names);
    subprogram_declared(alloc, names, enclosure, true, 0, identifier, specification)
}

/// What is known behind an occurrence.
#[tactic(auto, unfolding(ada_regions::specs::Numbered::behind, ada_regions::specs::Declaring::declared))]
pub fn behind<'t>(
    alloc: Global,
    names: &mut Names<'t>,
    occurrence: Occurrence<'t>,
) -> Result<(), NoMemory>
    ensures { OnOk result (names.new ≡ behind (occurrence_shown occurrence.entry) names.old) }
{
    match occurrence {
        Occurrence::BeginContext => begin_context(alloc, names),
        Occurrence::BeginContextOf { name } => begin_context_of(alloc, names, name),
        Occurrence::BeginFurtherContext => begin_further_context(names),
        Occurrence::BeginPackage { name } => begin_package(alloc, names, name),
        Occurrence::BeginPackageBody { name } => begin_package_body(alloc, names, name),
        Occurrence::BeginMain { name, place } => begin_main(alloc, names, name, place),
        Occurrence::BeginProfile => begin_profile(names),
        Occurrence::BeginSubprogramBody { place, is_function } => begin_subprogram_body(
            names,
            place,
            is_function,
        ),
        Occurrence::BeginUnit { name } => begin_unit(alloc, names, name),
        Occurrence::BeginTaskBody { name, place } => begin_task_body(alloc, names, name, place),
        Occurrence::BeginProtectedBody { name } => begin_protected_body(alloc, names, name),
        Occurrence::BeginEntryBody {
            name,
            place,
            barrier,
        } => begin_entry_body(names, name, place, barrier),
        Occurrence::BeginAccept { name, place } => begin_accept(names, name, place),
        Occurrence::BeginBlock { place } => begin_block(names, place),
        Occurrence::BeginNamedBlock { name, place } => begin_named_block(alloc, names, name, place),
        Occurrence::BeginLoop => begin_loop(names),
        Occurrence::BeginNamedLoop { name } => begin_named_loop(names, name),
        Occurrence::BeginRecord { name } => begin_record(alloc, names, name),
        Occurrence::End => end(names),
        Occurrence::PrivateFromHere => made_private(names),
        Occurrence::Hide { name } => hidden(alloc, names, name),
        Occurrence::Head { name } => headed(alloc, names, name),
        Occurrence::Complete {
            name,
            specification,
        } => completed(alloc, names, name, specification),
        Occurrence::CallRegion { name } => named_as(alloc, names, name),
        Occurrence::Mention { name } => name_resolved(alloc, names, name),
        Occurrence::MentionSimply { name } => resolved(alloc, names, name),
        Occurrence::MentionEntry { name } => entry_mentioned(alloc, names, name),
        Occurrence::WithUnit { name } => with_unit(alloc, names, name),
        Occurrence::UsePackage { name } => used(alloc, names, name),
        Occurrence::DeclareObject { name, object } => object_declared(alloc, names, name, object),
        Occurrence::DeclareComponent { name, component } => component_declared(
            alloc, names, name, component,
        ),
        Occurrence::DeclareParameter {
            name,
            with_cells,
            parameter,
        } => parameter_declared(alloc, names, with_cells, name, parameter),
        Occurrence::DeclareLoopParameter { name } => loop_parameter_declared(alloc, names, name),
        Occurrence::DeclareEnumeration { name, literals } => enumeration_declared(
            alloc, names, name, literals,
        ),
        Occurrence::DeclareLiteral { name } => literal_declared(alloc, names, name),
        Occurrence::DeclareArray {
            name,
            low,
            high,
            component,
        } => array_declared(alloc, names, name, low, high, component),
        Occurrence::DeclareDerivedType { name, parent } => derived_declared(
            alloc, names, name, parent,
        ),
        Occurrence::DeclareSubtype { name, subtype } => subtype_declared(
            alloc, names, name, subtype,
        ),
        Occurrence::DeclareException { name } => exception_declared(alloc, names, name),
        Occurrence::DeclareLabel { name } => label_declared(alloc, names, name),
        Occurrence::DeclareSubprogram {
            name,
            specification,
        } => specification_declared(alloc, names, name, specification),
        Occurrence::DeclareEntry { name, parameters } => entry_declared(
            alloc, names, name, parameters,
        ),
        Occurrence::DeclareTask {
            name,
            is_type,
            aspects,
        } => task_declared(alloc, names, is_type, aspects, name),
        Occurrence::DeclareProtected {
            name,
            is_type,
            aspects,
        } => protected_declared(alloc, names, is_type, aspects, name),
        Occurrence::DeclarePackage { name } => package_declared(alloc, names, name),
        Occurrence::DeclareMain { name } => main_declared(alloc, names, name),
    }
}

/// What is known behind some occurrences.
fn behind_all<'t>(
    alloc: Global,
    names: &mut Names<'t>,
    occurrences: &[Occurrence<'t>],
) -> Result<(), NoMemory>
    ensures { OnOk result
        (names.new ≡ behind_all (map occurrence_shown occurrences.now) names.old) }
{
    for occurrence in occurrences {
        behind(alloc, names, *occurrence)?;
    }
    Ok(())
}

/// The region of Standard, in which library units stand (10.1).
fn library_frame() -> Frame
    ensures { result ≡ library_frame }
{
    Frame {
        region: 0,
        owner: None,
        scope: Some(0),
        is_accept: false,
        name: None,
        exports: false,
        components: None,
        part: 0,
    }
}

/// At the beginning the region of Standard is open, and the environment has a scope.
pub fn nothing_known<'t>(alloc: Global, last: u8) -> Result<Names<'t>, NoMemory>
    ensures { IfOk result (λ names. names ≡ nothing_known last) }
{
    let mut frames = List::new(alloc);
    frames.push_front(library_frame())?;
    let mut scopes = List::new(alloc);
    scopes.push_front(NumberedScope {
        place: Place { line: 0, column: 0 },
        outer: None,
        is_function: false,
        is_accept: false,
    })?;
    Ok(Names {
        last_priority: last,
        regions: 1,
        frames,
        parts: 1,
        bindings: Table::new(alloc),
        uses: List::new(alloc),
        withs: List::new(alloc),
        contexts: List::new(alloc),
        entities: List::new(alloc),
        bodies: List::new(alloc),
        denotations: Table::new(alloc),
        declarations: List::new(alloc),
        scopes,
        subprograms: List::new(alloc),
        arrays: List::new(alloc),
        enumerations: List::new(alloc),
        task_units: List::new(alloc),
        protected_units: List::new(alloc),
        controlled_types: List::new(alloc),
        entries: List::new(alloc),
        fault: None,
    })
}

/// The table of the names of a source.
pub fn names_of(alloc: Global, tree: &Unit) -> Result<Names<'_>, NoMemory>
    // It is that of the tree.
    ensures names { IfOk result (λ names. names ≡ names_of tree.now) }
{
    let mut names = nothing_known(alloc, last_priority_of(tree.pragmas.as_slice()))?;
    let occurrences = occurrences_of(alloc, tree)?;
    behind_all(alloc, &mut names, occurrences.as_slice())?;
    Ok(names)
}

/// The first name of a source that has no declaration, two, or an unclear one.
pub fn name_fault_of(alloc: Global, tree: &Unit) -> Result<Option<NameFault>, NoMemory>
    // It is the earliest in the text.
    ensures fault { IfOk result (λ fault. fault ≡ name_fault_of tree.now) }
{
    let names = names_of(alloc, tree)?;
    Ok(names.fault)
}
