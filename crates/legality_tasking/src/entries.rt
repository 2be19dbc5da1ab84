//! Entries (ISO/IEC 8652:2012, 9.5.2, D.7).
ghost use Rattle.std.specs.Prelude.{◌≡◌, ◌++◌, IfOk, OnOk, Some, option_copied, slice_get};
ghost use Rattle.std.specs.List.{flat_map};
ghost use Rattle.ada_legality.specs.CallStatements.{all_found, beyond};
ghost use Rattle.ada_legality.specs.Numbers.{size_in};
ghost use Rattle.ada_legality.specs.SimpleStatements.{beyond_restriction};
ghost use Rattle.ada_legality.specs.Declarations.{entries_judged, entries_noted};
ghost use Rattle.ada_legality.specs.Declarations.{entries_of_definition, entry_noted};
ghost use Rattle.ada_legality.specs.Declarations.{entry_of_operation, most_entries};

use ada_legality::{BodyKind, Finding, InForce, Known, MOST_ENTRIES, Number, Rule};
use ada_tree::{EntryDeclaration, ProtectedOperation, TaskDefinition};
use ann_base::NoMemory;
use legality_profiles::declaration_noted;
use legality_types::broken_if;
use profile_image::ImageList;
use std::alloc::Global;
use std::marker::Model;
use world_tables::List;

/// An entry declaration of the tree. Contracts see the declaration.
#[derive(Drop)]
pub struct EntryOf<'t> {
    entry: &'t EntryDeclaration,
}

impl<'t> Model for EntryOf<'t> {
    ghost use Rattle.ada_tree.specs.declared.declarations.EntryDeclaration.{EntryDeclaration};
    ghost use Rattle.ada_tree.specs.contracts.expressions.Expression as e;
    ghost use Rattle.std.specs.Coded.{codes};

    ghost Value = { EntryDeclaration };

    ghost coded = { Prim.hlevel (codes, e.the_row.coded) };

    ghost view = { λ part. part.entry.now };
}

impl<'t> EntryOf<'t> {
    /// This declaration.
    fn new(entry: &'t EntryDeclaration) -> Self
        ensures { result ≡ entry.now }
    {
        EntryOf { entry }
    }

    /// The declaration.
    pub fn get(&self) -> &'t EntryDeclaration
        ensures { result.now ≡ self.now }
    {
        self.entry
    }
}

/// Adds entry declarations.
fn add_entries<'t>(
    entries: &mut ImageList<EntryOf<'t>>,
    declarations: &'t [EntryDeclaration],
) -> Result<(), NoMemory>
    ensures { OnOk result (entries.new ≡ entries.old ++ declarations.now) }
{
    for declaration in declarations {
        entries.push(EntryOf::new(declaration))?;
    }
    Ok(())
}

/// The entries of a task's definition.
pub fn entries_of_definition<'t>(
    alloc: Global,
    definition: &'t Option<TaskDefinition>,
) -> Result<ImageList<EntryOf<'t>>, NoMemory>
    ensures { IfOk result (λ entries. entries ≡ entries_of_definition definition.now) }
{
    let mut entries = ImageList::new(alloc);
    match definition {
        None => Ok(entries),
        Some(definition) => {
            add_entries(&mut entries, definition.entries.as_slice())?;
            Ok(entries)
        }
    }
}

/// Adds the entry that an operation is.
fn add_operation<'t>(
    entries: &mut ImageList<EntryOf<'t>>,
    operation: &'t ProtectedOperation,
) -> Result<(), NoMemory>
    ensures { OnOk result (entries.new ≡ entries.old ++ entry_of_operation operation.now) }
{
    match operation {
        ProtectedOperation::Subprogram(_) => Ok(()),
        ProtectedOperation::Entry(entry) => {
            entries.push(EntryOf::new(entry))?;
            Ok(())
        }
    }
}

/// The entries among operations.
pub fn entries_of_operations<'t>(
    alloc: Global,
    operations: &'t [ProtectedOperation],
) -> Result<ImageList<EntryOf<'t>>, NoMemory>
    ensures { IfOk result (λ entries. entries ≡ flat_map entry_of_operation operations.now) }
{
    let mut entries = ImageList::new(alloc);
    for operation in operations {
        add_operation(&mut entries, operation)?;
    }
    Ok(entries)
}

/// How many a restriction allows.
fn most_entries(in_force: InForce, of_task: bool) -> Option<Number>
    ensures { result ≡ most_entries in_force of_task }
{
    if of_task {
        in_force.max_task_entries
    } else {
        in_force.max_protected_entries
    }
}

/// An entry of a protected unit needs a body.
fn entry_noted(
    found: &mut List<Finding>,
    known: &Known<'_, '_>,
    entry: &EntryDeclaration,
) -> Result<(), NoMemory>
    ensures { OnOk result (found.new ≡ found.old ++ entry_noted entry.now known.now) }
{
    let kind = BodyKind::ProtectedEntry;
    declaration_noted(found, known, kind, &entry.name, entry.place)
}

/// The entries of a protected unit need bodies.
fn each_noted(
    found: &mut List<Finding>,
    known: &Known<'_, '_>,
    entries: &[EntryOf<'_>],
) -> Result<(), NoMemory>
    ensures { OnOk result (found.new ≡ found.old ++ all_found entry_noted entries.now known.now) }
{
    for entry in entries {
        entry_noted(found, known, entry.get())?;
    }
    Ok(())
}

/// Those of a task have accept statements.
fn entries_noted(
    found: &mut List<Finding>,
    known: &Known<'_, '_>,
    of_task: bool,
    entries: &[EntryOf<'_>],
) -> Result<(), NoMemory>
    ensures { OnOk result (found.new ≡ found.old ++ entries_noted of_task entries.now known.now) }
{
    if of_task {
        Ok(())
    } else {
        each_noted(found, known, entries)
    }
}

/// The entry at a place, if there is one.
fn entry_at<'t>(entries: &[EntryOf<'t>], at: usize) -> Option<&'t EntryDeclaration>
    ensures { option_copied result ≡ slice_get entries.now at }
{
    let entry = entries.get(at)?;
    Some(entry.get())
}

/// The entry with which there are more than so many.
fn beyond_most(
    found: &mut List<Finding>,
    rule: Rule,
    most: usize,
    entries: &[EntryOf<'_>],
) -> Result<(), NoMemory>
    ensures { OnOk result (found.new ≡ found.old ++ beyond rule (λ e. e.place) most entries.now) }
{
    match entry_at(entries, most) {
        None => Ok(()),
        Some(entry) => broken_if(found, rule, true, entry.place),
    }
}

/// The entry behind so many, if there is one.
#[tactic(auto, using(std::proofs::lemmas::Option::slice_get_past))]
fn entry_behind<'t>(entries: &[EntryOf<'t>], most: Number) -> Option<&'t EntryDeclaration>
    ensures { option_copied result ≡ slice_get entries.now (size_in most) }
{
    match most.place_below(entries.len()) {
        None => None,
        Some(place) => entry_at(entries, place),
    }
}

/// The entry with which there are more than a restriction allows.
fn beyond_allowed(
    found: &mut List<Finding>,
    most: Number,
    entries: &[EntryOf<'_>],
) -> Result<(), NoMemory>
    ensures { OnOk result
        (found.new ≡ found.old ++ beyond_restriction (λ e. e.place) (Some most) entries.now) }
{
    if most.is_negative() {
        Ok(())
    } else {
        match entry_behind(entries, most) {
            None => Ok(()),
            Some(entry) => broken_if(found, Rule::Restriction, true, entry.place),
        }
    }
}

/// The same, where a restriction limits them.
fn beyond_restriction(
    found: &mut List<Finding>,
    most: Option<Number>,
    entries: &[EntryOf<'_>],
) -> Result<(), NoMemory>
    ensures { OnOk result
        (found.new ≡ found.old ++ beyond_restriction (λ e. e.place) most entries.now) }
{
    match most {
        None => Ok(()),
        Some(most) => beyond_allowed(found, most, entries),
    }
}

/// The entries of a unit: 64 at most (this profile's own).
#[tactic(auto, unfolding(ada_legality::specs::Declarations::entries_judged))]
pub fn entries_judged(
    found: &mut List<Finding>,
    known: &Known<'_, '_>,
    of_task: bool,
    entries: &[EntryOf<'_>],
) -> Result<(), NoMemory>
    ensures { OnOk result (found.new ≡ found.old ++ entries_judged of_task entries.now known.now) }
{
    entries_noted(found, known, of_task, entries)?;
    beyond_most(found, Rule::Limit, MOST_ENTRIES, entries)?;
    let most = most_entries(known.in_force, of_task);
    beyond_restriction(found, most, entries)
}
