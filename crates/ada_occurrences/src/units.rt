//! The names in sequences, library units and a source (ISO/IEC 8652:2012, 3.11, 7.1, 7.2, 10.1).
ghost use Rattle.std.specs.Prelude.{◌≡◌, ◌++◌, OnOk, IfOk};
ghost use Rattle.ada_regions.specs.NamesInUnits.{names_in_package_declaration};
ghost use Rattle.ada_regions.specs.NamesInUnits.{names_in_package_body, names_in_main};
ghost use Rattle.ada_regions.specs.NamesInUnits.{names_in_parts, names_in_unit};

use crate::statements::tell_optional_body;
use crate::telling::{Part, TellNested, TellSequence, tell_private, tell_region};
use ada_labels::LabelledSequence;
use ada_regions::{Occurrence, Occurrences};
use ada_simple_occurrences::{Tell, tell_each};
use ada_tree::{
    ContextClause, LibraryPackage, MainProcedure, Package, PackageBody, PackageDeclaration,
    Sequence, SequenceParts, Unit,
};
use ann_base::NoMemory;
use std::alloc::Global;

/// The statements and handlers of a sequence.
fn tell_statements_in<'t, Q: TellSequence>(
    occurrences: &mut Occurrences<'t>,
    parts: &'t SequenceParts<Q>,
) -> Result<(), NoMemory>
    ensures { OnOk result
        (occurrences.new
        ≡ occurrences.old ++ (names_in_parts Q.names_in parts.now).statements) }
{
    parts.statements.tell_nested(occurrences)?;
    parts.handlers.tell_nested(occurrences)
}

impl TellSequence for Sequence {
    ghost use Rattle.ada_regions.specs.NamesInUnits.{names_in_sequence};

    ghost names_in = { names_in_sequence };

    #[cycle(sequence)]
    #[tactic(auto, using(ada_regions::proofs::SequenceFolds::sequence_tells))]
    fn tell_part<'t>(
        &'t self,
        part: Part,
        occurrences: &mut Occurrences<'t>,
    ) -> Result<(), NoMemory> {
        let parts = self.parts.get();
        match part {
            Part::Declarations => parts.declarations.tell_nested(occurrences),
            Part::Labels => self.tell_sequence_labels(occurrences),
            Part::Statements => tell_statements_in(occurrences, parts),
        }
    }
}

/// What a package's declaration holds (7.1).
impl TellNested for PackageDeclaration {
    ghost use Rattle.std.specs.Prelude.{◌++◌};
    ghost use Rattle.ada_regions.specs.Occurrences.{if_there};
    ghost use Rattle.ada_regions.specs.NamesInUnits.{names_in_part, names_in_private_part};

    ghost names = { λ p. names_in_part p.declarations ++ if_there names_in_private_part p.private };

    fn tell_nested<'t>(&'t self, occurrences: &mut Occurrences<'t>) -> Result<(), NoMemory> {
        self.declarations.tell_nested(occurrences)?;
        tell_private(occurrences, &self.private)
    }
}

/// A package's declaration with its context (7.1).
fn tell_package_declaration<'t>(
    occurrences: &mut Occurrences<'t>,
    context: &'t [ContextClause],
    declaration: &'t PackageDeclaration,
) -> Result<(), NoMemory>
    ensures { OnOk result
        (occurrences.new
        ≡ occurrences.old ++ names_in_package_declaration context.now declaration.now) }
{
    occurrences.push(Occurrence::BeginContext)?;
    tell_each(occurrences, context)?;
    occurrences.push(Occurrence::DeclarePackage {
        name: &declaration.name,
    })?;
    tell_region(
        occurrences,
        Occurrence::BeginPackage {
            name: &declaration.name,
        },
        declaration,
    )?;
    occurrences.push(Occurrence::End)
}

/// A package's body with its context (7.2).
fn tell_package_body<'t>(
    occurrences: &mut Occurrences<'t>,
    context: &'t [ContextClause],
    body: &'t PackageBody,
) -> Result<(), NoMemory>
    ensures { OnOk result
        (occurrences.new ≡ occurrences.old ++ names_in_package_body context.now body.now) }
{
    occurrences.push(Occurrence::BeginContextOf { name: &body.name })?;
    occurrences.push(Occurrence::BeginFurtherContext)?;
    tell_each(occurrences, context)?;
    occurrences.push(Occurrence::BeginPackageBody { name: &body.name })?;
    body.declarations.tell_nested(occurrences)?;
    tell_optional_body(occurrences, &body.sequence)?;
    occurrences.push(Occurrence::End)?;
    occurrences.push(Occurrence::End)?;
    occurrences.push(Occurrence::End)
}

impl TellNested for LibraryPackage {
    ghost use Rattle.ada_regions.specs.NamesInUnits.{names_in_library_package};

    ghost names = { names_in_library_package };

    fn tell_nested<'t>(&'t self, occurrences: &mut Occurrences<'t>) -> Result<(), NoMemory> {
        match &self.package {
            Package::Declaration(package) => {
                tell_package_declaration(occurrences, self.context.as_slice(), package)
            }
            Package::Body(package) => {
                tell_package_body(occurrences, self.context.as_slice(), package)
            }
        }
    }
}

/// The main procedure with its context (6.3, 10.1).
fn tell_main<'t>(
    occurrences: &mut Occurrences<'t>,
    context: &'t [ContextClause],
    main: &'t MainProcedure,
) -> Result<(), NoMemory>
    ensures { OnOk result
        (occurrences.new ≡ occurrences.old ++ names_in_main context.now main.now) }
{
    occurrences.push(Occurrence::BeginContext)?;
    tell_each(occurrences, context)?;
    main.aspects.tell(occurrences)?;
    occurrences.push(Occurrence::DeclareMain { name: &main.name })?;
    tell_region(
        occurrences,
        Occurrence::BeginMain {
            name: &main.name,
            place: main.place,
        },
        &main.body,
    )?;
    occurrences.push(Occurrence::End)
}

/// The occurrences of a source, in the order of the text.
pub fn occurrences_of(alloc: Global, tree: &Unit) -> Result<Occurrences<'_>, NoMemory>
    // They are those of the tree.
    ensures occurrences { IfOk result (λ occurrences. occurrences ≡ names_in_unit tree.now) }
{
    let mut occurrences = Occurrences::new(alloc);
    tree.packages.tell_nested(&mut occurrences)?;
    tell_main(&mut occurrences, tree.context.as_slice(), &tree.main)?;
    Ok(occurrences)
}
