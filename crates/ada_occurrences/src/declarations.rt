//! The names in bodies and declarations (ISO/IEC 8652:2012, clauses 3, 6, 9, 11).
ghost use Rattle.std.specs.Prelude.{◌≡◌, ◌++◌, OnOk};
ghost use Rattle.ada_regions.specs.NamesInDeclarations.{names_in_subprogram_body};
ghost use Rattle.ada_regions.specs.NamesInDeclarations.{names_in_entry_body};

use crate::statements::tell_body;
use crate::telling::{TellNested, TellSequence, tell_region};
use ada_regions::{Occurrence, Occurrences};
use ada_simple_occurrences::{Naming, Tell, tell_names, tell_parameters, tell_profile};
use ada_tree::{
    Body, Declaration, EntryHead, OperationBody, ProtectedBody, SubprogramSpecification,
};
use ann_base::NoMemory;

impl<Q: TellSequence> TellNested for Body<Q> {
    ghost use Rattle.ada_regions.specs.NamesInDeclarations.{names_in_body};

    ghost names = { names_in_body Q.names_in };

    fn tell_nested<'t>(&'t self, occurrences: &mut Occurrences<'t>) -> Result<(), NoMemory> {
        tell_body(occurrences, &self.sequence)
    }
}

/// A subprogram body (6.3).
fn tell_subprogram_body<'t, Q: TellSequence>(
    occurrences: &mut Occurrences<'t>,
    specification: &'t SubprogramSpecification,
    body: &'t Body<Q>,
) -> Result<(), NoMemory>
    ensures { OnOk result
        (occurrences.new
        ≡ occurrences.old ++ names_in_subprogram_body Q.names_in specification.now body.now) }
{
    occurrences.push(Occurrence::Head {
        name: &specification.name,
    })?;
    occurrences.push(Occurrence::BeginSubprogramBody {
        place: specification.place,
        is_function: specification.result.is_some(),
    })?;
    tell_profile(occurrences, true, specification)?;
    occurrences.push(Occurrence::Complete {
        name: &specification.name,
        specification,
    })?;
    body.tell_nested(occurrences)?;
    occurrences.push(Occurrence::End)
}

/// An entry body (9.5.2).
fn tell_entry_body<'t, Q: TellSequence>(
    occurrences: &mut Occurrences<'t>,
    head: &'t EntryHead,
    body: &'t Body<Q>,
) -> Result<(), NoMemory>
    ensures { OnOk result
        (occurrences.new ≡ occurrences.old ++ names_in_entry_body Q.names_in head.now body.now) }
{
    occurrences.push(Occurrence::MentionEntry { name: &head.name })?;
    occurrences.push(Occurrence::BeginEntryBody {
        name: &head.name,
        place: head.place,
        barrier: &head.barrier,
    })?;
    tell_parameters(occurrences, true, head.parameters.as_slice())?;
    head.barrier.tell(occurrences)?;
    occurrences.push(Occurrence::CallRegion { name: &head.name })?;
    body.tell_nested(occurrences)?;
    occurrences.push(Occurrence::End)
}

impl<Q: TellSequence> TellNested for OperationBody<Q> {
    ghost use Rattle.ada_regions.specs.NamesInDeclarations.{names_in_operation_body};

    ghost names = { names_in_operation_body Q.names_in };

    fn tell_nested<'t>(&'t self, occurrences: &mut Occurrences<'t>) -> Result<(), NoMemory> {
        match self {
            OperationBody::Subprogram {
                specification,
                body,
            } => tell_subprogram_body(occurrences, specification, body),
            OperationBody::Entry { head, body } => tell_entry_body(occurrences, head, body),
        }
    }
}

/// A protected body (9.4).
impl<Q: TellSequence> TellNested for ProtectedBody<Q> {
    ghost use Rattle.ada_regions.specs.NamesInDeclarations.{names_in_protected_body};

    ghost names = { names_in_protected_body Q.names_in };

    fn tell_nested<'t>(&'t self, occurrences: &mut Occurrences<'t>) -> Result<(), NoMemory> {
        tell_region(
            occurrences,
            Occurrence::BeginProtectedBody { name: &self.name },
            &self.operations,
        )
    }
}

/// A declaration (3.1).
impl<Q: TellSequence> TellNested for Declaration<Q> {
    ghost use Rattle.ada_regions.specs.NamesInDeclarations.{names_in_declaration};

    ghost names = { names_in_declaration Q.names_in };

    fn tell_nested<'t>(&'t self, occurrences: &mut Occurrences<'t>) -> Result<(), NoMemory> {
        match self {
            Declaration::Object(object) => object.tell(occurrences),
            Declaration::Type(declaration) => declaration.tell(occurrences),
            Declaration::Subtype(subtype) => subtype.tell(occurrences),
            Declaration::Exception { names } => tell_names(occurrences, Naming::Exception, names),
            Declaration::Subprogram(specification) => specification.tell(occurrences),
            Declaration::SubprogramBody {
                specification,
                body,
            } => tell_subprogram_body(occurrences, specification, body),
            Declaration::Task(task) => task.tell(occurrences),
            Declaration::TaskBody { place, name, body } => tell_region(
                occurrences,
                Occurrence::BeginTaskBody {
                    name,
                    place: *place,
                },
                body,
            ),
            Declaration::Protected(protected) => protected.tell(occurrences),
            Declaration::ProtectedBody(protected) => protected.tell_nested(occurrences),
            Declaration::Use { name, .. } => occurrences.push(Occurrence::UsePackage { name }),
        }
    }
}
