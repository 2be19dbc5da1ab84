//! Bodies and declarations (ISO/IEC 8652:2012, 3.1, 6.3, 9.1, 9.4, 9.5.2).
ghost use Rattle.std.specs.Prelude.{◌≡◌, ◌++◌, OnOk};
ghost use Rattle.ada_legality.specs.Declarations.{entry_body_found};
ghost use Rattle.ada_legality.specs.Declarations.{subprogram_body_found, task_body_found};

use crate::sequences::WithDeclarations;
use ada_entities::entity_denoted;
use ada_legality::{Around, BodyKind, Finding, IndicationUse, Known};
use ada_regions::UnitKind;
use ada_tree::{
    Body, Declaration, EntryHead, Identifier, OperationBody, ProtectedBody, SubprogramSpecification,
};
use ann_base::NoMemory;
use legality_compounds::{Judge, judge_each};
use legality_declarations::{definition_found, object_found};
use legality_entities::with_around;
use legality_parts::{indication_found, parameters_found};
use legality_subprograms::{
    specification_found, subprogram_body_judged, subprogram_found, subprogram_here,
    unit_of_operation,
};
use legality_tasking::{barrier_found, entry_body_judged, unit_body_judged, unit_here};
use legality_unit_declarations::{protected_found, task_found};
use legality_units::use_found;
use std::alloc::Global;
use world_tables::List;

/// A subprogram's body.
#[tactic(auto, unfolding(ada_legality::specs::Declarations::subprogram_body_found))]
fn subprogram_body_found<Q: Judge<WithDeclarations>>(
    alloc: Global,
    found: &mut List<Finding>,
    known: &Known<'_, '_>,
    specification: &SubprogramSpecification,
    body: &Body<Q>,
) -> Result<(), NoMemory>
    ensures { OnOk result
        (found.new
        ≡ found.old ++ subprogram_body_found Q.judged specification.now body.now known.now) }
{
    let unit = unit_of_operation(known, &specification.name);
    subprogram_body_judged(alloc, found, known, specification, unit)?;
    specification_found(alloc, found, known, specification, unit)?;
    let around = Around::Subprogram(subprogram_here(known, specification));
    let inside = with_around(known, around)?;
    body.sequence.judge(alloc, found, &inside)
}

/// An entry's body.
#[tactic(auto, unfolding(ada_legality::specs::Declarations::entry_body_found))]
fn entry_body_found<Q: Judge<WithDeclarations>>(
    alloc: Global,
    found: &mut List<Finding>,
    known: &Known<'_, '_>,
    head: &EntryHead,
    body: &Body<Q>,
) -> Result<(), NoMemory>
    ensures { OnOk result
        (found.new ≡ found.old ++ entry_body_found Q.judged head.now body.now known.now) }
{
    let entity = entity_denoted(known.names.get(), head.name.place);
    let inside = with_around(known, Around::Entry(entity))?;
    entry_body_judged(alloc, found, known, head)?;
    let parameters = head.parameters.as_slice();
    parameters_found(alloc, found, known, false, false, parameters)?;
    barrier_found(alloc, found, &inside, &head.barrier)?;
    body.sequence.judge(alloc, found, &inside)
}

/// A body in a protected body.
impl<Q: Judge<WithDeclarations>> Judge<WithDeclarations> for OperationBody<Q> {
    ghost use Rattle.ada_legality.specs.Declarations.{operation_body_found};

    ghost judged = { operation_body_found Q.judged };

    fn judge(
        &self,
        alloc: Global,
        found: &mut List<Finding>,
        known: &Known<'_, '_>,
    ) -> Result<(), NoMemory> {
        match self {
            OperationBody::Subprogram {
                specification,
                body,
            } => subprogram_body_found(alloc, found, known, specification, body),
            OperationBody::Entry { head, body } => {
                entry_body_found(alloc, found, known, head, body)
            }
        }
    }
}

/// A protected body.
impl<Q: Judge<WithDeclarations>> Judge<WithDeclarations> for ProtectedBody<Q> {
    ghost use Rattle.ada_legality.specs.Declarations.{protected_body_found};

    ghost judged = { protected_body_found Q.judged };

    #[tactic(auto, unfolding(ada_legality::specs::Declarations::protected_body_found))]
    fn judge(
        &self,
        alloc: Global,
        found: &mut List<Finding>,
        known: &Known<'_, '_>,
    ) -> Result<(), NoMemory> {
        let kind = UnitKind::Protected;
        unit_body_judged(found, known, kind, BodyKind::Protected, &self.name)?;
        let around = Around::Protected(unit_here(known, &self.name));
        let inside = with_around(known, around)?;
        judge_each(alloc, found, &inside, self.operations.as_slice())
    }
}

/// A task's body.
#[tactic(auto, unfolding(ada_legality::specs::Declarations::task_body_found))]
fn task_body_found<Q: Judge<WithDeclarations>>(
    alloc: Global,
    found: &mut List<Finding>,
    known: &Known<'_, '_>,
    name: &Identifier,
    body: &Body<Q>,
) -> Result<(), NoMemory>
    ensures { OnOk result
        (found.new ≡ found.old ++ task_body_found Q.judged name.now body.now known.now) }
{
    unit_body_judged(found, known, UnitKind::Task, BodyKind::Task, name)?;
    let inside = with_around(known, Around::Task(unit_here(known, name)))?;
    body.sequence.judge(alloc, found, &inside)
}

/// A declaration.
impl<Q: Judge<WithDeclarations>> Judge<WithDeclarations> for Declaration<Q> {
    ghost use Rattle.ada_legality.specs.Declarations.{declaration_found};

    ghost judged = { declaration_found Q.judged };

    fn judge(
        &self,
        alloc: Global,
        found: &mut List<Finding>,
        known: &Known<'_, '_>,
    ) -> Result<(), NoMemory> {
        match self {
            Declaration::Object(object) => object_found(alloc, found, known, object),
            Declaration::Type(declaration) => definition_found(
                alloc,
                found,
                known,
                declaration.place,
                &declaration.definition,
            ),
            Declaration::Subtype(declaration) => indication_found(
                alloc,
                found,
                known,
                IndicationUse::ForSubtype,
                &declaration.subtype,
            ),
            Declaration::Exception { .. } => Ok(()),
            Declaration::Subprogram(specification) => {
                subprogram_found(alloc, found, known, specification)
            }
            Declaration::SubprogramBody {
                specification,
                body,
            } => subprogram_body_found(alloc, found, known, specification, body),
            Declaration::Task(task) => task_found(alloc, found, known, task),
            Declaration::TaskBody { name, body, .. } => {
                task_body_found(alloc, found, known, name, body)
            }
            Declaration::Protected(protected) => protected_found(alloc, found, known, protected),
            Declaration::ProtectedBody(protected) => protected.judge(alloc, found, known),
            Declaration::Use { name, .. } => use_found(found, known, name),
        }
    }
}
