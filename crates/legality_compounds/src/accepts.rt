//! Accept statements (ISO/IEC 8652:2012, 9.5.2).
ghost use Rattle.std.specs.Prelude.{◌≡◌, ◌++◌, OnOk};
ghost use Rattle.ada_legality.specs.CallStatements.{found_if};
ghost use Rattle.ada_legality.specs.Statements.{accept_body_found};

use crate::judging::Judge;
use ada_entities::entity_denoted;
use ada_legality::{Around, Finding, Known};
use ada_tree::{Accept, AcceptBody};
use ann_base::NoMemory;
use legality_entities::with_around;
use legality_handlers::{accept_judged, kind_of_entity};
use legality_parts::parameters_found;
use legality_profiles::accept_conforms;
use std::alloc::Global;
use world_tables::List;

/// What an accept statement does.
fn accept_body_found<W, Q: Judge<W>>(
    alloc: Global,
    found: &mut List<Finding>,
    known: &Known<'_, '_>,
    entry: Option<u32>,
    body: &AcceptBody<Q>,
) -> Result<(), NoMemory>
    ensures { OnOk result
        (found.new ≡ found.old ++ accept_body_found Q.judged entry body.now known.now) }
{
    let inside = with_around(known, Around::Accept(entry))?;
    body.sequence.judge(alloc, found, &inside)
}

/// The same, where it does something.
fn accept_body_if<W, Q: Judge<W>>(
    alloc: Global,
    found: &mut List<Finding>,
    known: &Known<'_, '_>,
    entry: Option<u32>,
    body: &Option<AcceptBody<Q>>,
) -> Result<(), NoMemory>
    ensures { OnOk result
        (found.new ≡ found.old ++ found_if (accept_body_found Q.judged entry) body.now known.now) }
{
    match body {
        None => Ok(()),
        Some(body) => accept_body_found(alloc, found, known, entry, body),
    }
}

/// An accept statement.
impl<W, Q: Judge<W>> Judge<W> for Accept<Q> {
    ghost use Rattle.ada_legality.specs.Statements.{accept_found};

    ghost judged = { accept_found Q.judged };

    #[tactic(auto, unfolding(ada_legality::specs::Statements::accept_found))]
    fn judge(
        &self,
        alloc: Global,
        found: &mut List<Finding>,
        known: &Known<'_, '_>,
    ) -> Result<(), NoMemory> {
        let entity = entity_denoted(known.names.get(), self.entry.place);
        let kind = kind_of_entity(known, entity);
        accept_judged(found, known, self.place, &self.entry, kind)?;
        let parameters = self.parameters.as_slice();
        accept_conforms(alloc, found, known, self.place, parameters, entity)?;
        parameters_found(alloc, found, known, false, false, parameters)?;
        accept_body_if(alloc, found, known, entity, &self.body)
    }
}
