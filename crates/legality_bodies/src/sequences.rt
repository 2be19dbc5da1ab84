//! Sequences of statements with their declarations and handlers (ISO/IEC 8652:2012, 3.11, 11.2).
use ada_legality::{Finding, Known};
use ada_tree::{Sequence, SequenceParts};
use ann_base::NoMemory;
use legality_compounds::{Judge, judge_all, judge_each};
use legality_handlers::handled_judged;
use std::alloc::Global;
use world_tables::List;

/// Names how sequences are judged here: with the declarations and bodies in them.
#[derive(Drop)]
pub struct WithDeclarations {}

impl<Q: Judge<WithDeclarations>> Judge<WithDeclarations> for SequenceParts<Q> {
    ghost use Rattle.ada_legality.specs.Declarations.{parts_found};

    ghost judged = { parts_found Q.judged };

    #[tactic(auto, unfolding(ada_legality::specs::Declarations::parts_found))]
    fn judge(
        &self,
        alloc: Global,
        found: &mut List<Finding>,
        known: &Known<'_, '_>,
    ) -> Result<(), NoMemory> {
        judge_each(alloc, found, known, self.declarations.as_slice())?;
        judge_all(alloc, found, known, &self.statements)?;
        handled_judged(alloc, found, known, self.handlers.as_slice())?;
        judge_each(alloc, found, known, self.handlers.as_slice())
    }
}

impl Judge<WithDeclarations> for Sequence {
    ghost use Rattle.ada_legality.specs.Declarations.{sequence_found};

    ghost judged = { sequence_found };

    #[tactic(auto, using(ada_legality::proofs::SequenceFolds::sequence_finds))]
    fn judge(
        &self,
        alloc: Global,
        found: &mut List<Finding>,
        known: &Known<'_, '_>,
    ) -> Result<(), NoMemory> {
        self.parts.get().judge(alloc, found, known)
    }
}
