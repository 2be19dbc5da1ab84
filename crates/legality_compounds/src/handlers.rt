//! Exception handlers (ISO/IEC 8652:2012, 11.2).
use crate::judging::Judge;
use ada_legality::{Around, Finding, Known};
use ada_tree::Handler;
use ann_base::NoMemory;
use legality_entities::with_around;
use std::alloc::Global;
use world_tables::List;

/// A handler.
impl<W, Q: Judge<W>> Judge<W> for Handler<Q> {
    ghost use Rattle.ada_legality.specs.Statements.{handler_found};

    ghost judged = { handler_found Q.judged };

    fn judge(
        &self,
        alloc: Global,
        found: &mut List<Finding>,
        known: &Known<'_, '_>,
    ) -> Result<(), NoMemory> {
        let inside = with_around(known, Around::Handler)?;
        self.statements.judge(alloc, found, &inside)
    }
}
