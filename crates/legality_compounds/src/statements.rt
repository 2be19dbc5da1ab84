//! Statements (ISO/IEC 8652:2012, clauses 5, 6.4, 9, 11).
use crate::judging::Judge;
use ada_legality::{Finding, Known};
use ada_tree::Statement;
use ann_base::NoMemory;
use legality_leaving::{exit_found, raise_found, return_found};
use legality_requeues::{abort_found, requeue_found};
use legality_statements::{assignment_found, call_found, delay_found};
use std::alloc::Global;
use world_tables::List;

/// A statement.
impl<W, Q: Judge<W>> Judge<W> for Statement<Q> {
    ghost use Rattle.ada_legality.specs.Statements.{statement_found};

    ghost judged = { statement_found Q.judged };

    fn judge(
        &self,
        alloc: Global,
        found: &mut List<Finding>,
        known: &Known<'_, '_>,
    ) -> Result<(), NoMemory> {
        match self {
            Statement::Null { .. } => Ok(()),
            Statement::Assignment(assignment) => assignment_found(alloc, found, known, assignment),
            Statement::Call(call) => call_found(alloc, found, known, call),
            Statement::Delay(delay) => delay_found(alloc, found, known, delay),
            Statement::If(statement) => statement.judge(alloc, found, known),
            Statement::Case(case) => case.judge(alloc, found, known),
            Statement::Loop(statement) => statement.judge(alloc, found, known),
            Statement::Exit(exit) => exit_found(alloc, found, known, exit),
            Statement::Block(block) => block.sequence.judge(alloc, found, known),
            Statement::Return { place, value } => return_found(alloc, found, known, *place, value),
            Statement::Raise { place, exception } => raise_found(found, known, *place, exception),
            Statement::Abort { place, tasks } => abort_found(found, known, *place, tasks),
            Statement::Accept(accept) => accept.judge(alloc, found, known),
            Statement::Requeue { place, entry, .. } => requeue_found(found, known, *place, entry),
            Statement::Select(select) => select.judge(alloc, found, known),
        }
    }
}
