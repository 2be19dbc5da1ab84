//! What is read where something is known.
ghost use Rattle.ada_legality.specs.Findings.{Reads};
ghost use Rattle.ada_legality.specs.ReadExpressions.{operand_read};

use ada_legality::{Finding, Known, Read};
use ann_base::NoMemory;
use legality_reads::as_operand;
use std::alloc::Global;
use world_tables::List;

/// What is an expression: it is read, and what it breaks is found.
pub trait Readable {
    ghost use Rattle.ada_legality.specs.Findings.{Reads};
    ghost use Rattle.ada_legality.specs.Reading.{Reading};

    ghost reading: { Self → Reading };

    /// Reads it.
    fn read(
        &self,
        alloc: Global,
        found: &mut List<Finding>,
        known: &Known<'_, '_>,
    ) -> Result<Read, NoMemory>
        ensures { Reads (reading self.now known.now) found.old found.new result };
}

/// An expression in which a function's call may not stand.
#[tactic(auto, unfolding(ada_legality::specs::ReadExpressions::operand_read))]
pub(crate) fn operand_read<E: Readable>(
    alloc: Global,
    found: &mut List<Finding>,
    known: &Known<'_, '_>,
    expression: &E,
) -> Result<Read, NoMemory>
    ensures { Reads (operand_read E.reading expression.now known.now) found.old found.new result }
{
    let read = expression.read(alloc, found, known)?;
    as_operand(found, &read)?;
    Ok(read)
}
