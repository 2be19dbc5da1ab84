//! What is known inside a construct.
ghost use Rattle.std.specs.Prelude.{◌≡◌, ◌∷◌, IfOk};
ghost use Rattle.ada_legality.specs.SimpleStatements.{with_around};

use ada_image::{ListOf, NamesOf};
use ada_legality::{Around, Known, LoopParameter, OccurrencesOf};
use ann_base::NoMemory;

/// The same again.
pub fn copy_of<'n, 't>(known: &Known<'n, 't>) -> Result<Known<'n, 't>, NoMemory>
    ensures { IfOk result (λ copy. copy ≡ known.now) }
{
    Ok(Known {
        names: NamesOf::new(known.names.get()),
        around: known.around.clone()?,
        loops: known.loops.clone()?,
        indexes: ListOf::new(known.indexes.get()),
        in_force: known.in_force,
        occurrences: OccurrencesOf::new(known.occurrences.get()),
    })
}

/// Inside this construct.
pub fn with_around<'n, 't>(known: &Known<'n, 't>, around: Around) -> Result<Known<'n, 't>, NoMemory>
    ensures { IfOk result (λ inside. inside ≡ with_around around known.now) }
{
    let mut inside = copy_of(known)?;
    inside.around.push_front(around)?;
    Ok(inside)
}

/// Inside a loop with this parameter (5.5).
pub fn with_loop<'n, 't>(
    known: &Known<'n, 't>,
    parameter: LoopParameter,
) -> Result<Known<'n, 't>, NoMemory>
    ensures { IfOk result
        (λ inside. inside ≡ record known.now { loops = parameter ∷ known.now.loops }) }
{
    let mut inside = copy_of(known)?;
    inside.loops.push_front(parameter)?;
    Ok(inside)
}
