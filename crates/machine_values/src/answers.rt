//! Answers that may want memory: a number that its type cannot hold is answered so.
ghost use Rattle.ann_base.specs.Answers.{Answers};

use ann_base::{OrMemory, Raised};

/// An answer that wants no memory, as one that may.
pub fn or_raised<T>(answer: Result<T, Raised>) -> Result<T, OrMemory<Raised>>
    ensures { Answers result answer }
{
    match answer {
        Ok(value) => Ok(value),
        Err(raised) => Err(OrMemory::Fault(raised)),
    }
}
