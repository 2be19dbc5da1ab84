//! Small types of a run that the machine and the interpreter share.
use ann_base::Raised;
use profile_image::StatementNo;

/// How an open construct is left (7.6.1).
#[derive(Clone, Copy, PartialEq, Eq)]
pub enum Leaving {
    /// Its statements ended.
    End,
    /// By a return or a requeue.
    Return,
    /// By an exit of the loop with this statement.
    Exit(StatementNo),
    /// By an exception.
    Exception(Raised),
    /// By an abort.
    Abort,
    /// By a terminate alternative.
    Terminate,
}
