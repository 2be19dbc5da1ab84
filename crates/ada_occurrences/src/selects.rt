//! The names in select statements (ISO/IEC 8652:2012, 9.7).
use crate::statements::{tell_optional, tell_with_statements};
use crate::telling::{Part, TellNested, TellSequence};
use ada_regions::Occurrences;
use ada_simple_occurrences::Tell;
use ada_tree::{Alternative, SelectAlternative, SelectForm};
use ann_base::NoMemory;

impl<Q: TellSequence> TellNested for Alternative<Q> {
    ghost use Rattle.ada_regions.specs.NamesInStatements.{names_in_alternative};

    ghost names = { names_in_alternative Q.names_in };

    fn tell_nested<'t>(&'t self, occurrences: &mut Occurrences<'t>) -> Result<(), NoMemory> {
        match self {
            Alternative::Accept { accept, statements } => {
                accept.tell_nested(occurrences)?;
                tell_optional(occurrences, statements)
            }
            Alternative::Delay { delay, statements } => {
                tell_with_statements(occurrences, delay, statements)
            }
            Alternative::Terminate { .. } => Ok(()),
        }
    }
}

impl<Q: TellSequence> TellNested for SelectAlternative<Q> {
    ghost use Rattle.ada_regions.specs.NamesInStatements.{names_in_select_alternative};

    ghost names = { names_in_select_alternative Q.names_in };

    fn tell_nested<'t>(&'t self, occurrences: &mut Occurrences<'t>) -> Result<(), NoMemory> {
        self.guard.tell(occurrences)?;
        self.alternative.tell_nested(occurrences)
    }
}

/// The forms of select statements (9.7.1 to 9.7.4).
impl<Q: TellSequence> TellNested for SelectForm<Q> {
    ghost use Rattle.ada_regions.specs.NamesInStatements.{names_in_select};

    ghost names = { names_in_select Q.names_in };

    fn tell_nested<'t>(&'t self, occurrences: &mut Occurrences<'t>) -> Result<(), NoMemory> {
        match self {
            SelectForm::SelectiveAccept(select) => {
                select.alternatives.tell_nested(occurrences)?;
                tell_optional(occurrences, &select.otherwise)
            }
            SelectForm::TimedEntryCall(select) => {
                tell_with_statements(occurrences, &select.call, &select.statements)?;
                tell_with_statements(occurrences, &select.delay, &select.delay_statements)
            }
            SelectForm::ConditionalEntryCall(select) => {
                tell_with_statements(occurrences, &select.call, &select.statements)?;
                select.otherwise.tell_part(Part::Statements, occurrences)
            }
            SelectForm::AsynchronousSelect(select) => {
                tell_with_statements(occurrences, &select.trigger, &select.statements)?;
                select.abortable.tell_part(Part::Statements, occurrences)
            }
        }
    }
}
