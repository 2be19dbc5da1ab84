//! The labels that statements declare in the body or block around them (ISO/IEC 8652:2012, 5.1).
ghost use Rattle.std.specs.Prelude.{◌≡◌, ◌++◌, OnOk};
ghost use Rattle.std.specs.List.{flat_map};
ghost use Rattle.ada_regions.specs.Occurrences.{if_there};
ghost use Rattle.ada_regions.specs.NamesInStatements.{labels_in, declares_label};

use crate::sequences::LabelledSequence;
use ada_regions::{Occurrence, Occurrences};
use ada_tree::{
    AcceptBody, Alternative, CaseAlternative, Elsif, Handler, Label, OneOrMore, SelectAlternative,
    SelectForm, Statement,
};
use ann_base::NoMemory;
use sqlite_items::Items;

/// What declares labels.
pub(crate) trait TellLabels {
    ghost use Rattle.std.specs.Prelude.{◌≡◌, ◌++◌, OnOk};
    ghost use Rattle.ada_regions.specs.Occurrences.{Occurrences};

    ghost labels: { Self → Occurrences };

    /// Declares them in the order of the text.
    fn tell_labels<'t>(&'t self, occurrences: &mut Occurrences<'t>) -> Result<(), NoMemory>
        ensures { OnOk result (occurrences.new ≡ occurrences.old ++ labels self.now) };
}

/// Items one behind another.
pub(crate) fn tell_labels_of_each<'t, T: TellLabels>(
    occurrences: &mut Occurrences<'t>,
    items: &'t [T],
) -> Result<(), NoMemory>
    ensures { OnOk result (occurrences.new ≡ occurrences.old ++ flat_map T.labels items.now) }
{
    for item in items {
        item.tell_labels(occurrences)?;
    }
    Ok(())
}

impl<T: TellLabels> TellLabels for Items<T> {
    ghost use Rattle.std.specs.List.{flat_map};

    ghost labels = { flat_map T.labels };

    fn tell_labels<'t>(&'t self, occurrences: &mut Occurrences<'t>) -> Result<(), NoMemory> {
        tell_labels_of_each(occurrences, self.as_slice())
    }
}

impl<T: TellLabels> TellLabels for OneOrMore<T> {
    ghost use Rattle.ada_regions.specs.Occurrences.{in_all};

    ghost labels = { in_all T.labels };

    fn tell_labels<'t>(&'t self, occurrences: &mut Occurrences<'t>) -> Result<(), NoMemory> {
        self.first.tell_labels(occurrences)?;
        self.others.tell_labels(occurrences)
    }
}

impl<T: TellLabels> TellLabels for Option<T> {
    ghost use Rattle.ada_regions.specs.Occurrences.{if_there};

    ghost labels = { if_there T.labels };

    fn tell_labels<'t>(&'t self, occurrences: &mut Occurrences<'t>) -> Result<(), NoMemory> {
        match self {
            None => Ok(()),
            Some(item) => item.tell_labels(occurrences),
        }
    }
}

/// The labels of a sequence, where it stands there.
fn tell_optional_labels<'t, Q: LabelledSequence>(
    occurrences: &mut Occurrences<'t>,
    sequence: &'t Option<Q>,
) -> Result<(), NoMemory>
    ensures { OnOk result
        (occurrences.new ≡ occurrences.old ++ if_there (labels_in Q.names_in) sequence.now) }
{
    match sequence {
        None => Ok(()),
        Some(sequence) => sequence.tell_sequence_labels(occurrences),
    }
}

/// The label of a loop or a block.
fn tell_label<'t>(
    occurrences: &mut Occurrences<'t>,
    label: &'t Option<Label>,
) -> Result<(), NoMemory>
    ensures { OnOk result (occurrences.new ≡ occurrences.old ++ declares_label label.now) }
{
    match label {
        None => Ok(()),
        Some(label) => occurrences.push(Occurrence::DeclareLabel { name: &label.name }),
    }
}

impl<Q: LabelledSequence> TellLabels for Elsif<Q> {
    ghost use Rattle.ada_regions.specs.NamesInStatements.{labels_in_elsif};

    ghost labels = { labels_in_elsif Q.names_in };

    fn tell_labels<'t>(&'t self, occurrences: &mut Occurrences<'t>) -> Result<(), NoMemory> {
        self.statements.tell_sequence_labels(occurrences)
    }
}

impl<Q: LabelledSequence> TellLabels for CaseAlternative<Q> {
    ghost use Rattle.ada_regions.specs.NamesInStatements.{labels_in_case_alternative};

    ghost labels = { labels_in_case_alternative Q.names_in };

    fn tell_labels<'t>(&'t self, occurrences: &mut Occurrences<'t>) -> Result<(), NoMemory> {
        self.statements.tell_sequence_labels(occurrences)
    }
}

impl<Q: LabelledSequence> TellLabels for Handler<Q> {
    ghost use Rattle.ada_regions.specs.NamesInStatements.{labels_in_handler};

    ghost labels = { labels_in_handler Q.names_in };

    fn tell_labels<'t>(&'t self, occurrences: &mut Occurrences<'t>) -> Result<(), NoMemory> {
        self.statements.tell_sequence_labels(occurrences)
    }
}

impl<Q: LabelledSequence> TellLabels for AcceptBody<Q> {
    ghost use Rattle.ada_regions.specs.NamesInStatements.{labels_in_accept_body};

    ghost labels = { labels_in_accept_body Q.names_in };

    fn tell_labels<'t>(&'t self, occurrences: &mut Occurrences<'t>) -> Result<(), NoMemory> {
        self.sequence.tell_sequence_labels(occurrences)
    }
}

impl<Q: LabelledSequence> TellLabels for Alternative<Q> {
    ghost use Rattle.ada_regions.specs.NamesInStatements.{labels_in_alternative};

    ghost labels = { labels_in_alternative Q.names_in };

    fn tell_labels<'t>(&'t self, occurrences: &mut Occurrences<'t>) -> Result<(), NoMemory> {
        match self {
            Alternative::Accept { accept, statements } => {
                accept.body.tell_labels(occurrences)?;
                tell_optional_labels(occurrences, statements)
            }
            Alternative::Delay { statements, .. } => tell_optional_labels(occurrences, statements),
            Alternative::Terminate { .. } => Ok(()),
        }
    }
}

impl<Q: LabelledSequence> TellLabels for SelectAlternative<Q> {
    ghost use Rattle.ada_regions.specs.NamesInStatements.{labels_in_select_alternative};

    ghost labels = { labels_in_select_alternative Q.names_in };

    fn tell_labels<'t>(&'t self, occurrences: &mut Occurrences<'t>) -> Result<(), NoMemory> {
        self.alternative.tell_labels(occurrences)
    }
}

impl<Q: LabelledSequence> TellLabels for SelectForm<Q> {
    ghost use Rattle.ada_regions.specs.NamesInStatements.{labels_in_select};

    ghost labels = { labels_in_select Q.names_in };

    fn tell_labels<'t>(&'t self, occurrences: &mut Occurrences<'t>) -> Result<(), NoMemory> {
        match self {
            SelectForm::SelectiveAccept(select) => {
                select.alternatives.tell_labels(occurrences)?;
                tell_optional_labels(occurrences, &select.otherwise)
            }
            SelectForm::TimedEntryCall(select) => {
                tell_optional_labels(occurrences, &select.statements)?;
                tell_optional_labels(occurrences, &select.delay_statements)
            }
            SelectForm::ConditionalEntryCall(select) => {
                tell_optional_labels(occurrences, &select.statements)?;
                select.otherwise.tell_sequence_labels(occurrences)
            }
            SelectForm::AsynchronousSelect(select) => {
                tell_optional_labels(occurrences, &select.statements)?;
                select.abortable.tell_sequence_labels(occurrences)
            }
        }
    }
}

/// A statement: its own label, and those of the statements inside that are in no block of their
/// own.
impl<Q: LabelledSequence> TellLabels for Statement<Q> {
    ghost use Rattle.ada_regions.specs.NamesInStatements.{labels_in_statement};

    ghost labels = { labels_in_statement Q.names_in };

    fn tell_labels<'t>(&'t self, occurrences: &mut Occurrences<'t>) -> Result<(), NoMemory> {
        match self {
            Statement::If(statement) => {
                statement.statements.tell_sequence_labels(occurrences)?;
                statement.elsifs.tell_labels(occurrences)?;
                tell_optional_labels(occurrences, &statement.otherwise)
            }
            Statement::Case(case) => case.alternatives.tell_labels(occurrences),
            Statement::Loop(statement) => {
                tell_label(occurrences, &statement.label)?;
                statement.statements.tell_sequence_labels(occurrences)
            }
            Statement::Block(block) => tell_label(occurrences, &block.label),
            Statement::Accept(accept) => accept.body.tell_labels(occurrences),
            Statement::Select(select) => select.form.tell_labels(occurrences),
            Statement::Null { .. }
            | Statement::Assignment(_)
            | Statement::Call(_)
            | Statement::Delay(_)
            | Statement::Exit(_)
            | Statement::Return { .. }
            | Statement::Raise { .. }
            | Statement::Abort { .. }
            | Statement::Requeue { .. } => Ok(()),
        }
    }
}
