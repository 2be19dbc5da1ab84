//! The names in statements with others in them (ISO/IEC 8652:2012, clauses 5, 9, 11).
ghost use Rattle.std.specs.Prelude.{◌≡◌, ◌++◌, ◌∷◌, [], OnOk};
ghost use Rattle.ada_regions.specs.Occurrences.{a_loop, a_block, begins, in_body, if_there};
ghost use Rattle.ada_regions.specs.NamesInStatements.{names_in_statements, label_name};

use crate::telling::{Part, TellNested, TellSequence};
use ada_regions::{Occurrence, Occurrences};
use ada_simple_occurrences::{Tell, tell_parameters};
use ada_tree::{
    Accept, AcceptBody, Block, Case, CaseAlternative, Elsif, Handler, If, Label, Loop, Statement,
};
use ann_base::{NoMemory, Place};

/// The statements of a sequence, where it stands there.
pub(crate) fn tell_optional<'t, Q: TellSequence>(
    occurrences: &mut Occurrences<'t>,
    sequence: &'t Option<Q>,
) -> Result<(), NoMemory>
    ensures { OnOk result
        (occurrences.new
        ≡ occurrences.old ++ if_there (names_in_statements Q.names_in) sequence.now) }
{
    match sequence {
        None => Ok(()),
        Some(sequence) => sequence.tell_part(Part::Statements, occurrences),
    }
}

/// An item, and the statements behind it where they stand there.
pub(crate) fn tell_with_statements<'t, T: Tell, Q: TellSequence>(
    occurrences: &mut Occurrences<'t>,
    item: &'t T,
    statements: &'t Option<Q>,
) -> Result<(), NoMemory>
    ensures { OnOk result
        (occurrences.new
        ≡ occurrences.old
        ++ (T.names item.now ++ if_there (names_in_statements Q.names_in) statements.now)) }
{
    item.tell(occurrences)?;
    tell_optional(occurrences, statements)
}

impl<Q: TellSequence> TellNested for Elsif<Q> {
    ghost use Rattle.ada_regions.specs.NamesInStatements.{names_in_elsif};

    ghost names = { names_in_elsif Q.names_in };

    fn tell_nested<'t>(&'t self, occurrences: &mut Occurrences<'t>) -> Result<(), NoMemory> {
        self.condition.tell(occurrences)?;
        self.statements.tell_part(Part::Statements, occurrences)
    }
}

/// An if statement (5.3).
impl<Q: TellSequence> TellNested for If<Q> {
    ghost use Rattle.ada_regions.specs.NamesInStatements.{names_in_if};

    ghost names = { names_in_if Q.names_in };

    fn tell_nested<'t>(&'t self, occurrences: &mut Occurrences<'t>) -> Result<(), NoMemory> {
        self.condition.tell(occurrences)?;
        self.statements.tell_part(Part::Statements, occurrences)?;
        self.elsifs.tell_nested(occurrences)?;
        tell_optional(occurrences, &self.otherwise)
    }
}

impl<Q: TellSequence> TellNested for CaseAlternative<Q> {
    ghost use Rattle.ada_regions.specs.NamesInStatements.{names_in_case_alternative};

    ghost names = { names_in_case_alternative Q.names_in };

    fn tell_nested<'t>(&'t self, occurrences: &mut Occurrences<'t>) -> Result<(), NoMemory> {
        self.choices.tell(occurrences)?;
        self.statements.tell_part(Part::Statements, occurrences)
    }
}

/// A case statement (5.4).
impl<Q: TellSequence> TellNested for Case<Q> {
    ghost use Rattle.ada_regions.specs.NamesInStatements.{names_in_case};

    ghost names = { names_in_case Q.names_in };

    fn tell_nested<'t>(&'t self, occurrences: &mut Occurrences<'t>) -> Result<(), NoMemory> {
        self.selector.tell(occurrences)?;
        self.alternatives.tell_nested(occurrences)
    }
}

/// The region of a loop begins.
fn begin_loop<'t>(
    occurrences: &mut Occurrences<'t>,
    label: &'t Option<Label>,
) -> Result<(), NoMemory>
    ensures { OnOk result
        (occurrences.new ≡ occurrences.old ++ begins (a_loop (label_name label.now)) ∷ []) }
{
    match label {
        None => occurrences.push(Occurrence::BeginLoop),
        Some(label) => occurrences.push(Occurrence::BeginNamedLoop { name: &label.name }),
    }
}

/// The region of a block begins.
fn begin_block<'t>(
    occurrences: &mut Occurrences<'t>,
    label: &'t Option<Label>,
    place: Place,
) -> Result<(), NoMemory>
    ensures { OnOk result
        (occurrences.new ≡ occurrences.old ++ begins (a_block (label_name label.now) place) ∷ []) }
{
    match label {
        None => occurrences.push(Occurrence::BeginBlock { place }),
        Some(label) => occurrences.push(Occurrence::BeginNamedBlock {
            name: &label.name,
            place,
        }),
    }
}

/// A loop (5.5).
impl<Q: TellSequence> TellNested for Loop<Q> {
    ghost use Rattle.ada_regions.specs.NamesInStatements.{names_in_loop};

    ghost names = { names_in_loop Q.names_in };

    fn tell_nested<'t>(&'t self, occurrences: &mut Occurrences<'t>) -> Result<(), NoMemory> {
        begin_loop(occurrences, &self.label)?;
        self.iteration.tell(occurrences)?;
        self.statements.tell_part(Part::Statements, occurrences)?;
        occurrences.push(Occurrence::End)
    }
}

/// The declarations of a body, its labels, and its statements (5.1, 3.11).
pub(crate) fn tell_body<'t, Q: TellSequence>(
    occurrences: &mut Occurrences<'t>,
    sequence: &'t Q,
) -> Result<(), NoMemory>
    ensures { OnOk result (occurrences.new ≡ occurrences.old ++ in_body (Q.names_in sequence.now)) }
{
    sequence.tell_part(Part::Declarations, occurrences)?;
    sequence.tell_part(Part::Labels, occurrences)?;
    sequence.tell_part(Part::Statements, occurrences)
}

/// A body, where it stands there.
pub(crate) fn tell_optional_body<'t, Q: TellSequence>(
    occurrences: &mut Occurrences<'t>,
    sequence: &'t Option<Q>,
) -> Result<(), NoMemory>
    ensures { OnOk result
        (occurrences.new
        ≡ occurrences.old ++ if_there (λ sequence. in_body (Q.names_in sequence)) sequence.now) }
{
    match sequence {
        None => Ok(()),
        Some(sequence) => tell_body(occurrences, sequence),
    }
}

/// A block (5.6).
impl<Q: TellSequence> TellNested for Block<Q> {
    ghost use Rattle.ada_regions.specs.NamesInStatements.{names_in_block};

    ghost names = { names_in_block Q.names_in };

    fn tell_nested<'t>(&'t self, occurrences: &mut Occurrences<'t>) -> Result<(), NoMemory> {
        begin_block(occurrences, &self.label, self.place)?;
        tell_body(occurrences, &self.sequence)?;
        occurrences.push(Occurrence::End)
    }
}

/// An exception handler (11.2).
impl<Q: TellSequence> TellNested for Handler<Q> {
    ghost use Rattle.ada_regions.specs.NamesInStatements.{names_in_handler};

    ghost names = { names_in_handler Q.names_in };

    fn tell_nested<'t>(&'t self, occurrences: &mut Occurrences<'t>) -> Result<(), NoMemory> {
        self.exceptions.tell(occurrences)?;
        self.statements.tell_part(Part::Statements, occurrences)
    }
}

impl<Q: TellSequence> TellNested for AcceptBody<Q> {
    ghost use Rattle.ada_regions.specs.NamesInStatements.{names_in_accept_body};

    ghost names = { names_in_accept_body Q.names_in };

    fn tell_nested<'t>(&'t self, occurrences: &mut Occurrences<'t>) -> Result<(), NoMemory> {
        self.sequence.tell_part(Part::Statements, occurrences)
    }
}

/// An accept statement (9.5.2).
impl<Q: TellSequence> TellNested for Accept<Q> {
    ghost use Rattle.ada_regions.specs.NamesInStatements.{names_in_accept};

    ghost names = { names_in_accept Q.names_in };

    fn tell_nested<'t>(&'t self, occurrences: &mut Occurrences<'t>) -> Result<(), NoMemory> {
        occurrences.push(Occurrence::MentionSimply { name: &self.entry })?;
        occurrences.push(Occurrence::BeginAccept {
            name: &self.entry,
            place: self.place,
        })?;
        tell_parameters(occurrences, true, self.parameters.as_slice())?;
        self.body.tell_nested(occurrences)?;
        occurrences.push(Occurrence::End)
    }
}

/// A statement (5.1).
impl<Q: TellSequence> TellNested for Statement<Q> {
    ghost use Rattle.ada_regions.specs.NamesInStatements.{names_in_statement};

    ghost names = { names_in_statement Q.names_in };

    fn tell_nested<'t>(&'t self, occurrences: &mut Occurrences<'t>) -> Result<(), NoMemory> {
        match self {
            Statement::Null { .. } => Ok(()),
            Statement::Assignment(assignment) => assignment.tell(occurrences),
            Statement::Call(call) => call.tell(occurrences),
            Statement::Delay(delay) => delay.tell(occurrences),
            Statement::If(statement) => statement.tell_nested(occurrences),
            Statement::Case(case) => case.tell_nested(occurrences),
            Statement::Loop(statement) => statement.tell_nested(occurrences),
            Statement::Exit(exit) => exit.tell(occurrences),
            Statement::Block(block) => block.tell_nested(occurrences),
            Statement::Return { value, .. } => value.tell(occurrences),
            Statement::Raise { exception, .. } => exception.tell(occurrences),
            Statement::Abort { tasks, .. } => tasks.tell(occurrences),
            Statement::Accept(accept) => accept.tell_nested(occurrences),
            Statement::Requeue { entry, .. } => entry.tell(occurrences),
            Statement::Select(select) => select.form.tell_nested(occurrences),
        }
    }
}
