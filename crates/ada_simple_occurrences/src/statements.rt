//! The names in subtype indications, in parameters, and in statements without others in them
//! (ISO/IEC 8652:2012, clauses 3, 5, 6, 9, 11).
ghost use Rattle.std.specs.Prelude.{◌≡◌, ◌++◌, OnOk};
ghost use Rattle.ada_regions.specs.Occurrences.{one, mentions_simply, if_there};
ghost use Rattle.ada_regions.specs.NamesInStatements.{names_in_parameter, names_in_parameters};

use crate::telling::{Naming, Tell, tell_both, tell_names};
use ada_regions::{Occurrence, Occurrences};
use ada_tree::{
    Assignment, Call, Choice, Constraint, Delay, Exit, Guard, HandledExceptions, Identifier,
    Iteration, Name, Parameter, SubtypeIndication, Trigger,
};
use ann_base::NoMemory;

/// A name that is used.
impl Tell for Name {
    ghost use Rattle.ada_regions.specs.Occurrences.{one, mentions};

    ghost names = { λ name. one (mentions name) };

    fn tell<'t>(&'t self, occurrences: &mut Occurrences<'t>) -> Result<(), NoMemory> {
        occurrences.push(Occurrence::Mention { name: self })
    }
}

impl Tell for Constraint {
    ghost use Rattle.ada_regions.specs.NamesInStatements.{names_in_constraint};

    ghost names = { names_in_constraint };

    fn tell<'t>(&'t self, occurrences: &mut Occurrences<'t>) -> Result<(), NoMemory> {
        match self {
            Constraint::Access(name) => name.tell(occurrences),
            Constraint::Range { low, high } => tell_both(occurrences, low, high),
        }
    }
}

impl Tell for SubtypeIndication {
    ghost use Rattle.ada_regions.specs.NamesInStatements.{names_in_indication};

    ghost names = { names_in_indication };

    fn tell<'t>(&'t self, occurrences: &mut Occurrences<'t>) -> Result<(), NoMemory> {
        self.name.tell(occurrences)?;
        self.constraint.tell(occurrences)
    }
}

/// Parameters with one subtype (6.1).
fn tell_parameter<'t>(
    occurrences: &mut Occurrences<'t>,
    with_cells: bool,
    parameter: &'t Parameter,
) -> Result<(), NoMemory>
    ensures { OnOk result
        (occurrences.new ≡ occurrences.old ++ names_in_parameter with_cells parameter.now) }
{
    tell_names(occurrences, Naming::Hide, &parameter.names)?;
    parameter.subtype.tell(occurrences)?;
    tell_names(
        occurrences,
        Naming::Parameter {
            with_cells,
            parameter,
        },
        &parameter.names,
    )
}

/// Tells the parameters of a construct that has cells for them, or of a declaration.
pub fn tell_parameters<'t>(
    occurrences: &mut Occurrences<'t>,
    with_cells: bool,
    parameters: &'t [Parameter],
) -> Result<(), NoMemory>
    ensures { OnOk result
        (occurrences.new ≡ occurrences.old ++ names_in_parameters with_cells parameters.now) }
{
    for parameter in parameters {
        tell_parameter(occurrences, with_cells, parameter)?;
    }
    Ok(())
}

impl Tell for Assignment {
    ghost use Rattle.ada_regions.specs.NamesInStatements.{names_in_assignment};

    ghost names = { names_in_assignment };

    fn tell<'t>(&'t self, occurrences: &mut Occurrences<'t>) -> Result<(), NoMemory> {
        self.target.tell(occurrences)?;
        self.index.tell(occurrences)?;
        self.value.tell(occurrences)
    }
}

impl Tell for Call {
    ghost use Rattle.ada_regions.specs.NamesInStatements.{names_in_call};

    ghost names = { names_in_call };

    fn tell<'t>(&'t self, occurrences: &mut Occurrences<'t>) -> Result<(), NoMemory> {
        self.name.tell(occurrences)?;
        self.arguments.tell(occurrences)
    }
}

impl Tell for Delay {
    ghost use Rattle.ada_regions.specs.NamesInStatements.{names_in_delay};

    ghost names = { names_in_delay };

    fn tell<'t>(&'t self, occurrences: &mut Occurrences<'t>) -> Result<(), NoMemory> {
        self.value.tell(occurrences)
    }
}

impl Tell for Choice {
    ghost use Rattle.ada_regions.specs.NamesInStatements.{names_in_choice};

    ghost names = { names_in_choice };

    fn tell<'t>(&'t self, occurrences: &mut Occurrences<'t>) -> Result<(), NoMemory> {
        match self {
            Choice::Value(value) => value.tell(occurrences),
            Choice::Range { low, high } => tell_both(occurrences, low, high),
            Choice::Others { .. } => Ok(()),
        }
    }
}

/// How a loop goes on (5.5).
impl Tell for Iteration {
    ghost use Rattle.ada_regions.specs.NamesInStatements.{names_in_iteration};

    ghost names = { names_in_iteration };

    fn tell<'t>(&'t self, occurrences: &mut Occurrences<'t>) -> Result<(), NoMemory> {
        match self {
            Iteration::Forever => Ok(()),
            Iteration::While { condition, .. } => condition.tell(occurrences),
            Iteration::For {
                parameter,
                low,
                high,
                ..
            } => {
                occurrences.push(Occurrence::Hide { name: parameter })?;
                tell_both(occurrences, low, high)?;
                occurrences.push(Occurrence::DeclareLoopParameter { name: parameter })
            }
        }
    }
}

/// The loop that an exit names.
fn tell_loop_name<'t>(
    occurrences: &mut Occurrences<'t>,
    name: &'t Option<Identifier>,
) -> Result<(), NoMemory>
    ensures { OnOk result
        (occurrences.new
        ≡ occurrences.old ++ if_there (λ name. one (mentions_simply name)) name.now) }
{
    match name {
        None => Ok(()),
        Some(name) => occurrences.push(Occurrence::MentionSimply { name }),
    }
}

impl Tell for Exit {
    ghost use Rattle.ada_regions.specs.NamesInStatements.{names_in_exit};

    ghost names = { names_in_exit };

    fn tell<'t>(&'t self, occurrences: &mut Occurrences<'t>) -> Result<(), NoMemory> {
        tell_loop_name(occurrences, &self.loop_name)?;
        self.condition.tell(occurrences)
    }
}

impl Tell for HandledExceptions {
    ghost use Rattle.ada_regions.specs.NamesInStatements.{names_in_exceptions};

    ghost names = { names_in_exceptions };

    fn tell<'t>(&'t self, occurrences: &mut Occurrences<'t>) -> Result<(), NoMemory> {
        match self {
            HandledExceptions::Named(names) => names.tell(occurrences),
            HandledExceptions::Others { .. } => Ok(()),
        }
    }
}

impl Tell for Guard {
    ghost use Rattle.ada_regions.specs.NamesInStatements.{names_in_guard};

    ghost names = { names_in_guard };

    fn tell<'t>(&'t self, occurrences: &mut Occurrences<'t>) -> Result<(), NoMemory> {
        self.condition.tell(occurrences)
    }
}

impl Tell for Trigger {
    ghost use Rattle.ada_regions.specs.NamesInStatements.{names_in_trigger};

    ghost names = { names_in_trigger };

    fn tell<'t>(&'t self, occurrences: &mut Occurrences<'t>) -> Result<(), NoMemory> {
        match self {
            Trigger::Call(call) => call.tell(occurrences),
            Trigger::Delay(delay) => delay.tell(occurrences),
        }
    }
}
