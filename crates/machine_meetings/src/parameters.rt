//! The parameters of an entry call (ISO/IEC 8652:2012, 6.4.1).
ghost use Rattle.std.specs.Prelude.{◌≡◌, IfOk};
ghost use Rattle.ann_base.specs.Answers.{Answers};
ghost use Rattle.profile_machine.specs.EntryCalls.{entry_parameter, entry_parameters};
ghost use Rattle.profile_machine.specs.EntryCalls.{values_in, results_in};

use ann_base::{NoMemory, OrMemory, Raised};
use machine_operators::checked;
use machine_values::{Seen, or_raised, read, thing, value, variable};
use profile_image::{Actual, Formal, Value};
use profile_machine::world::Variable;
use std::alloc::Global;
use world_tables::List;

// The value that a parameter has at first, and the variable that gets its result.
fn entry_parameter(
    q: &Seen<'_>,
    formal: Formal,
    actual: Actual,
) -> Result<(Value, Option<Variable>), OrMemory<Raised>>
    ensures { Answers result (entry_parameter q.now formal actual) }
{
    match actual {
        Actual::In(e) => {
            let given = value(q, e)?;
            Ok((or_raised(checked(formal.constraint, given))?, None))
        }
        Actual::InOut(name) => {
            let target = variable(q, name)?;
            let given = read(q.world, target);
            Ok((or_raised(checked(formal.constraint, given))?, Some(target)))
        }
        Actual::Out(name) => Ok((formal.initial, Some(variable(q, name)?))),
        Actual::Thing(d) => Ok((or_raised(thing(q, d))?, None)),
    }
}

// The same, or the exception that its evaluation raises.
fn parameter_evaluated(
    q: &Seen<'_>,
    formal: Formal,
    actual: Actual,
) -> Result<Result<(Value, Option<Variable>), Raised>, NoMemory>
    ensures { IfOk result (λ parameter. parameter ≡ entry_parameter q.now formal actual) }
{
    match entry_parameter(q, formal, actual) {
        Ok(parameter) => Ok(Ok(parameter)),
        Err(OrMemory::Fault(exception)) => Ok(Err(exception)),
        Err(OrMemory::Memory) => Err(NoMemory),
    }
}

// The parameters in order, for as many formals as there are actuals.
#[tactic(auto, using(crate::proofs::ParameterLemmas::parameter_laws))]
pub(crate) fn entry_parameters(
    alloc: Global,
    q: &Seen<'_>,
    formals: &[Formal],
    actuals: &[Actual],
) -> Result<List<(Value, Option<Variable>)>, OrMemory<Raised>>
    ensures { Answers result (entry_parameters q.now formals.now actuals.now) }
{
    let mut parameters = List::new(alloc);
    for (i, formal) in formals.iter().enumerate() {
        if actuals.len() <= i {
            return Ok(parameters);
        }
        match parameter_evaluated(q, *formal, actuals[i])? {
            Ok(parameter) => parameters.push_back(parameter)?,
            Err(exception) => return Err(OrMemory::Fault(exception)),
        }
    }
    Ok(parameters)
}

// The values that parameters have at first.
pub(crate) fn values_in(
    alloc: Global,
    parameters: &List<(Value, Option<Variable>)>,
) -> Result<List<Value>, NoMemory>
    ensures { IfOk result (λ values. values ≡ values_in parameters.now) }
{
    let mut values = List::new(alloc);
    for parameter in parameters.iter() {
        values.push_back(parameter.0)?;
    }
    Ok(values)
}

// The variables that get the results of parameters.
pub(crate) fn results_in(
    alloc: Global,
    parameters: &List<(Value, Option<Variable>)>,
) -> Result<List<Option<Variable>>, NoMemory>
    ensures { IfOk result (λ results. results ≡ results_in parameters.now) }
{
    let mut results = List::new(alloc);
    for parameter in parameters.iter() {
        results.push_back(parameter.1)?;
    }
    Ok(results)
}
