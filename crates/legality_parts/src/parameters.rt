//! Parameters (ISO/IEC 8652:2012, 6.1).
ghost use Rattle.std.specs.Prelude.{◌≡◌, ◌++◌, IfOk, OnOk, option_copied, slice_get};
ghost use Rattle.ada_regions.specs.Words.{all_of};
ghost use Rattle.ada_legality.specs.CallStatements.{all_found, beyond, formal_names_of};
ghost use Rattle.ada_legality.specs.CallStatements.{is_one, parameter_found, parameters_found};

use crate::marks::parameter_found;
use ada_legality::{Finding, Known, MOST_PARAMETERS, Rule};
use ada_tree::{Identifier, Parameter};
use ann_base::{NoMemory, Place};
use legality_types::broken_if;
use profile_image::ImageList;
use std::alloc::Global;
use std::marker::Model;
use world_tables::List;

/// A name of a profile. Contracts see the identifier.
#[derive(Drop)]
struct FormalName<'t> {
    name: &'t Identifier,
}

impl<'t> Model for FormalName<'t> {
    ghost use Rattle.ada_tree.specs.declared.names.Identifier.{Identifier};

    ghost Value = { Identifier };

    ghost view = { λ part. part.name.now };
}

impl<'t> FormalName<'t> {
    /// This name.
    fn new(name: &'t Identifier) -> Self
        ensures { result ≡ name.now }
    {
        FormalName { name }
    }

    /// Where it stands.
    fn place(&self) -> Place
        ensures { result ≡ self.now.place }
    {
        self.name.place
    }
}

/// Adds the names of one parameter.
fn add_names<'t>(
    names: &mut ImageList<FormalName<'t>>,
    parameter: &'t Parameter,
) -> Result<(), NoMemory>
    ensures { OnOk result (names.new ≡ names.old ++ all_of parameter.now.names) }
{
    names.push(FormalName::new(&parameter.names.first))?;
    for name in parameter.names.others.as_slice() {
        names.push(FormalName::new(name))?;
    }
    Ok(())
}

/// The names of parameters.
#[tactic(auto, unfolding(ada_legality::specs::CallStatements::formal_names_of))]
fn formal_names_of<'t>(
    alloc: Global,
    parameters: &'t [Parameter],
) -> Result<ImageList<FormalName<'t>>, NoMemory>
    ensures { IfOk result (λ names. names ≡ formal_names_of parameters.now) }
{
    let mut names = ImageList::new(alloc);
    for parameter in parameters {
        add_names(&mut names, parameter)?;
    }
    Ok(names)
}

/// There is one name.
fn is_one(names: &[FormalName<'_>]) -> bool
    ensures { result ≡ is_one names.now }
{
    match names {
        [] => false,
        [_] => true,
        [_, _, ..] => false,
    }
}

/// The name at a place of a list.
fn name_at<'n, 't>(names: &'n [FormalName<'t>], at: usize) -> Option<&'n FormalName<'t>>
    ensures { option_copied result ≡ slice_get names.now at }
{
    names.get(at)
}

/// The name with which there are more than so many.
fn beyond(found: &mut List<Finding>, most: usize, names: &[FormalName<'_>]) -> Result<(), NoMemory>
    ensures { OnOk result
        (found.new ≡ found.old ++ beyond Rule.Limit (λ i. i.place) most names.now) }
{
    match name_at(names, most) {
        None => Ok(()),
        Some(name) => broken_if(found, Rule::Limit, true, name.place()),
    }
}

/// Parameters, each with its subtype.
fn each_parameter(
    alloc: Global,
    found: &mut List<Finding>,
    known: &Known<'_, '_>,
    in_unit: bool,
    overrides: bool,
    parameters: &[Parameter],
) -> Result<(), NoMemory>
    ensures { OnOk result
        (found.new
        ≡ found.old ++ all_found (parameter_found in_unit overrides) parameters.now known.now) }
{
    for parameter in parameters {
        parameter_found(alloc, found, known, in_unit, overrides, parameter)?;
    }
    Ok(())
}

/// The parameters of a profile: their names have a limit (this profile's own).
#[tactic(auto, unfolding(ada_legality::specs::CallStatements::parameters_found))]
pub fn parameters_found(
    alloc: Global,
    found: &mut List<Finding>,
    known: &Known<'_, '_>,
    in_unit: bool,
    overrides: bool,
    parameters: &[Parameter],
) -> Result<(), NoMemory>
    ensures { OnOk result
        (found.new ≡ found.old ++ parameters_found in_unit overrides parameters.now known.now) }
{
    let listed = formal_names_of(alloc, parameters)?;
    let names = listed.as_slice();
    beyond(found, MOST_PARAMETERS, names)?;
    let one = is_one(names);
    each_parameter(
        alloc,
        found,
        known,
        in_unit && one,
        overrides && one,
        parameters,
    )
}
