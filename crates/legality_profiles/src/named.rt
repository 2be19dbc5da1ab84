//! The names of a profile, each with its parameter (ISO/IEC 8652:2012, 6.1).
ghost use Rattle.std.specs.Prelude.{◌≡◌, ◌++◌, ◌∷◌, [], map, IfOk, OnOk};
ghost use Rattle.std.specs.List.{flat_map};
ghost use Rattle.ada_legality.specs.Profiles.{names_with_parameters};
ghost use Rattle.legality_profiles.specs.Shown.{named_in, named_shown, named_with};

use ada_tree::{Identifier, Parameter};
use ann_base::NoMemory;
use std::alloc::Global;
use std::marker::Model;

/// A name with its parameter, which may have several names.
#[derive(Clone, Copy)]
pub(crate) struct Named<'t> {
    pub(crate) name: &'t Identifier,
    pub(crate) parameter: &'t Parameter,
}

/// The names of a profile in their order. Contracts see each of them with its parameter.
#[derive(Drop)]
pub(crate) struct Profile<'t> {
    items: Vec<Named<'t>>,
}

impl<'t> Model for Profile<'t> {
    ghost use Rattle.std.specs.Prelude.{List, map};
    ghost use Rattle.ada_tree.specs.declared.declarations.Parameter.{Parameter};
    ghost use Rattle.ada_tree.specs.declared.names.Identifier.{Identifier};
    ghost use Rattle.legality_profiles.specs.Shown.{named_shown};
    ghost use Rattle.ada_tree.specs.contracts.expressions.Expression as e;
    ghost use Rattle.std.specs.Coded.{codes};

    ghost Value = { List (Identifier × Parameter) };

    ghost coded = { Prim.hlevel (codes, e.the_row.coded) };

    ghost view = { λ profile. map named_shown profile.items.items };
}

impl<'t> Profile<'t> {
    /// None yet.
    fn new(alloc: Global) -> Self
        ensures { result ≡ [] }
    {
        Profile {
            items: Vec::new(alloc),
        }
    }

    /// One more at the end.
    fn push(&mut self, name: &'t Identifier, parameter: &'t Parameter) -> Result<(), NoMemory>
        ensures { OnOk result (self.new ≡ self.old ++ named_with parameter.now name.now ∷ []) }
    {
        self.items.push(Named { name, parameter })?;
        Ok(())
    }

    /// The names in order.
    pub(crate) fn as_slice(&self) -> &[Named<'t>]
        ensures { map named_shown result.now ≡ self.now }
    {
        self.items.as_slice()
    }
}

/// Some names more, all of one parameter.
fn push_names<'t>(
    profile: &mut Profile<'t>,
    names: &'t [Identifier],
    parameter: &'t Parameter,
) -> Result<(), NoMemory>
    ensures { OnOk result (profile.new ≡ profile.old ++ map (named_with parameter.now) names.now) }
{
    for name in names {
        profile.push(name, parameter)?;
    }
    Ok(())
}

/// The names of a parameter.
fn push_parameter<'t>(profile: &mut Profile<'t>, parameter: &'t Parameter) -> Result<(), NoMemory>
    ensures { OnOk result (profile.new ≡ profile.old ++ named_in parameter.now) }
{
    profile.push(&parameter.names.first, parameter)?;
    push_names(profile, parameter.names.others.as_slice(), parameter)
}

/// The names of parameters.
fn push_parameters<'t>(
    profile: &mut Profile<'t>,
    parameters: &'t [Parameter],
) -> Result<(), NoMemory>
    ensures { OnOk result (profile.new ≡ profile.old ++ flat_map named_in parameters.now) }
{
    for parameter in parameters {
        push_parameter(profile, parameter)?;
    }
    Ok(())
}

/// Each name of a profile, with its parameter.
#[tactic(auto, using(crate::proofs::NamesApart::names_are))]
pub(crate) fn names_with_parameters<'t>(
    alloc: Global,
    parameters: &'t [Parameter],
) -> Result<Profile<'t>, NoMemory>
    ensures { IfOk result (λ profile. profile ≡ names_with_parameters parameters.now) }
{
    let mut profile = Profile::new(alloc);
    push_parameters(&mut profile, parameters)?;
    Ok(profile)
}
