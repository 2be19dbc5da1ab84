//! Conformance of profiles (ISO/IEC 8652:2012, 6.3.1): as many parameters, of the same names, modes
//! and subtypes.
ghost use Rattle.std.specs.Prelude.{◌≡◌, is_some, not, slice_get, IfOk};
ghost use Rattle.ada_legality.specs.Profiles.{all_same_parameters, conforms};
ghost use Rattle.ada_legality.specs.Profiles.{conforms_to, same_parameter};
ghost use Rattle.legality_profiles.specs.Beside.{same_along, same_beside};
ghost use Rattle.legality_profiles.specs.Shown.{named_shown};

use crate::indications::{mode_of_parameter, same_indication, same_indication_if, same_mode};
use crate::named::{Named, Profile, names_with_parameters};
use ada_regions::Names;
use ada_tree::{Parameter, SubprogramSpecification};
use ann_base::NoMemory;
use std::alloc::Global;

/// Whether two parameters have one name, one mode and one indication.
#[tactic(auto, unfolding(ada_legality::specs::Profiles::same_parameter))]
fn same_parameter(names: &Names<'_>, a: &Named<'_>, b: &Named<'_>) -> bool
    ensures { result ≡ same_parameter names.now (named_shown a.now) (named_shown b.now) }
{
    a.name.text.as_slice() == b.name.text.as_slice()
        && (same_mode(
            mode_of_parameter(a.parameter),
            mode_of_parameter(b.parameter),
        ) && same_indication(names, &a.parameter.subtype, &b.parameter.subtype))
}

/// Whether a parameter is the same as that at a place, if there is one.
fn same_beside(names: &Names<'_>, a: &Named<'_>, others: &[Named<'_>], at: usize) -> bool
    ensures { result ≡ same_beside names.now (named_shown a.now) (slice_get others.now at) }
{
    match others.get(at) {
        None => false,
        Some(b) => same_parameter(names, a, b),
    }
}

/// Whether no parameter stands at a place.
fn none_at(parameters: &[Named<'_>], at: usize) -> bool
    ensures { result ≡ not (is_some (slice_get parameters.now at)) }
{
    match parameters.get(at) {
        None => true,
        Some(_) => false,
    }
}

/// Whether parameters are the same as those of another profile, one at a time.
fn same_along(names: &Names<'_>, parameters: &[Named<'_>], others: &[Named<'_>]) -> bool
    ensures { result ≡ same_along names.now parameters.now others.now 0 }
{
    let mut at = 0;
    for parameter in parameters {
        if !same_beside(names, parameter, others, at) {
            return false;
        }
        at += 1;
    }
    none_at(others, at)
}

/// Whether there are as many parameters, each the same.
#[tactic(auto, using(crate::proofs::Beside::same_is))]
fn all_same_parameters(names: &Names<'_>, a: &Profile<'_>, b: &Profile<'_>) -> bool
    ensures { result ≡ all_same_parameters names.now a.now b.now }
{
    same_along(names, a.as_slice(), b.as_slice())
}

/// Whether profiles conform fully.
#[tactic(auto, unfolding(ada_legality::specs::Profiles::conforms))]
pub fn conforms(
    alloc: Global,
    names: &Names<'_>,
    a: &[Parameter],
    b: &[Parameter],
) -> Result<bool, NoMemory>
    ensures { IfOk result (λ conforming. conforming ≡ conforms names.now a.now b.now) }
{
    let a = names_with_parameters(alloc, a)?;
    let b = names_with_parameters(alloc, b)?;
    Ok(all_same_parameters(names, &a, &b))
}

/// Whether profiles conform fully, with the results of functions.
#[tactic(auto, unfolding(ada_legality::specs::Profiles::conforms_to))]
pub fn conforms_to(
    alloc: Global,
    names: &Names<'_>,
    a: &SubprogramSpecification,
    b: &SubprogramSpecification,
) -> Result<bool, NoMemory>
    ensures { IfOk result (λ conforming. conforming ≡ conforms_to names.now a.now b.now) }
{
    let parameters = conforms(
        alloc,
        names,
        a.parameters.as_slice(),
        b.parameters.as_slice(),
    )?;
    Ok(parameters && same_indication_if(names, &a.result, &b.result))
}
