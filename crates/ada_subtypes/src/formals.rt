//! The formal parameters of profiles (ISO/IEC 8652:2012, 6.1).
ghost use Rattle.std.specs.Prelude.{◌≡◌, ◌++◌, ◌∷◌, [], map, IfOk, OnOk};
ghost use Rattle.ada_regions.specs.Words.{all_of};
ghost use Rattle.ada_regions.specs.Subtypes.{mode_out, mode_of, formal_with};
ghost use Rattle.ada_regions.specs.Subtypes.{formals_of_parameter, formals_of};

use crate::subtypes::indicated_subtype;
use ada_entities::copy;
use ada_regions::{Formal, Mode, Names, Subtype};
use ada_tree::{Identifier, OneOrMore, Parameter};
use ann_base::NoMemory;
use profile_image::ImageList;
use std::alloc::Global;

fn mode_out(is_in: bool) -> Mode
    ensures { result ≡ mode_out is_in }
{
    if is_in { Mode::InOut } else { Mode::Out }
}

/// The mode that `in` and `out` give; without them it is `in`.
pub fn mode_of(is_in: bool, is_out: bool) -> Mode
    ensures { result ≡ mode_of is_in is_out }
{
    if is_out { mode_out(is_in) } else { Mode::In }
}

/// Adds a formal.
fn push_formal(
    alloc: Global,
    formals: &mut ImageList<Formal>,
    name: &Identifier,
    mode: Mode,
    subtype: Option<Subtype>,
) -> Result<(), NoMemory>
    ensures { OnOk result (formals.new ≡ formals.old ++ formal_with mode subtype name.now ∷ []) }
{
    formals.push(Formal {
        name: copy(alloc, name.text.as_slice())?,
        mode,
        subtype,
    })?;
    Ok(())
}

/// Adds the formals of one parameter specification.
fn push_formals(
    alloc: Global,
    formals: &mut ImageList<Formal>,
    names: &OneOrMore<Identifier>,
    mode: Mode,
    subtype: Option<Subtype>,
) -> Result<(), NoMemory>
    ensures { OnOk result
        (formals.new ≡ formals.old ++ map (formal_with mode subtype) (all_of names.now)) }
{
    push_formal(alloc, formals, &names.first, mode, subtype)?;
    for name in names.others.as_slice() {
        push_formal(alloc, formals, name, mode, subtype)?;
    }
    Ok(())
}

/// Adds the formals of a parameter specification, given what its names denote.
fn push_formals_of_parameter(
    alloc: Global,
    formals: &mut ImageList<Formal>,
    names: &Names<'_>,
    parameter: &Parameter,
) -> Result<(), NoMemory>
    ensures { OnOk result
        (formals.new ≡ formals.old ++ formals_of_parameter names.now parameter.now) }
{
    let mode = mode_of(parameter.is_in, parameter.is_out);
    let subtype = indicated_subtype(names, &parameter.subtype);
    push_formals(alloc, formals, &parameter.names, mode, subtype)
}

/// The formals of a profile, given what its names denote.
#[tactic(auto, unfolding(ada_regions::specs::Subtypes::formals_of))]
pub fn formals_of(
    alloc: Global,
    names: &Names<'_>,
    parameters: &[Parameter],
) -> Result<ImageList<Formal>, NoMemory>
    ensures { IfOk result (λ formals. formals ≡ formals_of names.now parameters.now) }
{
    let mut formals = ImageList::new(alloc);
    for parameter in parameters {
        push_formals_of_parameter(alloc, &mut formals, names, parameter)?;
    }
    Ok(formals)
}
