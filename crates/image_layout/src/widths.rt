//! How many cells a declaration takes: a scalar has one, an array one for each component, a
//! protected object 16 and a controlled one 1 more than its components; a loop has two (this
//! profile's).
ghost use Rattle.std.specs.Prelude.{◌≡◌, suc, ◌+◌, ◌-◌, IfOk};
ghost use Rattle.ada_image.specs.Layout.{width_between, truth_width, width, width_of_array};
ghost use Rattle.ada_image.specs.Layout.{width_of_subtype, width_of_components, width_of_type};
ghost use Rattle.ada_image.specs.Layout.{width_of_object, cells_of_sort, cells_of_declaration};

use crate::places::is_component_of;
use crate::subtypes::{array_at, array_of};
use ada_regions::{AdaType, ArrayType, ComponentOwner, Names, NumberedDeclaration, Sort, Subtype};
use ann_base::NoMemory;
use profile_image::{CONTROLLED_CELLS, Constraint, PROTECTED_CELLS};

/// A sum of 32 bits. One that does not fit wants more memory than there is.
pub fn added(sum: u32, more: u32) -> Result<u32, NoMemory>
    ensures { IfOk result (λ all. all ≡ sum + more) }
{
    match sum.checked_add(more) {
        Some(all) => Ok(all),
        None => Err(NoMemory),
    }
}

/// How many whole numbers stand from one to another.
fn width_between(low: i32, high: i32) -> Result<u32, NoMemory>
    ensures { IfOk result (λ count. count ≡ width_between low high) }
{
    if high < low {
        Ok(0)
    } else {
        added(high.abs_diff(low), 1)
    }
}

/// How many truth values stand from one to another.
fn truth_width(low: bool, high: bool) -> u32
    ensures { result ≡ truth_width low high }
{
    match (low, high) {
        (true, false) => 0,
        (true, true) => 1,
        (false, true) => 2,
        (false, false) => 1,
    }
}

/// How many positions stand from one to another.
fn literal_width(low: u32, high: u32) -> Result<u32, NoMemory>
    ensures { IfOk result (λ count. count ≡ suc high - low) }
{
    if high < low {
        Ok(0)
    } else {
        added(high - low, 1)
    }
}

/// How many values a range has.
#[tactic(auto, unfolding(ada_image::specs::Layout::width))]
fn width(range: Constraint) -> Result<u32, NoMemory>
    ensures { IfOk result (λ count. count ≡ width range) }
{
    match range {
        Constraint::Free => Ok(1),
        Constraint::Whole { low, high } => width_between(low, high),
        Constraint::Truth { low, high } => Ok(truth_width(low, high)),
        Constraint::Literal { low, high } => literal_width(low, high),
        Constraint::Ticks { .. } => Ok(1),
    }
}

/// How many cells a scalar or an array takes.
#[tactic(auto, unfolding(ada_image::specs::Layout::width_of_array))]
fn width_of_array(array: Option<ArrayType>) -> Result<u32, NoMemory>
    ensures { IfOk result (λ count. count ≡ width_of_array array) }
{
    match array {
        None => Ok(1),
        Some(array) => width(array.index),
    }
}

/// How many cells a scalar or an array of this subtype takes.
#[tactic(auto, unfolding(ada_image::specs::Layout::width_of_subtype))]
pub fn width_of_subtype(names: &Names<'_>, subtype: Option<Subtype>) -> Result<u32, NoMemory>
    ensures { IfOk result (λ count. count ≡ width_of_subtype names.now subtype) }
{
    match subtype {
        None => Ok(1),
        Some(subtype) => width_of_array(array_of(names, subtype.of_type)),
    }
}

/// How many cells the components of an object take (3.8, 9.4).
#[tactic(auto, unfolding(ada_image::specs::Layout::width_of_components, ada_image::specs::Layout::components_of_owner))]
fn width_of_components(names: &Names<'_>, owner: ComponentOwner) -> Result<u32, NoMemory>
    ensures { IfOk result (λ count. count ≡ width_of_components names.now owner) }
{
    let mut count = 0;
    for declaration in names.declarations.iter() {
        if is_component_of(owner, declaration.sort) {
            count = added(count, width_of_subtype(names, declaration.subtype)?)?;
        }
    }
    Ok(count)
}

/// How many cells an object has that has components, with some cells of its own.
fn width_with_components(
    names: &Names<'_>,
    own: u32,
    owner: ComponentOwner,
) -> Result<u32, NoMemory>
    ensures { IfOk result (λ count. count ≡ own + width_of_components names.now owner) }
{
    added(own, width_of_components(names, owner)?)
}

/// How many cells an object of a type takes.
#[tactic(auto, unfolding(ada_image::specs::Layout::width_of_type))]
fn width_of_type(names: &Names<'_>, of_type: AdaType) -> Result<u32, NoMemory>
    ensures { IfOk result (λ count. count ≡ width_of_type names.now of_type) }
{
    match of_type {
        AdaType::Array(array) => width_of_array(array_at(names, array)),
        AdaType::Derived(of_type) => {
            width_with_components(names, CONTROLLED_CELLS, ComponentOwner::Controlled(of_type))
        }
        AdaType::Protected(unit) => {
            width_with_components(names, PROTECTED_CELLS, ComponentOwner::Protected(unit))
        }
        _ => Ok(1),
    }
}

/// How many cells an object of a subtype takes.
#[tactic(auto, unfolding(ada_image::specs::Layout::width_of_object))]
pub fn width_of_object(names: &Names<'_>, subtype: Option<Subtype>) -> Result<u32, NoMemory>
    ensures { IfOk result (λ count. count ≡ width_of_object names.now subtype) }
{
    match subtype {
        None => Ok(1),
        Some(subtype) => width_of_type(names, subtype.of_type),
    }
}

/// How many cells what is declared takes.
#[tactic(auto, unfolding(ada_image::specs::Layout::cells_of_sort))]
fn cells_of_sort(names: &Names<'_>, sort: Sort, subtype: Option<Subtype>) -> Result<u32, NoMemory>
    ensures { IfOk result (λ count. count ≡ cells_of_sort names.now sort subtype) }
{
    match sort {
        Sort::Object => width_of_object(names, subtype),
        Sort::Component(_) => width_of_subtype(names, subtype),
        Sort::Parameter => width_of_object(names, subtype),
        Sort::LoopParameter => Ok(2),
        Sort::Exception => Ok(0),
    }
}

/// How many cells a declaration takes.
#[tactic(auto, unfolding(ada_image::specs::Layout::cells_of_declaration))]
pub fn cells_of_declaration(
    names: &Names<'_>,
    declaration: &NumberedDeclaration<'_>,
) -> Result<u32, NoMemory>
    ensures { IfOk result (λ count. count ≡ cells_of_declaration names.now declaration.now) }
{
    cells_of_sort(names, declaration.sort, declaration.subtype)
}
