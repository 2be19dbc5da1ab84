//! The first values of a scope's cells, where they are not `Whole(0)` (ISO/IEC 8652:2012, 3.3.1).
ghost use Rattle.std.specs.Prelude.{◌≡◌, ◌+◌, ◌++◌, IfOk, OnOk};
ghost use Rattle.ada_image.specs.Layout.{components_of_owner, declarations_in_scope, first_value};
ghost use Rattle.ada_image.specs.Layout.{is_plain_zero, run_of, runs_of_components, runs_of_type};
ghost use Rattle.ada_image.specs.Layout.{runs_of_subtype, runs_of_parameter, runs_of_sort};
ghost use Rattle.ada_image.specs.Layout.{runs_from, width_of_object, width_of_subtype};

use ada_regions::{AdaType, ComponentOwner, Names, Sort, Subtype};
use ann_base::NoMemory;
use image_layout::{
    added, cells_of_declaration, first_value, is_component_of, is_in_scope, subtype_is_thing,
    width_of_object, width_of_subtype,
};
use profile_image::{CONTROLLED_CELLS, CellRun, ImageList, PROTECTED_CELLS, Value};

#[tactic(auto, using(crate::proofs::Zeros::no_zero))]
fn is_plain_zero(value: Value) -> bool
    ensures { result ≡ is_plain_zero value }
{
    match value {
        Value::Whole(n) => n == 0,
        _ => false,
    }
}

/// Adds a run of cells that hold a value, where it is not `Whole(0)`.
#[tactic(auto, unfolding(ada_image::specs::Layout::run_of))]
fn run_of(
    runs: &mut ImageList<CellRun>,
    place: u32,
    count: u32,
    value: Value,
) -> Result<(), NoMemory>
    ensures { OnOk result (runs.new ≡ runs.old ++ run_of place count value) }
{
    if is_plain_zero(value) {
        Ok(())
    } else {
        runs.push(CellRun {
            place,
            count,
            value,
        })?;
        Ok(())
    }
}

/// Adds the run of a component; the answer is the place behind it.
fn run_of_component(
    names: &Names<'_>,
    runs: &mut ImageList<CellRun>,
    place: u32,
    subtype: Option<Subtype>,
) -> Result<u32, NoMemory>
    ensures runs { OnOk result
        (runs.new
        ≡ runs.old
        ++ run_of place (width_of_subtype names.now subtype) (first_value names.now subtype)) }
    ensures behind { IfOk result (λ behind. behind ≡ place + width_of_subtype names.now subtype) }
{
    let width = width_of_subtype(names, subtype)?;
    run_of(runs, place, width, first_value(names, subtype))?;
    added(place, width)
}

/// Adds the runs of an object's components, from a place on.
#[tactic(auto, unfolding(ada_image::specs::Layout::runs_of_components, ada_image::specs::Layout::components_of_owner))]
fn runs_of_components(
    names: &Names<'_>,
    runs: &mut ImageList<CellRun>,
    place: u32,
    owner: ComponentOwner,
) -> Result<(), NoMemory>
    ensures { OnOk result
        (runs.new
        ≡ runs.old ++ runs_of_components names.now place (components_of_owner names.now owner)) }
{
    let mut at = place;
    for component in names.declarations.iter() {
        if is_component_of(owner, component.sort) {
            at = run_of_component(names, runs, at, component.subtype)?;
        }
    }
    Ok(())
}

/// Adds the runs of the components of an object that has some cells of its own.
fn runs_behind(
    names: &Names<'_>,
    runs: &mut ImageList<CellRun>,
    place: u32,
    own: u32,
    owner: ComponentOwner,
) -> Result<(), NoMemory>
    ensures { OnOk result
        (runs.new
        ≡ runs.old
        ++ runs_of_components names.now (place + own) (components_of_owner names.now owner)) }
{
    runs_of_components(names, runs, added(place, own)?, owner)
}

/// Adds the run of a scalar or an array.
fn run_of_values(
    names: &Names<'_>,
    runs: &mut ImageList<CellRun>,
    place: u32,
    subtype: Option<Subtype>,
) -> Result<(), NoMemory>
    ensures { OnOk result
        (runs.new
        ≡ runs.old
        ++ run_of place (width_of_object names.now subtype) (first_value names.now subtype)) }
{
    let width = width_of_object(names, subtype)?;
    run_of(runs, place, width, first_value(names, subtype))
}

/// Adds the runs of an object of a type.
#[tactic(auto, unfolding(ada_image::specs::Layout::runs_of_type))]
fn runs_of_type(
    names: &Names<'_>,
    runs: &mut ImageList<CellRun>,
    place: u32,
    subtype: Option<Subtype>,
    of_type: AdaType,
) -> Result<(), NoMemory>
    ensures { OnOk result (runs.new ≡ runs.old ++ runs_of_type names.now place subtype of_type) }
{
    match of_type {
        AdaType::TimingEvent => Ok(()),
        AdaType::Timer => Ok(()),
        AdaType::GroupBudget => Ok(()),
        AdaType::LimitedControlled => Ok(()),
        AdaType::Controlled => Ok(()),
        AdaType::Derived(of_type) => {
            runs_behind(
                names,
                runs,
                place,
                CONTROLLED_CELLS,
                ComponentOwner::Controlled(of_type),
            )
        }
        AdaType::Task(_) => Ok(()),
        AdaType::Protected(unit) => {
            runs_behind(
                names,
                runs,
                place,
                PROTECTED_CELLS,
                ComponentOwner::Protected(unit),
            )
        }
        _ => run_of_values(names, runs, place, subtype),
    }
}

/// Adds the runs of an object of a subtype.
#[tactic(auto, unfolding(ada_image::specs::Layout::runs_of_subtype))]
fn runs_of_subtype(
    names: &Names<'_>,
    runs: &mut ImageList<CellRun>,
    place: u32,
    subtype: Option<Subtype>,
) -> Result<(), NoMemory>
    ensures { OnOk result (runs.new ≡ runs.old ++ runs_of_subtype names.now place subtype) }
{
    match subtype {
        None => Ok(()),
        Some(object) => runs_of_type(names, runs, place, subtype, object.of_type),
    }
}

/// Adds the runs of a parameter. An object that stands for itself in it has no components of its
/// own.
#[tactic(auto, unfolding(ada_image::specs::Layout::runs_of_parameter))]
fn runs_of_parameter(
    names: &Names<'_>,
    runs: &mut ImageList<CellRun>,
    place: u32,
    subtype: Option<Subtype>,
) -> Result<(), NoMemory>
    ensures { OnOk result (runs.new ≡ runs.old ++ runs_of_parameter names.now place subtype) }
{
    if subtype_is_thing(subtype) {
        Ok(())
    } else {
        runs_of_subtype(names, runs, place, subtype)
    }
}

/// Adds the runs of what is declared.
#[tactic(auto, unfolding(ada_image::specs::Layout::runs_of_sort))]
fn runs_of_sort(
    names: &Names<'_>,
    runs: &mut ImageList<CellRun>,
    place: u32,
    subtype: Option<Subtype>,
    sort: Sort,
) -> Result<(), NoMemory>
    ensures { OnOk result (runs.new ≡ runs.old ++ runs_of_sort names.now place subtype sort) }
{
    match sort {
        Sort::Object => runs_of_subtype(names, runs, place, subtype),
        Sort::Component(_) => Ok(()),
        Sort::Parameter => runs_of_parameter(names, runs, place, subtype),
        Sort::LoopParameter => Ok(()),
        Sort::Exception => Ok(()),
    }
}

/// Adds the runs of the declarations of a scope.
#[tactic(auto, unfolding(ada_image::specs::Layout::runs_from, ada_image::specs::Layout::declarations_in_scope))]
pub(crate) fn runs_from(
    names: &Names<'_>,
    runs: &mut ImageList<CellRun>,
    scope: u32,
) -> Result<(), NoMemory>
    ensures { OnOk result
        (runs.new ≡ runs.old ++ runs_from names.now 0 (declarations_in_scope names.now scope)) }
{
    let mut place = 0;
    for declaration in names.declarations.iter() {
        if is_in_scope(scope, declaration) {
            runs_of_sort(names, runs, place, declaration.subtype, declaration.sort)?;
            place = added(place, cells_of_declaration(names, declaration)?)?;
        }
    }
    Ok(())
}
