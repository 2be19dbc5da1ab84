//! What a declaration declares, and the range of its values (ISO/IEC 8652:2012, 3.1, 3.5).
ghost use Rattle.std.specs.Prelude.{◌≡◌};
ghost use Rattle.ada_image.specs.ImageOfUnits.{kind_of_sort, kind_of_subtype, kind_of_type};
ghost use Rattle.ada_image.specs.ImageOfUnits.{kind_with_task, range_if_value, range_of_sort};

use ada_regions::{AdaType, Names, Sort, Subtype};
use image_layout::{range_of_cells, subtype_is_thing};
use profile_image::{Constraint, DeclNo, DeclarationKind, Initial};

/// What an object of a type is.
#[tactic(auto, unfolding(ada_image::specs::ImageOfUnits::kind_of_type))]
fn kind_of_type(of_type: AdaType, initial: Initial) -> DeclarationKind
    ensures { result ≡ kind_of_type of_type initial }
{
    match of_type {
        AdaType::TimingEvent => DeclarationKind::Event,
        AdaType::Timer => DeclarationKind::Other,
        AdaType::GroupBudget => DeclarationKind::Budget,
        AdaType::LimitedControlled => DeclarationKind::Other,
        AdaType::Controlled => DeclarationKind::Other,
        AdaType::Derived(of_type) => DeclarationKind::Controlled(of_type),
        AdaType::Task(unit) => DeclarationKind::Task(unit),
        AdaType::Protected(unit) => DeclarationKind::Protected(unit),
        _ => DeclarationKind::Object(initial),
    }
}

/// The same, where a constant may identify a timer's task (D.14.1).
#[tactic(auto, unfolding(ada_image::specs::ImageOfUnits::kind_with_task))]
fn kind_with_task(of_type: AdaType, task: Option<u32>, initial: Initial) -> DeclarationKind
    ensures { result ≡ kind_with_task of_type task initial }
{
    match task {
        None => kind_of_type(of_type, initial),
        Some(task) => DeclarationKind::Timer(DeclNo(task)),
    }
}

/// What an object of a subtype is.
#[tactic(auto, unfolding(ada_image::specs::ImageOfUnits::kind_of_subtype))]
fn kind_of_subtype(subtype: Option<Subtype>, task: Option<u32>, initial: Initial) -> DeclarationKind
    ensures { result ≡ kind_of_subtype subtype task initial }
{
    match subtype {
        None => DeclarationKind::Object(initial),
        Some(subtype) => kind_with_task(subtype.of_type, task, initial),
    }
}

/// What a declaration declares.
#[tactic(auto, unfolding(ada_image::specs::ImageOfUnits::kind_of_sort))]
pub(crate) fn kind_of_sort(
    sort: Sort,
    subtype: Option<Subtype>,
    task: Option<u32>,
    initial: Initial,
) -> DeclarationKind
    ensures { result ≡ kind_of_sort sort subtype task initial }
{
    match sort {
        Sort::Object => kind_of_subtype(subtype, task, initial),
        Sort::Component(_) => DeclarationKind::Object(initial),
        Sort::Parameter => DeclarationKind::Parameter,
        Sort::LoopParameter => DeclarationKind::Parameter,
        Sort::Exception => DeclarationKind::Other,
    }
}

/// The range of an object's values. What stands for itself has none.
#[tactic(auto, unfolding(ada_image::specs::ImageOfUnits::range_if_value))]
fn range_if_value(names: &Names<'_>, subtype: Option<Subtype>) -> Constraint
    ensures { result ≡ range_if_value names.now subtype }
{
    if subtype_is_thing(subtype) {
        Constraint::Free
    } else {
        range_of_cells(names, subtype)
    }
}

/// The range of the values of what is declared.
#[tactic(auto, unfolding(ada_image::specs::ImageOfUnits::range_of_sort))]
pub(crate) fn range_of_sort(names: &Names<'_>, sort: Sort, subtype: Option<Subtype>) -> Constraint
    ensures { result ≡ range_of_sort names.now sort subtype }
{
    match sort {
        Sort::Object => range_if_value(names, subtype),
        Sort::Component(_) => range_if_value(names, subtype),
        Sort::Parameter => range_if_value(names, subtype),
        Sort::LoopParameter => Constraint::Free,
        Sort::Exception => Constraint::Free,
    }
}
