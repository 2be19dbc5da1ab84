//! Assignment statements (ISO/IEC 8652:2012, 5.2): of a scalar, a whole array or a controlled
//! object, or of the value of a function's call.
ghost use Rattle.std.specs.Prelude.{◌≡◌, option_copied, option_map};
ghost use Rattle.ada_image.specs.Made.{Made};
ghost use Rattle.ada_image.specs.ImageOfStatements.{array_name, array_assigned};
ghost use Rattle.ada_image.specs.ImageOfStatements.{controlled_assigned, value_assigned};
ghost use Rattle.ada_image.specs.ImageOfStatements.{assigned_whole, assigned, assignment_put};
ghost use Rattle.image_actuals.specs.Shown.{call_shown};

use ada_image::{Lists, Within};
use ada_regions::Subtype;
use ada_subtypes::subtype_of_name;
use ada_tree::{Assignment, Name};
use ann_base::NoMemory;
use image_actuals::{FunctionCall, function_call, function_call_put, target_made};
use image_expressions::{expression_made, named};
use image_layout::{action_put, added, subtype_is_array, subtype_is_kept};
use image_names::{object_named, thing_in, thing_named};
use image_signs::{signs_if, signs_in};
use profile_image::{DeclNo, Destination, ObjectName, StatementForm, StatementNo};
use std::alloc::Global;

/// The array that a name denotes (3.6).
#[tactic(auto, unfolding(ada_image::specs::ImageOfStatements::array_name))]
pub fn array_name(within: &Within<'_, '_>, name: Option<&Name>) -> ObjectName
    ensures { result ≡ array_name within.now (option_copied name.entry) }
{
    match name {
        None => ObjectName::Declared(DeclNo(0)),
        Some(name) => object_named(within, name),
    }
}

/// An assignment of a whole array.
#[tactic(auto, unfolding(ada_image::specs::ImageOfStatements::array_assigned))]
fn array_assigned(
    lists: &mut Lists,
    within: &Within<'_, '_>,
    assignment: &Assignment,
    signs: u32,
    next: Option<StatementNo>,
) -> Result<Option<StatementNo>, NoMemory>
    ensures { Made (array_assigned within.now assignment.now signs next) lists.old lists.new
        result }
{
    let form = StatementForm::AssignArray {
        target: object_named(within, &assignment.target),
        source: array_name(within, named(&assignment.value)),
    };
    action_put(lists, form, signs, next)
}

/// An assignment of a controlled object (7.6).
#[tactic(auto, unfolding(ada_image::specs::ImageOfStatements::controlled_assigned))]
fn controlled_assigned(
    lists: &mut Lists,
    within: &Within<'_, '_>,
    assignment: &Assignment,
    next: Option<StatementNo>,
) -> Result<Option<StatementNo>, NoMemory>
    ensures { Made (controlled_assigned within.now assignment.now next) lists.old lists.new result }
{
    let form = StatementForm::AssignControlled {
        target: thing_named(within, &assignment.target),
        source: thing_in(within, named(&assignment.value)),
    };
    action_put(lists, form, 0, next)
}

/// An assignment of a value, or of the result of a function that is called.
#[tactic(auto, unfolding(ada_image::specs::ImageOfStatements::value_assigned))]
fn value_assigned(
    alloc: Global,
    lists: &mut Lists,
    within: &Within<'_, '_>,
    assignment: &Assignment,
    call: &Option<FunctionCall<'_>>,
    signs: u32,
    next: Option<StatementNo>,
) -> Result<Option<StatementNo>, NoMemory>
    ensures { Made
        (value_assigned within.now assignment.now (option_map call_shown call.now) signs next)
        lists.old lists.new result }
{
    let target = target_made(lists, within, &assignment.target, assignment.index.as_ref())?;
    match call {
        None => {
            let value = expression_made(lists, &assignment.value, within)?;
            action_put(lists, StatementForm::Assign { target, value }, signs, next)
        }
        Some(call) => {
            let destination = Destination::Variable(target);
            function_call_put(alloc, lists, within, call, destination, signs, next)
        }
    }
}

/// An assignment to a name without an index.
#[tactic(auto, unfolding(ada_image::specs::ImageOfStatements::assigned_whole))]
fn assigned_whole(
    alloc: Global,
    lists: &mut Lists,
    within: &Within<'_, '_>,
    assignment: &Assignment,
    subtype: Option<Subtype>,
    signs: u32,
    next: Option<StatementNo>,
) -> Result<Option<StatementNo>, NoMemory>
    ensures { Made (assigned_whole within.now assignment.now subtype signs next) lists.old lists.new
        result }
{
    if subtype_is_kept(subtype) {
        controlled_assigned(lists, within, assignment, next)
    } else if subtype_is_array(subtype) {
        array_assigned(lists, within, assignment, signs, next)
    } else {
        let call = function_call(within, &assignment.value);
        value_assigned(alloc, lists, within, assignment, &call, signs, next)
    }
}

/// An assignment with these operator signs in it.
#[tactic(auto, unfolding(ada_image::specs::ImageOfStatements::assigned))]
fn assigned(
    alloc: Global,
    lists: &mut Lists,
    within: &Within<'_, '_>,
    assignment: &Assignment,
    signs: u32,
    next: Option<StatementNo>,
) -> Result<Option<StatementNo>, NoMemory>
    ensures { Made (assigned within.now assignment.now assignment.now.index signs next) lists.old
        lists.new result }
{
    match &assignment.index {
        None => {
            let subtype = subtype_of_name(within.names.get(), &assignment.target);
            assigned_whole(alloc, lists, within, assignment, subtype, signs, next)
        }
        Some(_) => {
            let call = function_call(within, &assignment.value);
            value_assigned(alloc, lists, within, assignment, &call, signs, next)
        }
    }
}

/// An assignment statement (5.2).
#[tactic(auto, unfolding(ada_image::specs::ImageOfStatements::assignment_put))]
pub fn assignment_put(
    alloc: Global,
    lists: &mut Lists,
    within: &Within<'_, '_>,
    assignment: &Assignment,
    next: Option<StatementNo>,
) -> Result<Option<StatementNo>, NoMemory>
    ensures { Made (assignment_put within.now assignment.now next) lists.old lists.new result }
{
    let in_index = signs_if(within, &assignment.index)?;
    let in_value = signs_in(within, &assignment.value)?;
    let signs = added(in_index, in_value)?;
    assigned(alloc, lists, within, assignment, signs, next)
}
