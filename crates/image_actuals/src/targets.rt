//! Variables that statements and actuals name: an object, or an element of an array (ISO/IEC
//! 8652:2012, 4.1, 4.1.1).
ghost use Rattle.std.specs.Prelude.{◌≡◌, None, option_copied};
ghost use Rattle.profile_image.specs.declared.expressions.ObjectName.TheVariants as object;
ghost use Rattle.ada_image.specs.Made.{Made};
ghost use Rattle.ada_image.specs.ImageOfCalls.{target_made, variable_in};
ghost use Rattle.ada_image.specs.ImageOfExpressions.{no_declaration_no};

use ada_image::{Lists, Within};
use ada_tree::{Expression, ExpressionForm, Name};
use ann_base::NoMemory;
use image_expressions::variable_made;
use image_layout::first_argument;
use image_names::no_declaration_no;
use profile_image::{ObjectName, VariableName};

/// The variable that a name denotes, with the index of an element or without.
#[tactic(auto, unfolding(ada_image::specs::ImageOfCalls::target_made, ada_image::specs::ImageOfExpressions::expression_made))]
pub fn target_made(
    lists: &mut Lists,
    within: &Within<'_, '_>,
    name: &Name,
    index: Option<&Expression>,
) -> Result<VariableName, NoMemory>
    ensures { Made (target_made within.now name.now (option_copied index.entry)) lists.old lists.new
        result }
{
    variable_made(lists, within, name, index)
}

/// What no accepted source has there.
pub fn no_variable() -> VariableName
    ensures { result ≡ record { object = object.Declared no_declaration_no; index = None } }
{
    VariableName {
        object: ObjectName::Declared(no_declaration_no()),
        index: None,
    }
}

/// The variable that an actual is.
#[tactic(auto, unfolding(ada_image::specs::ImageOfCalls::variable_in, ada_image::specs::ImageOfCalls::variable_in_form))]
pub fn variable_in(
    lists: &mut Lists,
    within: &Within<'_, '_>,
    expression: &Expression,
) -> Result<VariableName, NoMemory>
    ensures { Made (variable_in within.now expression.now) lists.old lists.new result }
{
    match expression.form.get() {
        ExpressionForm::Named {
            name,
            arguments,
            ..
        } => target_made(lists, within, name, first_argument(arguments.as_slice())),
        _ => Ok(no_variable()),
    }
}
