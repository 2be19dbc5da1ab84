//! Handlers as actuals: `'Access` of a procedure of a protected object, or null (ISO/IEC 8652:2012,
//! D.14.1, D.14.2, D.15).
ghost use Rattle.std.specs.Prelude.{◌≡◌, option_copied};
ghost use Rattle.ada_regions.specs.Names.{kind_at};
ghost use Rattle.ada_regions.specs.Words.{and_then};
ghost use Rattle.ada_image.specs.ImageOfExpressions.{object_number, kind_named};
ghost use Rattle.ada_image.specs.ImageOfProcedures.{innermost_object, object_of_handler};
ghost use Rattle.ada_image.specs.ImageOfProcedures.{handler_with, handler_in_form, handler_of};

use ada_entities::kind_at;
use ada_image::Within;
use ada_regions::EntityKind;
use ada_tree::{Expression, ExpressionForm, Name};
use image_names::{kind_named, named_before, object_number};
use profile_image::{DeclNo, HandlerName};

/// The number of the object that an entity is, if it is one.
fn object_of_entity(within: &Within<'_, '_>, entity: u32) -> Option<DeclNo>
    ensures { result ≡ and_then (kind_at within.now.names entity) object_number }
{
    let kind = kind_at(within.names.get(), entity)?;
    object_number(kind)
}

/// The single object of the unit in whose body the name stands.
#[tactic(auto, unfolding(ada_image::specs::ImageOfProcedures::innermost_object))]
fn innermost_object(within: &Within<'_, '_>) -> Option<DeclNo>
    ensures { result ≡ innermost_object within.now within.now.units }
{
    for unit in within.units.get().iter() {
        if let Some(object) = object_of_entity(within, *unit) {
            return Some(object);
        }
    }
    None
}

/// The object before the last part of a name, or else that of the unit in whose body the name
/// stands.
#[tactic(auto, unfolding(ada_image::specs::ImageOfProcedures::object_of_handler, ada_image::specs::ImageOfExpressions::named_before))]
fn object_of_handler(within: &Within<'_, '_>, name: &Name) -> Option<DeclNo>
    ensures { result ≡ object_of_handler within.now name.now }
{
    match named_before(within, name) {
        Some(object) => Some(object),
        None => innermost_object(within),
    }
}

#[tactic(auto, unfolding(ada_image::specs::ImageOfProcedures::handler_with))]
fn handler_with(within: &Within<'_, '_>, name: &Name, kind: &EntityKind) -> Option<HandlerName>
    ensures { result ≡ handler_with within.now name.now kind.now }
{
    match kind {
        EntityKind::Subprogram { number, .. } => Some(HandlerName {
            object: object_of_handler(within, name).unwrap_or(DeclNo(0)),
            procedure: *number,
        }),
        _ => None,
    }
}

/// The handler that a name denotes.
fn handler_named(within: &Within<'_, '_>, name: &Name) -> Option<HandlerName>
    ensures { result
        ≡ and_then (kind_named within.now name.now) (handler_with within.now name.now) }
{
    let kind = kind_named(within, name)?;
    handler_with(within, name, kind)
}

fn handler_in_form(
    within: &Within<'_, '_>,
    form: &ExpressionForm<Expression>,
) -> Option<HandlerName>
    ensures { result ≡ handler_in_form within.now form.now }
{
    match form {
        ExpressionForm::Named { name, .. } => handler_named(within, name),
        _ => None,
    }
}

/// The handler that an actual names, if it names one.
#[tactic(auto, unfolding(ada_image::specs::ImageOfProcedures::handler_of))]
pub fn handler_of(within: &Within<'_, '_>, actual: Option<&Expression>) -> Option<HandlerName>
    ensures { result ≡ handler_of within.now (option_copied actual.entry) }
{
    let actual = actual?;
    handler_in_form(within, actual.form.get())
}
