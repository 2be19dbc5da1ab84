//! Calls of declared subprograms and entries (ISO/IEC 8652:2012, 6.4, 9.5.3).
ghost use Rattle.std.specs.Prelude.{◌≡◌, option_map};
ghost use Rattle.ada_image.specs.Made.{Made};
ghost use Rattle.ada_image.specs.ImageOfCalls.{call_put, entry_call_put, call_of_kind};
ghost use Rattle.ada_image.specs.ImageOfCalls.{call_of_name, function_call};
ghost use Rattle.ada_image.specs.ImageOfCalls.{function_call_put, not_built};
ghost use Rattle.image_actuals.specs.Shown.{call_shown};

use crate::actuals::arguments_made;
use crate::callees::{callee_of, owner_of_entry};
use ada_image::{Lists, Within};
use ada_regions::{EntityKind, Formal};
use ada_tree::{Argument, AttributeDesignator, Expression, ExpressionForm, Name};
use ann_base::NoMemory;
use image_layout::action_put;
use image_names::kind_named;
use profile_image::{
    Destination, EntryNo, EntryUnit, ProtectedUnitNo, StatementForm, StatementNo, SubprogramNo,
};
use std::alloc::Global;

/// A call of a declared subprogram, with where its result goes.
#[tactic(auto, unfolding(ada_image::specs::ImageOfCalls::call_put))]
pub fn call_put(
    alloc: Global,
    lists: &mut Lists,
    within: &Within<'_, '_>,
    name: &Name,
    arguments: &[Argument<Expression>],
    number: SubprogramNo,
    unit: Option<ProtectedUnitNo>,
    formals: &[Formal],
    destination: Destination,
    signs: u32,
    next: Option<StatementNo>,
) -> Result<Option<StatementNo>, NoMemory>
    ensures { Made
        (call_put within.now name.now arguments.now number unit formals.now destination signs next)
        lists.old lists.new result }
{
    let actuals = arguments_made(alloc, lists, within, formals, arguments)?;
    let callee = callee_of(within, name, number, unit);
    action_put(
        lists,
        StatementForm::Call {
            callee,
            actuals,
            destination,
        },
        signs,
        next,
    )
}

/// A call of an entry.
#[tactic(auto, unfolding(ada_image::specs::ImageOfCalls::entry_call_put))]
pub fn entry_call_put(
    alloc: Global,
    lists: &mut Lists,
    within: &Within<'_, '_>,
    name: &Name,
    arguments: &[Argument<Expression>],
    number: EntryNo,
    unit: EntryUnit,
    formals: &[Formal],
    signs: u32,
    next: Option<StatementNo>,
) -> Result<Option<StatementNo>, NoMemory>
    ensures { Made
        (entry_call_put within.now name.now arguments.now number unit formals.now signs next)
        lists.old lists.new result }
{
    let actuals = arguments_made(alloc, lists, within, formals, arguments)?;
    let owner = owner_of_entry(within, name, unit);
    action_put(
        lists,
        StatementForm::EntryCall {
            entry: number,
            owner,
            actuals,
        },
        signs,
        next,
    )
}

/// The call of a declared function that stands alone as a value (this profile's rule).
#[derive(Drop)]
pub struct FunctionCall<'t> {
    /// The name that is called.
    pub name: &'t Name,
    /// Its arguments.
    pub arguments: &'t [Argument<Expression>],
    /// The function.
    pub number: SubprogramNo,
    /// The protected unit of which it is an operation.
    pub unit: Option<ProtectedUnitNo>,
    /// Its formal parameters.
    pub formals: &'t [Formal],
}

/// The call that a name with arguments is, given what its entity is.
#[tactic(auto, unfolding(ada_image::specs::ImageOfCalls::call_of_kind))]
fn call_of_kind<'t>(
    name: &'t Name,
    arguments: &'t [Argument<Expression>],
    kind: &'t EntityKind,
) -> Option<FunctionCall<'t>>
    ensures { option_map call_shown result ≡ call_of_kind name.now arguments.now kind.now }
{
    match kind {
        EntityKind::Subprogram {
            number,
            formals,
            unit,
            ..
        } => Some(FunctionCall {
            name,
            arguments,
            number: *number,
            unit: *unit,
            formals: formals.as_slice(),
        }),
        _ => None,
    }
}

/// The call that a name with arguments is, without an attribute.
#[tactic(auto, unfolding(ada_image::specs::ImageOfCalls::call_of_name))]
fn call_of_name<'t>(
    within: &Within<'t, '_>,
    name: &'t Name,
    attribute: &Option<AttributeDesignator>,
    arguments: &'t [Argument<Expression>],
) -> Option<FunctionCall<'t>>
    ensures { option_map call_shown result
        ≡ call_of_name within.now name.now attribute.now arguments.now }
{
    match attribute {
        None => call_of_kind(name, arguments, kind_named(within, name)?),
        Some(_) => None,
    }
}

/// The call of a declared function that an expression is, if it is one.
#[tactic(auto, unfolding(ada_image::specs::ImageOfCalls::function_call))]
pub fn function_call<'t>(
    within: &Within<'t, '_>,
    expression: &'t Expression,
) -> Option<FunctionCall<'t>>
    ensures { option_map call_shown result ≡ function_call within.now expression.now }
{
    match expression.form.get() {
        ExpressionForm::Named {
            name,
            attribute,
            arguments,
        } => call_of_name(within, name, attribute, arguments.as_slice()),
        _ => None,
    }
}

/// The call of a function, with where its result goes.
#[tactic(auto, unfolding(ada_image::specs::ImageOfCalls::function_call_put))]
pub fn function_call_put(
    alloc: Global,
    lists: &mut Lists,
    within: &Within<'_, '_>,
    call: &FunctionCall<'_>,
    destination: Destination,
    signs: u32,
    next: Option<StatementNo>,
) -> Result<Option<StatementNo>, NoMemory>
    ensures { Made (function_call_put within.now (call_shown call.now) destination signs next)
        lists.old lists.new result }
{
    call_put(
        alloc,
        lists,
        within,
        call.name,
        call.arguments,
        call.number,
        call.unit,
        call.formals,
        destination,
        signs,
        next,
    )
}

/// A form that no image has yet.
pub fn not_built(
    lists: &mut Lists,
    next: Option<StatementNo>,
) -> Result<Option<StatementNo>, NoMemory>
    ensures { Made (not_built next) lists.old lists.new result }
{
    action_put(lists, StatementForm::Null, 0, next)
}
