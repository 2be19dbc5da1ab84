//! Objects (ISO/IEC 8652:2012, 3.3.1): a task is created, and a controlled object is initialized
//! behind its declaration.
ghost use Rattle.std.specs.Prelude.{◌≡◌, option_map, IfOk};
ghost use Rattle.ada_regions.specs.Words.{all_of};
ghost use Rattle.ada_image.specs.Made.{Made};
ghost use Rattle.ada_image.specs.ImageOfExpressions.{signs_if};
ghost use Rattle.ada_image.specs.ImageOfDeclarations.{signs_of_components, signs_of_type};
ghost use Rattle.ada_image.specs.ImageOfDeclarations.{signs_of_object, initialize_if};
ghost use Rattle.ada_image.specs.ImageOfDeclarations.{function_call_if, object_declaration_put};
ghost use Rattle.ada_image.specs.ImageOfDeclarations.{object_elaborated, object_put, objects_put};
ghost use Rattle.ada_image.specs.ImageOfDeclarations.{single_put, object_makes_task};
ghost use Rattle.image_actuals.specs.Shown.{call_shown};

use crate::declared::{has_controlled_type, has_task_type, number_declared, subtype_declared_as};
use ada_image::{Lists, Within};
use ada_regions::{AdaType, ComponentOwner, NumberedDeclaration, Subtype};
use ada_tree::{Expression, Identifier, ObjectDeclaration};
use ann_base::NoMemory;
use image_actuals::{FunctionCall, function_call, function_call_put};
use image_layout::{action_put, added, is_component_of};
use image_signs::{signs_if, signs_in};
use profile_image::{DeclNo, Destination, StatementForm, StatementNo};
use std::alloc::Global;

/// The signs in the initial value of a declaration.
#[tactic(auto, unfolding(ada_image::specs::ImageOfExpressions::signs_if))]
fn signs_of_declaration(
    within: &Within<'_, '_>,
    declaration: &NumberedDeclaration<'_>,
) -> Result<u32, NoMemory>
    ensures { IfOk result (λ signs. signs ≡ signs_if within.now declaration.now.initial) }
{
    match &declaration.initial {
        None => Ok(0),
        Some(initial) => signs_in(within, initial.get()),
    }
}

/// The signs in the initial values of the components of an object.
#[tactic(auto, unfolding(ada_image::specs::ImageOfDeclarations::signs_of_components, ada_image::specs::Layout::components_of_owner))]
fn signs_of_components(within: &Within<'_, '_>, owner: ComponentOwner) -> Result<u32, NoMemory>
    ensures { IfOk result (λ signs. signs ≡ signs_of_components within.now owner) }
{
    let mut signs = 0u32;
    for declaration in within.names.get().declarations.iter() {
        if is_component_of(owner, declaration.sort) {
            signs = added(signs, signs_of_declaration(within, declaration)?)?;
        }
    }
    Ok(signs)
}

#[tactic(auto, unfolding(ada_image::specs::ImageOfDeclarations::signs_of_type))]
fn signs_of_type(within: &Within<'_, '_>, signs: u32, of_type: AdaType) -> Result<u32, NoMemory>
    ensures { IfOk result (λ total. total ≡ signs_of_type within.now signs of_type) }
{
    match of_type {
        AdaType::Derived(controlled) => {
            signs_of_components(within, ComponentOwner::Controlled(controlled))
        }
        AdaType::Protected(unit) => signs_of_components(within, ComponentOwner::Protected(unit)),
        _ => Ok(signs),
    }
}

/// The signs in what an object holds at first.
#[tactic(auto, unfolding(ada_image::specs::ImageOfDeclarations::signs_of_object))]
fn signs_of_object(
    within: &Within<'_, '_>,
    signs: u32,
    subtype: Option<Subtype>,
) -> Result<u32, NoMemory>
    ensures { IfOk result (λ total. total ≡ signs_of_object within.now signs subtype) }
{
    match subtype {
        None => Ok(signs),
        Some(subtype) => signs_of_type(within, signs, subtype.of_type),
    }
}

#[tactic(auto, unfolding(ada_image::specs::ImageOfDeclarations::initialize_if))]
fn initialize_if(
    lists: &mut Lists,
    is_controlled: bool,
    object: DeclNo,
    next: Option<StatementNo>,
) -> Result<Option<StatementNo>, NoMemory>
    ensures { Made (initialize_if is_controlled object next) lists.old lists.new result }
{
    if is_controlled {
        action_put(lists, StatementForm::Initialize(object), 0, next)
    } else {
        Ok(next)
    }
}

/// The call of a function that an initial value is, if it is one.
#[tactic(auto, unfolding(ada_image::specs::ImageOfDeclarations::function_call_if))]
fn function_call_if<'t>(
    within: &Within<'t, '_>,
    initial: &'t Option<Expression>,
) -> Option<FunctionCall<'t>>
    ensures { option_map call_shown result ≡ function_call_if within.now initial.now }
{
    let initial = initial.as_ref()?;
    function_call(within, initial)
}

#[tactic(auto, unfolding(ada_image::specs::ImageOfDeclarations::object_declaration_put))]
fn object_declaration_put(
    alloc: Global,
    lists: &mut Lists,
    within: &Within<'_, '_>,
    object: DeclNo,
    subtype: Option<Subtype>,
    call: &Option<FunctionCall<'_>>,
    signs: u32,
    next: Option<StatementNo>,
) -> Result<Option<StatementNo>, NoMemory>
    ensures { Made
        (object_declaration_put within.now object subtype (option_map call_shown call.now) signs
        next) lists.old lists.new result }
{
    match call {
        Some(call) => {
            let destination = Destination::Declaration(object);
            function_call_put(alloc, lists, within, call, destination, signs, next)
        }
        None => {
            let signs = signs_of_object(within, signs, subtype)?;
            action_put(lists, StatementForm::Declare(object), signs, next)
        }
    }
}

/// The declaration of an object that is no task.
#[tactic(auto, unfolding(ada_image::specs::ImageOfDeclarations::object_elaborated))]
fn object_elaborated(
    alloc: Global,
    lists: &mut Lists,
    within: &Within<'_, '_>,
    object: DeclNo,
    subtype: Option<Subtype>,
    initial: &Option<Expression>,
    next: Option<StatementNo>,
) -> Result<Option<StatementNo>, NoMemory>
    ensures { Made (object_elaborated within.now object subtype initial.now next) lists.old
        lists.new result }
{
    let signs = signs_if(within, initial)?;
    let call = function_call_if(within, initial);
    let behind = initialize_if(lists, has_controlled_type(subtype), object, next)?;
    object_declaration_put(alloc, lists, within, object, subtype, &call, signs, behind)
}

/// The declaration of an object (3.3.1).
#[tactic(auto, unfolding(ada_image::specs::ImageOfDeclarations::object_put))]
fn object_put(
    alloc: Global,
    lists: &mut Lists,
    within: &Within<'_, '_>,
    part: u32,
    initial: &Option<Expression>,
    identifier: &Identifier,
    next: Option<StatementNo>,
) -> Result<Option<StatementNo>, NoMemory>
    ensures { Made (object_put within.now part initial.now identifier.now next) lists.old lists.new
        result }
{
    let object = number_declared(within, identifier);
    let subtype = subtype_declared_as(within, identifier);
    if has_task_type(subtype) {
        action_put(lists, StatementForm::CreateTask { object, part }, 0, next)
    } else {
        object_elaborated(alloc, lists, within, object, subtype, initial, next)
    }
}

/// The objects behind the first of a declaration, from the last to the first.
#[tactic(auto, using(std::proofs::lemmas::List::drop_all, image_layout::proofs::Drops::one_before), unfolding(ada_image::specs::ImageOfDeclarations::objects_put))]
fn objects_behind(
    alloc: Global,
    lists: &mut Lists,
    within: &Within<'_, '_>,
    part: u32,
    value: &Option<Expression>,
    identifiers: &[Identifier],
    next: Option<StatementNo>,
) -> Result<Option<StatementNo>, NoMemory>
    ensures { Made (objects_put within.now part value.now identifiers.now next) lists.old lists.new
        result }
{
    let mut later = next;
    let mut place = identifiers.len();
    while place > 0 {
        place -= 1;
        later = object_put(
            alloc,
            lists,
            within,
            part,
            value,
            &identifiers[place],
            later,
        )?;
    }
    Ok(later)
}

/// The objects of a declaration, in the order of the text.
#[tactic(auto, unfolding(ada_image::specs::ImageOfDeclarations::objects_put))]
pub(crate) fn objects_put(
    alloc: Global,
    lists: &mut Lists,
    within: &Within<'_, '_>,
    part: u32,
    object: &ObjectDeclaration,
    next: Option<StatementNo>,
) -> Result<Option<StatementNo>, NoMemory>
    ensures { Made (objects_put within.now part object.now.initial (all_of object.now.names) next)
        lists.old lists.new result }
{
    let initial = &object.initial;
    let others = object.names.others.as_slice();
    let later = objects_behind(alloc, lists, within, part, initial, others, next)?;
    object_put(
        alloc,
        lists,
        within,
        part,
        initial,
        &object.names.first,
        later,
    )
}

/// A single task or protected object; a type has no action (9.1, 9.4).
#[tactic(auto, unfolding(ada_image::specs::ImageOfDeclarations::single_put))]
pub(crate) fn single_put(
    alloc: Global,
    lists: &mut Lists,
    within: &Within<'_, '_>,
    part: u32,
    is_type: bool,
    identifier: &Identifier,
    next: Option<StatementNo>,
) -> Result<Option<StatementNo>, NoMemory>
    ensures { Made (single_put within.now part is_type identifier.now next) lists.old lists.new
        result }
{
    if is_type {
        Ok(next)
    } else {
        object_put(alloc, lists, within, part, &None, identifier, next)
    }
}

/// Whether objects of a declaration are tasks.
#[tactic(auto, unfolding(ada_image::specs::ImageOfDeclarations::object_makes_task))]
pub(crate) fn object_makes_task(within: &Within<'_, '_>, object: &ObjectDeclaration) -> bool
    ensures { result ≡ object_makes_task within.now object.now }
{
    has_task_type(subtype_declared_as(within, &object.names.first))
}
