//! Raise statements, and the exceptions that names denote (ISO/IEC 8652:2012, 11.1 to 11.3).
ghost use Rattle.std.specs.Prelude.{◌≡◌, ◌∷◌, map, IfOk};
ghost use Rattle.ada_image.specs.Made.{Made};
ghost use Rattle.ada_image.specs.ImageOfStatements.{raised_kind, raised_item, exception_denoted};
ghost use Rattle.ada_image.specs.ImageOfStatements.{exception_named, raise_put, handled_made};
ghost use Rattle.profile_image.specs.declared.declarations.ExceptionChoice.TheVariants as exception_choice;

use ada_entities::{denoted_by, kind_at};
use ada_image::{Lists, Within};
use ada_regions::{Denoted, EntityKind, Names, Predefined};
use ada_tree::{HandledExceptions, Name, OneOrMore};
use ann_base::{NoMemory, Raised};
use image_layout::action_put;
use profile_image::{ExceptionChoice, ImageList, ScopeNo, StatementForm, StatementNo};
use std::alloc::Global;

fn raised_kind(kind: &EntityKind) -> Raised
    ensures { result ≡ raised_kind kind.now }
{
    match kind {
        EntityKind::Exception(declaration) => Raised::User(declaration.0),
        _ => Raised::Program,
    }
}

#[tactic(auto, unfolding(ada_image::specs::ImageOfStatements::raised_item))]
fn raised_item(item: Predefined) -> Raised
    ensures { result ≡ raised_item item }
{
    match item {
        Predefined::Exception(raised) => raised,
        _ => Raised::Program,
    }
}

#[tactic(auto, unfolding(ada_image::specs::ImageOfStatements::exception_denoted))]
fn exception_denoted(names: &Names<'_>, denoted: Denoted) -> Raised
    ensures { result ≡ exception_denoted names.now denoted }
{
    match denoted {
        Denoted::Entity(entity) => match kind_at(names, entity) {
            None => Raised::Program,
            Some(kind) => raised_kind(kind),
        },
        Denoted::Unit(_) => Raised::Program,
        Denoted::Item { item, .. } => raised_item(item),
    }
}

/// The exception that a name denotes (11.1).
#[tactic(auto, unfolding(ada_image::specs::ImageOfStatements::exception_named))]
fn exception_named(within: &Within<'_, '_>, name: &Name) -> Raised
    ensures { result ≡ exception_named within.now name.now }
{
    match denoted_by(within.names.get(), name) {
        None => Raised::Program,
        Some(denoted) => exception_denoted(within.names.get(), denoted),
    }
}

/// A raise statement (11.3).
#[tactic(auto, unfolding(ada_image::specs::ImageOfStatements::raise_put))]
pub fn raise_put(
    lists: &mut Lists,
    within: &Within<'_, '_>,
    exception: &Option<Name>,
    next: Option<StatementNo>,
) -> Result<Option<StatementNo>, NoMemory>
    ensures { Made (raise_put within.now exception.now next) lists.old lists.new result }
{
    match exception {
        None => {
            let scope = ScopeNo(within.handling.unwrap_or(0));
            action_put(lists, StatementForm::RaiseAgain(scope), 0, next)
        }
        Some(name) => {
            let raised = exception_named(within, name);
            action_put(lists, StatementForm::Raise(raised), 0, next)
        }
    }
}

/// The exceptions that a handler names.
fn exceptions_named(
    alloc: Global,
    within: &Within<'_, '_>,
    names: &OneOrMore<Name>,
) -> Result<ImageList<ExceptionChoice>, NoMemory>
    ensures { IfOk result
        (λ choices.
        choices
        ≡ exception_choice.Named (exception_named within.now names.now.first)
        ∷ map (λ name. exception_choice.Named (exception_named within.now name)) names.now.others) }
{
    let mut choices = ImageList::new(alloc);
    choices.push(ExceptionChoice::Named(exception_named(within, &names.first)))?;
    for name in names.others.as_slice() {
        choices.push(ExceptionChoice::Named(exception_named(within, name)))?;
    }
    Ok(choices)
}

/// What a handler handles (11.2).
#[tactic(auto, unfolding(ada_image::specs::ImageOfStatements::handled_made))]
pub fn handled_made(
    alloc: Global,
    within: &Within<'_, '_>,
    exceptions: &HandledExceptions,
) -> Result<ImageList<ExceptionChoice>, NoMemory>
    ensures { IfOk result (λ choices. choices ≡ handled_made within.now exceptions.now) }
{
    match exceptions {
        HandledExceptions::Named(names) => exceptions_named(alloc, within, names),
        HandledExceptions::Others { .. } => {
            let mut choices = ImageList::new(alloc);
            choices.push(ExceptionChoice::Others)?;
            Ok(choices)
        }
    }
}
