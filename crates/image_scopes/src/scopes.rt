//! Scopes of the image (ISO/IEC 8652:2012, 3.1, 5.6, 6.3, 9.1, 9.5.2).
ghost use Rattle.std.specs.Prelude.{◌≡◌, IfOk, map, option_copied, option_map};
ghost use Rattle.std.specs.List.{list_any};
ghost use Rattle.ada_regions.specs.Words.{and_then};
ghost use Rattle.ada_image.specs.Layout.{cells_of_declaration, declarations_in_scope};
ghost use Rattle.ada_image.specs.Layout.{extra_cell, first_action, keeps, runs_from};
ghost use Rattle.ada_image.specs.Layout.{scope_made, scope_no, scopes_made, total};

use crate::runs::runs_from;
use ada_image::FirstAction;
use ada_regions::{Names, NumberedScope, Sort, Subtype};
use ann_base::NoMemory;
use image_layout::{added, cells_of_declaration, is_in_scope, subtype_is_kept};
use profile_image::{CellRun, ImageList, Scope, ScopeNo, StatementNo};
use std::alloc::Global;
use world_tables::List;

/// The scope with this number.
pub fn scope_no(scope: u32) -> ScopeNo
    ensures { result ≡ scope_no scope }
{
    ScopeNo(scope)
}

/// The cell of a function's result.
fn extra_cell(is_function: bool) -> u32
    ensures { result ≡ extra_cell is_function }
{
    if is_function { 1 } else { 0 }
}

/// Whether its scope waits for what is declared or finalizes it (7.6.1, 9.3).
#[tactic(auto, unfolding(ada_image::specs::Layout::keeps))]
fn keeps(sort: Sort, subtype: Option<Subtype>) -> bool
    ensures { result ≡ keeps sort subtype }
{
    match sort {
        Sort::Object => subtype_is_kept(subtype),
        _ => false,
    }
}

/// How many cells the declarations of a scope take.
#[tactic(auto, unfolding(ada_image::specs::Layout::declarations_in_scope))]
fn cells_of_scope(names: &Names<'_>, scope: u32) -> Result<u32, NoMemory>
    ensures { IfOk result
        (λ count.
        count
        ≡ total (map (cells_of_declaration names.now) (declarations_in_scope names.now scope))) }
{
    let mut count = 0;
    for declaration in names.declarations.iter() {
        if is_in_scope(scope, declaration) {
            count = added(count, cells_of_declaration(names, declaration)?)?;
        }
    }
    Ok(count)
}

/// Whether a scope waits for a task or finalizes an object.
#[tactic(auto, unfolding(ada_image::specs::Layout::declarations_in_scope))]
fn keeps_any(names: &Names<'_>, scope: u32) -> bool
    ensures { result
        ≡ list_any (λ d. keeps d.sort d.subtype) (declarations_in_scope names.now scope) }
{
    for declaration in names.declarations.iter() {
        if is_in_scope(scope, declaration) {
            if keeps(declaration.sort, declaration.subtype) {
                return true;
            }
        }
    }
    false
}

/// What is known of the first action of a scope.
#[tactic(auto, unfolding(ada_image::specs::Layout::first_action))]
fn first_action(firsts: &List<FirstAction>, scope: u32) -> Option<&FirstAction>
    ensures { option_copied result ≡ first_action firsts.now scope }
{
    firsts.iter().find(|first| first.scope == scope)
}

fn outer_of(scope: &NumberedScope) -> Option<ScopeNo>
    ensures { result ≡ option_map scope_no scope.now.outer }
{
    Some(ScopeNo(scope.outer?))
}

fn first_of(firsts: &List<FirstAction>, scope: u32) -> Option<StatementNo>
    ensures { result ≡ and_then (first_action firsts.now scope) (λ f. f.action) }
{
    let first = first_action(firsts, scope)?;
    first.action
}

fn runs_of_scope(
    alloc: Global,
    names: &Names<'_>,
    scope: u32,
) -> Result<ImageList<CellRun>, NoMemory>
    ensures { IfOk result
        (λ runs. runs ≡ runs_from names.now 0 (declarations_in_scope names.now scope)) }
{
    let mut runs = ImageList::new(alloc);
    runs_from(names, &mut runs, scope)?;
    Ok(runs)
}

/// The scope with this number.
#[tactic(auto, unfolding(ada_image::specs::Layout::scope_made))]
fn scope_made(
    alloc: Global,
    names: &Names<'_>,
    firsts: &List<FirstAction>,
    number: u32,
    scope: &NumberedScope,
) -> Result<Scope, NoMemory>
    ensures { IfOk result (λ made. made ≡ scope_made names.now firsts.now number scope.now) }
{
    let size = added(
        cells_of_scope(names, number)?,
        extra_cell(scope.is_function),
    )?;
    let cells = runs_of_scope(alloc, names, number)?;
    Ok(Scope {
        outer: outer_of(scope),
        size,
        cells,
        kept: keeps_any(names, number),
        first: first_of(firsts, number),
    })
}

/// All scopes, with their first actions.
#[tactic(auto, unfolding(ada_image::specs::Layout::scopes_made))]
pub fn scopes_made(
    alloc: Global,
    names: &Names<'_>,
    firsts: &List<FirstAction>,
) -> Result<ImageList<Scope>, NoMemory>
    ensures { IfOk result (λ made. made ≡ scopes_made names.now firsts.now 0 names.now.scopes) }
{
    let mut made = ImageList::new(alloc);
    let mut number = 0;
    for scope in names.scopes.iter() {
        made.push(scope_made(alloc, names, firsts, number, scope)?)?;
        number = added(number, 1)?;
    }
    Ok(made)
}
