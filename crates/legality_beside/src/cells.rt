//! The cells of library packages: the declaration that passes 32,768 (this profile's own).
ghost use Rattle.std.specs.Prelude.{◌≡◌, ◌++◌, ◌+◌, [], cond, IfOk, OnOk};
ghost use Rattle.std.specs.List.{flat_map};
ghost use Rattle.ada_image.specs.Layout.{cells_of_declaration, is_in_scope};
ghost use Rattle.ada_legality.specs.WholeSource.{passes_cells, cells_of, passing_cells};
ghost use Rattle.legality_beside.specs.Passing.{told_of, cells_with, passing_from};

use ada_legality::{Finding, MOST_PACKAGE_CELLS, Rule};
use ada_regions::{Names, NumberedDeclaration};
use ann_base::{NoMemory, next_number};
use image_layout::{cells_of_declaration, is_in_scope};
use legality_types::broken_if;
use world_tables::List;

fn passes_cells(before: u64, cells: u32) -> bool
    ensures { result ≡ passes_cells before cells }
{
    before <= MOST_PACKAGE_CELLS && MOST_PACKAGE_CELLS < before + cells as u64
}

fn cells_of(judged: &mut List<Finding>, number: u32, finding: &Finding) -> Result<(), NoMemory>
    ensures { OnOk result (judged.new ≡ judged.old ++ cells_of number finding.now) }
{
    match finding {
        Finding::Cells {
            number: other,
            place,
        } => broken_if(judged, Rule::Limit, *other == number, *place),
        _ => Ok(()),
    }
}

fn all_cells_of(judged: &mut List<Finding>, found: &[Finding], number: u32) -> Result<(), NoMemory>
    ensures { OnOk result (judged.new ≡ judged.old ++ flat_map (cells_of number) found.now) }
{
    for finding in found {
        cells_of(judged, number, finding)?;
    }
    Ok(())
}

/// The cells behind those before, which are counted.
fn counted(before: u64, cells: u32) -> Result<u64, NoMemory>
    ensures { IfOk result (λ behind. behind ≡ before + cells) }
{
    before.checked_add(cells as u64).ok_or(NoMemory)
}

fn told_if(
    judged: &mut List<Finding>,
    found: &[Finding],
    passes: bool,
    number: u32,
) -> Result<(), NoMemory>
    ensures { OnOk result
        (judged.new ≡ judged.old ++ cond passes (flat_map (cells_of number) found.now) []) }
{
    if passes {
        all_cells_of(judged, found, number)
    } else {
        Ok(())
    }
}

/// The cells behind a declaration, which is told where they pass the limit with it.
fn cells_behind(
    judged: &mut List<Finding>,
    names: &Names<'_>,
    found: &[Finding],
    number: u32,
    before: u64,
    declaration: &NumberedDeclaration<'_>,
) -> Result<u64, NoMemory>
    ensures told { OnOk result
        (judged.new ≡ judged.old ++ told_of names.now found.now number before declaration.now) }
    ensures behind { IfOk result (λ behind. behind ≡ cells_with names.now before declaration.now) }
{
    if is_in_scope(0, declaration) {
        let cells = cells_of_declaration(names, declaration)?;
        told_if(judged, found, passes_cells(before, cells), number)?;
        counted(before, cells)
    } else {
        Ok(before)
    }
}

/// What is told of all declarations.
fn passing_from(
    judged: &mut List<Finding>,
    names: &Names<'_>,
    found: &[Finding],
) -> Result<(), NoMemory>
    ensures { OnOk result
        (judged.new ≡ judged.old ++ passing_from names.now found.now 0 0 names.now.declarations) }
{
    let mut number = 0;
    let mut before = 0;
    for declaration in names.declarations.iter() {
        before = cells_behind(judged, names, found, number, before, declaration)?;
        number = next_number(number)?;
    }
    Ok(())
}

/// The declaration with which the cells pass the limit.
#[tactic(auto, using(crate::proofs::PassingCells::passing_is))]
pub(crate) fn passing_cells(
    judged: &mut List<Finding>,
    names: &Names<'_>,
    found: &[Finding],
) -> Result<(), NoMemory>
    ensures { OnOk result
        (judged.new ≡ judged.old ++ passing_cells names.now found.now 0 0 names.now.declarations) }
{
    passing_from(judged, names, found)
}
