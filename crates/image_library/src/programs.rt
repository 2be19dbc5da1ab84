//! The main procedure, and the program that the machine runs, where what is made is given (ISO/IEC
//! 8652:2012, 10.2).
ghost use Rattle.std.specs.Prelude.{◌≡◌, IfOk};
ghost use Rattle.ada_image.specs.ImageOfUnits.{main_of, program_with};

use ada_entities::copy;
use ada_image::{Lists, MadeLists};
use ada_predefined::default_priority;
use ada_regions::Names;
use ada_tree::Unit;
use ann_base::NoMemory;
use image_layout::enumerations_made;
use image_policies::policies_of;
use image_scopes::{scope_no, scopes_made, subprograms_made};
use image_statements::scope_at;
use image_units::{controlled_types_made, priority_or, protected_units_made};
use profile_image::{Image, ImageList, MainProcedure, Statement};
use std::alloc::Global;
use std::mem::replace;
use world_tables::List;

/// The main procedure, which the environment task calls (10.2).
#[tactic(auto, unfolding(ada_image::specs::ImageOfUnits::main_of))]
fn main_of(alloc: Global, names: &Names<'_>, unit: &Unit) -> Result<MainProcedure, NoMemory>
    ensures { IfOk result (λ main. main ≡ main_of names.now unit.now) }
{
    let main = &unit.main;
    let default = default_priority(names.last_priority);
    Ok(MainProcedure {
        name: copy(alloc, main.name.text.as_slice())?,
        priority: priority_or(names, main.aspects.as_slice(), default)?,
        scope: scope_no(scope_at(names, main.place)?),
    })
}

/// The statements of a list as those of an image.
fn sequence_of(
    alloc: Global,
    mut statements: List<Statement>,
) -> Result<ImageList<Statement>, NoMemory>
    ensures { IfOk result (λ sequence. sequence ≡ statements) }
{
    let mut sequence = ImageList::new(alloc);
    while let Some(statement) = statements.pop_front() {
        sequence.push(statement)?;
    }
    Ok(sequence)
}

/// The program, where what is made is given.
#[tactic(auto, unfolding(ada_image::specs::ImageOfUnits::program_with))]
pub fn program_with(
    alloc: Global,
    names: &Names<'_>,
    unit: &Unit,
    mut lists: Lists,
    made: MadeLists,
) -> Result<Image, NoMemory>
    ensures { IfOk result (λ program. program ≡ program_with names.now unit.now lists made) }
{
    let expressions = replace(&mut lists.expressions, ImageList::new(alloc));
    let statements = replace(&mut lists.statements, List::new(alloc));
    let MadeLists {
        task_units,
        entries,
        declarations,
    } = made;
    let statements = sequence_of(alloc, statements)?;
    let scopes = scopes_made(alloc, names, &lists.firsts)?;
    let subprograms = subprograms_made(alloc, names)?;
    let protected_units = protected_units_made(alloc, names)?;
    let controlled_types = controlled_types_made(alloc, names)?;
    let enumerations = enumerations_made(alloc, names)?;
    let policies = policies_of(alloc, names.last_priority, unit.pragmas.as_slice())?;
    let main = main_of(alloc, names, unit)?;
    Ok(Image {
        declarations,
        expressions,
        statements,
        scopes,
        subprograms,
        task_units,
        protected_units,
        entries,
        controlled_types,
        enumerations,
        policies,
        environment: scope_no(0),
        main,
    })
}
