//! Where a statement stands.
ghost use Rattle.std.specs.Prelude.{◌≡◌, ◌∷◌, IfOk};
ghost use Rattle.std.specs.List.{cons_option};
ghost use Rattle.ada_image.specs.Making.{nothing_made, in_body_of};
ghost use Rattle.ada_image.specs.Making.{in_construct, in_scope, in_handler};
ghost use Rattle.ada_image.specs.ImageOfUnits.{outermost};

use ada_image::{ListOf, Lists, NamesOf, OpenLoop, Within};
use ada_regions::Names;
use ann_base::NoMemory;
use profile_image::{ImageList, StatementNo, SubprogramNo};
use std::alloc::Global;
use world_tables::List;

/// The lists before anything is made.
pub fn nothing_made(alloc: Global) -> Lists
    ensures { result ≡ nothing_made }
{
    Lists {
        expressions: ImageList::new(alloc),
        statements: List::new(alloc),
        firsts: List::new(alloc),
    }
}

/// Outside all bodies, but for these loops and units.
pub fn outermost<'n, 't>(
    names: &'n Names<'t>,
    loops: &'n List<OpenLoop>,
    units: &'n List<u32>,
) -> Within<'n, 't>
    ensures { result ≡ record (outermost names.now) { loops = loops.now; units = units.now } }
{
    Within {
        names: NamesOf::new(names),
        scope: 0,
        loops: ListOf::new(loops),
        construct: None,
        handling: None,
        function: None,
        units: ListOf::new(units),
    }
}

/// The same place again.
fn copy_of<'n, 't>(within: &Within<'n, 't>) -> Within<'n, 't>
    ensures { result ≡ within.now }
{
    Within {
        names: NamesOf::new(within.names.get()),
        scope: within.scope,
        loops: ListOf::new(within.loops.get()),
        construct: within.construct,
        handling: within.handling,
        function: within.function,
        units: ListOf::new(within.units.get()),
    }
}

/// In the body of a subprogram, a task or an entry (6.3, 9.1, 9.5.2), but for these loops.
pub fn in_body_of<'n, 't>(
    within: &Within<'n, 't>,
    loops: &'n List<OpenLoop>,
    scope: u32,
    function: Option<SubprogramNo>,
) -> Within<'n, 't>
    ensures { result ≡ record (in_body_of scope function within.now) { loops = loops.now } }
{
    Within {
        names: NamesOf::new(within.names.get()),
        scope,
        loops: ListOf::new(loops),
        construct: None,
        handling: None,
        function,
        units: ListOf::new(within.units.get()),
    }
}

/// The units around, and this one where its entity is told (9.1, 9.4).
pub fn units_inside(within: &Within<'_, '_>, unit: Option<u32>) -> Result<List<u32>, NoMemory>
    ensures { IfOk result (λ units. units ≡ cons_option unit within.now.units) }
{
    let mut units = within.units.get().clone()?;
    match unit {
        None => Ok(units),
        Some(unit) => {
            units.push_front(unit)?;
            Ok(units)
        }
    }
}

/// In these units.
pub fn in_units<'n, 't>(within: &Within<'n, 't>, units: &'n List<u32>) -> Within<'n, 't>
    ensures { result ≡ record within.now { units = units.now } }
{
    let mut inside = copy_of(within);
    inside.units = ListOf::new(units);
    inside
}

/// In the construct of a statement (5.6, 9.5.2, 9.7.4, 11.2).
pub fn in_construct<'n, 't>(within: &Within<'n, 't>, s: StatementNo) -> Within<'n, 't>
    ensures { result ≡ in_construct s within.now }
{
    let mut inside = copy_of(within);
    inside.construct = Some(s);
    inside
}

/// The loops that are open, and this one (5.5).
pub fn loops_inside(
    within: &Within<'_, '_>,
    label: Option<u32>,
    s: StatementNo,
) -> Result<List<OpenLoop>, NoMemory>
    ensures { IfOk result
        (λ loops. loops ≡ record { label = label; statement = s } ∷ within.now.loops) }
{
    let mut loops = within.loops.get().clone()?;
    loops.push_front(OpenLoop {
        label,
        statement: s,
    })?;
    Ok(loops)
}

/// In these loops.
pub fn in_loops<'n, 't>(within: &Within<'n, 't>, loops: &'n List<OpenLoop>) -> Within<'n, 't>
    ensures { result ≡ record within.now { loops = loops.now } }
{
    let mut inside = copy_of(within);
    inside.loops = ListOf::new(loops);
    inside
}

/// In a scope (5.6, 9.5.2).
pub fn in_scope<'n, 't>(within: &Within<'n, 't>, scope: u32) -> Within<'n, 't>
    ensures { result ≡ in_scope scope within.now }
{
    let mut inside = copy_of(within);
    inside.scope = scope;
    inside
}

/// In a handler of the innermost scope (11.2).
pub fn in_handler<'n, 't>(within: &Within<'n, 't>) -> Within<'n, 't>
    ensures { result ≡ in_handler within.now }
{
    let mut inside = copy_of(within);
    inside.handling = Some(inside.scope);
    inside
}
