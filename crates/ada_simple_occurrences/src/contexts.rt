//! The names in context clauses (ISO/IEC 8652:2012, 8.4, 10.1.2).
ghost use Rattle.std.specs.Prelude.{◌≡◌, ◌++◌, ◌∷◌, [], OnOk};
ghost use Rattle.ada_regions.specs.NamesInUnits.{clause_with};

use crate::telling::Tell;
use ada_regions::{Occurrence, Occurrences};
use ada_tree::{ContextClause, Name};
use ann_base::NoMemory;

/// A name of a context clause (10.1.2, 8.4).
fn tell_clause_name<'t>(
    occurrences: &mut Occurrences<'t>,
    is_use: bool,
    name: &'t Name,
) -> Result<(), NoMemory>
    ensures { OnOk result (occurrences.new ≡ occurrences.old ++ clause_with is_use name.now ∷ []) }
{
    if is_use {
        occurrences.push(Occurrence::UsePackage { name })
    } else {
        occurrences.push(Occurrence::WithUnit { name })
    }
}

/// The names of a context clause.
impl Tell for ContextClause {
    ghost use Rattle.ada_regions.specs.NamesInUnits.{names_in_clause};

    ghost names = { names_in_clause };

    fn tell<'t>(&'t self, occurrences: &mut Occurrences<'t>) -> Result<(), NoMemory> {
        tell_clause_name(occurrences, self.is_use, &self.names.first)?;
        for name in self.names.others.as_slice() {
            tell_clause_name(occurrences, self.is_use, name)?;
        }
        Ok(())
    }
}
