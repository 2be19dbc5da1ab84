//! Statements with scopes: blocks and accept statements (ISO/IEC 8652:2012, 5.6, 9.5.2).
ghost use Rattle.std.specs.Prelude.{◌≡◌};
ghost use Rattle.ada_image.specs.Made.{Made};
ghost use Rattle.ada_image.specs.Making.{in_construct, in_scope};
ghost use Rattle.image_parts.specs.Parts.{scope_action};

use ada_image::{Lists, Within};
use ann_base::NoMemory;
use image_layout::{first_put, in_construct, in_scope, put_at};
use profile_image::{StatementForm, StatementNo};

/// In the scope of a statement, which is open there.
pub fn in_statement_scope<'n, 't>(
    within: &Within<'n, 't>,
    scope: u32,
    s: StatementNo,
) -> Within<'n, 't>
    ensures { result ≡ in_construct s (in_scope scope within.now) }
{
    in_construct(&in_scope(within, scope), s)
}

/// A statement with a scope, which has its first action.
pub fn scope_action(
    lists: &mut Lists,
    scope: u32,
    first: Option<StatementNo>,
    s: StatementNo,
    form: StatementForm,
    next: Option<StatementNo>,
) -> Result<Option<StatementNo>, NoMemory>
    ensures { Made (scope_action scope first s form next) lists.old lists.new result }
{
    first_put(lists, scope, first)?;
    put_at(lists, s, form, 0, next)
}
