//! Kinds of types, and the ranges of cells (ISO/IEC 8652:2012, 3.5, 3.6).
ghost use Rattle.std.specs.Prelude.{◌≡◌, slice_get};
ghost use Rattle.ada_regions.specs.TypeKinds.{is_array_type};
ghost use Rattle.ada_image.specs.Layout.{is_thing, is_kept, subtype_is, array_of};
ghost use Rattle.ada_image.specs.Layout.{cell_subtype, range_of_cells, index_range};

use ada_regions::{AdaType, ArrayType, Names, Subtype, is_array_type};
use profile_image::Constraint;

/// Whether objects of this type stand for themselves, and are named rather than copied.
pub fn is_thing(of_type: AdaType) -> bool
    ensures { result ≡ is_thing of_type }
{
    match of_type {
        AdaType::TimingEvent => true,
        AdaType::Timer => true,
        AdaType::GroupBudget => true,
        AdaType::LimitedControlled => true,
        AdaType::Controlled => true,
        AdaType::Derived(_) => true,
        AdaType::Task(_) => true,
        AdaType::Protected(_) => true,
        _ => false,
    }
}

/// Whether the scope of an object of this type waits for it or finalizes it (7.6.1, 9.3).
pub fn is_kept(of_type: AdaType) -> bool
    ensures { result ≡ is_kept of_type }
{
    match of_type {
        AdaType::Derived(_) => true,
        AdaType::Task(_) => true,
        _ => false,
    }
}

/// Whether objects of this subtype stand for themselves.
pub fn subtype_is_thing(subtype: Option<Subtype>) -> bool
    ensures { result ≡ subtype_is is_thing subtype }
{
    match subtype {
        None => false,
        Some(subtype) => is_thing(subtype.of_type),
    }
}

/// Whether it is a subtype of an array type.
pub fn subtype_is_array(subtype: Option<Subtype>) -> bool
    ensures { result ≡ subtype_is is_array_type subtype }
{
    match subtype {
        None => false,
        Some(subtype) => is_array_type(subtype.of_type),
    }
}

/// Whether the scope of an object of this subtype waits for it or finalizes it.
pub fn subtype_is_kept(subtype: Option<Subtype>) -> bool
    ensures { result ≡ subtype_is is_kept subtype }
{
    match subtype {
        None => false,
        Some(subtype) => is_kept(subtype.of_type),
    }
}

/// The array type with this number.
pub(crate) fn array_at(names: &Names<'_>, array: u32) -> Option<ArrayType>
    ensures { result ≡ slice_get names.now.arrays array }
{
    let array = names.arrays.get(array as usize)?;
    Some(*array)
}

/// The array type that a type is, if it is one.
#[tactic(auto, unfolding(ada_image::specs::Layout::array_of))]
pub fn array_of(names: &Names<'_>, of_type: AdaType) -> Option<ArrayType>
    ensures { result ≡ array_of names.now of_type }
{
    match of_type {
        AdaType::Array(array) => array_at(names, array),
        _ => None,
    }
}

/// The subtype itself, or that of an array's components.
#[tactic(auto, unfolding(ada_image::specs::Layout::cell_subtype))]
pub(crate) fn cell_subtype(names: &Names<'_>, subtype: Subtype) -> Option<Subtype>
    ensures { result ≡ cell_subtype names.now subtype }
{
    match array_of(names, subtype.of_type) {
        None => Some(subtype),
        Some(array) => array.component,
    }
}

/// The range of the values of an object's cells.
#[tactic(auto, unfolding(ada_image::specs::Layout::range_of_cells))]
pub fn range_of_cells(names: &Names<'_>, subtype: Option<Subtype>) -> Constraint
    ensures { result ≡ range_of_cells names.now subtype }
{
    match subtype {
        None => Constraint::Free,
        Some(subtype) => match cell_subtype(names, subtype) {
            None => Constraint::Free,
            Some(cell) => cell.range,
        },
    }
}

/// The range of an array's index.
#[tactic(auto, unfolding(ada_image::specs::Layout::index_range))]
pub fn index_range(names: &Names<'_>, subtype: Option<Subtype>) -> Option<Constraint>
    ensures { result ≡ index_range names.now subtype }
{
    let subtype = subtype?;
    let array = array_of(names, subtype.of_type)?;
    Some(array.index)
}
