//! Variables, and entries of the unit around (ISO/IEC 8652:2012, 3.3, 9.4).
ghost use Rattle.std.specs.Prelude.{◌≡◌};
ghost use Rattle.ada_regions.specs.Words.{and_then};
ghost use Rattle.ada_legality.specs.Attributes.{prefix_is_variable, is_variable, is_own_entry};
ghost use Rattle.ada_legality.specs.Attributes.{kind_of_identifier, unit_type_of_entry};

use crate::prefixes::object_prefix;
use ada_entities::kind_at;
use ada_legality::Known;
use ada_regions::AdaType;
use ada_tree::{Identifier, Name};
use legality_entities::{
    innermost_unit, is_type_in, is_variable_kind, kind_of_identifier, kind_of_name,
    unit_type_of_entry,
};

/// A component is one of a variable too, where an object stands before it.
#[tactic(auto, unfolding(ada_legality::specs::Attributes::prefix_is_variable))]
fn prefix_is_variable(known: &Known<'_, '_>, name: &Name) -> bool
    ensures { result ≡ prefix_is_variable known.now name.now }
{
    match object_prefix(known, name) {
        None => true,
        Some(entity) => match kind_at(known.names.get(), entity) {
            None => false,
            Some(kind) => is_variable_kind(kind),
        },
    }
}

/// A name of a variable.
#[tactic(auto, unfolding(ada_legality::specs::Attributes::is_variable))]
pub fn is_variable(known: &Known<'_, '_>, name: &Name) -> bool
    ensures { result ≡ is_variable known.now name.now }
{
    match kind_of_name(known, name) {
        None => false,
        Some(kind) => is_variable_kind(kind) && prefix_is_variable(known, name),
    }
}

/// The type of the unit of an entry that an identifier denotes.
fn unit_type_of(known: &Known<'_, '_>, identifier: &Identifier) -> Option<AdaType>
    ensures { result ≡ and_then (kind_of_identifier known.now identifier.now) unit_type_of_entry }
{
    let kind = kind_of_identifier(known, identifier)?;
    unit_type_of_entry(kind)
}

/// An entry of the protected unit in whose body its name stands.
#[tactic(auto, unfolding(ada_legality::specs::Attributes::is_own_entry))]
pub fn is_own_entry(known: &Known<'_, '_>, identifier: &Identifier) -> bool
    ensures { result ≡ is_own_entry known.now identifier.now }
{
    is_type_in(unit_type_of(known, identifier), innermost_unit(known))
}
