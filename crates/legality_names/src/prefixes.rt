//! What stands before the last part of a name, and handlers (ISO/IEC 8652:2012, 4.1.3, 3.10.2,
//! C.3.1).
ghost use Rattle.std.specs.Prelude.{◌≡◌, cond, None, Some};
ghost use Rattle.ada_regions.specs.Completions.{holds_of};
ghost use Rattle.ada_regions.specs.Names.{kind_at};
ghost use Rattle.ada_legality.specs.Values.{is_object_kind};
ghost use Rattle.ada_legality.specs.Attributes.{object_prefix, handler_object, is_library_entity};
ghost use Rattle.ada_legality.specs.Attributes.{is_handler_of, is_library_handler, typed_access};

use ada_entities::{entity_denoted, kind_at};
use ada_legality::{Known, Typed};
use ada_regions::{AdaType, Names};
use ada_tree::Name;
use image_layout::prefix_part;
use legality_entities::{
    entity_of_name, is_library_object, is_object_kind, kind_of_name, protected_procedure,
    single_object,
};
use profile_image::ProtectedUnitNo;

/// An entity that is an object.
fn object_at(names: &Names<'_>, entity: u32) -> Option<u32>
    ensures { result
        ≡ cond (holds_of is_object_kind (kind_at names.now entity)) (Some entity) None }
{
    let kind = kind_at(names, entity)?;
    if is_object_kind(kind) {
        Some(entity)
    } else {
        None
    }
}

/// The object before the last part of a name.
#[tactic(auto, unfolding(ada_legality::specs::Attributes::object_prefix))]
pub fn object_prefix(known: &Known<'_, '_>, name: &Name) -> Option<u32>
    ensures { result ≡ object_prefix known.now name.now }
{
    let part = prefix_part(name)?;
    let entity = entity_denoted(known.names.get(), part.place)?;
    object_at(known.names.get(), entity)
}

/// The object whose procedure a name denotes.
#[tactic(auto, unfolding(ada_legality::specs::Attributes::handler_object))]
pub fn handler_object(known: &Known<'_, '_>, name: &Name, unit: ProtectedUnitNo) -> Option<u32>
    ensures { result ≡ handler_object known.now name.now unit }
{
    match object_prefix(known, name) {
        Some(entity) => Some(entity),
        None => single_object(&known.around, AdaType::Protected(unit)),
    }
}

/// An entity that is an object of a library package.
#[tactic(auto, unfolding(ada_legality::specs::Attributes::is_library_entity))]
pub fn is_library_entity(known: &Known<'_, '_>, entity: u32) -> bool
    ensures { result ≡ is_library_entity known.now entity }
{
    match kind_at(known.names.get(), entity) {
        None => false,
        Some(kind) => is_library_object(known.names.get(), kind),
    }
}

/// A procedure of a library-level protected object.
#[tactic(auto, unfolding(ada_legality::specs::Attributes::is_handler_of))]
fn is_handler_of(known: &Known<'_, '_>, name: &Name, unit: ProtectedUnitNo) -> bool
    ensures { result ≡ is_handler_of known.now name.now unit }
{
    match handler_object(known, name, unit) {
        None => false,
        Some(entity) => is_library_entity(known, entity),
    }
}

/// A name denotes a procedure of a library-level protected object.
#[tactic(auto, unfolding(ada_legality::specs::Attributes::is_library_handler))]
pub fn is_library_handler(known: &Known<'_, '_>, name: &Name) -> bool
    ensures { result ≡ is_library_handler known.now name.now }
{
    match kind_of_name(known, name) {
        None => false,
        Some(kind) => match protected_procedure(kind) {
            None => false,
            Some(unit) => is_handler_of(known, name, unit),
        },
    }
}

/// A handler, where Access may be asked.
#[tactic(auto, unfolding(ada_legality::specs::Attributes::typed_access))]
pub fn typed_access(known: &Known<'_, '_>, name: &Name) -> Typed
    ensures { result ≡ typed_access known.now name.now }
{
    if is_library_handler(known, name) {
        match entity_of_name(known, name) {
            None => Typed::WithoutType,
            Some(entity) => Typed::OfHandler(entity),
        }
    } else {
        Typed::WithoutType
    }
}
