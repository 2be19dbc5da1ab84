//! What names denote, and subtypes of entities (ISO/IEC 8652:2012, 3.3, 4.1, 8.6).
ghost use Rattle.std.specs.Prelude.{◌≡◌, eqb, find, option_copied};
ghost use Rattle.ada_regions.specs.Regions.{is_entry};
ghost use Rattle.ada_legality.specs.Values.{subtype_of_loop, subtype_of_object, denoted_kind};
ghost use Rattle.ada_legality.specs.Values.{kind_of_name, entity_of_name, subtype_of_entity};
ghost use Rattle.ada_legality.specs.Values.{is_library_declaration, is_library_object, is_kind};
ghost use Rattle.ada_legality.specs.Attributes.{kind_of_identifier};

use ada_entities::{denoted_by, entity_denoted, entity_of, kind_at};
use ada_legality::{Known, LoopParameter};
use ada_regions::{AdaType, Denoted, EntityKind, Names, Subtype, free_subtype, is_entry};
use ada_tree::{Identifier, Name};
use profile_image::DeclNo;
use world_tables::List;

fn parameter_found(loops: &List<LoopParameter>, entity: u32) -> Option<&LoopParameter>
    ensures { option_copied result ≡ find (λ l. eqb l.entity entity) loops.now }
{
    loops.iter().find(|parameter| parameter.entity == entity)
}

/// The subtype of a loop parameter.
fn subtype_of_loop(loops: &List<LoopParameter>, entity: u32) -> Option<Subtype>
    ensures { result ≡ subtype_of_loop loops.now entity }
{
    let parameter = parameter_found(loops, entity)?;
    parameter.subtype
}

/// The subtype of an object, a parameter, a component, a loop parameter or a literal.
#[tactic(auto, unfolding(ada_legality::specs::Values::subtype_of_object))]
fn subtype_of_object(known: &Known<'_, '_>, entity: u32, kind: &EntityKind) -> Option<Subtype>
    ensures { result ≡ subtype_of_object known.now entity kind.now }
{
    match kind {
        EntityKind::Object { subtype, .. } => *subtype,
        EntityKind::Parameter { subtype, .. } => *subtype,
        EntityKind::Component { subtype, .. } => *subtype,
        EntityKind::LoopParameter(_) => subtype_of_loop(&known.loops, entity),
        EntityKind::Literal { enumeration, .. } => {
            Some(free_subtype(AdaType::Enumeration(*enumeration)))
        }
        _ => None,
    }
}

/// What the entity is that is denoted.
pub fn denoted_kind<'n>(names: &'n Names<'_>, denoted: Denoted) -> Option<&'n EntityKind>
    ensures { option_copied result ≡ denoted_kind names.now denoted }
{
    let entity = entity_of(denoted)?;
    kind_at(names, entity)
}

/// What the entity is that a name denotes.
pub fn kind_of_name<'n>(known: &'n Known<'_, '_>, name: &Name) -> Option<&'n EntityKind>
    ensures { option_copied result ≡ kind_of_name known.now name.now }
{
    let denoted = denoted_by(known.names.get(), name)?;
    denoted_kind(known.names.get(), denoted)
}

/// A name denotes an entry.
pub fn names_entry(known: &Known<'_, '_>, name: &Name) -> bool
    ensures { result ≡ is_kind is_entry known.now name.now }
{
    match kind_of_name(known, name) {
        None => false,
        Some(kind) => is_entry(kind),
    }
}

/// What the entity is that an identifier denotes.
#[tactic(auto, unfolding(ada_legality::specs::Attributes::kind_of_identifier))]
pub fn kind_of_identifier<'n>(
    known: &'n Known<'_, '_>,
    identifier: &Identifier,
) -> Option<&'n EntityKind>
    ensures { option_copied result ≡ kind_of_identifier known.now identifier.now }
{
    let entity = entity_denoted(known.names.get(), identifier.place)?;
    kind_at(known.names.get(), entity)
}

/// The entity that a name denotes.
pub fn entity_of_name(known: &Known<'_, '_>, name: &Name) -> Option<u32>
    ensures { result ≡ entity_of_name known.now name.now }
{
    let denoted = denoted_by(known.names.get(), name)?;
    entity_of(denoted)
}

/// The subtype of an object that is denoted.
#[tactic(auto, unfolding(ada_legality::specs::Values::subtype_of_entity))]
pub fn subtype_of_entity(known: &Known<'_, '_>, denoted: Denoted) -> Option<Subtype>
    ensures { result ≡ subtype_of_entity known.now denoted }
{
    let entity = entity_of(denoted)?;
    let kind = kind_at(known.names.get(), entity)?;
    subtype_of_object(known, entity, kind)
}

/// Whether a declaration has its cells in the environment's scope (10.2).
fn is_library_declaration(names: &Names<'_>, declaration: DeclNo) -> bool
    ensures { result ≡ is_library_declaration names.now declaration }
{
    match names.declarations.get(declaration.0 as usize) {
        None => false,
        Some(declaration) => declaration.scope == 0,
    }
}

/// An object of a library package.
#[tactic(auto, unfolding(ada_legality::specs::Values::is_library_object))]
pub fn is_library_object(names: &Names<'_>, kind: &EntityKind) -> bool
    ensures { result ≡ is_library_object names.now kind.now }
{
    match kind {
        EntityKind::Object { declaration, .. } => is_library_declaration(names, *declaration),
        _ => false,
    }
}
