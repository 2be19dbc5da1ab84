//! What names of objects denote (ISO/IEC 8652:2012, 4.1, 4.1.3, 8.6).
ghost use Rattle.std.specs.Prelude.{◌≡◌, option_copied, unwrap_or};
ghost use Rattle.ada_image.specs.ImageOfExpressions.{object_number, is_around, object_outside};
ghost use Rattle.ada_image.specs.ImageOfExpressions.{object_before, named_before};
ghost use Rattle.ada_image.specs.ImageOfExpressions.{no_declaration_no, component_name};
ghost use Rattle.ada_image.specs.ImageOfExpressions.{object_of_kind, kind_named, object_named};
ghost use Rattle.ada_image.specs.ImageOfExpressions.{thing_named, thing_in};

use ada_entities::{denoted_by, entity_denoted, entity_of, kind_at};
use ada_image::Within;
use ada_regions::{ComponentOwner, EntityKind};
use ada_tree::Name;
use image_layout::prefix_part;
use profile_image::{DeclNo, ObjectName};

/// The number of an object, a parameter or a component.
pub fn object_number(kind: &EntityKind) -> Option<DeclNo>
    ensures { result ≡ object_number kind.now }
{
    match kind {
        EntityKind::Object { declaration, .. } => Some(*declaration),
        EntityKind::Parameter { declaration, .. } => *declaration,
        EntityKind::Component { declaration, .. } => Some(*declaration),
        _ => None,
    }
}

/// Whether a unit is one of those in whose bodies a statement stands.
pub fn is_around(within: &Within<'_, '_>, entity: u32) -> bool
    ensures { result ≡ is_around within.now entity }
{
    within.units.get().iter().any(|unit| entity == *unit)
}

/// The number of the object with this entity, where it is none of the units around.
#[tactic(auto, unfolding(ada_image::specs::ImageOfExpressions::object_outside))]
fn object_outside(within: &Within<'_, '_>, entity: u32) -> Option<DeclNo>
    ensures { result ≡ object_outside within.now entity }
{
    if is_around(within, entity) {
        None
    } else {
        object_number(kind_at(within.names.get(), entity)?)
    }
}

/// The object before the last part of a name. The unit in whose body the name stands is none, as in
/// an expanded name (4.1.3).
#[tactic(auto, unfolding(ada_image::specs::ImageOfExpressions::object_before))]
pub fn object_before(within: &Within<'_, '_>, name: &Name) -> Option<DeclNo>
    ensures { result ≡ object_before within.now name.now }
{
    let part = prefix_part(name)?;
    let entity = entity_denoted(within.names.get(), part.place)?;
    object_outside(within, entity)
}

/// The same, where the unit counts too.
#[tactic(auto, unfolding(ada_image::specs::ImageOfExpressions::named_before))]
pub fn named_before(within: &Within<'_, '_>, name: &Name) -> Option<DeclNo>
    ensures { result ≡ named_before within.now name.now }
{
    let part = prefix_part(name)?;
    let entity = entity_denoted(within.names.get(), part.place)?;
    let kind = kind_at(within.names.get(), entity)?;
    object_number(kind)
}

/// The number that stands where the text names no object.
pub fn no_declaration_no() -> DeclNo
    ensures { result ≡ no_declaration_no }
{
    DeclNo(0)
}

/// The number of a declaration, if it has one.
pub fn declared_as(declaration: Option<DeclNo>) -> DeclNo
    ensures { result ≡ unwrap_or declaration no_declaration_no }
{
    match declaration {
        Some(declaration) => declaration,
        None => no_declaration_no(),
    }
}

/// The name of a component, where the object before it is given.
#[tactic(auto, unfolding(ada_image::specs::ImageOfExpressions::component_name))]
fn component_name(owner: ComponentOwner, prefix: Option<DeclNo>, component: DeclNo) -> ObjectName
    ensures { result ≡ component_name owner prefix component }
{
    match owner {
        ComponentOwner::Protected(unit) => ObjectName::OwnComponent { unit, component },
        ComponentOwner::Controlled(_) => ObjectName::Component {
            object: declared_as(prefix),
            component,
        },
    }
}

/// The object that a name denotes, given what its entity is.
#[tactic(auto, unfolding(ada_image::specs::ImageOfExpressions::object_of_kind))]
fn object_of_kind(within: &Within<'_, '_>, name: &Name, kind: &EntityKind) -> ObjectName
    ensures { result ≡ object_of_kind within.now name.now kind.now }
{
    match kind {
        EntityKind::Object { declaration, .. } => ObjectName::Declared(*declaration),
        EntityKind::Parameter { declaration, .. } => {
            ObjectName::Declared(declared_as(*declaration))
        }
        EntityKind::LoopParameter(declaration) => ObjectName::Declared(*declaration),
        EntityKind::Component {
            owner,
            declaration,
            ..
        } => component_name(*owner, object_before(within, name), *declaration),
        _ => ObjectName::Declared(no_declaration_no()),
    }
}

/// What the entity is that a name denotes, if it denotes one.
#[tactic(auto, unfolding(ada_image::specs::ImageOfExpressions::kind_named))]
pub fn kind_named<'n>(within: &Within<'n, '_>, name: &Name) -> Option<&'n EntityKind>
    ensures { option_copied result ≡ kind_named within.now name.now }
{
    let denoted = denoted_by(within.names.get(), name)?;
    let entity = entity_of(denoted)?;
    kind_at(within.names.get(), entity)
}

/// The object that a name denotes.
#[tactic(auto, unfolding(ada_image::specs::ImageOfExpressions::object_named))]
pub fn object_named(within: &Within<'_, '_>, name: &Name) -> ObjectName
    ensures { result ≡ object_named within.now name.now }
{
    match kind_named(within, name) {
        Some(kind) => object_of_kind(within, name, kind),
        None => ObjectName::Declared(no_declaration_no()),
    }
}

/// The object of an actual that stands for itself.
#[tactic(auto, unfolding(ada_image::specs::ImageOfExpressions::thing_named))]
pub fn thing_named(within: &Within<'_, '_>, name: &Name) -> DeclNo
    ensures { result ≡ thing_named within.now name.now }
{
    match kind_named(within, name) {
        Some(kind) => declared_as(object_number(kind)),
        None => no_declaration_no(),
    }
}

/// The same of an expression's name, if it is one.
#[tactic(auto, unfolding(ada_image::specs::ImageOfExpressions::thing_in))]
pub fn thing_in(within: &Within<'_, '_>, name: Option<&Name>) -> DeclNo
    ensures { result ≡ thing_in within.now (option_copied name.entry) }
{
    match name {
        Some(name) => thing_named(within, name),
        None => no_declaration_no(),
    }
}
