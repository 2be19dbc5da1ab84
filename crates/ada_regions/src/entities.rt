//! Declared entities, and what names denote (ISO/IEC 8652:2012, 3.1, 8.6).
ghost use Rattle.std.specs.Prelude.{◌≡◌};
ghost use Rattle.ada_regions.specs.Statics.{subtype_of_kind};
ghost use Rattle.ada_regions.specs.Declaring.{type_of_kind};
ghost use Rattle.ada_regions.specs.Regions.{entry_number, is_entry};

use crate::predefined::{Predefined, PredefinedUnit};
use crate::types::{AdaType, Formal, Mode, Subtype};
use ann_base::Place;
use profile_image::{
    ControlledNo, DeclNo, EntryNo, EntryUnit, EnumerationNo, ImageList, ProtectedUnitNo,
    SubprogramNo, Value,
};

/// What a name denotes.
#[derive(Clone, Copy)]
pub enum Denoted {
    /// An entity that the source declares, by its number in the order of the declarations.
    Entity(u32),
    /// A predefined library unit.
    Unit(PredefinedUnit),
    /// What a predefined unit declares.
    Item {
        /// The unit.
        unit: PredefinedUnit,
        /// What it declares.
        item: Predefined,
    },
}

/// What a direct name denotes, as it is sought (8.3, 8.4).
#[derive(Clone, Copy)]
pub enum Sought {
    /// This.
    Found(Denoted),
    /// Nothing.
    Unknown,
    /// Different things, by different use clauses.
    Ambiguous,
}

/// Whose body it is.
#[derive(Clone, Copy)]
pub enum UnitKind {
    /// A task's (9.1).
    Task,
    /// A protected unit's (9.4).
    Protected,
}

/// Of which objects something is a component.
#[derive(Clone, Copy)]
pub enum ComponentOwner {
    /// Those of a protected unit (9.4).
    Protected(ProtectedUnitNo),
    /// Those of a controlled type (3.9.1).
    Controlled(ControlledNo),
}

/// What an entity of the source is. A subtype is none where the text names no type.
#[derive(Drop)]
pub enum EntityKind {
    /// A library package (7.1).
    Package,
    /// The main procedure (10.2).
    Main,
    /// A type or a subtype (3.2); none where its definition names no type.
    Mark(Option<Subtype>),
    /// An enumeration literal (3.5.1).
    Literal {
        /// Its type.
        enumeration: EnumerationNo,
        /// Its position.
        position: u32,
    },
    /// An object, a single task or a single protected object (3.3.1, 9.1, 9.4).
    Object {
        /// Its subtype.
        subtype: Option<Subtype>,
        /// Whether it is a constant.
        constant: bool,
        /// The value of a constant whose initial value is static (4.9).
        value: Option<Value>,
        /// Its number in the image.
        declaration: DeclNo,
    },
    /// A formal parameter (6.1). One of a body or of an accept has a number in the image.
    Parameter {
        /// Its subtype.
        subtype: Option<Subtype>,
        /// Its mode.
        mode: Mode,
        /// Its number in the image.
        declaration: Option<DeclNo>,
    },
    /// A loop parameter (5.5).
    LoopParameter(DeclNo),
    /// A component (3.8, 9.4).
    Component {
        /// Its subtype.
        subtype: Option<Subtype>,
        /// Of which objects.
        owner: ComponentOwner,
        /// Its number in the image.
        declaration: DeclNo,
    },
    /// An exception (11.1).
    Exception(DeclNo),
    /// A subprogram (6.1).
    Subprogram {
        /// Its number in the image.
        number: SubprogramNo,
        /// Whether it is a function.
        is_function: bool,
        /// Whether a subprogram declaration declares it, which its body completes (6.3).
        specified: bool,
        /// Its formal parameters as first declared.
        formals: ImageList<Formal>,
        /// The protected unit of which it is an operation.
        unit: Option<ProtectedUnitNo>,
    },
    /// An entry (9.5.2).
    Entry {
        /// Its number in the image.
        number: EntryNo,
        /// Its unit.
        unit: EntryUnit,
        /// Its formal parameters.
        formals: ImageList<Formal>,
    },
    /// The name of a loop or a block (5.5, 5.6).
    Label,
}

/// The subtype of an entity, if it has one (3.5, 3.6.2).
pub fn subtype_of_kind(kind: &EntityKind) -> Option<Subtype>
    ensures { result ≡ subtype_of_kind kind.now }
{
    match kind {
        EntityKind::Mark(subtype) => *subtype,
        EntityKind::Object { subtype, .. } => *subtype,
        EntityKind::Parameter { subtype, .. } => *subtype,
        EntityKind::Component { subtype, .. } => *subtype,
        _ => None,
    }
}

/// The type of an entity, if it has one.
pub fn type_of_kind(kind: &EntityKind) -> Option<AdaType>
    ensures { result ≡ type_of_kind kind.now }
{
    let subtype = subtype_of_kind(kind)?;
    Some(subtype.of_type)
}

/// Whether it is an entry (9.5.2).
pub fn is_entry(kind: &EntityKind) -> bool
    ensures { result ≡ is_entry kind.now }
{
    matches!(kind, EntityKind::Entry { .. })
}

/// The number of an entry.
pub fn entry_number(kind: &EntityKind) -> Option<EntryNo>
    ensures { result ≡ entry_number kind.now }
{
    match kind {
        EntityKind::Entry { number, .. } => Some(*number),
        _ => None,
    }
}

/// An entity that the source declares.
#[derive(Drop)]
pub struct Entity {
    /// Where its defining name stands.
    pub place: Place,
    /// What it is.
    pub kind: EntityKind,
    /// The region of a package, of a task or protected unit, or of a controlled type's components.
    pub region: Option<u32>,
}
