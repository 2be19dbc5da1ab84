//! The table of a text: its regions (ISO/IEC 8652:2012, 8.1), the bindings of names in them, and
//! the entities that it declares.
use crate::entities::{ComponentOwner, Denoted, Entity};
use crate::faults::NameFault;
use crate::parts::{AspectsOf, ExpressionOf};
use crate::types::{ArrayType, Formal, Subtype};
use ann_base::Place;
use profile_image::{EntryUnit, ImageList, Text};
use world_tables::{List, Table};

/// A name that a region binds. It stands for an entity, or is hidden while its declaration goes on
/// (8.3).
#[derive(Drop)]
pub struct Binding {
    /// The name in lower case.
    pub name: Text,
    /// The number of the entity; none while the name is hidden.
    pub entity: Option<u32>,
    /// Whether it is visible from outside the region (7.1, 9.4).
    pub exported: bool,
}

/// A region that is open. Each time that a region is opened is a part of its own: the declaration
/// of a package and its body are two.
pub struct Frame {
    /// The region.
    pub region: u32,
    /// The construct whose region it is.
    pub owner: Option<u32>,
    /// The scope that has the cells of what stands in it.
    pub scope: Option<u32>,
    /// Whether it is that of an accept statement, which has cells for its parameters alone.
    pub is_accept: bool,
    /// Its name in expanded names.
    pub name: Option<Text>,
    /// Whether what is declared in it is visible from outside.
    pub exports: bool,
    /// Of which objects its variables are components.
    pub components: Option<ComponentOwner>,
    /// The part.
    pub part: u32,
}

// Written out, so that it is proved once, and not by each function that drops one.
impl Drop for Frame {
    fn drop(self) {
        let Frame {
            region: _,
            owner: _,
            scope: _,
            is_accept: _,
            name: _,
            exports: _,
            components: _,
            part: _,
        } = self;
    }
}

/// What a declaration takes from the frame in which it stands.
#[derive(Clone, Copy)]
pub struct Enclosure {
    /// The region.
    pub region: u32,
    /// Whether what is declared in it is visible from outside.
    pub exports: bool,
    /// Of which objects its variables are components.
    pub components: Option<ComponentOwner>,
    /// The part.
    pub part: u32,
}

/// A use clause in a region (8.4).
#[derive(Clone, Copy)]
pub struct UseClause {
    /// The region.
    pub region: u32,
    /// The package.
    pub used: Denoted,
}

/// The context of a package's declaration (10.1.2).
#[derive(Drop)]
pub struct PackageContext {
    /// The package.
    pub of_package: u32,
    /// Its region.
    pub region: u32,
    /// The library units under its with clauses.
    pub withs: List<Denoted>,
}

/// What an entity with a number in the image is.
#[derive(Clone, Copy)]
pub enum Sort {
    /// An object (3.3.1).
    Object,
    /// A component (3.8, 9.4).
    Component(ComponentOwner),
    /// A parameter (6.1).
    Parameter,
    /// A loop parameter (5.5).
    LoopParameter,
    /// An exception (11.1).
    Exception,
}

/// A declaration with a number in the image.
#[derive(Drop)]
pub struct NumberedDeclaration<'t> {
    /// Its name in lower case.
    pub name: Text,
    /// Its expanded name.
    pub expanded: Text,
    /// What it is.
    pub sort: Sort,
    /// The scope that has its cells.
    pub scope: u32,
    /// Its subtype.
    pub subtype: Option<Subtype>,
    /// Its initial value.
    pub initial: Option<ExpressionOf<'t>>,
    /// Of a timer: the constant that identifies its task (D.14.1).
    pub task: Option<u32>,
}

/// A scope of the text, found by the place of its construct's first word.
#[derive(Clone, Copy)]
pub struct NumberedScope {
    /// The place.
    pub place: Place,
    /// The scope around it.
    pub outer: Option<u32>,
    /// Whether it is that of a function.
    pub is_function: bool,
    /// Whether it is that of an accept statement.
    pub is_accept: bool,
}

/// A subprogram (6.1).
#[derive(Drop)]
pub struct NumberedSubprogram<'t> {
    /// Its name in lower case.
    pub name: Text,
    /// The scope of its body.
    pub scope: u32,
    /// Its formal parameters.
    pub formals: ImageList<Formal>,
    /// The subtype of a function's result.
    pub result: Option<Option<Subtype>>,
    /// The protected unit of which it is an operation.
    pub unit: Option<u32>,
    /// The part in which it is declared.
    pub part: u32,
    /// Its aspects there.
    pub aspects: AspectsOf<'t>,
}

/// A task unit (9.1).
#[derive(Drop)]
pub struct NumberedTask<'t> {
    /// Its region.
    pub region: u32,
    /// Its aspects.
    pub aspects: AspectsOf<'t>,
    /// The scope of its body.
    pub scope: u32,
}

/// A protected unit (9.4).
#[derive(Drop)]
pub struct NumberedProtected<'t> {
    /// Its region.
    pub region: u32,
    /// Its aspects.
    pub aspects: AspectsOf<'t>,
}

/// A controlled type (7.6).
#[derive(Clone, Copy)]
pub struct NumberedControlled {
    /// The region of its components.
    pub region: u32,
    /// The part in which it is declared.
    pub part: u32,
    /// Whether it is derived from Limited_Controlled.
    pub is_limited: bool,
}

/// The body of an entry (9.5.2).
#[derive(Drop)]
pub struct NumberedEntryBody<'t> {
    /// Its barrier.
    pub barrier: ExpressionOf<'t>,
    /// Its scope.
    pub scope: u32,
}

/// An entry (9.5.2).
#[derive(Drop)]
pub struct NumberedEntry<'t> {
    /// Its name in lower case.
    pub name: Text,
    /// Its unit.
    pub unit: EntryUnit,
    /// Its formal parameters.
    pub formals: ImageList<Formal>,
    /// Its body, where it has one.
    pub body: Option<NumberedEntryBody<'t>>,
}

/// The table of the names of a text.
pub struct Names<'t> {
    /// The last value of System.Priority.
    pub last_priority: u8,
    /// How many regions have begun.
    pub regions: u32,
    /// Those that are open, the innermost first.
    pub frames: List<Frame>,
    /// How many parts there are.
    pub parts: u32,
    /// By the number of a region the names that it binds, the newest first.
    pub bindings: Table<List<Binding>>,
    /// The use clauses.
    pub uses: List<UseClause>,
    /// The library units under a with clause here.
    pub withs: List<Denoted>,
    /// The contexts of packages.
    pub contexts: List<PackageContext>,
    /// In the order of the declarations.
    pub entities: List<Entity>,
    /// Which of them have a body.
    pub bodies: List<u32>,
    /// What the names of the text denote: by the line of a name, and there by its column.
    pub denotations: Table<Table<Denoted>>,
    /// The declarations of the image, by number.
    pub declarations: List<NumberedDeclaration<'t>>,
    /// Its scopes.
    pub scopes: List<NumberedScope>,
    /// Its subprograms.
    pub subprograms: List<NumberedSubprogram<'t>>,
    /// Its array types.
    pub arrays: List<ArrayType>,
    /// Its enumeration types, each with the names of its literals.
    pub enumerations: List<ImageList<Text>>,
    /// Its task units.
    pub task_units: List<NumberedTask<'t>>,
    /// Its protected units.
    pub protected_units: List<NumberedProtected<'t>>,
    /// Its controlled types.
    pub controlled_types: List<NumberedControlled>,
    /// Its entries.
    pub entries: List<NumberedEntry<'t>>,
    /// The earliest fault in the text.
    pub fault: Option<NameFault>,
}

// Written out, so that it is proved once, and not by each function that drops one.
impl Drop for Names<'_> {
    fn drop(self) {
        let Names {
            last_priority: _,
            regions: _,
            frames: _,
            parts: _,
            bindings: _,
            uses: _,
            withs: _,
            contexts: _,
            entities: _,
            bodies: _,
            denotations: _,
            declarations: _,
            scopes: _,
            subprograms: _,
            arrays: _,
            enumerations: _,
            task_units: _,
            protected_units: _,
            controlled_types: _,
            entries: _,
            fault: _,
        } = self;
    }
}
