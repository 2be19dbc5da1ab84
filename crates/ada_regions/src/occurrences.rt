//! The occurrences of names in a tree, as a list.
ghost use Rattle.std.specs.Prelude.{◌≡◌, ◌++◌, ◌∷◌, [], map, OnOk};
ghost use Rattle.ada_regions.specs.Shown.{occurrence_shown};

use ada_tree::{
    Aspect, Component, Expression, Identifier, Name, ObjectDeclaration, OneOrMore, Parameter,
    SubprogramSpecification, SubtypeIndication,
};
use ann_base::{NoMemory, Place};
use std::alloc::Global;
use std::marker::Model;

/// What a text says of names at one place (ISO/IEC 8652:2012, 8.1 to 8.4). Its parts are those of
/// the tree.
#[derive(Clone, Copy)]
pub enum Occurrence<'t> {
    /// The context of a library unit begins (10.1.2).
    BeginContext,
    /// The context of this package's declaration begins again, for its body.
    BeginContextOf {
        name: &'t Identifier,
    },
    /// What a package's body adds to its context begins.
    BeginFurtherContext,
    /// A package's declaration begins (7.1).
    BeginPackage {
        name: &'t Identifier,
    },
    /// A package's body begins (7.2).
    BeginPackageBody {
        name: &'t Identifier,
    },
    /// The main procedure's body begins (6.3).
    BeginMain {
        name: &'t Identifier,
        place: Place,
    },
    /// The profile of a declaration begins (6.1).
    BeginProfile,
    /// A subprogram's body begins (6.3).
    BeginSubprogramBody {
        place: Place,
        is_function: bool,
    },
    /// A task or protected declaration begins (9.1, 9.4).
    BeginUnit {
        name: &'t Identifier,
    },
    /// A task's body begins (9.1).
    BeginTaskBody {
        name: &'t Identifier,
        place: Place,
    },
    /// A protected body begins (9.4).
    BeginProtectedBody {
        name: &'t Identifier,
    },
    /// An entry's body begins (9.5.2).
    BeginEntryBody {
        name: &'t Identifier,
        place: Place,
        barrier: &'t Expression,
    },
    /// An accept statement begins (9.5.2).
    BeginAccept {
        name: &'t Identifier,
        place: Place,
    },
    /// A block without a name begins (5.6).
    BeginBlock {
        place: Place,
    },
    /// A block with a name begins (5.6).
    BeginNamedBlock {
        name: &'t Identifier,
        place: Place,
    },
    /// A loop without a name begins (5.5).
    BeginLoop,
    /// A loop with a name begins (5.5).
    BeginNamedLoop {
        name: &'t Identifier,
    },
    /// The components of a controlled type begin (3.9.1).
    BeginRecord {
        name: &'t Identifier,
    },
    /// The innermost region ends.
    End,
    /// From here on the declarations of the region are private (7.3, 9.4).
    PrivateFromHere,
    /// The name is hidden until its declaration ends (8.3).
    Hide {
        name: &'t Identifier,
    },
    /// The same, where it is not the body of a declared subprogram.
    Head {
        name: &'t Identifier,
    },
    /// A subprogram's body has its `is` (6.3).
    Complete {
        name: &'t Identifier,
        specification: &'t SubprogramSpecification,
    },
    /// The region has this name in expanded names from here on.
    CallRegion {
        name: &'t Identifier,
    },
    /// A name is used.
    Mention {
        name: &'t Name,
    },
    /// A direct name of one identifier is used.
    MentionSimply {
        name: &'t Identifier,
    },
    /// The name of an entry's body is used (9.5.2).
    MentionEntry {
        name: &'t Identifier,
    },
    /// A with clause names a unit (10.1.2).
    WithUnit {
        name: &'t Name,
    },
    /// A use clause names a package (8.4).
    UsePackage {
        name: &'t Name,
    },
    /// An object is declared (3.3.1).
    DeclareObject {
        name: &'t Identifier,
        object: &'t ObjectDeclaration,
    },
    /// A component is declared (3.8, 9.4).
    DeclareComponent {
        name: &'t Identifier,
        component: &'t Component,
    },
    /// A parameter is declared (6.1), with cells in the body of a construct.
    DeclareParameter {
        name: &'t Identifier,
        with_cells: bool,
        parameter: &'t Parameter,
    },
    /// A loop parameter is declared (5.5).
    DeclareLoopParameter {
        name: &'t Identifier,
    },
    /// An enumeration type is declared (3.5.1).
    DeclareEnumeration {
        name: &'t Identifier,
        literals: &'t OneOrMore<Identifier>,
    },
    /// A literal of the newest enumeration type is declared (3.5.1).
    DeclareLiteral {
        name: &'t Identifier,
    },
    /// An array type is declared (3.6).
    DeclareArray {
        name: &'t Identifier,
        low: &'t Expression,
        high: &'t Expression,
        component: &'t SubtypeIndication,
    },
    /// A controlled type is declared (3.9.1, 7.6).
    DeclareDerivedType {
        name: &'t Identifier,
        parent: &'t Name,
    },
    /// A subtype is declared (3.2.2).
    DeclareSubtype {
        name: &'t Identifier,
        subtype: &'t SubtypeIndication,
    },
    /// An exception is declared (11.1).
    DeclareException {
        name: &'t Identifier,
    },
    /// The name of a loop or a block is declared (5.5, 5.6).
    DeclareLabel {
        name: &'t Identifier,
    },
    /// A subprogram's declaration is declared (6.1).
    DeclareSubprogram {
        name: &'t Identifier,
        specification: &'t SubprogramSpecification,
    },
    /// An entry is declared (9.5.2).
    DeclareEntry {
        name: &'t Identifier,
        parameters: &'t [Parameter],
    },
    /// A task or a task type is declared (9.1).
    DeclareTask {
        name: &'t Identifier,
        is_type: bool,
        aspects: &'t [Aspect],
    },
    /// A protected object or type is declared (9.4).
    DeclareProtected {
        name: &'t Identifier,
        is_type: bool,
        aspects: &'t [Aspect],
    },
    /// A library package is declared (10.1).
    DeclarePackage {
        name: &'t Identifier,
    },
    /// The main procedure is declared (10.1).
    DeclareMain {
        name: &'t Identifier,
    },
}

/// Occurrences in the order of the text. Contracts see what they say.
#[derive(Drop)]
pub struct Occurrences<'t> {
    items: Vec<Occurrence<'t>>,
}

impl<'t> Model for Occurrences<'t> {
    ghost use Rattle.std.specs.Prelude.{List, map};
    ghost use Rattle.ada_regions.specs.Occurrences.{Occurrence};
    ghost use Rattle.ada_regions.specs.Shown.{occurrence_shown};
    ghost use Rattle.ada_tree.specs.contracts.expressions.Expression as e;
    ghost use Rattle.std.specs.Coded.{codes};

    ghost Value = { List Occurrence };

    ghost coded = { Prim.hlevel (codes, e.the_row.coded) };

    ghost view = { λ occurrences. map occurrence_shown occurrences.items.items };
}

impl<'t> Occurrences<'t> {
    /// None yet.
    pub fn new(alloc: Global) -> Self
        ensures { result ≡ [] }
    {
        Occurrences {
            items: Vec::new(alloc),
        }
    }

    /// One more at the end.
    pub fn push(&mut self, occurrence: Occurrence<'t>) -> Result<(), NoMemory>
        ensures { OnOk result (self.new ≡ self.old ++ occurrence_shown occurrence.entry ∷ []) }
    {
        self.items.push(occurrence)?;
        Ok(())
    }

    /// The occurrences in order.
    pub fn as_slice(&self) -> &[Occurrence<'t>]
        ensures { map occurrence_shown result.now ≡ self.now }
    {
        self.items.as_slice()
    }
}
