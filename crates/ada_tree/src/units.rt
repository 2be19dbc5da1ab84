//! Library units and the source, as parts of the tree (ISO/IEC 8652:2012, 2.8, clause 7, 10.1).
use crate::{
    Argument, Aspect, Body, Declaration, Expression, Identifier, Name, OneOrMore, Sequence,
};
use ann_base::Place;
use sqlite_items::Items;

/// How many levels of nesting a source may open.
pub const MAX_NESTING: usize = 100;

/// A source: pragmas, packages, and the main procedure with its context (10.1, 10.2).
pub struct Unit {
    /// The pragmas before the first unit.
    pub pragmas: Items<Pragma>,
    /// The packages.
    pub packages: Items<LibraryPackage>,
    /// The main procedure's context.
    pub context: Items<ContextClause>,
    /// The main procedure.
    pub main: MainProcedure,
}

impl Drop for Unit {
    fn drop(self) {
        let Unit {
            pragmas: _,
            packages: _,
            context: _,
            main: _,
        } = self;
    }
}

/// `pragma NAME (ARGUMENT {, ARGUMENT});` (2.8)
pub struct Pragma {
    /// The place of `pragma`.
    pub place: Place,
    /// The pragma.
    pub name: Identifier,
    /// Its arguments.
    pub arguments: OneOrMore<Argument<Expression>>,
}

impl Drop for Pragma {
    fn drop(self) {
        let Pragma {
            place: _,
            name: _,
            arguments: _,
        } = self;
    }
}

/// `(with | use) NAME {, NAME};` (10.1.2, 8.4)
pub struct ContextClause {
    /// The place of `with` or `use`.
    pub place: Place,
    /// Whether it is a use clause.
    pub is_use: bool,
    /// The units.
    pub names: OneOrMore<Name>,
}

impl Drop for ContextClause {
    fn drop(self) {
        let ContextClause {
            place: _,
            is_use: _,
            names: _,
        } = self;
    }
}

/// A package with its context (10.1.1).
pub struct LibraryPackage {
    /// The context.
    pub context: Items<ContextClause>,
    /// The package.
    pub package: Package,
}

impl Drop for LibraryPackage {
    fn drop(self) {
        let LibraryPackage {
            context: _,
            package: _,
        } = self;
    }
}

/// A package's declaration or its body (7.1, 7.2).
pub enum Package {
    /// A declaration.
    Declaration(PackageDeclaration),
    /// A body.
    Body(PackageBody),
}

impl Drop for Package {
    fn drop(self) {
        match self {
            Package::Declaration(_) => (),
            Package::Body(_) => (),
        }
    }
}

/// `package NAME is {DECLARATION} [private {DECLARATION}] end [NAME];` (7.1)
pub struct PackageDeclaration {
    /// The place of `package`.
    pub place: Place,
    /// The package.
    pub name: Identifier,
    /// The visible declarations.
    pub declarations: Items<Declaration<Sequence>>,
    /// The private declarations, where `private` stands there.
    pub private: Option<Items<Declaration<Sequence>>>,
    /// Whether the name stands again behind `end`.
    pub named_at_end: bool,
}

impl Drop for PackageDeclaration {
    fn drop(self) {
        let PackageDeclaration {
            place: _,
            name: _,
            declarations: _,
            private: _,
            named_at_end: _,
        } = self;
    }
}

/// `package body NAME is {DECLARATION} [begin SEQUENCE] end [NAME];` (7.2)
pub struct PackageBody {
    /// The place of `package`.
    pub place: Place,
    /// The package.
    pub name: Identifier,
    /// The declarations.
    pub declarations: Items<Declaration<Sequence>>,
    /// The statements, where `begin` stands there.
    pub sequence: Option<Sequence>,
    /// Whether the name stands again behind `end`.
    pub named_at_end: bool,
}

impl Drop for PackageBody {
    fn drop(self) {
        let PackageBody {
            place: _,
            name: _,
            declarations: _,
            sequence: _,
            named_at_end: _,
        } = self;
    }
}

/// `procedure NAME [ASPECTS] is BODY` (6.3)
pub struct MainProcedure {
    /// The place of `procedure`.
    pub place: Place,
    /// The procedure.
    pub name: Identifier,
    /// The aspects; empty where no `with` stands.
    pub aspects: Items<Aspect>,
    /// What stands behind `is`.
    pub body: Body<Sequence>,
}

impl Drop for MainProcedure {
    fn drop(self) {
        let MainProcedure {
            place: _,
            name: _,
            aspects: _,
            body: _,
        } = self;
    }
}
