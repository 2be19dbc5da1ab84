//! Declarations (ISO/IEC 8652:2012, clauses 3, 6, 9 and 11). Bodies are generic over the sequences
//! `Q` in them.
use crate::{Expression, Identifier, Name, OneOrMore};
use ann_base::Place;
use sqlite_items::Items;

/// A declaration (3.1).
pub enum Declaration<Q> {
    /// An object declaration (3.3.1).
    Object(ObjectDeclaration),
    /// A type declaration (3.2.1).
    Type(TypeDeclaration),
    /// `subtype NAME is SUBTYPE;` (3.2.2)
    Subtype(SubtypeDeclaration),
    /// `NAME {, NAME} : exception;` (11.1)
    Exception {
        /// The exceptions.
        names: OneOrMore<Identifier>,
    },
    /// A subprogram declaration (6.1).
    Subprogram(SubprogramSpecification),
    /// A subprogram body (6.3).
    SubprogramBody {
        /// Its specification.
        specification: SubprogramSpecification,
        /// What stands behind `is`.
        body: Body<Q>,
    },
    /// A task declaration (9.1).
    Task(TaskDeclaration),
    /// A task body (9.1).
    TaskBody {
        /// The place of `task`.
        place: Place,
        /// The task.
        name: Identifier,
        /// What stands behind `is`.
        body: Body<Q>,
    },
    /// A protected declaration (9.4).
    Protected(ProtectedDeclaration),
    /// A protected body (9.4).
    ProtectedBody(ProtectedBody<Q>),
    /// `use NAME;` (8.4)
    Use {
        /// The place of `use`.
        place: Place,
        /// The package.
        name: Name,
    },
}

impl<Q: Drop> Drop for Declaration<Q> {
    fn drop(self) {
        match self {
            Declaration::Object(_) => (),
            Declaration::Type(_) => (),
            Declaration::Subtype(_) => (),
            Declaration::Exception { names: _ } => (),
            Declaration::Subprogram(_) => (),
            Declaration::SubprogramBody {
                specification: _,
                body: _,
            } => (),
            Declaration::Task(_) => (),
            Declaration::TaskBody {
                place: _,
                name: _,
                body: _,
            } => (),
            Declaration::Protected(_) => (),
            Declaration::ProtectedBody(_) => (),
            Declaration::Use { place: _, name: _ } => (),
        }
    }
}

/// `{DECLARATION} begin SEQUENCE end [NAME];`, behind the `is` of a body (3.11.1).
#[derive(Drop)]
pub struct Body<Q> {
    /// The declarations, the statements and the handlers.
    pub sequence: Q,
    /// Whether the construct's name stands again behind `end`.
    pub named_at_end: bool,
}

/// A subtype indication: a subtype mark and what restricts it (3.2.2, 3.6.1).
pub struct SubtypeIndication {
    /// The subtype.
    pub name: Name,
    /// What restricts it.
    pub constraint: Option<Constraint>,
}

impl Drop for SubtypeIndication {
    fn drop(self) {
        let SubtypeIndication {
            name: _,
            constraint: _,
        } = self;
    }
}

/// What restricts a subtype mark.
pub enum Constraint {
    /// `(NAME'Access)`, the discriminant of a timer (D.14.1).
    Access(Name),
    /// `range LOW .. HIGH` (3.5)
    Range {
        /// The least value.
        low: Expression,
        /// The greatest value.
        high: Expression,
    },
}

impl Drop for Constraint {
    fn drop(self) {
        match self {
            Constraint::Access(_) => (),
            Constraint::Range { low: _, high: _ } => (),
        }
    }
}

/// `NAME {, NAME} : [aliased] [constant] SUBTYPE [:= EXPRESSION];` (3.3.1)
pub struct ObjectDeclaration {
    /// The objects.
    pub names: OneOrMore<Identifier>,
    /// Whether `aliased` stands there.
    pub aliased: bool,
    /// Whether `constant` stands there.
    pub constant: bool,
    /// The subtype.
    pub subtype: SubtypeIndication,
    /// The initial value.
    pub initial: Option<Expression>,
}

impl Drop for ObjectDeclaration {
    fn drop(self) {
        let ObjectDeclaration {
            names: _,
            aliased: _,
            constant: _,
            subtype: _,
            initial: _,
        } = self;
    }
}

/// `NAME {, NAME} : SUBTYPE [:= EXPRESSION];`, a component (3.8)
pub struct Component {
    /// The components.
    pub names: OneOrMore<Identifier>,
    /// The subtype.
    pub subtype: SubtypeIndication,
    /// The initial value.
    pub initial: Option<Expression>,
}

impl Drop for Component {
    fn drop(self) {
        let Component {
            names: _,
            subtype: _,
            initial: _,
        } = self;
    }
}

/// `type NAME is DEFINITION;` (3.2.1)
pub struct TypeDeclaration {
    /// The place of `type`.
    pub place: Place,
    /// The type.
    pub name: Identifier,
    /// Its definition.
    pub definition: TypeDefinition,
}

impl Drop for TypeDeclaration {
    fn drop(self) {
        let TypeDeclaration {
            place: _,
            name: _,
            definition: _,
        } = self;
    }
}

/// How a type is defined.
pub enum TypeDefinition {
    /// `(NAME {, NAME})` (3.5.1)
    Enumeration {
        /// The literals.
        literals: OneOrMore<Identifier>,
    },
    /// `array (LOW .. HIGH) of SUBTYPE` (3.6)
    Array {
        /// The least index.
        low: Expression,
        /// The greatest index.
        high: Expression,
        /// The subtype of a component.
        component: SubtypeIndication,
    },
    /// `new NAME with RECORD` (3.9.1)
    Derived {
        /// The parent type.
        parent: Name,
        /// The components; none where `null record` stands there.
        components: Option<OneOrMore<Component>>,
    },
}

impl Drop for TypeDefinition {
    fn drop(self) {
        match self {
            TypeDefinition::Enumeration { literals: _ } => (),
            TypeDefinition::Array {
                low: _,
                high: _,
                component: _,
            } => (),
            TypeDefinition::Derived {
                parent: _,
                components: _,
            } => (),
        }
    }
}

/// `subtype NAME is SUBTYPE;` (3.2.2)
pub struct SubtypeDeclaration {
    /// The place of `subtype`.
    pub place: Place,
    /// The subtype.
    pub name: Identifier,
    /// What it is.
    pub subtype: SubtypeIndication,
}

impl Drop for SubtypeDeclaration {
    fn drop(self) {
        let SubtypeDeclaration {
            place: _,
            name: _,
            subtype: _,
        } = self;
    }
}

/// `NAME {, NAME} : [in] [out] SUBTYPE` (6.1)
pub struct Parameter {
    /// The formals.
    pub names: OneOrMore<Identifier>,
    /// Whether `in` stands there.
    pub is_in: bool,
    /// Whether `out` stands there.
    pub is_out: bool,
    /// The subtype.
    pub subtype: SubtypeIndication,
}

impl Drop for Parameter {
    fn drop(self) {
        let Parameter {
            names: _,
            is_in: _,
            is_out: _,
            subtype: _,
        } = self;
    }
}

/// `NAME [=> EXPRESSION]`, an aspect (13.1.1)
pub struct Aspect {
    /// The aspect.
    pub name: Identifier,
    /// Its value.
    pub value: Option<Expression>,
}

impl Drop for Aspect {
    fn drop(self) {
        let Aspect { name: _, value: _ } = self;
    }
}

/// `[overriding] (procedure | function) NAME [PARAMETERS] [return SUBTYPE] [ASPECTS]` (6.1, 8.3.1)
pub struct SubprogramSpecification {
    /// The place of `overriding`, where it stands there.
    pub overriding: Option<Place>,
    /// The place of `procedure` or `function`.
    pub place: Place,
    /// The subprogram.
    pub name: Identifier,
    /// The parameters; empty where no bracket stands.
    pub parameters: Items<Parameter>,
    /// The result's subtype: a function has one, and a procedure has none.
    pub result: Option<SubtypeIndication>,
    /// The aspects; empty where no `with` stands.
    pub aspects: Items<Aspect>,
}

impl Drop for SubprogramSpecification {
    fn drop(self) {
        let SubprogramSpecification {
            overriding: _,
            place: _,
            name: _,
            parameters: _,
            result: _,
            aspects: _,
        } = self;
    }
}

/// `entry NAME [PARAMETERS];` (9.5.2)
pub struct EntryDeclaration {
    /// The place of `entry`.
    pub place: Place,
    /// The entry.
    pub name: Identifier,
    /// The parameters; empty where no bracket stands.
    pub parameters: Items<Parameter>,
}

impl Drop for EntryDeclaration {
    fn drop(self) {
        let EntryDeclaration {
            place: _,
            name: _,
            parameters: _,
        } = self;
    }
}

/// `task [type] NAME [ASPECTS] [is {ENTRY} end [NAME]];` (9.1)
pub struct TaskDeclaration {
    /// The place of `task`.
    pub place: Place,
    /// Whether `type` stands there.
    pub is_type: bool,
    /// The task or the task type.
    pub name: Identifier,
    /// The aspects; empty where no `with` stands.
    pub aspects: Items<Aspect>,
    /// What stands behind `is`.
    pub definition: Option<TaskDefinition>,
}

impl Drop for TaskDeclaration {
    fn drop(self) {
        let TaskDeclaration {
            place: _,
            is_type: _,
            name: _,
            aspects: _,
            definition: _,
        } = self;
    }
}

/// `is {ENTRY} end [NAME]` (9.1)
pub struct TaskDefinition {
    /// The entries.
    pub entries: Items<EntryDeclaration>,
    /// Whether the task's name stands again behind `end`.
    pub named_at_end: bool,
}

impl Drop for TaskDefinition {
    fn drop(self) {
        let TaskDefinition {
            entries: _,
            named_at_end: _,
        } = self;
    }
}

/// `protected [type] NAME [ASPECTS] is {OPERATION} [private {COMPONENT}] end [NAME];` (9.4)
pub struct ProtectedDeclaration {
    /// The place of `protected`.
    pub place: Place,
    /// Whether `type` stands there.
    pub is_type: bool,
    /// The protected object or type.
    pub name: Identifier,
    /// The aspects; empty where no `with` stands.
    pub aspects: Items<Aspect>,
    /// The operations.
    pub operations: Items<ProtectedOperation>,
    /// The components, where `private` stands there.
    pub components: Option<Items<Component>>,
    /// Whether the name stands again behind `end`.
    pub named_at_end: bool,
}

impl Drop for ProtectedDeclaration {
    fn drop(self) {
        let ProtectedDeclaration {
            place: _,
            is_type: _,
            name: _,
            aspects: _,
            operations: _,
            components: _,
            named_at_end: _,
        } = self;
    }
}

/// An operation that a protected declaration names (9.4).
pub enum ProtectedOperation {
    /// A procedure or a function.
    Subprogram(SubprogramSpecification),
    /// An entry.
    Entry(EntryDeclaration),
}

impl Drop for ProtectedOperation {
    fn drop(self) {
        match self {
            ProtectedOperation::Subprogram(_) => (),
            ProtectedOperation::Entry(_) => (),
        }
    }
}

/// `protected body NAME is {OPERATION} end [NAME];` (9.4)
pub struct ProtectedBody<Q> {
    /// The place of `protected`.
    pub place: Place,
    /// The protected unit.
    pub name: Identifier,
    /// The operations.
    pub operations: Items<OperationBody<Q>>,
    /// Whether the name stands again behind `end`.
    pub named_at_end: bool,
}

impl<Q: Drop> Drop for ProtectedBody<Q> {
    fn drop(self) {
        let ProtectedBody {
            place: _,
            name: _,
            operations: _,
            named_at_end: _,
        } = self;
    }
}

/// A body in a protected body (9.4).
pub enum OperationBody<Q> {
    /// A procedure's or a function's.
    Subprogram {
        /// Its specification.
        specification: SubprogramSpecification,
        /// What stands behind `is`.
        body: Body<Q>,
    },
    /// An entry's.
    Entry {
        /// The entry's head.
        head: EntryHead,
        /// What stands behind `is`.
        body: Body<Q>,
    },
}

impl<Q: Drop> Drop for OperationBody<Q> {
    fn drop(self) {
        match self {
            OperationBody::Subprogram {
                specification: _,
                body: _,
            } => (),
            OperationBody::Entry { head: _, body: _ } => (),
        }
    }
}

/// `entry NAME [PARAMETERS] when EXPRESSION` (9.5.2)
pub struct EntryHead {
    /// The place of `entry`.
    pub place: Place,
    /// The entry.
    pub name: Identifier,
    /// The parameters; empty where no bracket stands.
    pub parameters: Items<Parameter>,
    /// The barrier.
    pub barrier: Expression,
}

impl Drop for EntryHead {
    fn drop(self) {
        let EntryHead {
            place: _,
            name: _,
            parameters: _,
            barrier: _,
        } = self;
    }
}
