//! What is found in a source: rules that are broken, and facts of which rules on the whole source
//! speak.
use crate::Fault;
use crate::numbers::Number;
use ann_base::Place;

/// A kind of declaration that has a body (3.11.1).
#[derive(Clone, Copy)]
pub enum BodyKind {
    /// A subprogram (6.1).
    Subprogram,
    /// A task unit (9.1).
    Task,
    /// A protected unit (9.4).
    Protected,
    /// An entry of a protected unit (9.5.2).
    ProtectedEntry,
}

/// An attached handler (C.3.1).
#[derive(Clone, Copy)]
pub struct Attached {
    /// The protected unit.
    pub unit: u32,
    /// Where the procedure begins.
    pub procedure: Place,
    /// The aspect.
    pub aspect: Place,
    /// The interrupt, where it is static.
    pub number: Option<Number>,
}

/// A protected object (9.4).
#[derive(Clone, Copy)]
pub struct ProtectedObject {
    /// Its unit.
    pub unit: u32,
    /// Whether its unit is declared with it.
    pub single: bool,
    /// Whether it stands in a library package.
    pub is_library: bool,
    /// Its name.
    pub place: Place,
}

/// A ceiling that a protected unit states, or has by default (D.3).
#[derive(Clone, Copy)]
pub struct Ceiling {
    /// The unit.
    pub unit: Option<u32>,
    /// The one that is stated.
    pub stated: Option<Number>,
    /// Where it is stated, else where the unit begins.
    pub place: Place,
}

/// What is found.
#[derive(Clone, Copy)]
pub enum Finding {
    /// A rule is broken.
    Broken(Fault),
    /// A declaration that needs a body.
    Declared {
        /// Its kind.
        kind: BodyKind,
        /// Its entity.
        entity: u32,
        /// Where it begins.
        place: Place,
    },
    /// A body.
    Completed {
        /// Its kind.
        kind: BodyKind,
        /// The entity that its name denotes.
        entity: u32,
    },
    /// A body whose profile is not that of its declaration.
    OtherProfile {
        /// Its kind.
        kind: BodyKind,
        /// The entity.
        entity: u32,
    },
    /// The body of a function.
    Function {
        /// The word `function`.
        function: Place,
        /// Where it begins.
        place: Place,
    },
    /// A return statement of a function.
    Returned {
        /// The word `function`.
        function: Place,
    },
    /// A handler is attached.
    Attached(Attached),
    /// A protected object.
    ProtectedObject(ProtectedObject),
    /// A protected unit whose stated priority is not the highest.
    OtherCeiling {
        /// The unit.
        unit: u32,
        /// Where its declaration begins.
        place: Place,
    },
    /// The base priority of the main procedure or of a task, where it is stated (D.1).
    MainPriority {
        /// The priority.
        number: Number,
        /// Where it is stated, else where the main procedure begins.
        place: Place,
    },
    /// That of a task.
    TaskPriority {
        /// The priority.
        number: Number,
        /// Where it is stated.
        place: Place,
    },
    /// A ceiling.
    Ceiling(Ceiling),
    /// An aliased constant of Task_Id.
    TaskConstant {
        /// Its entity.
        entity: u32,
    },
    /// A timer (D.14.1).
    Timer {
        /// The constant that its discriminant names, where it is one of a library package.
        task: Option<u32>,
        /// Its name.
        place: Place,
    },
    /// What has cells, by its number in the image.
    Cells {
        /// The number.
        number: u32,
        /// Where its declaration begins.
        place: Place,
    },
}

/// A range of priorities that is dispatched by deadlines (D.2.6).
#[derive(Clone, Copy)]
pub struct DeadlineRange {
    /// The pragma that gives it.
    pub place: Place,
    /// Its lowest priority.
    pub low: u32,
    /// Its highest priority.
    pub high: u32,
}
