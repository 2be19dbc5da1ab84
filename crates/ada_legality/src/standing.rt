//! What is known where a construct stands.
ghost use Rattle.std.specs.Prelude.{◌≡◌};

use crate::numbers::Number;
use ada_image::{ListOf, NamesOf};
use ada_regions::{AdaType, Occurrences, Subtype};
use ann_base::Place;
use std::marker::Model;
use world_tables::List;

/// A task unit or a protected unit whose body is open (9.1, 9.4).
#[derive(Clone, Copy)]
pub struct UnitAround {
    /// The entity that its name denotes.
    pub entity: Option<u32>,
    /// Its type.
    pub of_type: Option<AdaType>,
}

/// The body of a subprogram that is open (6.3).
#[derive(Clone, Copy)]
pub struct SubprogramAround {
    /// The word `procedure` or `function`.
    pub place: Place,
    /// Its first word.
    pub begins: Place,
    /// Of a function: the type of its result, where it is known.
    pub result: Option<Option<AdaType>>,
}

/// A construct around another one.
#[derive(Clone, Copy)]
pub enum Around {
    /// A library package (7.1).
    Package,
    /// The main procedure (10.2).
    Main,
    /// A subprogram's body (6.3).
    Subprogram(SubprogramAround),
    /// A task's body (9.1).
    Task(UnitAround),
    /// A protected body (9.4).
    Protected(UnitAround),
    /// An entry's body with its barrier, by the entity that its name denotes (9.5.2).
    Entry(Option<u32>),
    /// An accept statement, by the entity that its name denotes (9.5.2).
    Accept(Option<u32>),
    /// A loop, by the entity of its name (5.5).
    Loop(Option<u32>),
    /// A handler (11.2).
    Handler,
    /// A part of an asynchronous select behind its trigger (9.7.4).
    AsynchronousSelect,
}

/// A loop parameter that is visible (5.5).
#[derive(Clone, Copy)]
pub struct LoopParameter {
    /// Its entity.
    pub entity: u32,
    /// Its subtype.
    pub subtype: Option<Subtype>,
}

/// What the pragmas of a source forbid or limit (2.8, 13.12, D.7).
#[derive(Clone, Copy)]
pub struct InForce {
    /// No_Task_Hierarchy.
    pub no_task_hierarchy: bool,
    /// No_Abort_Statements.
    pub no_abort_statements: bool,
    /// No_Dynamic_Priorities.
    pub no_dynamic_priorities: bool,
    /// No_Relative_Delay.
    pub no_relative_delay: bool,
    /// No_Select_Statements.
    pub no_select_statements: bool,
    /// No_Terminate_Alternatives.
    pub no_terminate_alternatives: bool,
    /// Simple_Barriers.
    pub simple_barriers: bool,
    /// Max_Task_Entries.
    pub max_task_entries: Option<Number>,
    /// Max_Protected_Entries.
    pub max_protected_entries: Option<Number>,
    /// Max_Select_Alternatives.
    pub max_select_alternatives: Option<Number>,
    /// Whether Max_Entry_Queue_Length stands there.
    pub has_longest_queue: bool,
    /// Whether some priorities are dispatched by deadlines (D.2.6).
    pub has_deadlines: bool,
}

/// The occurrences of names in a source. Contracts see their list.
#[derive(Drop)]
pub struct OccurrencesOf<'n, 't> {
    occurrences: &'n Occurrences<'t>,
}

impl<'n, 't> Model for OccurrencesOf<'n, 't> {
    ghost use Rattle.std.specs.Prelude.{List};
    ghost use Rattle.ada_regions.specs.Occurrences.{Occurrence};
    ghost use Rattle.ada_tree.specs.contracts.expressions.Expression as e;
    ghost use Rattle.std.specs.Coded.{codes};

    ghost Value = { List Occurrence };

    ghost coded = { Prim.hlevel (codes, e.the_row.coded) };

    ghost view = { λ part. part.occurrences.now };
}

impl<'n, 't> OccurrencesOf<'n, 't> {
    /// These.
    pub fn new(occurrences: &'n Occurrences<'t>) -> Self
        ensures { result ≡ occurrences.now }
    {
        OccurrencesOf { occurrences }
    }

    /// The list.
    pub fn get(&self) -> &'n Occurrences<'t>
        ensures { result.now ≡ self.now }
    {
        self.occurrences
    }
}

/// What is known where a construct stands.
pub struct Known<'n, 't> {
    /// What names denote.
    pub names: NamesOf<'n, 't>,
    /// What stands around it, the innermost first.
    pub around: List<Around>,
    /// The loop parameters that are visible, the innermost first.
    pub loops: List<LoopParameter>,
    /// The types of the indexes of the source's array types, by their numbers.
    pub indexes: ListOf<'n, AdaType>,
    /// What the pragmas forbid or limit.
    pub in_force: InForce,
    /// The names of the whole source.
    pub occurrences: OccurrencesOf<'n, 't>,
}

// Written out, so that it is proved once, and not by each function that drops one.
impl Drop for Known<'_, '_> {
    fn drop(self) {
        let Known {
            names: _,
            around: _,
            loops: _,
            indexes: _,
            in_force: _,
            occurrences: _,
        } = self;
    }
}
