//! The rules of legality.
ghost use Rattle.std.specs.Prelude.{◌≡◌};
ghost use Rattle.ada_legality.specs.Faults.{number_of_rule};

/// A rule of legality of the profile. The clause is that of ISO/IEC 8652:2012; a profile's own rule
/// says so.
#[derive(Clone, Copy)]
pub enum Rule {
    /// A with clause names a library unit, and a unit is used under a with clause alone (10.1.2,
    /// 10.1.6).
    LibraryUnits,
    /// A package's body follows its declaration, and stands where it is needed (7.2, 10.1.4).
    PackageBodies,
    /// The main procedure is the last unit (this profile's own; 10.2).
    MainProcedureLast,
    /// What is declared has one body, with its profile, in its declarative part (3.11.1, 6.3, 9.1,
    /// 9.4, 9.5.2).
    Completions,
    /// A name denotes an entity of the kind that may stand there (8.6).
    KindOfName,
    /// The bounds of subtypes and arrays are static, and arrays are short and of scalars (3.5, 3.6;
    /// this profile's own).
    StaticBounds,
    /// An Integer literal is a value of Integer (4.9, 3.5.4).
    IntegerLiteral,
    /// A literal with a point is a value of Duration (9.6; this profile's own).
    DurationLiteral,
    /// An expression has the type that is expected (8.6).
    ExpectedType,
    /// An operator has operands for which it is defined (4.5).
    OperandTypes,
    /// What is assigned is a variable (5.2).
    AssignedVariable,
    /// Actuals fit the formals (6.4.1).
    Actuals,
    /// A function's call stands alone (this profile's own; 6.4).
    FunctionCallAlone,
    /// Limited objects have no initial value, and are not copied (7.5).
    LimitedObject,
    /// Conditions are Boolean; choices are static, distinct and complete (5.3, 5.4, 5.5, 5.7).
    ConditionsAndChoices,
    /// An exit leaves a loop, and no body (5.7).
    ExitFromLoop,
    /// A return has a value in a function alone, and a function has a return (6.5, 6.3).
    ReturnStatement,
    /// A raise without a name stands in a handler; the choices of handlers are distinct (11.2,
    /// 11.3).
    RaiseAndHandlers,
    /// An accept statement stands in the body of its task (9.5.2).
    AcceptStatement,
    /// The alternatives of a selective accept (9.7.1).
    SelectiveAccept,
    /// The trigger of an asynchronous select, and no accept statement in it (9.7.4).
    AsynchronousSelect,
    /// A timed or conditional call calls an entry (9.7.2, 9.7.3).
    EntryCallAlternative,
    /// Task objects are aborted (9.8).
    AbortedTask,
    /// What a barrier is built of (this profile's own; 9.5.2).
    EntryBarrier,
    /// Components of protected objects, and functions that leave them as they are (9.4, 9.5.1).
    ProtectedComponents,
    /// The aspects Priority and Interrupt_Priority (D.1, D.3).
    PriorityAspect,
    /// The aspect CPU (D.16).
    CpuAspect,
    /// A handler is a procedure of a library-level protected object (C.3.1, D.14.1, D.14.2, D.15).
    HandlerProcedure,
    /// The aspect Attach_Handler (C.3.1).
    AttachedInterrupt,
    /// Configuration pragmas (2.8, D.2.2, D.3, D.4).
    ConfigurationPragma,
    /// What a source with an EDF range keeps (D.2.6; this profile's own).
    DeadlineScheduling,
    /// The aspect Relative_Deadline (D.2.6).
    RelativeDeadlineAspect,
    /// What overrides the operations of a controlled type (7.6, 8.3.1).
    ControlledOperations,
    /// Events, timers and group budgets stand in library packages (this profile's own; D.14, D.15).
    LibraryLevelObject,
    /// A requeue statement, and its entry (9.5.4).
    RequeueStatement,
    /// A restriction that is in force (13.12, D.7).
    Restriction,
    /// No type but Timer has a discriminant (this profile's own; 3.7, D.14.1).
    Discriminant,
    /// The limits of the profile (this profile's own).
    Limit,
    /// The forms of Put_Line (this profile's own; A.10.7).
    PutLineForm,
}

/// The number of a rule, as the note of a refusal has it.
pub fn number_of_rule(rule: Rule) -> u32
    ensures { result ≡ number_of_rule rule }
{
    match rule {
        Rule::LibraryUnits => 1,
        Rule::PackageBodies => 2,
        Rule::MainProcedureLast => 3,
        Rule::Completions => 4,
        Rule::KindOfName => 5,
        Rule::StaticBounds => 6,
        Rule::IntegerLiteral => 7,
        Rule::DurationLiteral => 8,
        Rule::ExpectedType => 9,
        Rule::OperandTypes => 10,
        Rule::AssignedVariable => 11,
        Rule::Actuals => 12,
        Rule::FunctionCallAlone => 13,
        Rule::LimitedObject => 14,
        Rule::ConditionsAndChoices => 15,
        Rule::ExitFromLoop => 16,
        Rule::ReturnStatement => 17,
        Rule::RaiseAndHandlers => 18,
        Rule::AcceptStatement => 19,
        Rule::SelectiveAccept => 20,
        Rule::AsynchronousSelect => 21,
        Rule::EntryCallAlternative => 22,
        Rule::AbortedTask => 23,
        Rule::EntryBarrier => 24,
        Rule::ProtectedComponents => 25,
        Rule::PriorityAspect => 26,
        Rule::CpuAspect => 27,
        Rule::HandlerProcedure => 28,
        Rule::AttachedInterrupt => 29,
        Rule::ConfigurationPragma => 30,
        Rule::DeadlineScheduling => 31,
        Rule::RelativeDeadlineAspect => 32,
        Rule::ControlledOperations => 33,
        Rule::LibraryLevelObject => 34,
        Rule::RequeueStatement => 35,
        Rule::Restriction => 36,
        Rule::Discriminant => 37,
        Rule::Limit => 38,
        Rule::PutLineForm => 39,
    }
}
