//! The items of a program by their numbers.
ghost use Rattle.std.specs.Prelude.{◌≡◌, length};
ghost use Rattle.machine_program.specs.Items.{no_items};
ghost use Rattle.profile_image.specs.Program.{declaration_of, expression_of, statement_of};
ghost use Rattle.profile_image.specs.Program.{form_of, next_of, scope_of, subprogram_of};
ghost use Rattle.profile_image.specs.Program.{task_unit_of, protected_unit_of, entry_of};
ghost use Rattle.profile_image.specs.Program.{controlled_of, literals_of};

use profile_image::{
    Constraint, ControlledNo, ControlledType, DeclNo, Declaration, DeclarationKind, Entry, EntryNo,
    EntryUnit, EnumerationNo, ExprNo, Expression, Image, ImageList, MainProcedure, Policies,
    ProtectedUnit, ProtectedUnitNo, Scope, ScopeNo, Statement, StatementForm, StatementNo,
    Subprogram, SubprogramNo, TaskUnit, TaskUnitNo, Text, Value,
};
use std::alloc::Global;
use std::marker::Model;

/// A program that is run. Contracts see its image.
pub struct Program {
    image: Image,
    nothing: Nothing,
}

// Written out, so that it is proved once, and not by each function that drops one.
impl Drop for Program {
    fn drop(self) {
        let Program {
            image: _,
            nothing: _,
        } = self;
    }
}

/// What a number leads to that names no item.
struct Nothing {
    declaration: Declaration,
    statement: Statement,
    scope: Scope,
    subprogram: Subprogram,
    task_unit: TaskUnit,
    protected_unit: ProtectedUnit,
    entry: Entry,
    controlled: ControlledType,
}

// Written out, so that it is proved once, and not by each function that drops one.
impl Drop for Nothing {
    fn drop(self) {
        let Nothing {
            declaration: _,
            statement: _,
            scope: _,
            subprogram: _,
            task_unit: _,
            protected_unit: _,
            entry: _,
            controlled: _,
        } = self;
    }
}

impl Model for Program {
    ghost use Rattle.std.specs.Prelude.{◌≡◌};
    ghost use Rattle.profile_image.specs.declared.image.Image.{Image};
    ghost use Rattle.machine_program.specs.Items.{no_items};

    ghost Value = { Image };

    ghost view = { λ program. program.image };

    ghost invariant = { λ program. program.nothing ≡ no_items };
}

impl Program {
    /// The program with this image. It takes no memory.
    pub fn of(alloc: Global, image: Image) -> Program
        ensures { result ≡ image }
    {
        Program {
            image,
            nothing: items_of_none(alloc),
        }
    }
}

fn items_of_none(alloc: Global) -> Nothing
    ensures { result ≡ no_items }
{
    Nothing {
        declaration: Declaration {
            name: ImageList::new(alloc),
            expanded: ImageList::new(alloc),
            kind: DeclarationKind::Other,
            scope: ScopeNo(0),
            place: 0,
            cells: 0,
            constraint: Constraint::Free,
            index: None,
        },
        statement: Statement {
            form: StatementForm::Null,
            signs: 0,
            next: None,
        },
        scope: Scope {
            outer: None,
            size: 0,
            cells: ImageList::new(alloc),
            kept: false,
            first: None,
        },
        subprogram: Subprogram {
            name: ImageList::new(alloc),
            scope: ScopeNo(0),
            formals: ImageList::new(alloc),
            result: None,
            unit: None,
        },
        task_unit: TaskUnit {
            scope: ScopeNo(0),
            priority: None,
            relative_deadline: None,
            entries: ImageList::new(alloc),
        },
        protected_unit: ProtectedUnit {
            ceiling: 0,
            entries: ImageList::new(alloc),
            components: ImageList::new(alloc),
            attached: ImageList::new(alloc),
        },
        entry: Entry {
            name: ImageList::new(alloc),
            unit: EntryUnit::Task(TaskUnitNo(0)),
            place: 0,
            formals: ImageList::new(alloc),
            body: None,
        },
        controlled: ControlledType {
            components: ImageList::new(alloc),
            initialize: None,
            finalize: None,
            adjust: None,
        },
    }
}

/// The declaration with this number.
pub fn declaration_of(p: &Program, d: DeclNo) -> &Declaration
    ensures { result.now ≡ declaration_of p.now d }
{
    p.image
        .declarations
        .as_slice()
        .get(d.0 as usize)
        .unwrap_or(&p.nothing.declaration)
}

/// The expression with this number.
pub fn expression_of(p: &Program, e: ExprNo) -> Expression
    ensures { result ≡ expression_of p.now.expressions e }
{
    p.image
        .expressions
        .as_slice()
        .get(e.0 as usize)
        .copied()
        .unwrap_or(Expression::Known(Value::Whole(0)))
}

/// The statement with this number.
pub fn statement_of(p: &Program, s: StatementNo) -> &Statement
    ensures { result.now ≡ statement_of p.now s }
{
    p.image
        .statements
        .as_slice()
        .get(s.0 as usize)
        .unwrap_or(&p.nothing.statement)
}

/// What the statement is.
pub fn form_of(p: &Program, s: StatementNo) -> &StatementForm
    ensures { result.now ≡ form_of p.now s }
{
    &statement_of(p, s).form
}

/// What comes next, once it has been left normally.
pub fn next_of(p: &Program, s: StatementNo) -> Option<StatementNo>
    ensures { result ≡ next_of p.now s }
{
    statement_of(p, s).next
}

/// The scope with this number.
pub fn scope_of(p: &Program, s: ScopeNo) -> &Scope
    ensures { result.now ≡ scope_of p.now s }
{
    p.image
        .scopes
        .as_slice()
        .get(s.0 as usize)
        .unwrap_or(&p.nothing.scope)
}

/// The subprogram with this number.
pub fn subprogram_of(p: &Program, s: SubprogramNo) -> &Subprogram
    ensures { result.now ≡ subprogram_of p.now s }
{
    p.image
        .subprograms
        .as_slice()
        .get(s.0 as usize)
        .unwrap_or(&p.nothing.subprogram)
}

/// The task unit with this number.
pub fn task_unit_of(p: &Program, u: TaskUnitNo) -> &TaskUnit
    ensures { result.now ≡ task_unit_of p.now u }
{
    p.image
        .task_units
        .as_slice()
        .get(u.0 as usize)
        .unwrap_or(&p.nothing.task_unit)
}

/// The protected unit with this number.
pub fn protected_unit_of(p: &Program, u: ProtectedUnitNo) -> &ProtectedUnit
    ensures { result.now ≡ protected_unit_of p.now u }
{
    p.image
        .protected_units
        .as_slice()
        .get(u.0 as usize)
        .unwrap_or(&p.nothing.protected_unit)
}

/// The entry with this number.
pub fn entry_of(p: &Program, e: EntryNo) -> &Entry
    ensures { result.now ≡ entry_of p.now e }
{
    p.image
        .entries
        .as_slice()
        .get(e.0 as usize)
        .unwrap_or(&p.nothing.entry)
}

/// The controlled type with this number.
pub fn controlled_of(p: &Program, c: ControlledNo) -> &ControlledType
    ensures { result.now ≡ controlled_of p.now c }
{
    p.image
        .controlled_types
        .as_slice()
        .get(c.0 as usize)
        .unwrap_or(&p.nothing.controlled)
}

/// The literals of the enumeration type with this number.
pub fn literals_of(p: &Program, e: EnumerationNo) -> &[Text]
    ensures { result.now ≡ literals_of p.now e }
{
    match p.image.enumerations.as_slice().get(e.0 as usize) {
        Some(enumeration) => enumeration.literals.as_slice(),
        None => &[],
    }
}

/// What the pragmas of the program ask for at run time.
pub fn policies(p: &Program) -> &Policies
    ensures { result.now ≡ p.now.policies }
{
    &p.image.policies
}

/// The main procedure (10.2).
pub fn main_procedure(p: &Program) -> &MainProcedure
    ensures { result.now ≡ p.now.main }
{
    &p.image.main
}

/// The environment's scope.
pub fn environment(p: &Program) -> ScopeNo
    ensures { result ≡ p.now.environment }
{
    p.image.environment
}

/// How many expressions the program has.
pub fn expression_count(p: &Program) -> usize
    ensures { result ≡ length p.now.expressions }
{
    p.image.expressions.as_slice().len()
}
