//! What is being made of a text, and where what it is made of stands.
ghost use Rattle.std.specs.Prelude.{◌≡◌};

use ada_regions::Names;
use profile_image::{
    Declaration, Entry, Expression, ImageList, Statement, StatementNo, SubprogramNo, TaskUnit,
};
use std::marker::Model;
use world_tables::List;

/// The first action of a scope.
#[derive(Clone, Copy)]
pub struct FirstAction {
    /// The scope.
    pub scope: u32,
    /// Its first action; none where nothing stands in it.
    pub action: Option<StatementNo>,
}

/// What has been made so far. An expression and a statement are named by their numbers here, from
/// 0.
pub struct Lists {
    /// The expressions (clause 4).
    pub expressions: ImageList<Expression>,
    /// The statements and other actions (clauses 3, 5, 9).
    pub statements: List<Statement>,
    /// The first actions of scopes, the newest first.
    pub firsts: List<FirstAction>,
}

// Written out, so that it is proved once, and not by each function that drops one.
impl Drop for Lists {
    fn drop(self) {
        let Lists {
            expressions: _,
            statements: _,
            firsts: _,
        } = self;
    }
}

/// What has numbers of its own and expressions.
#[derive(Drop)]
pub struct MadeLists {
    /// The task units (9.1).
    pub task_units: ImageList<TaskUnit>,
    /// The entries (9.5.2).
    pub entries: ImageList<Entry>,
    /// The declarations (3.1).
    pub declarations: ImageList<Declaration>,
}

/// A loop that is open (ISO/IEC 8652:2012, 5.5).
#[derive(Clone, Copy)]
pub struct OpenLoop {
    /// The entity of its label, where it has one.
    pub label: Option<u32>,
    /// Its statement.
    pub statement: StatementNo,
}

/// The table of the names of a text. Contracts see the table.
#[derive(Drop)]
pub struct NamesOf<'n, 't> {
    names: &'n Names<'t>,
}

impl<'n, 't> Model for NamesOf<'n, 't> {
    ghost use Rattle.ada_regions.specs.declared.table.Names.{Names};
    ghost use Rattle.ada_regions.specs.contracts.table.Names as n;
    ghost use Rattle.std.specs.Prelude.{[]};
    ghost use mir.Syntax.{named};

    ghost Value = { Names };

    ghost coded = { (n.the_row (record { mir = named 0; lft = [] })).coded };

    ghost view = { λ part. part.names.now };
}

impl<'n, 't> NamesOf<'n, 't> {
    /// This table.
    pub fn new(names: &'n Names<'t>) -> Self
        ensures { result ≡ names.now }
    {
        NamesOf { names }
    }

    /// The table.
    pub fn get(&self) -> &'n Names<'t>
        ensures { result.now ≡ self.now }
    {
        self.names
    }
}

/// A list that is lent. Contracts see the list.
#[derive(Drop)]
pub struct ListOf<'n, T> {
    list: &'n List<T>,
}

impl<'n, T> Model for ListOf<'n, T> {
    ghost use Rattle.std.specs.Prelude.{List};

    ghost Value = { List T };

    ghost view = { λ part. part.list.now };
}

impl<'n, T> ListOf<'n, T> {
    /// This list.
    pub fn new(list: &'n List<T>) -> Self
        ensures { result ≡ list.now }
    {
        ListOf { list }
    }

    /// The list.
    pub fn get(&self) -> &'n List<T>
        ensures { result.now ≡ self.now }
    {
        self.list
    }
}

/// Where a statement or an expression stands. Its lists are lent, so that a place inside another
/// takes no memory.
#[derive(Drop)]
pub struct Within<'n, 't> {
    /// What names denote.
    pub names: NamesOf<'n, 't>,
    /// The innermost scope.
    pub scope: u32,
    /// The loops that are open, the innermost first.
    pub loops: ListOf<'n, OpenLoop>,
    /// The statement of the innermost construct that is open inside the body.
    pub construct: Option<StatementNo>,
    /// In a handler the scope that keeps its exception (11.3).
    pub handling: Option<u32>,
    /// The function whose body it is (6.5).
    pub function: Option<SubprogramNo>,
    /// The units around, the innermost first.
    pub units: ListOf<'n, u32>,
}

/// Where a sequence of statements stands: what is made of it depends on that.
#[derive(Clone, Copy)]
pub enum SequencePlace {
    /// The statements of a compound statement (clause 5).
    StatementsAlone,
    /// Statements and handlers behind declarations whose tasks they activate, if any, by the number
    /// of their part (9.2).
    BehindDeclarations(Option<u32>),
    /// All of a body or a block (3.11); a task's has the end of its activation.
    AsBody(bool),
}
