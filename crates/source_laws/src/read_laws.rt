//! Laws of what is read from a source: it meets the premises of the laws of names.
//!
//! `proofs/Sources/Counting` counts how often names stand at a place, in what a tree tells of names
//! and in how it is spelt. `Expressions` to `Units` go through a tree: at no place stand more names
//! than identifiers of the spelling. `Rising` says that the tokens of a source stand at places of
//! their own, and `Apart` puts both together. `Changes` and `Traces` say from where a table knows
//! that a unit has a body, and `FirstBodies` and `KnownBodies` what that means by position. `Quiet`
//! to `ToldUnits` go through a tree beside what legality finds in it: that is worth at least what
//! the tree tells of task and protected units and their bodies. `Founded` says where a unit was
//! declared, `Faultless` what was found where no rule is broken, and `Unbroken` puts all together.
ghost use Rattle.source_laws.specs.SourceLaws.{NamesStandApart, ReadNamesByPosition};
ghost use Rattle.source_laws.specs.SourceLaws.{BodiesCompleteWhereKnown};
ghost use Rattle.source_laws.specs.SourceLaws.{UnbrokenBodiesComplete, UnbrokenNamesByPosition};

/// No two names of a tree that is read from a source stand at one place.
pub fn names_stand_apart()
    ensures { NamesStandApart }
{}

/// Each direct name of a tree that is read from a source denotes by its table what it means by its
/// position, where each body of a task or protected unit completes a unit.
pub fn read_names_by_position()
    ensures { ReadNamesByPosition }
{}

/// Where by the table of a source each body of a task or protected unit denotes a unit of its kind
/// that has a body, and is the only one that does, each completes a unit that the region around it
/// declares, and is its only body.
pub fn bodies_complete_where_known()
    ensures { BodiesCompleteWhereKnown }
{}

/// In a source that breaks no rule of legality each body of a task or protected unit completes a
/// unit that the region around it declares, and is its only body.
pub fn unbroken_bodies_complete()
    ensures { UnbrokenBodiesComplete }
{}

/// Each direct name of a source that breaks no rule of legality denotes by its table what it means
/// by its position.
pub fn unbroken_names_by_position()
    ensures { UnbrokenNamesByPosition }
{}
