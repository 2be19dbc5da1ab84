//! Laws of names: what the table of the names of a source says at a position is what the position
//! in the text says (ISO/IEC 8652:2012, clause 8). Each is the contract of a function that does
//! nothing, and holds of every source in which each body of a task or protected unit completes a
//! unit of the region around it, and is its only body.
//!
//! `specs/` says what positions say, without a table, and states the laws. A position is what
//! stands before it. `proofs/Names/Kept*` go through a text occurrence by occurrence, and keep that
//! the table's regions, bindings and entities are those of the positions; `Flags`, `Untouched` and
//! `Exports*` do so for what packages export, `Noted` for what is kept of the name at a place,
//! `WithsKept` and `UsesKept` for with and use clauses. `Shows` says what a clause makes visible,
//! `Joined` what all do, and `UseNames` with it what each name denotes. `Texts`, and what stands on
//! it, says how the occurrences of a tree follow one another.
ghost use Rattle.source_laws.specs.NameLaws.{TableAtTheEnd, RegionsByPosition};
ghost use Rattle.source_laws.specs.NameLaws.{OpenRegionsByPosition};
ghost use Rattle.source_laws.specs.NameLaws.{DeclarationsByPosition, DirectlyByPosition};
ghost use Rattle.source_laws.specs.NameLaws.{ExportsByPosition, DirectNamesByPosition};
ghost use Rattle.source_laws.specs.NameLaws.{MeaningsByPosition, NamesByPosition};

/// The table at the end of a source is the table of the source.
#[tactic(auto, using(crate::proofs::Names::Lawful::table_at_the_end))]
pub fn table_at_the_end()
    ensures { TableAtTheEnd }
{}

/// Two positions stand in one region by the table exactly where they do by the text: the regions
/// around them are found by going back, and a body has the region of its declaration.
#[tactic(auto, using(crate::proofs::Names::Lawful::regions_by_position))]
pub fn regions_by_position()
    ensures { RegionsByPosition }
{}

/// At each position as many regions are open as stand around it, beside that of Standard.
#[tactic(auto, using(crate::proofs::Names::Lawful::open_regions_by_position))]
pub fn open_regions_by_position()
    ensures { OpenRegionsByPosition }
{}

/// What a region binds to a name at a position is where the name is declared in that region before
/// it, at the nearest such place, or that it is hidden.
pub fn declarations_by_position()
    ensures { DeclarationsByPosition }
{}

/// What is visible directly under a name at a position, without use clauses, is the declaration
/// that stands before it in the innermost region around it that has one, and what Standard has
/// where none does.
#[tactic(auto, using(crate::proofs::Names::Lawful::directly_by_position))]
pub fn directly_by_position()
    ensures { DirectlyByPosition }
{}

/// What a use clause for a package of the source makes visible at a position is what the package's
/// declaration declares directly, outside its private part, at the nearest place before.
pub fn exports_by_position()
    ensures { ExportsByPosition }
{}

/// Where no two names stand at one place, each direct name that its regions or Standard declare
/// denotes by the table of the source what it means by its position.
pub fn direct_names_by_position()
    ensures { DirectNamesByPosition }
{}

/// Where no two names stand at one place, each direct name denotes by the table of the source what
/// it means by its position, use clauses included; and so the table and the positions agree on all
/// names of the source, as it is computed.
pub fn names_by_position()
    ensures each { MeaningsByPosition }
    ensures all { NamesByPosition }
{}
