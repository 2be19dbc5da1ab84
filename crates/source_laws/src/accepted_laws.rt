//! Laws of every source that is read, and of every source that is accepted: each body, block and
//! accept has a scope of its own, so nothing of the source is lost in its image; and those of its
//! image and of its names, without a premise.
//!
//! `proofs/Accepted/Numbering` and `Beginning` say which scopes an occurrence adds to a table, and
//! `ScopeFolds` what the fold over a sequence gives at its parts. `Counting` puts side by side the
//! constructs of a text, what it tells of regions and how it is spelt, and `Statements` to `Units`
//! go through a tree: at no place stand more constructs than scopes that are numbered, and than
//! tokens. `Positions` says that places of their own have scopes of their own, `Lines` that no
//! token stands where the environment does, and `Own` puts all together. `Read` says that the tree
//! of an accepted source is the one that is read from its bytes, and `Kept` takes the laws of what
//! is read to it: no rule is broken in it, and each of its forms is one that an image has.
ghost use Rattle.source_laws.specs.ScopeLaws.{ScopesAreOwn, NothingReadIsLost};
ghost use Rattle.source_laws.specs.AcceptedLaws.{NothingAcceptedIsLost, AcceptedNamesByPosition};

/// In the table of names of each tree that is read from a source, each body, block and accept of it
/// has a scope of its own, and none has that of the environment.
pub fn scopes_are_own()
    ensures { ScopesAreOwn }
{}

/// Nothing is lost in the image of a tree that is read from a source, where its forms are those
/// that an image has: its scopes are own, so they need no premise.
pub fn nothing_read_is_lost()
    ensures { NothingReadIsLost }
{}

/// Nothing of an accepted source is lost: from its image the declarations and statements of its
/// tree can be read back, all of them, in order and with their parts.
pub fn nothing_accepted_is_lost()
    ensures { NothingAcceptedIsLost }
{}

/// Each direct name of an accepted source denotes by the table of its names what it means by its
/// position.
pub fn accepted_names_by_position()
    ensures { AcceptedNamesByPosition }
{}
