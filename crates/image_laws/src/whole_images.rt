//! Laws of images: nothing of a source is lost in what is made of it, and nothing is added. Each is
//! the contract of a function that does nothing.
//!
//! `specs/Built*` say of a text what an image has a form for. `ScopesOfText` and `ActionsOfText`
//! say which scopes a text begins, and how many actions it has. `proofs/Images/Steps` says what a
//! step of making leaves behind, and the files behind it go through the forms of the text: what is
//! made of each, in whatever lists, is read in each program that has the lists. `Keeping`,
//! `Opening*` and `Counting*` go through them once more, for the scopes and the actions.
ghost use Rattle.image_laws.specs.ImageLaws.{NothingIsAdded, NothingIsLost};

/// The image of each source that is built has the declarations and statements of its text: read
/// from the scopes, each leads to the next in the order of the text, is of its kind, and has its
/// parts.
#[tactic(auto, using(crate::proofs::Images::Whole::nothing_is_lost))]
pub fn nothing_is_lost()
    ensures { NothingIsLost }
{}

/// The image of each source has one action for each statement and each declared object of its text,
/// and beside them those that the language asks for, as the activation of tasks: no other.
#[tactic(auto, using(crate::proofs::Images::Whole::nothing_is_added))]
pub fn nothing_is_added()
    ensures { NothingIsAdded }
{}
