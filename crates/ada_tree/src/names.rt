//! Identifiers, names, and the lists of the grammar.
use crate::Bytes;
use ann_base::Place;
use sqlite_items::Items;

/// An identifier: a word that is not reserved (ISO/IEC 8652:2012, 2.3, 2.9).
pub struct Identifier {
    /// Where it stands.
    pub place: Place,
    /// The word in lower case.
    pub text: Bytes,
}

impl Drop for Identifier {
    fn drop(self) {
        let Identifier { place: _, text: _ } = self;
    }
}

/// A list of the grammar that has one item at least, in the order of the text.
pub struct OneOrMore<T> {
    /// The first item.
    pub first: T,
    /// Those behind it.
    pub others: Items<T>,
}

impl<T: Drop> Drop for OneOrMore<T> {
    fn drop(self) {
        let OneOrMore {
            first: _,
            others: _,
        } = self;
    }
}

/// A direct name or an expanded name: identifiers with points between them (4.1, 4.1.3).
pub struct Name {
    /// The identifiers, the prefix first.
    pub parts: OneOrMore<Identifier>,
}

impl Drop for Name {
    fn drop(self) {
        let Name { parts: _ } = self;
    }
}
