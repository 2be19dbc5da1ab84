//! Parts of a tree with sequences of statements in them tell the names in them.
ghost use Rattle.std.specs.Prelude.{◌≡◌, ◌++◌, ◌∷◌, OnOk};
ghost use Rattle.std.specs.List.{flat_map};
ghost use Rattle.ada_regions.specs.Occurrences.{ends, if_there, one, private_from_here};
ghost use Rattle.ada_regions.specs.Shown.{occurrence_shown};

use ada_regions::{Occurrence, Occurrences};
use ada_tree::OneOrMore;
use ann_base::NoMemory;
use sqlite_items::Items;

/// A part of a sequence of statements (5.1, 3.11), which is told apart from the others.
#[derive(Clone, Copy)]
pub(crate) enum Part {
    /// Its declarations.
    Declarations,
    /// The labels of its statements and handlers.
    Labels,
    /// Its statements and handlers.
    Statements,
}

/// What is a sequence of statements: it tells its parts apart.
pub(crate) trait TellSequence {
    ghost use Rattle.std.specs.Prelude.{◌≡◌, ◌++◌, OnOk};
    ghost use Rattle.ada_regions.specs.Occurrences.{SequenceNames};
    ghost use Rattle.ada_occurrences.specs.Parts.{names_of};

    ghost names_in: { Self → SequenceNames };

    /// Tells this part.
    fn tell_part<'t>(
        &'t self,
        part: Part,
        occurrences: &mut Occurrences<'t>,
    ) -> Result<(), NoMemory>
        ensures { OnOk result
            (occurrences.new ≡ occurrences.old ++ names_of part (names_in self.now)) };
}

/// What has sequences of statements in it: it tells the names in it.
pub(crate) trait TellNested {
    ghost use Rattle.std.specs.Prelude.{◌≡◌, ◌++◌, OnOk};
    ghost use Rattle.ada_regions.specs.Occurrences.{Occurrences};

    ghost names: { Self → Occurrences };

    /// Tells them in the order of the text.
    fn tell_nested<'t>(&'t self, occurrences: &mut Occurrences<'t>) -> Result<(), NoMemory>
        ensures { OnOk result (occurrences.new ≡ occurrences.old ++ names self.now) };
}

/// Items one behind another.
fn tell_each_nested<'t, T: TellNested>(
    occurrences: &mut Occurrences<'t>,
    items: &'t [T],
) -> Result<(), NoMemory>
    ensures { OnOk result (occurrences.new ≡ occurrences.old ++ flat_map T.names items.now) }
{
    for item in items {
        item.tell_nested(occurrences)?;
    }
    Ok(())
}

impl<T: TellNested> TellNested for Items<T> {
    ghost use Rattle.std.specs.List.{flat_map};

    ghost names = { flat_map T.names };

    fn tell_nested<'t>(&'t self, occurrences: &mut Occurrences<'t>) -> Result<(), NoMemory> {
        tell_each_nested(occurrences, self.as_slice())
    }
}

impl<T: TellNested> TellNested for OneOrMore<T> {
    ghost use Rattle.ada_regions.specs.Occurrences.{in_all};

    ghost names = { in_all T.names };

    fn tell_nested<'t>(&'t self, occurrences: &mut Occurrences<'t>) -> Result<(), NoMemory> {
        self.first.tell_nested(occurrences)?;
        self.others.tell_nested(occurrences)
    }
}

impl<T: TellNested> TellNested for Option<T> {
    ghost use Rattle.ada_regions.specs.Occurrences.{if_there};

    ghost names = { if_there T.names };

    fn tell_nested<'t>(&'t self, occurrences: &mut Occurrences<'t>) -> Result<(), NoMemory> {
        match self {
            None => Ok(()),
            Some(item) => item.tell_nested(occurrences),
        }
    }
}

/// A region with what it holds.
pub(crate) fn tell_region<'t, T: TellNested>(
    occurrences: &mut Occurrences<'t>,
    begins: Occurrence<'t>,
    inside: &'t T,
) -> Result<(), NoMemory>
    ensures { OnOk result
        (occurrences.new
        ≡ occurrences.old ++ occurrence_shown begins.entry ∷ (T.names inside.now ++ one ends)) }
{
    occurrences.push(begins)?;
    inside.tell_nested(occurrences)?;
    occurrences.push(Occurrence::End)
}

/// The items behind `private`, where it stands there (7.3).
pub(crate) fn tell_private<'t, T: TellNested>(
    occurrences: &mut Occurrences<'t>,
    items: &'t Option<Items<T>>,
) -> Result<(), NoMemory>
    ensures { OnOk result
        (occurrences.new
        ≡ occurrences.old
        ++ if_there (λ items. private_from_here ∷ flat_map T.names items) items.now) }
{
    match items {
        None => Ok(()),
        Some(items) => {
            occurrences.push(Occurrence::PrivateFromHere)?;
            items.tell_nested(occurrences)
        }
    }
}
