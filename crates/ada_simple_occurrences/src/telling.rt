//! Parts of a tree tell the names in them.
ghost use Rattle.std.specs.Prelude.{◌≡◌, ◌++◌, ◌∷◌, OnOk};
ghost use Rattle.std.specs.List.{flat_map};
ghost use Rattle.ada_regions.specs.Occurrences.{ends, if_there, in_all, one, private_from_here};
ghost use Rattle.ada_regions.specs.Shown.{occurrence_shown};
ghost use Rattle.ada_simple_occurrences.specs.Namings.{said_of};

use ada_regions::{Occurrence, Occurrences};
use ada_tree::{Component, Identifier, ObjectDeclaration, OneOrMore, Parameter};
use ann_base::NoMemory;
use sqlite_items::Items;

/// What tells the names in it.
pub trait Tell {
    ghost use Rattle.std.specs.Prelude.{◌≡◌, ◌++◌, OnOk};
    ghost use Rattle.ada_regions.specs.Occurrences.{Occurrences};

    ghost names: { Self → Occurrences };

    /// Tells them in the order of the text, or answers that memory ran out.
    fn tell<'t>(&'t self, occurrences: &mut Occurrences<'t>) -> Result<(), NoMemory>
        ensures { OnOk result (occurrences.new ≡ occurrences.old ++ names self.now) };
}

/// Tells items one behind another.
pub fn tell_each<'t, T: Tell>(
    occurrences: &mut Occurrences<'t>,
    items: &'t [T],
) -> Result<(), NoMemory>
    ensures { OnOk result (occurrences.new ≡ occurrences.old ++ flat_map T.names items.now) }
{
    for item in items {
        item.tell(occurrences)?;
    }
    Ok(())
}

impl<T: Tell> Tell for Items<T> {
    ghost use Rattle.std.specs.List.{flat_map};

    ghost names = { flat_map T.names };

    fn tell<'t>(&'t self, occurrences: &mut Occurrences<'t>) -> Result<(), NoMemory> {
        tell_each(occurrences, self.as_slice())
    }
}

impl<T: Tell> Tell for OneOrMore<T> {
    ghost use Rattle.ada_regions.specs.Occurrences.{in_all};

    ghost names = { in_all T.names };

    fn tell<'t>(&'t self, occurrences: &mut Occurrences<'t>) -> Result<(), NoMemory> {
        self.first.tell(occurrences)?;
        self.others.tell(occurrences)
    }
}

impl<T: Tell> Tell for Option<T> {
    ghost use Rattle.ada_regions.specs.Occurrences.{if_there};

    ghost names = { if_there T.names };

    fn tell<'t>(&'t self, occurrences: &mut Occurrences<'t>) -> Result<(), NoMemory> {
        match self {
            None => Ok(()),
            Some(item) => item.tell(occurrences),
        }
    }
}

/// An item and another behind it.
pub(crate) fn tell_both<'t, A: Tell, B: Tell>(
    occurrences: &mut Occurrences<'t>,
    first: &'t A,
    second: &'t B,
) -> Result<(), NoMemory>
    ensures { OnOk result
        (occurrences.new ≡ occurrences.old ++ (A.names first.now ++ B.names second.now)) }
{
    first.tell(occurrences)?;
    second.tell(occurrences)
}

/// What is said of each name of a list.
#[derive(Clone, Copy)]
pub enum Naming<'t> {
    /// It is hidden.
    Hide,
    /// It is declared as this object.
    Object(&'t ObjectDeclaration),
    /// It is declared as this component.
    Component(&'t Component),
    /// It is declared as this parameter.
    Parameter {
        /// Whether its construct has a cell for it.
        with_cells: bool,
        /// The parameter.
        parameter: &'t Parameter,
    },
    /// It is declared as a literal of an enumeration type.
    Literal,
    /// It is declared as an exception.
    Exception,
}

impl<'t> Naming<'t> {
    /// What it says of this name.
    fn occurrence(self, name: &'t Identifier) -> Occurrence<'t>
        ensures { occurrence_shown result ≡ said_of self.entry name.now }
    {
        match self {
            Naming::Hide => Occurrence::Hide { name },
            Naming::Object(object) => Occurrence::DeclareObject { name, object },
            Naming::Component(component) => Occurrence::DeclareComponent { name, component },
            Naming::Parameter {
                with_cells,
                parameter,
            } => Occurrence::DeclareParameter {
                name,
                with_cells,
                parameter,
            },
            Naming::Literal => Occurrence::DeclareLiteral { name },
            Naming::Exception => Occurrence::DeclareException { name },
        }
    }
}

/// One name.
fn tell_name<'t>(
    occurrences: &mut Occurrences<'t>,
    naming: Naming<'t>,
    name: &'t Identifier,
) -> Result<(), NoMemory>
    ensures { OnOk result
        (occurrences.new ≡ occurrences.old ++ one (said_of naming.entry name.now)) }
{
    occurrences.push(naming.occurrence(name))
}

/// Says this of names one behind another.
pub fn tell_names<'t>(
    occurrences: &mut Occurrences<'t>,
    naming: Naming<'t>,
    names: &'t OneOrMore<Identifier>,
) -> Result<(), NoMemory>
    ensures { OnOk result
        (occurrences.new
        ≡ occurrences.old ++ in_all (λ name. one (said_of naming.entry name)) names.now) }
{
    tell_name(occurrences, naming, &names.first)?;
    for name in names.others.as_slice() {
        tell_name(occurrences, naming, name)?;
    }
    Ok(())
}

/// Tells a region with what it holds.
pub(crate) fn tell_region<'t, T: Tell>(
    occurrences: &mut Occurrences<'t>,
    begins: Occurrence<'t>,
    inside: &'t T,
) -> Result<(), NoMemory>
    ensures { OnOk result
        (occurrences.new
        ≡ occurrences.old ++ occurrence_shown begins.entry ∷ (T.names inside.now ++ one ends)) }
{
    occurrences.push(begins)?;
    inside.tell(occurrences)?;
    occurrences.push(Occurrence::End)
}

/// Tells the items behind `private`, where it stands there (9.4).
pub(crate) fn tell_private<'t, T: Tell>(
    occurrences: &mut Occurrences<'t>,
    items: &'t Option<Items<T>>,
) -> Result<(), NoMemory>
    ensures { OnOk result
        (occurrences.new
        ≡ occurrences.old
        ++ if_there (λ items. private_from_here ∷ flat_map T.names items) items.now) }
{
    match items {
        None => Ok(()),
        Some(items) => {
            occurrences.push(Occurrence::PrivateFromHere)?;
            items.tell(occurrences)
        }
    }
}
