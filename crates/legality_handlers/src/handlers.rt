//! Exception handlers (ISO/IEC 8652:2012, 11.2): the exceptions of a sequence are distinct.
ghost use Rattle.std.specs.Prelude.{◌≡◌, ◌++◌, ◌≤◌, IfOk, OnOk, None, length, map, take};
ghost use Rattle.std.specs.List.{flat_map, list_any};
ghost use Rattle.ada_legality.specs.Words.{same_named};
ghost use Rattle.ada_legality.specs.Statements.{exceptions_named, handled_judged};
ghost use Rattle.ada_legality.specs.Statements.{others_before_last, repeated_names};
ghost use Rattle.legality_handlers.specs.Handled.{name_judged, others_behind, others_here};
ghost use Rattle.legality_handlers.specs.Handled.{others_place, repeated_along};

use ada_legality::{Finding, Known, Rule};
use ada_tree::{HandledExceptions, Handler, Name};
use ann_base::{NoMemory, Place};
use legality_entities::{names_exception, same_named};
use legality_types::{broken_if, broken_unless};
use legality_values::place_of;
use profile_image::ImageList;
use std::alloc::Global;
use std::marker::Model;
use world_tables::List;

/// A name that a handler handles. Contracts see the name.
#[derive(Drop)]
struct HandledName<'t> {
    name: &'t Name,
}

impl<'t> Model for HandledName<'t> {
    ghost use Rattle.ada_tree.specs.declared.names.Name.{Name};

    ghost Value = { Name };

    ghost view = { λ part. part.name.now };
}

impl<'t> HandledName<'t> {
    /// This name.
    fn new(name: &'t Name) -> Self
        ensures { result ≡ name.now }
    {
        HandledName { name }
    }

    /// The name.
    fn get(&self) -> &'t Name
        ensures { result.now ≡ self.now }
    {
        self.name
    }
}

/// Adds the names that a handler handles.
fn add_exceptions<'t>(
    names: &mut ImageList<HandledName<'t>>,
    exceptions: &'t HandledExceptions,
) -> Result<(), NoMemory>
    ensures { OnOk result (names.new ≡ names.old ++ exceptions_named exceptions.now) }
{
    match exceptions {
        HandledExceptions::Named(named) => {
            names.push(HandledName::new(&named.first))?;
            add_others(names, named.others.as_slice())
        }
        HandledExceptions::Others { .. } => Ok(()),
    }
}

/// Adds names.
fn add_others<'t>(
    names: &mut ImageList<HandledName<'t>>,
    others: &'t [Name],
) -> Result<(), NoMemory>
    ensures { OnOk result (names.new ≡ names.old ++ others.now) }
{
    for name in others {
        names.push(HandledName::new(name))?;
    }
    Ok(())
}

/// The names that the handlers of a sequence handle.
fn exceptions_of<'t, Q>(
    alloc: Global,
    handlers: &'t [Handler<Q>],
) -> Result<ImageList<HandledName<'t>>, NoMemory>
    ensures { IfOk result
        (λ names. names ≡ flat_map exceptions_named (map (λ h. h.exceptions) handlers.now)) }
{
    let mut names = ImageList::new(alloc);
    for handler in handlers {
        add_exceptions(&mut names, &handler.exceptions)?;
    }
    Ok(names)
}

/// The names before a place.
fn before_place<'a, 't>(names: &'a [HandledName<'t>], place: usize) -> &'a [HandledName<'t>]
    requires { place ≤ length names.now }
    ensures { result.now ≡ take place names.now }
{
    names.split_at(place).0
}

/// A name denotes what another one does.
fn is_repeated(known: &Known<'_, '_>, name: &Name, before: &[HandledName<'_>]) -> bool
    ensures { result ≡ list_any (same_named known.now.names name.now) before.now }
{
    before
        .iter()
        .any(|other| same_named(known.names.get(), name, other.get()))
}

/// An exception that an earlier choice names.
fn name_judged(
    found: &mut List<Finding>,
    known: &Known<'_, '_>,
    before: &[HandledName<'_>],
    name: &Name,
) -> Result<(), NoMemory>
    ensures { OnOk result (found.new ≡ found.old ++ name_judged known.now before.now name.now) }
{
    let is_exception = names_exception(known, name);
    broken_unless(found, Rule::KindOfName, is_exception, place_of(name))?;
    let broken = is_exception && is_repeated(known, name, before);
    broken_if(found, Rule::RaiseAndHandlers, broken, place_of(name))
}

/// The exceptions that earlier choices name, one name at a time.
fn repeated_along(
    found: &mut List<Finding>,
    known: &Known<'_, '_>,
    names: &[HandledName<'_>],
) -> Result<(), NoMemory>
    ensures { OnOk result
        (found.new ≡ found.old ++ repeated_along known.now names.now 0 names.now) }
{
    let mut at = 0;
    for name in names {
        name_judged(found, known, before_place(names, at), name.get())?;
        at += 1;
    }
    Ok(())
}

/// The exceptions that earlier choices name.
#[tactic(auto, using(crate::proofs::Handled::repeated_is))]
fn repeated_names(
    found: &mut List<Finding>,
    known: &Known<'_, '_>,
    names: &[HandledName<'_>],
) -> Result<(), NoMemory>
    ensures { OnOk result
        (found.new ≡ found.old ++ repeated_names known.now names.now 0 names.now) }
{
    repeated_along(found, known, names)
}

/// Where the word `others` stands.
fn others_place(exceptions: &HandledExceptions) -> Option<Place>
    ensures { result ≡ others_place exceptions.now }
{
    match exceptions {
        HandledExceptions::Named(_) => None,
        HandledExceptions::Others { place } => Some(*place),
    }
}

/// A handler for all others, behind which another one stands.
fn others_here(found: &mut List<Finding>, place: Option<Place>) -> Result<(), NoMemory>
    ensures { OnOk result (found.new ≡ found.old ++ others_here place) }
{
    match place {
        None => Ok(()),
        Some(place) => broken_if(found, Rule::RaiseAndHandlers, true, place),
    }
}

/// The handlers for all others before the last one, one handler at a time.
fn others_behind<Q>(found: &mut List<Finding>, handlers: &[Handler<Q>]) -> Result<(), NoMemory>
    ensures { OnOk result
        (found.new ≡ found.old ++ others_behind None (map (λ h. h.exceptions) handlers.now)) }
{
    let mut before: Option<Place> = None;
    for handler in handlers {
        others_here(found, before)?;
        before = others_place(&handler.exceptions);
    }
    Ok(())
}

/// The handlers for all others before the last one.
#[tactic(auto, using(crate::proofs::Handled::others_are))]
fn others_before_last<Q>(found: &mut List<Finding>, handlers: &[Handler<Q>]) -> Result<(), NoMemory>
    ensures { OnOk result
        (found.new ≡ found.old ++ others_before_last (map (λ h. h.exceptions) handlers.now)) }
{
    others_behind(found, handlers)
}

/// The choices of the handlers of a sequence.
#[tactic(auto, unfolding(ada_legality::specs::Statements::handled_judged))]
pub fn handled_judged<Q>(
    alloc: Global,
    found: &mut List<Finding>,
    known: &Known<'_, '_>,
    handlers: &[Handler<Q>],
) -> Result<(), NoMemory>
    ensures { OnOk result
        (found.new ≡ found.old ++ handled_judged known.now (map (λ h. h.exceptions) handlers.now)) }
{
    let names = exceptions_of(alloc, handlers)?;
    repeated_names(found, known, names.as_slice())?;
    others_before_last(found, handlers)
}
