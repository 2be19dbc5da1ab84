//! Exits, returns and raises (ISO/IEC 8652:2012, 5.7, 6.5, 11.3).
ghost use Rattle.std.specs.Prelude.{◌≡◌, ◌++◌, OnOk};
ghost use Rattle.profile_image.specs.Words.{same_bool};
ghost use Rattle.ada_legality.specs.Attributes.{kind_of_identifier};
ghost use Rattle.ada_regions.specs.Completions.{holds_of};
ghost use Rattle.ada_legality.specs.Words.{any_in_body, any_in_sequence};
ghost use Rattle.ada_legality.specs.CallStatements.{condition_found, found_if};
ghost use Rattle.ada_legality.specs.SimpleStatements.{is_loop, same_entities, is_loop_named};
ghost use Rattle.ada_legality.specs.SimpleStatements.{is_label_kind, exit_judged, exit_found};
ghost use Rattle.ada_legality.specs.SimpleStatements.{function_of, function_around};
ghost use Rattle.ada_legality.specs.SimpleStatements.{is_package_around, stands_in_package};
ghost use Rattle.ada_legality.specs.SimpleStatements.{returned, return_judged, result_expected};
ghost use Rattle.ada_legality.specs.SimpleStatements.{return_found, is_handler, raise_found};

use ada_entities::entity_denoted;
use ada_legality::{Around, Finding, Known, Rule, SubprogramAround};
use ada_regions::{AdaType, EntityKind};
use ada_tree::{Exit, Expression, Identifier, Name};
use ann_base::{NoMemory, Place};
use legality_conditions::{condition_found, value_alone_found_if};
use legality_entities::{
    is_accept, is_body, kind_of_identifier, names_exception, same_entities, sequence_around,
};
use legality_types::{broken_unless, note};
use legality_values::place_of;
use std::alloc::Global;
use world_tables::List;

fn is_loop(around: Around) -> bool
    ensures { result ≡ is_loop around }
{
    match around {
        Around::Loop(_) => true,
        _ => false,
    }
}

/// A loop that is open has the name.
fn is_loop_named(entity: Option<u32>, around: Around) -> bool
    ensures { result ≡ is_loop_named entity around }
{
    match around {
        Around::Loop(label) => same_entities(entity, label),
        _ => false,
    }
}

/// A loop stands around, inside the innermost body or accept statement.
#[tactic(auto, unfolding(ada_legality::specs::Words::any_in_sequence))]
fn stands_in_loop(outer: &List<Around>) -> bool
    ensures { result ≡ any_in_sequence is_loop outer.now }
{
    for around in outer.iter() {
        if is_body(*around) || is_accept(*around) {
            return false;
        }
        if is_loop(*around) {
            return true;
        }
    }
    false
}

/// The loop with this name stands around, inside the innermost body or accept statement.
#[tactic(auto, unfolding(ada_legality::specs::Words::any_in_sequence))]
fn stands_in_loop_named(entity: Option<u32>, outer: &List<Around>) -> bool
    ensures { result ≡ any_in_sequence (is_loop_named entity) outer.now }
{
    for around in outer.iter() {
        if is_body(*around) || is_accept(*around) {
            return false;
        }
        if is_loop_named(entity, *around) {
            return true;
        }
    }
    false
}

/// The name of a loop or a block.
fn is_label_kind(kind: &EntityKind) -> bool
    ensures { result ≡ is_label_kind kind.now }
{
    match kind {
        EntityKind::Label => true,
        _ => false,
    }
}

/// An identifier denotes a label.
fn names_label(known: &Known<'_, '_>, identifier: &Identifier) -> bool
    ensures { result ≡ holds_of is_label_kind (kind_of_identifier known.now identifier.now) }
{
    match kind_of_identifier(known, identifier) {
        None => false,
        Some(kind) => is_label_kind(kind),
    }
}

/// An exit with the name of a loop, or without one.
#[tactic(auto, unfolding(ada_legality::specs::SimpleStatements::exit_judged))]
fn exit_judged(
    found: &mut List<Finding>,
    known: &Known<'_, '_>,
    place: Place,
    name: &Option<Identifier>,
) -> Result<(), NoMemory>
    ensures { OnOk result (found.new ≡ found.old ++ exit_judged known.now place name.now) }
{
    match name {
        None => {
            let kept = stands_in_loop(&known.around);
            broken_unless(found, Rule::ExitFromLoop, kept, place)
        }
        Some(name) => {
            let entity = entity_denoted(known.names.get(), name.place);
            let kept = stands_in_loop_named(entity, &known.around);
            broken_unless(found, Rule::ExitFromLoop, kept, place)?;
            broken_unless(
                found,
                Rule::KindOfName,
                names_label(known, name),
                name.place,
            )
        }
    }
}

/// A condition, where one stands there.
fn condition_if(
    alloc: Global,
    found: &mut List<Finding>,
    known: &Known<'_, '_>,
    condition: &Option<Expression>,
) -> Result<(), NoMemory>
    ensures { OnOk result
        (found.new ≡ found.old ++ found_if condition_found condition.now known.now) }
{
    match condition {
        None => Ok(()),
        Some(condition) => condition_found(alloc, found, known, condition),
    }
}

/// An exit.
#[tactic(auto, unfolding(ada_legality::specs::SimpleStatements::exit_found))]
pub fn exit_found(
    alloc: Global,
    found: &mut List<Finding>,
    known: &Known<'_, '_>,
    exit: &Exit,
) -> Result<(), NoMemory>
    ensures { OnOk result (found.new ≡ found.old ++ exit_found exit.now known.now) }
{
    exit_judged(found, known, exit.place, &exit.loop_name)?;
    condition_if(alloc, found, known, &exit.condition)
}

/// The function whose body it is.
fn function_of(around: Around) -> Option<SubprogramAround>
    ensures { result ≡ function_of around }
{
    match around {
        Around::Subprogram(subprogram) => {
            if subprogram.result.is_some() {
                Some(subprogram)
            } else {
                None
            }
        }
        _ => None,
    }
}

/// The function in whose body a statement stands; an accept and any other body have none.
#[tactic(auto, unfolding(ada_legality::specs::SimpleStatements::function_around))]
fn function_around(known: &Known<'_, '_>) -> Option<SubprogramAround>
    ensures { result ≡ function_around known.now }
{
    let around = sequence_around(&known.around)?;
    function_of(around)
}

fn is_package_around(around: Around) -> bool
    ensures { result ≡ is_package_around around }
{
    match around {
        Around::Package => true,
        _ => false,
    }
}

/// The statements of a package's body.
#[tactic(auto, unfolding(ada_legality::specs::SimpleStatements::stands_in_package))]
fn stands_in_package(known: &Known<'_, '_>) -> bool
    ensures { result ≡ stands_in_package known.now }
{
    match sequence_around(&known.around) {
        None => false,
        Some(around) => is_package_around(around),
    }
}

fn same_bool(a: bool, b: bool) -> bool
    ensures { result ≡ same_bool a b }
{
    if a { b } else { !b }
}

/// A return counts for its function.
fn returned(found: &mut List<Finding>, function: Option<SubprogramAround>) -> Result<(), NoMemory>
    ensures { OnOk result (found.new ≡ found.old ++ returned function) }
{
    match function {
        None => Ok(()),
        Some(function) => note(
            found,
            Finding::Returned {
                function: function.place,
            },
        ),
    }
}

/// A return with a value that may not stand there, or without one.
#[tactic(auto, unfolding(ada_legality::specs::SimpleStatements::return_judged))]
fn return_judged(
    found: &mut List<Finding>,
    known: &Known<'_, '_>,
    place: Place,
    has_value: bool,
    function: Option<SubprogramAround>,
) -> Result<(), NoMemory>
    ensures { OnOk result
        (found.new ≡ found.old ++ return_judged known.now place has_value function) }
{
    let kept = same_bool(has_value, function.is_some()) && !stands_in_package(known);
    broken_unless(found, Rule::ReturnStatement, kept, place)?;
    returned(found, function)
}

/// The type of the result of the function around.
fn result_expected(function: Option<SubprogramAround>) -> Option<AdaType>
    ensures { result ≡ result_expected function }
{
    function?.result?
}

/// A return.
#[tactic(auto, unfolding(ada_legality::specs::SimpleStatements::return_found))]
pub fn return_found(
    alloc: Global,
    found: &mut List<Finding>,
    known: &Known<'_, '_>,
    place: Place,
    value: &Option<Expression>,
) -> Result<(), NoMemory>
    ensures { OnOk result (found.new ≡ found.old ++ return_found place value.now known.now) }
{
    let function = function_around(known);
    return_judged(found, known, place, value.is_some(), function)?;
    value_alone_found_if(alloc, found, known, result_expected(function), value)
}

fn is_handler(around: Around) -> bool
    ensures { result ≡ is_handler around }
{
    match around {
        Around::Handler => true,
        _ => false,
    }
}

/// A handler stands around, inside the innermost body.
#[tactic(auto, unfolding(ada_legality::specs::Words::any_in_body))]
fn stands_in_handler(outer: &List<Around>) -> bool
    ensures { result ≡ any_in_body is_handler outer.now }
{
    for around in outer.iter() {
        if is_body(*around) {
            return false;
        }
        if is_handler(*around) {
            return true;
        }
    }
    false
}

/// A raise: without a name it stands in a handler, and in no body inside it.
#[tactic(auto, unfolding(ada_legality::specs::SimpleStatements::raise_found))]
pub fn raise_found(
    found: &mut List<Finding>,
    known: &Known<'_, '_>,
    place: Place,
    name: &Option<Name>,
) -> Result<(), NoMemory>
    ensures { OnOk result (found.new ≡ found.old ++ raise_found place name.now known.now) }
{
    match name {
        None => {
            let kept = stands_in_handler(&known.around);
            broken_unless(found, Rule::RaiseAndHandlers, kept, place)
        }
        Some(name) => {
            let kept = names_exception(known, name);
            broken_unless(found, Rule::KindOfName, kept, place_of(name))
        }
    }
}
