//! Expressions where a type is asked (ISO/IEC 8652:2012, 6.4, 8.6).
ghost use Rattle.std.specs.Prelude.{◌≡◌, ◌++◌, OnOk};
ghost use Rattle.ada_legality.specs.Types.{is_discrete, typed_is};
ghost use Rattle.ada_legality.specs.Reading.{rule_asked, value_judged, is_discrete_or_refused};
ghost use Rattle.ada_legality.specs.Reading.{calls_function, call_inside, literal_as_operand};
ghost use Rattle.ada_legality.specs.Reading.{as_operand, whole_asked, pointed_asked, asked_of};
ghost use Rattle.ada_legality.specs.Reading.{fitted, expected, pointed_if, without_point};

use crate::literals::{duration_literal, integer_literal, literal_in, other_pointed_literal};
use ada_legality::{Asked, Finding, Literal, Read, Rule, Shape, Typed};
use ada_regions::AdaType;
use ann_base::{NoMemory, Place};
use legality_types::{
    broken_if, broken_unless, fits, has_type, is_discrete, is_duration, is_integer, operand_type,
};
use world_tables::List;

/// The rule that a value of another type breaks.
fn rule_asked(asked: Asked) -> Rule
    ensures { result ≡ rule_asked asked }
{
    match asked {
        Asked::ForValue => Rule::ExpectedType,
        Asked::ForActual => Rule::Actuals,
        Asked::ForCondition => Rule::ConditionsAndChoices,
    }
}

/// An expression of this type stands where that type is asked.
#[tactic(auto, unfolding(ada_legality::specs::Reading::value_judged))]
pub fn value_judged(
    found: &mut List<Finding>,
    asked: Asked,
    place: Place,
    typed: Typed,
    t: AdaType,
) -> Result<(), NoMemory>
    ensures { OnOk result (found.new ≡ found.old ++ value_judged asked place typed t) }
{
    broken_unless(found, rule_asked(asked), fits(typed, t), place)
}

/// The type of an operand is discrete.
#[tactic(auto, unfolding(ada_legality::specs::Types::typed_is))]
fn is_discrete_operand(typed: Typed) -> bool
    ensures { result ≡ typed_is is_discrete typed }
{
    match operand_type(typed) {
        None => false,
        Some(t) => is_discrete(t),
    }
}

/// A discrete type, or none.
pub fn is_discrete_or_refused(typed: Typed) -> bool
    ensures { result ≡ is_discrete_or_refused typed }
{
    !has_type(typed) || is_discrete_operand(typed)
}

fn calls_function(shape: Shape) -> bool
    ensures { result ≡ calls_function shape }
{
    match shape {
        Shape::Name(name) => name.is_function,
        Shape::Number => false,
        Shape::Other => false,
    }
}

/// The call of a function where none may stand.
pub fn call_inside(found: &mut List<Finding>, read: &Read) -> Result<(), NoMemory>
    ensures { OnOk result (found.new ≡ found.old ++ call_inside read.now) }
{
    broken_if(
        found,
        Rule::FunctionCallAlone,
        calls_function(read.shape),
        read.place,
    )
}

/// A literal that is an operand: an Integer, or one with a point a Duration.
#[tactic(auto, unfolding(ada_legality::specs::Reading::literal_as_operand))]
fn literal_as_operand(
    found: &mut List<Finding>,
    literal: Literal,
    typed: Typed,
) -> Result<(), NoMemory>
    ensures { OnOk result (found.new ≡ found.old ++ literal_as_operand literal typed) }
{
    match typed {
        Typed::OfWholeNumber => integer_literal(found, literal),
        Typed::OfPointedNumber => duration_literal(found, literal),
        _ => Ok(()),
    }
}

/// An operand, with its literal.
#[tactic(auto, unfolding(ada_legality::specs::Reading::as_operand))]
pub fn as_operand(found: &mut List<Finding>, read: &Read) -> Result<(), NoMemory>
    ensures { OnOk result (found.new ≡ found.old ++ as_operand read.now) }
{
    call_inside(found, read)?;
    literal_as_operand(found, literal_in(read), read.typed)
}

/// A whole number where a type is asked.
#[tactic(auto, unfolding(ada_legality::specs::Reading::whole_asked))]
fn whole_asked(
    found: &mut List<Finding>,
    asked: Asked,
    read: &Read,
    t: AdaType,
) -> Result<(), NoMemory>
    ensures { OnOk result (found.new ≡ found.old ++ whole_asked asked read.now t) }
{
    if is_integer(t) {
        integer_literal(found, literal_in(read))
    } else {
        value_judged(found, asked, read.place, Typed::OfWholeNumber, t)
    }
}

/// A number with a point where a type is asked.
#[tactic(auto, unfolding(ada_legality::specs::Reading::pointed_asked))]
fn pointed_asked(found: &mut List<Finding>, read: &Read, t: AdaType) -> Result<(), NoMemory>
    ensures { OnOk result (found.new ≡ found.old ++ pointed_asked read.now t) }
{
    if is_duration(t) {
        duration_literal(found, literal_in(read))
    } else {
        other_pointed_literal(found, literal_in(read))
    }
}

/// An expression where this type is expected.
#[tactic(auto, unfolding(ada_legality::specs::Reading::asked_of))]
fn asked_of(
    found: &mut List<Finding>,
    asked: Asked,
    read: &Read,
    t: AdaType,
    typed: Typed,
) -> Result<(), NoMemory>
    ensures { OnOk result (found.new ≡ found.old ++ asked_of asked read.now t typed) }
{
    match typed {
        Typed::OfWholeNumber => whole_asked(found, asked, read, t),
        Typed::OfPointedNumber => pointed_asked(found, read, t),
        _ => value_judged(found, asked, read.place, typed, t),
    }
}

/// The same, where the type is known.
#[tactic(auto, unfolding(ada_legality::specs::Reading::fitted))]
pub fn fitted(
    found: &mut List<Finding>,
    asked: Asked,
    t: Option<AdaType>,
    read: &Read,
) -> Result<(), NoMemory>
    ensures { OnOk result (found.new ≡ found.old ++ fitted asked t read.now) }
{
    match t {
        None => Ok(()),
        Some(t) => asked_of(found, asked, read, t, read.typed),
    }
}

/// The same, where a function's call may not stand.
#[tactic(auto, unfolding(ada_legality::specs::Reading::expected))]
pub fn expected(
    found: &mut List<Finding>,
    asked: Asked,
    t: Option<AdaType>,
    read: &Read,
) -> Result<(), NoMemory>
    ensures { OnOk result (found.new ≡ found.old ++ expected asked t read.now) }
{
    call_inside(found, read)?;
    fitted(found, asked, t, read)
}

/// A number with a point where a whole one, or nothing, is expected.
fn pointed_if(found: &mut List<Finding>, literal: Literal, typed: Typed) -> Result<(), NoMemory>
    ensures { OnOk result (found.new ≡ found.old ++ pointed_if literal typed) }
{
    match typed {
        Typed::OfPointedNumber => other_pointed_literal(found, literal),
        _ => Ok(()),
    }
}

/// An expression that may be no number with a point.
#[tactic(auto, unfolding(ada_legality::specs::Reading::without_point))]
pub fn without_point(found: &mut List<Finding>, read: &Read) -> Result<(), NoMemory>
    ensures { OnOk result (found.new ≡ found.old ++ without_point read.now) }
{
    call_inside(found, read)?;
    pointed_if(found, literal_in(read), read.typed)
}
