//! The forms of expressions (ISO/IEC 8652:2012, clause 4).
ghost use Rattle.std.specs.Prelude.{◌≡◌, IfOk, option_map, unwrap_or};
ghost use Rattle.ada_legality.specs.Findings.{Reads};
ghost use Rattle.ada_legality.specs.ReadExpressions.{signed_expression, highest_expression};
ghost use Rattle.ada_legality.specs.ReadExpressions.{bracketed_expression, argument_part};
ghost use Rattle.ada_legality.specs.ReadExpressions.{arguments_read, named_expression};
ghost use Rattle.ada_legality.specs.ReadExpressions.{typed_expression};
ghost use Rattle.ada_legality.specs.SimpleStatements.{type_between};

use crate::chains::{
    adding_expression, logical_expression, multiplying_expression, relational_expression,
};
use crate::readable::{Readable, operand_read};
use ada_entities::copy;
use ada_legality::{ActualPart, Finding, Known, Read, Typed};
use ada_regions::AdaType;
use ada_tree::{
    Argument, AttributeDesignator, Expression, ExpressionForm, HighestOperator, Identifier, Name,
    Sign,
};
use ann_base::{NoMemory, Place};
use image_layout::highest_operator;
use legality_actuals::{attribute_judged, name_judged};
use legality_reads::{
    bracketed_read, call_inside, highest_read, number_read, operation_of_one_judged, plain_read,
    signed_judged, signed_read, text_read,
};
use legality_types::type_of_bounds;
use legality_values::{attribute_read, name_read};
use profile_image::{ImageList, Text};
use std::alloc::Global;
use world_tables::List;

/// A sign.
#[tactic(auto, unfolding(ada_legality::specs::ReadExpressions::signed_expression))]
fn signed_expression<E: Readable>(
    alloc: Global,
    found: &mut List<Finding>,
    known: &Known<'_, '_>,
    place: Place,
    sign: Sign,
    operand: &E,
) -> Result<Read, NoMemory>
    ensures { Reads (signed_expression E.reading place sign operand.now known.now) found.old
        found.new result }
{
    let read = operand.read(alloc, found, known)?;
    signed_judged(found, place, sign, &read)?;
    Ok(signed_read(place, sign, read))
}

/// `abs` and `not`.
#[tactic(auto, unfolding(ada_legality::specs::ReadExpressions::highest_expression))]
fn highest_expression<E: Readable>(
    alloc: Global,
    found: &mut List<Finding>,
    known: &Known<'_, '_>,
    place: Place,
    operator: HighestOperator,
    operand: &E,
) -> Result<Read, NoMemory>
    ensures { Reads (highest_expression E.reading place operator operand.now known.now) found.old
        found.new result }
{
    let read = operand_read(alloc, found, known, operand)?;
    operation_of_one_judged(found, place, highest_operator(operator), read.typed)?;
    Ok(highest_read(place, operator, read))
}

/// Brackets.
#[tactic(auto, unfolding(ada_legality::specs::ReadExpressions::bracketed_expression))]
fn bracketed_expression<E: Readable>(
    alloc: Global,
    found: &mut List<Finding>,
    known: &Known<'_, '_>,
    place: Place,
    inner: &E,
) -> Result<Read, NoMemory>
    ensures { Reads (bracketed_expression E.reading place inner.now known.now) found.old found.new
        result }
{
    let read = inner.read(alloc, found, known)?;
    call_inside(found, &read)?;
    Ok(bracketed_read(place, read))
}

/// Where an argument begins, with the name of its formal.
fn place_of_argument(formal: &Option<Identifier>, place: Place) -> Place
    ensures { result ≡ unwrap_or (option_map (λ i. i.place) formal.now) place }
{
    match formal {
        None => place,
        Some(formal) => formal.place,
    }
}

/// The name of a formal, where it is given.
fn name_of_formal(alloc: Global, formal: &Option<Identifier>) -> Result<Option<Text>, NoMemory>
    ensures { IfOk result (λ name. name ≡ option_map (λ i. i.text) formal.now) }
{
    match formal {
        None => Ok(None),
        Some(formal) => Ok(Some(copy(alloc, formal.text.as_slice())?)),
    }
}

/// An argument that is read.
fn argument_part<E: Readable>(
    alloc: Global,
    argument: &Argument<E>,
    read: Read,
) -> Result<ActualPart, NoMemory>
    ensures { IfOk result (λ part. part ≡ argument_part E.reading argument.now read) }
{
    let formal = name_of_formal(alloc, &argument.formal)?;
    Ok(ActualPart {
        formal,
        place: place_of_argument(&argument.formal, read.place),
        read,
    })
}

/// The arguments of a call, an element or an attribute.
#[tactic(auto, unfolding(ada_legality::specs::ReadExpressions::arguments_read))]
pub fn arguments_read<E: Readable>(
    alloc: Global,
    found: &mut List<Finding>,
    known: &Known<'_, '_>,
    arguments: &[Argument<E>],
) -> Result<ImageList<ActualPart>, NoMemory>
    ensures { Reads (arguments_read E.reading arguments.now known.now) found.old found.new result }
{
    let mut parts = ImageList::new(alloc);
    for argument in arguments {
        let read = argument.value.read(alloc, found, known)?;
        call_inside(found, &read)?;
        parts.push(argument_part(alloc, argument, read)?)?;
    }
    Ok(parts)
}

/// A name, an attribute of it, an element of it or a call of it.
#[tactic(auto, unfolding(ada_legality::specs::ReadExpressions::named_expression))]
fn named_expression<E: Readable>(
    alloc: Global,
    found: &mut List<Finding>,
    known: &Known<'_, '_>,
    name: &Name,
    attribute: &Option<AttributeDesignator>,
    arguments: &[Argument<E>],
) -> Result<Read, NoMemory>
    ensures { Reads (named_expression E.reading name.now attribute.now arguments.now known.now)
        found.old found.new result }
{
    let actuals = arguments_read(alloc, found, known, arguments)?;
    let has_arguments = !arguments.is_empty();
    match attribute {
        None => {
            name_judged(alloc, found, known, name, actuals.as_slice())?;
            Ok(name_read(known, name, has_arguments))
        }
        Some(designator) => {
            let attribute = designator.attribute;
            attribute_judged(alloc, found, known, name, attribute, actuals.as_slice())?;
            Ok(attribute_read(known, name, attribute, has_arguments))
        }
    }
}

impl<E: Readable> Readable for ExpressionForm<E> {
    ghost use Rattle.ada_legality.specs.ReadExpressions.{form_read};

    ghost reading = { form_read E.reading };

    fn read(
        &self,
        alloc: Global,
        found: &mut List<Finding>,
        known: &Known<'_, '_>,
    ) -> Result<Read, NoMemory> {
        match self {
            ExpressionForm::Logical {
                operator,
                first,
                others,
            } => logical_expression(alloc, found, known, *operator, first, others),
            ExpressionForm::Relational {
                left,
                place,
                operator,
                right,
            } => relational_expression(alloc, found, known, left, *place, *operator, right),
            ExpressionForm::Adding { first, others } => {
                adding_expression(alloc, found, known, first, others)
            }
            ExpressionForm::Signed {
                place,
                sign,
                operand,
            } => signed_expression(alloc, found, known, *place, *sign, operand),
            ExpressionForm::Multiplying { first, others } => {
                multiplying_expression(alloc, found, known, first, others)
            }
            ExpressionForm::Highest {
                place,
                operator,
                operand,
            } => highest_expression(alloc, found, known, *place, *operator, operand),
            ExpressionForm::Number { place, literal } => {
                Ok(number_read(*place, literal.as_slice()))
            }
            ExpressionForm::Text { place, text } => Ok(text_read(*place, text.as_slice())),
            ExpressionForm::Null { place } => Ok(plain_read(*place, Typed::OfNull)),
            ExpressionForm::Bracketed { place, inner } => {
                bracketed_expression(alloc, found, known, *place, inner)
            }
            ExpressionForm::Named {
                name,
                attribute,
                arguments,
            } => named_expression(alloc, found, known, name, attribute, arguments.as_slice()),
        }
    }
}

impl Readable for Expression {
    ghost use Rattle.ada_legality.specs.ReadExpressions.{read_expression};

    ghost reading = { read_expression };

    #[tactic(auto, using(ada_legality::proofs::ExpressionFolds::expression_reads))]
    fn read(
        &self,
        alloc: Global,
        found: &mut List<Finding>,
        known: &Known<'_, '_>,
    ) -> Result<Read, NoMemory> {
        self.form.get().read(alloc, found, known)
    }
}

/// The type of an expression. What it breaks is not told.
pub fn typed_expression(
    alloc: Global,
    known: &Known<'_, '_>,
    expression: &Expression,
) -> Result<Typed, NoMemory>
    ensures { IfOk result (λ typed. typed ≡ typed_expression known.now expression.now) }
{
    let mut found = List::new(alloc);
    let read = expression.read(alloc, &mut found, known)?;
    Ok(read.typed)
}

/// The type of the values between two bounds: of a loop parameter, and of the indexes of an array.
#[tactic(auto, unfolding(ada_legality::specs::SimpleStatements::type_between))]
pub fn type_between(
    alloc: Global,
    known: &Known<'_, '_>,
    low: &Expression,
    high: &Expression,
) -> Result<AdaType, NoMemory>
    ensures { IfOk result (λ t. t ≡ type_between known.now low.now high.now) }
{
    let first = typed_expression(alloc, known, low)?;
    let last = typed_expression(alloc, known, high)?;
    Ok(type_of_bounds(first, last))
}
