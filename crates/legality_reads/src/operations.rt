//! Operators and their operands (ISO/IEC 8652:2012, 4.5).
ghost use Rattle.std.specs.Prelude.{◌≡◌, ◌++◌, OnOk};
ghost use Rattle.ada_legality.specs.Reading.{as_operand, operation_judged, concatenation_judged};
ghost use Rattle.ada_legality.specs.Reading.{operation_of_one_judged, signed_judged, sum_judged};

use crate::asked::as_operand;
use crate::reads::is_number;
use ada_legality::{Finding, Read, Rule, Typed};
use ada_tree::{AddingOperator, Sign};
use ann_base::{NoMemory, Place};
use legality_types::{broken_if, has_type, is_text, operation_type, operation_type_of_one};
use profile_image::{BinaryOperator, UnaryOperator};
use world_tables::List;

/// An operator that is not defined for its operands.
#[tactic(auto, unfolding(ada_legality::specs::Reading::operation_judged))]
pub fn operation_judged(
    found: &mut List<Finding>,
    place: Place,
    operator: BinaryOperator,
    a: Typed,
    b: Typed,
) -> Result<(), NoMemory>
    ensures { OnOk result (found.new ≡ found.old ++ operation_judged place operator a b) }
{
    let broken = has_type(a) && (has_type(b) && operation_type(operator, a, b).is_none());
    broken_if(found, Rule::OperandTypes, broken, place)
}

/// `&` joins texts.
#[tactic(auto, unfolding(ada_legality::specs::Reading::concatenation_judged))]
pub fn concatenation_judged(
    found: &mut List<Finding>,
    place: Place,
    a: Typed,
    b: Typed,
) -> Result<(), NoMemory>
    ensures { OnOk result (found.new ≡ found.old ++ concatenation_judged place a b) }
{
    let broken = has_type(a) && (has_type(b) && !(is_text(a) && is_text(b)));
    broken_if(found, Rule::OperandTypes, broken, place)
}

/// An operator of one operand.
#[tactic(auto, unfolding(ada_legality::specs::Reading::operation_of_one_judged))]
pub fn operation_of_one_judged(
    found: &mut List<Finding>,
    place: Place,
    operator: UnaryOperator,
    a: Typed,
) -> Result<(), NoMemory>
    ensures { OnOk result (found.new ≡ found.old ++ operation_of_one_judged place operator a) }
{
    let broken = has_type(a) && operation_type_of_one(operator, a).is_none();
    broken_if(found, Rule::OperandTypes, broken, place)
}

/// An operator before an operand that is read.
fn operator_before(
    found: &mut List<Finding>,
    place: Place,
    operator: UnaryOperator,
    read: &Read,
) -> Result<(), NoMemory>
    ensures { OnOk result
        (found.new
        ≡ found.old
        ++ (as_operand read.now ++ operation_of_one_judged place operator read.now.typed)) }
{
    as_operand(found, read)?;
    operation_of_one_judged(found, place, operator, read.typed)
}

/// A sign with its operand, where it is an operator.
#[tactic(auto, unfolding(ada_legality::specs::Reading::signed_judged))]
pub fn signed_judged(
    found: &mut List<Finding>,
    place: Place,
    sign: Sign,
    read: &Read,
) -> Result<(), NoMemory>
    ensures { OnOk result (found.new ≡ found.old ++ signed_judged place sign read.now) }
{
    match sign {
        Sign::Plus => operator_before(found, place, UnaryOperator::Plus, read),
        Sign::Minus => {
            if is_number(read.shape) {
                Ok(())
            } else {
                operator_before(found, place, UnaryOperator::Minus, read)
            }
        }
    }
}

/// An adding operator with its operands.
#[tactic(auto, unfolding(ada_legality::specs::Reading::sum_judged))]
pub fn sum_judged(
    found: &mut List<Finding>,
    place: Place,
    operator: AddingOperator,
    a: Typed,
    b: Typed,
) -> Result<(), NoMemory>
    ensures { OnOk result (found.new ≡ found.old ++ sum_judged place operator a b) }
{
    match operator {
        AddingOperator::Plus => operation_judged(found, place, BinaryOperator::Plus, a, b),
        AddingOperator::Minus => operation_judged(found, place, BinaryOperator::Minus, a, b),
        AddingOperator::Concatenation => concatenation_judged(found, place, a, b),
    }
}
