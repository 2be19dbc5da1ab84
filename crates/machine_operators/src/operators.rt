//! Operators of values (ISO/IEC 8652:2012, 4.5).
ghost use Rattle.std.specs.Prelude.{◌≡◌, ◌≢◌, pos, cond, int_div, Err};
ghost use Rattle.profile_machine.specs.Operators.{ticks, is_zero, negated, absolute};
ghost use Rattle.profile_machine.specs.Operators.{inverted, unary_value, same_value, is_less};
ghost use Rattle.profile_machine.specs.Operators.{logical, both, either, one_of, added};
ghost use Rattle.profile_machine.specs.Operators.{subtracted, multiplied, divided, modulo};
ghost use Rattle.profile_machine.specs.Operators.{modulus, remainder, binary_value, decides};
ghost use Rattle.ann_base.specs.declared.exceptions.Raised.TheVariants as exception;

use crate::ranges::ticks;
use ann_base::{Moment, Raised};
use profile_image::{BinaryOperator, UnaryOperator, Value};

/// The unary minus.
pub fn negated(value: Value) -> Result<Value, Raised>
    ensures { result ≡ negated value }
{
    match value {
        Value::Whole(n) => match n.checked_neg() {
            Some(n) => Ok(Value::Whole(n)),
            None => Err(Raised::Constraint),
        },
        Value::Ticks(n) => match n.checked_neg() {
            Some(n) => ticks(n),
            None => Err(Raised::Constraint),
        },
        _ => Err(Raised::Program),
    }
}

/// The operator `abs`.
pub fn absolute(value: Value) -> Result<Value, Raised>
    ensures { result ≡ absolute value }
{
    match value {
        Value::Whole(n) => match n.checked_abs() {
            Some(n) => Ok(Value::Whole(n)),
            None => Err(Raised::Constraint),
        },
        Value::Ticks(n) => match n.checked_abs() {
            Some(n) => ticks(n),
            None => Err(Raised::Constraint),
        },
        _ => Err(Raised::Program),
    }
}

/// The operator `not`.
pub fn inverted(value: Value) -> Result<Value, Raised>
    ensures { result ≡ inverted value }
{
    match value {
        Value::Truth(b) => Ok(Value::Truth(!b)),
        _ => Err(Raised::Program),
    }
}

/// The value of an operator with one operand.
pub fn unary_value(operator: UnaryOperator, value: Value) -> Result<Value, Raised>
    ensures { result ≡ unary_value operator value }
{
    match operator {
        UnaryOperator::Plus => Ok(value),
        UnaryOperator::Minus => negated(value),
        UnaryOperator::Abs => absolute(value),
        UnaryOperator::Not => inverted(value),
    }
}

/// Whether two values of one type are the same (4.5.2).
pub fn same_value(left: Value, right: Value) -> Result<bool, Raised>
    ensures { result ≡ same_value left right }
{
    match (left, right) {
        (Value::Whole(a), Value::Whole(b)) => Ok(a == b),
        (Value::Truth(a), Value::Truth(b)) => Ok(a == b),
        (Value::Literal(a), Value::Literal(b)) => Ok(a == b),
        (Value::Ticks(a), Value::Ticks(b)) => Ok(a == b),
        (Value::Task(a), Value::Task(b)) => Ok(a == b),
        _ => Err(Raised::Program),
    }
}

/// Whether the left one of two values of one type is the less (4.5.2).
pub fn is_less(left: Value, right: Value) -> Result<bool, Raised>
    ensures { result ≡ is_less left right }
{
    match (left, right) {
        (Value::Whole(a), Value::Whole(b)) => Ok(a < b),
        (Value::Truth(a), Value::Truth(b)) => Ok(a < b),
        (Value::Literal(a), Value::Literal(b)) => Ok(a < b),
        (Value::Ticks(a), Value::Ticks(b)) => Ok(a < b),
        _ => Err(Raised::Program),
    }
}

/// The operator `and`.
fn conjoined(left: Value, right: Value) -> Result<Value, Raised>
    ensures { result ≡ logical both left right }
{
    match (left, right) {
        (Value::Truth(a), Value::Truth(b)) => Ok(Value::Truth(a && b)),
        _ => Err(Raised::Program),
    }
}

/// The operator `or`.
fn disjoined(left: Value, right: Value) -> Result<Value, Raised>
    ensures { result ≡ logical either left right }
{
    match (left, right) {
        (Value::Truth(a), Value::Truth(b)) => Ok(Value::Truth(a || b)),
        _ => Err(Raised::Program),
    }
}

/// The operator `xor`.
fn differing(left: Value, right: Value) -> Result<Value, Raised>
    ensures { result ≡ logical one_of left right }
{
    match (left, right) {
        (Value::Truth(a), Value::Truth(b)) => Ok(Value::Truth(a != b)),
        _ => Err(Raised::Program),
    }
}

/// The operator `+` with two operands.
pub fn added(left: Value, right: Value) -> Result<Value, Raised>
    ensures { result ≡ added left right }
{
    match (left, right) {
        (Value::Whole(a), Value::Whole(b)) => match a.checked_add(b) {
            Some(n) => Ok(Value::Whole(n)),
            None => Err(Raised::Constraint),
        },
        (Value::Ticks(a), Value::Ticks(b)) => match a.checked_add(b) {
            Some(n) => ticks(n),
            None => Err(Raised::Constraint),
        },
        _ => Err(Raised::Program),
    }
}

/// The operator `-` with two operands.
pub fn subtracted(left: Value, right: Value) -> Result<Value, Raised>
    ensures { result ≡ subtracted left right }
{
    match (left, right) {
        (Value::Whole(a), Value::Whole(b)) => match a.checked_sub(b) {
            Some(n) => Ok(Value::Whole(n)),
            None => Err(Raised::Constraint),
        },
        (Value::Ticks(a), Value::Ticks(b)) => match a.checked_sub(b) {
            Some(n) => ticks(n),
            None => Err(Raised::Constraint),
        },
        _ => Err(Raised::Program),
    }
}

/// The operator `*`.
pub fn multiplied(left: Value, right: Value) -> Result<Value, Raised>
    ensures { result ≡ multiplied left right }
{
    match (left, right) {
        (Value::Whole(a), Value::Whole(b)) => match a.checked_mul(b) {
            Some(n) => Ok(Value::Whole(n)),
            None => Err(Raised::Constraint),
        },
        (Value::Ticks(a), Value::Whole(b)) => match a.checked_mul(i64::from(b)) {
            Some(n) => ticks(n),
            None => Err(Raised::Constraint),
        },
        (Value::Whole(a), Value::Ticks(b)) => match i64::from(a).checked_mul(b) {
            Some(n) => ticks(n),
            None => Err(Raised::Constraint),
        },
        _ => Err(Raised::Program),
    }
}

/// The operator `/`, towards zero.
pub fn divided(left: Value, right: Value) -> Result<Value, Raised>
    ensures { result ≡ divided left right }
{
    match (left, right) {
        (Value::Whole(a), Value::Whole(b)) => match a.checked_div(b) {
            Some(n) => Ok(Value::Whole(n)),
            None => Err(Raised::Constraint),
        },
        (Value::Ticks(a), Value::Whole(b)) => quotient(a, i64::from(b)),
        _ => Err(Raised::Program),
    }
}

fn quotient(a: Moment, b: i64) -> Result<Value, Raised>
    ensures { result ≡ cond (is_zero b) (Err exception.Constraint) (ticks (int_div a b)) }
{
    match a.checked_div(b) {
        Some(n) => ticks(n),
        None => Err(Raised::Constraint),
    }
}

/// The operator `mod`: with the sign of the right operand.
pub fn modulus(left: Value, right: Value) -> Result<Value, Raised>
    ensures { result ≡ modulus left right }
{
    match (left, right) {
        (Value::Whole(_), Value::Whole(0)) => Err(Raised::Constraint),
        (Value::Whole(a), Value::Whole(b)) => Ok(Value::Whole(modulo(a, b))),
        _ => Err(Raised::Program),
    }
}

fn modulo(a: i32, b: i32) -> i32
    requires { b ≢ pos 0 }
    ensures { result ≡ modulo a b }
{
    let rest = a.wrapping_rem(b);
    if rest == 0 || (rest < 0) == (b < 0) {
        rest
    } else {
        rest + b
    }
}

/// The operator `rem`: with the sign of the left operand.
pub fn remainder(left: Value, right: Value) -> Result<Value, Raised>
    ensures { result ≡ remainder left right }
{
    match (left, right) {
        (Value::Whole(_), Value::Whole(0)) => Err(Raised::Constraint),
        (Value::Whole(a), Value::Whole(b)) => Ok(Value::Whole(a.wrapping_rem(b))),
        _ => Err(Raised::Program),
    }
}

/// The value of an operator with two operands, both of which have been evaluated.
pub fn binary_value(operator: BinaryOperator, left: Value, right: Value) -> Result<Value, Raised>
    ensures { result ≡ binary_value operator left right }
{
    match operator {
        BinaryOperator::And | BinaryOperator::AndThen => conjoined(left, right),
        BinaryOperator::Or | BinaryOperator::OrElse => disjoined(left, right),
        BinaryOperator::Xor => differing(left, right),
        BinaryOperator::Equal => Ok(Value::Truth(same_value(left, right)?)),
        BinaryOperator::NotEqual => Ok(Value::Truth(!same_value(left, right)?)),
        BinaryOperator::Less => Ok(Value::Truth(is_less(left, right)?)),
        BinaryOperator::LessOrEqual => Ok(Value::Truth(!is_less(right, left)?)),
        BinaryOperator::Greater => Ok(Value::Truth(is_less(right, left)?)),
        BinaryOperator::GreaterOrEqual => Ok(Value::Truth(!is_less(left, right)?)),
        BinaryOperator::Plus => added(left, right),
        BinaryOperator::Minus => subtracted(left, right),
        BinaryOperator::Times => multiplied(left, right),
        BinaryOperator::Divide => divided(left, right),
        BinaryOperator::Mod => modulus(left, right),
        BinaryOperator::Rem => remainder(left, right),
    }
}

/// Whether the left operand alone decides a short-circuit form.
pub fn decides(operator: BinaryOperator, left: Value) -> bool
    ensures { result ≡ decides operator left }
{
    match (operator, left) {
        (BinaryOperator::AndThen, Value::Truth(a)) => !a,
        (BinaryOperator::OrElse, Value::Truth(a)) => a,
        _ => false,
    }
}
