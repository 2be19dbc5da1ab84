//! Operators (ISO/IEC 8652:2012, 4.5).
ghost use Rattle.std.specs.Prelude.{◌≡◌};
ghost use Rattle.ada_image.specs.ImageOfExpressions.{logical_operator, relational_operator};
ghost use Rattle.ada_image.specs.ImageOfExpressions.{adding_operator, multiplying_operator};
ghost use Rattle.ada_image.specs.ImageOfExpressions.{highest_operator};

use ada_tree::{
    AddingOperator, HighestOperator, LogicalOperator, MultiplyingOperator, RelationalOperator,
};
use profile_image::{BinaryOperator, UnaryOperator};

/// A logical operator or a short-circuit form (4.5.1).
pub fn logical_operator(operator: LogicalOperator) -> BinaryOperator
    ensures { result ≡ logical_operator operator }
{
    match operator {
        LogicalOperator::And => BinaryOperator::And,
        LogicalOperator::Or => BinaryOperator::Or,
        LogicalOperator::Xor => BinaryOperator::Xor,
        LogicalOperator::AndThen => BinaryOperator::AndThen,
        LogicalOperator::OrElse => BinaryOperator::OrElse,
    }
}

/// A relational operator (4.5.2).
pub fn relational_operator(operator: RelationalOperator) -> BinaryOperator
    ensures { result ≡ relational_operator operator }
{
    match operator {
        RelationalOperator::Equal => BinaryOperator::Equal,
        RelationalOperator::NotEqual => BinaryOperator::NotEqual,
        RelationalOperator::Less => BinaryOperator::Less,
        RelationalOperator::LessOrEqual => BinaryOperator::LessOrEqual,
        RelationalOperator::Greater => BinaryOperator::Greater,
        RelationalOperator::GreaterOrEqual => BinaryOperator::GreaterOrEqual,
    }
}

/// A binary adding operator (4.5.3). Texts are joined in Put_Line alone, where no operator is left.
pub fn adding_operator(operator: AddingOperator) -> BinaryOperator
    ensures { result ≡ adding_operator operator }
{
    match operator {
        AddingOperator::Plus => BinaryOperator::Plus,
        AddingOperator::Minus => BinaryOperator::Minus,
        AddingOperator::Concatenation => BinaryOperator::Plus,
    }
}

/// A multiplying operator (4.5.5).
pub fn multiplying_operator(operator: MultiplyingOperator) -> BinaryOperator
    ensures { result ≡ multiplying_operator operator }
{
    match operator {
        MultiplyingOperator::Times => BinaryOperator::Times,
        MultiplyingOperator::Divide => BinaryOperator::Divide,
        MultiplyingOperator::Modulus => BinaryOperator::Mod,
        MultiplyingOperator::Remainder => BinaryOperator::Rem,
    }
}

/// A highest precedence operator of one operand (4.5.6).
pub fn highest_operator(operator: HighestOperator) -> UnaryOperator
    ensures { result ≡ highest_operator operator }
{
    match operator {
        HighestOperator::Absolute => UnaryOperator::Abs,
        HighestOperator::Not => UnaryOperator::Not,
    }
}
