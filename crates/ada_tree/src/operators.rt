//! Operators and attributes.

/// An operator between relations (ISO/IEC 8652:2012, 4.5.1).
#[derive(Clone, Copy)]
pub enum LogicalOperator {
    /// `and`
    And,
    /// `or`
    Or,
    /// `xor`
    Xor,
    /// `and then`
    AndThen,
    /// `or else`
    OrElse,
}

/// A relational operator (4.5.2).
#[derive(Clone, Copy)]
pub enum RelationalOperator {
    /// `=`
    Equal,
    /// `/=`
    NotEqual,
    /// `<`
    Less,
    /// `<=`
    LessOrEqual,
    /// `>`
    Greater,
    /// `>=`
    GreaterOrEqual,
}

/// A binary adding operator (4.5.3).
#[derive(Clone, Copy)]
pub enum AddingOperator {
    /// `+`
    Plus,
    /// `-`
    Minus,
    /// `&`
    Concatenation,
}

/// A unary adding operator (4.5.4).
#[derive(Clone, Copy)]
pub enum Sign {
    /// `+`
    Plus,
    /// `-`
    Minus,
}

/// A multiplying operator (4.5.5).
#[derive(Clone, Copy)]
pub enum MultiplyingOperator {
    /// `*`
    Times,
    /// `/`
    Divide,
    /// `mod`
    Modulus,
    /// `rem`
    Remainder,
}

/// A highest precedence operator of one operand (4.5.6).
#[derive(Clone, Copy)]
pub enum HighestOperator {
    /// `abs`
    Absolute,
    /// `not`
    Not,
}

/// An attribute of the profile (4.1.4).
#[derive(Clone, Copy)]
pub enum Attribute {
    /// `First` (3.5)
    First,
    /// `Last` (3.5)
    Last,
    /// `Image` (3.5)
    Image,
    /// `Count` (9.9)
    Count,
    /// `Identity` (C.7.1)
    Identity,
    /// `Access` (3.10.2)
    Access,
}
