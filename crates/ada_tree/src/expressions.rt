//! Expressions (ISO/IEC 8652:2012, 4.4). The forms are generic over the expressions `E` in them.
use crate::{
    AddingOperator, Attribute, Bytes, HighestOperator, Identifier, LogicalOperator,
    MultiplyingOperator, Name, OneOrMore, RelationalOperator, Sign,
};
use ann_base::Place;
use sqlite_items::{Boxed, Items};

/// An expression. Precedence is kept where each operand binds at least as tightly as its place
/// asks.
#[derive(Drop)]
pub struct Expression {
    /// Its form.
    pub form: Boxed<ExpressionForm<Expression>>,
}

/// How tightly a form binds, the loosest first (4.5).
#[derive(Clone, Copy)]
pub enum Precedence {
    /// Relations that a logical operator joins.
    Logical,
    /// Sums that are compared.
    Relational,
    /// Terms that are added.
    Adding,
    /// A term behind a sign.
    Signed,
    /// Factors that are multiplied.
    Multiplying,
    /// A primary behind `abs` or `not`.
    Highest,
    /// A primary.
    Primary,
}

/// The forms of expressions.
pub enum ExpressionForm<E> {
    /// Relations with one logical operator between them (4.5.1).
    Logical {
        /// The operator.
        operator: LogicalOperator,
        /// The first relation.
        first: E,
        /// Those behind an operator.
        others: OneOrMore<Operand<E>>,
    },
    /// Two sums that are compared (4.5.2).
    Relational {
        /// The left side.
        left: E,
        /// The place of the operator.
        place: Place,
        /// The operator.
        operator: RelationalOperator,
        /// The right side.
        right: E,
    },
    /// Terms that are added, subtracted or joined, from left to right (4.5.3). The first may have a
    /// sign.
    Adding {
        /// The first term.
        first: E,
        /// Those behind an operator.
        others: OneOrMore<Addend<E>>,
    },
    /// A term behind a sign (4.5.4).
    Signed {
        /// The place of the sign.
        place: Place,
        /// The sign.
        sign: Sign,
        /// The term.
        operand: E,
    },
    /// Factors that are multiplied or divided, from left to right (4.5.5).
    Multiplying {
        /// The first factor.
        first: E,
        /// Those behind an operator.
        others: OneOrMore<Multiplied<E>>,
    },
    /// A primary behind `abs` or `not` (4.5.6).
    Highest {
        /// The place of the operator.
        place: Place,
        /// The operator.
        operator: HighestOperator,
        /// The primary.
        operand: E,
    },
    /// A numeric literal (2.4).
    Number {
        /// Where it stands.
        place: Place,
        /// The literal as it is written.
        literal: Bytes,
    },
    /// A string literal (2.6).
    Text {
        /// Where it stands.
        place: Place,
        /// What stands between the quotation marks, a doubled mark once.
        text: Bytes,
    },
    /// `null`
    Null {
        /// Where it stands.
        place: Place,
    },
    /// An expression in brackets.
    Bracketed {
        /// The place of the opening bracket.
        place: Place,
        /// The expression.
        inner: E,
    },
    /// A name, an attribute of it, an element of it or a call of it; the grammar does not tell the
    /// last two apart.
    Named {
        /// The name.
        name: Name,
        /// The attribute.
        attribute: Option<AttributeDesignator>,
        /// The index or the actuals; empty where no bracket stands.
        arguments: Items<Argument<E>>,
    },
}

impl<E: Drop> Drop for ExpressionForm<E> {
    fn drop(self) {
        match self {
            ExpressionForm::Logical {
                operator: _,
                first: _,
                others: _,
            } => (),
            ExpressionForm::Relational {
                left: _,
                place: _,
                operator: _,
                right: _,
            } => (),
            ExpressionForm::Adding {
                first: _,
                others: _,
            } => (),
            ExpressionForm::Signed {
                place: _,
                sign: _,
                operand: _,
            } => (),
            ExpressionForm::Multiplying {
                first: _,
                others: _,
            } => (),
            ExpressionForm::Highest {
                place: _,
                operator: _,
                operand: _,
            } => (),
            ExpressionForm::Number {
                place: _,
                literal: _,
            } => (),
            ExpressionForm::Text { place: _, text: _ } => (),
            ExpressionForm::Null { place: _ } => (),
            ExpressionForm::Bracketed { place: _, inner: _ } => (),
            ExpressionForm::Named {
                name: _,
                attribute: _,
                arguments: _,
            } => (),
        }
    }
}

/// A relation behind a logical operator.
pub struct Operand<E> {
    /// The place of the operator.
    pub place: Place,
    /// The relation.
    pub relation: E,
}

impl<E: Drop> Drop for Operand<E> {
    fn drop(self) {
        let Operand {
            place: _,
            relation: _,
        } = self;
    }
}

/// A term behind a binary adding operator.
pub struct Addend<E> {
    /// The place of the operator.
    pub place: Place,
    /// The operator.
    pub operator: AddingOperator,
    /// The term.
    pub term: E,
}

impl<E: Drop> Drop for Addend<E> {
    fn drop(self) {
        let Addend {
            place: _,
            operator: _,
            term: _,
        } = self;
    }
}

/// A factor behind a multiplying operator.
pub struct Multiplied<E> {
    /// The place of the operator.
    pub place: Place,
    /// The operator.
    pub operator: MultiplyingOperator,
    /// The factor.
    pub factor: E,
}

impl<E: Drop> Drop for Multiplied<E> {
    fn drop(self) {
        let Multiplied {
            place: _,
            operator: _,
            factor: _,
        } = self;
    }
}

/// An attribute behind a tick (4.1.4).
#[derive(Drop)]
pub struct AttributeDesignator {
    /// The place of the attribute's word.
    pub place: Place,
    /// The attribute.
    pub attribute: Attribute,
}

/// An index or an actual, with the name of its formal or without (4.1.1, 6.4.1).
#[derive(Drop)]
pub struct Argument<E> {
    /// The formal's name.
    pub formal: Option<Identifier>,
    /// The expression.
    pub value: E,
}
