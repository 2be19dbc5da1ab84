//! Expressions (ISO/IEC 8652:2012, 4.4). The productions take the reader of the expressions in
//! brackets as a parameter, so that each is proved by itself.
ghost use Rattle.std.specs.Prelude.{◌≡◌, IfOk};
ghost use Rattle.ada_grammar.specs.ReadingExpressions.{addend_of, addition_behind_of, adds};
ghost use Rattle.ada_grammar.specs.ReadingExpressions.{argument_of, arguments_of, bracketed_of};
ghost use Rattle.ada_grammar.specs.ReadingExpressions.{compared_of, expression_of, factor_of};
ghost use Rattle.ada_grammar.specs.ReadingExpressions.{first_term_of, formed};
ghost use Rattle.ada_grammar.specs.ReadingExpressions.{given_arguments_of, highest_of, inner_of};
ghost use Rattle.ada_grammar.specs.ReadingExpressions.{joined_of, logical_of, multiplied_of};
ghost use Rattle.ada_grammar.specs.ReadingExpressions.{multiplies, named_argument_of, named_of};
ghost use Rattle.ada_grammar.specs.ReadingExpressions.{operand_of, primary_of, product_of};
ghost use Rattle.ada_grammar.specs.ReadingExpressions.{relation_of, signed_of, sum_of, term_of};
ghost use Rattle.ada_expressions.specs.Inside.{ReadsInside};
ghost use Rattle.ada_grammar.specs.Reads.{Reads};

use crate::lists::{items, items_behind};
use crate::names::name;
use crate::operators::{
    addition, adds, again, compares, comparison, designator, highest_place, joins, joins_again,
    logical_operator, multiplication, multiplies, sign_place,
};
use crate::subtypes::first_before;
use ada_grammar::{Cursor, Stuck};
use ada_lex::{Delimiter, Reserved};
use ada_tree::{
    Addend, Argument, Expression, ExpressionForm, HighestOperator, LogicalOperator, Multiplied,
    OneOrMore, Operand, Sign,
};
use ann_base::{NoMemory, OrMemory};
use sqlite_items::{Boxed, Items};
use std::alloc::Global;

/// How expressions are read where `left` levels may still be opened.
#[derive(Clone, Copy)]
pub struct ExpressionReader<F> {
    /// Where memory comes from.
    pub alloc: Global,
    /// How many levels may still be opened.
    pub left: usize,
    /// Reads an expression where so many levels are left.
    pub read: F,
}

/// The expression of this form.
fn formed(alloc: Global, form: ExpressionForm<Expression>) -> Result<Expression, NoMemory>
    ensures { IfOk result (λ e. e ≡ formed form) }
{
    Ok(Expression {
        form: Boxed::new(alloc, form)?,
    })
}

impl<F: Fn(Global, &mut Cursor<'_>, usize) -> Result<Expression, OrMemory<Stuck>>> ExpressionReader<
    F,
> {
    /// An expression one level further in.
    fn inner(&self, cursor: &mut Cursor<'_>) -> Result<Expression, OrMemory<Stuck>>
        requires reads { ReadsInside self.now.left (F.pre self.now.read) (F.post self.now.read) }
        ensures { Reads result cursor.new (inner_of self.now.left cursor.old) }
    {
        match self.left {
            0 => Err(cursor.stuck()),
            left => (self.read)(self.alloc, cursor, left - 1),
        }
    }

    /// `NAME => EXPRESSION`
    #[tactic(auto, unfolding(ada_grammar::specs::ReadingExpressions::named_argument_of))]
    fn named_argument(
        &self,
        cursor: &mut Cursor<'_>,
    ) -> Result<Argument<Expression>, OrMemory<Stuck>>
        requires reads { ReadsInside self.now.left (F.pre self.now.read) (F.post self.now.read) }
        ensures { Reads result cursor.new
            (named_argument_of self.now.left (inner_of self.now.left) cursor.old) }
    {
        let formal = cursor.identifier(self.alloc)?;
        cursor.delimiter(Delimiter::Arrow)?;
        let value = self.inner(cursor)?;
        Ok(Argument {
            formal: Some(formal),
            value,
        })
    }

    /// An index or an actual (4.1.1, 6.4.1).
    #[tactic(auto, unfolding(ada_grammar::specs::ReadingExpressions::argument_of))]
    fn argument(&self, cursor: &mut Cursor<'_>) -> Result<Argument<Expression>, OrMemory<Stuck>>
        requires reads { ReadsInside self.now.left (F.pre self.now.read) (F.post self.now.read) }
        ensures { Reads result cursor.new
            (argument_of self.now.left (inner_of self.now.left) cursor.old) }
    {
        if cursor.is_identifier_before(Delimiter::Arrow) {
            self.named_argument(cursor)
        } else {
            let value = self.inner(cursor)?;
            Ok(Argument {
                formal: None,
                value,
            })
        }
    }

    /// Arguments in brackets (4.1.1, 6.4.1).
    #[tactic(auto, unfolding(ada_grammar::specs::ReadingExpressions::given_arguments_of))]
    fn given_arguments(
        &self,
        cursor: &mut Cursor<'_>,
    ) -> Result<Items<Argument<Expression>>, OrMemory<Stuck>>
        requires reads { ReadsInside self.now.left (F.pre self.now.read) (F.post self.now.read) }
        ensures { Reads result cursor.new
            (given_arguments_of self.now.left (inner_of self.now.left) cursor.old) }
    {
        cursor.open(self.left)?;
        let first = self.argument(cursor)?;
        let others = items_behind(
            self.alloc,
            cursor,
            Delimiter::Comma,
            |cursor| self.argument(cursor),
        )?;
        cursor.delimiter(Delimiter::CloseBracket)?;
        Ok(first_before(self.alloc, first, others)?)
    }

    /// The arguments of a name, none where no bracket stands.
    #[tactic(auto, unfolding(ada_grammar::specs::ReadingExpressions::arguments_of))]
    fn arguments(
        &self,
        cursor: &mut Cursor<'_>,
    ) -> Result<Items<Argument<Expression>>, OrMemory<Stuck>>
        requires reads { ReadsInside self.now.left (F.pre self.now.read) (F.post self.now.read) }
        ensures { Reads result cursor.new
            (arguments_of self.now.left (inner_of self.now.left) cursor.old) }
    {
        if cursor.is_delimiter(Delimiter::OpenBracket) {
            self.given_arguments(cursor)
        } else {
            Ok(Items::new(self.alloc))
        }
    }

    /// A name, an attribute, an indexed component or a function call (4.1, 6.4).
    #[tactic(auto, unfolding(ada_grammar::specs::ReadingExpressions::named_of))]
    fn named(&self, cursor: &mut Cursor<'_>) -> Result<Expression, OrMemory<Stuck>>
        requires reads { ReadsInside self.now.left (F.pre self.now.read) (F.post self.now.read) }
        ensures { Reads result cursor.new
            (named_of self.now.left (inner_of self.now.left) cursor.old) }
    {
        let name = name(self.alloc, cursor)?;
        let attribute = designator(cursor)?;
        let arguments = self.arguments(cursor)?;
        let form = ExpressionForm::Named {
            name,
            attribute,
            arguments,
        };
        Ok(formed(self.alloc, form)?)
    }

    /// `(EXPRESSION)`
    #[tactic(auto, unfolding(ada_grammar::specs::ReadingExpressions::bracketed_of))]
    fn bracketed(&self, cursor: &mut Cursor<'_>) -> Result<Expression, OrMemory<Stuck>>
        requires reads { ReadsInside self.now.left (F.pre self.now.read) (F.post self.now.read) }
        ensures { Reads result cursor.new
            (bracketed_of self.now.left (inner_of self.now.left) cursor.old) }
    {
        let place = cursor.open(self.left)?;
        let inner = self.inner(cursor)?;
        cursor.delimiter(Delimiter::CloseBracket)?;
        Ok(formed(self.alloc, ExpressionForm::Bracketed { place, inner })?)
    }

    /// A primary (4.4).
    #[tactic(auto, unfolding(ada_grammar::specs::ReadingExpressions::primary_of))]
    fn primary(&self, cursor: &mut Cursor<'_>) -> Result<Expression, OrMemory<Stuck>>
        requires reads { ReadsInside self.now.left (F.pre self.now.read) (F.post self.now.read) }
        ensures { Reads result cursor.new
            (primary_of self.now.left (inner_of self.now.left) cursor.old) }
    {
        if cursor.is_number() {
            let (place, literal) = cursor.number(self.alloc)?;
            Ok(formed(self.alloc, ExpressionForm::Number { place, literal })?)
        } else if cursor.is_text() {
            let (place, text) = cursor.text(self.alloc)?;
            Ok(formed(self.alloc, ExpressionForm::Text { place, text })?)
        } else if cursor.is_word(Reserved::Null) {
            let place = cursor.word(Reserved::Null)?;
            Ok(formed(self.alloc, ExpressionForm::Null { place })?)
        } else if cursor.is_delimiter(Delimiter::OpenBracket) {
            self.bracketed(cursor)
        } else {
            self.named(cursor)
        }
    }

    /// A primary behind `abs` or `not` (4.4, 4.5.6).
    #[tactic(auto, unfolding(ada_grammar::specs::ReadingExpressions::highest_of))]
    fn highest(
        &self,
        cursor: &mut Cursor<'_>,
        operator: HighestOperator,
    ) -> Result<Expression, OrMemory<Stuck>>
        requires reads { ReadsInside self.now.left (F.pre self.now.read) (F.post self.now.read) }
        ensures { Reads result cursor.new
            (highest_of self.now.left (inner_of self.now.left) operator cursor.old) }
    {
        let place = highest_place(cursor, operator)?;
        let operand = self.primary(cursor)?;
        let form = ExpressionForm::Highest {
            place,
            operator,
            operand,
        };
        Ok(formed(self.alloc, form)?)
    }

    /// A factor (4.4).
    #[tactic(auto, unfolding(ada_grammar::specs::ReadingExpressions::factor_of))]
    fn factor(&self, cursor: &mut Cursor<'_>) -> Result<Expression, OrMemory<Stuck>>
        requires reads { ReadsInside self.now.left (F.pre self.now.read) (F.post self.now.read) }
        ensures { Reads result cursor.new
            (factor_of self.now.left (inner_of self.now.left) cursor.old) }
    {
        if cursor.is_word(Reserved::Abs) {
            self.highest(cursor, HighestOperator::Absolute)
        } else if cursor.is_word(Reserved::Not) {
            self.highest(cursor, HighestOperator::Not)
        } else {
            self.primary(cursor)
        }
    }

    /// A factor behind a multiplying operator.
    #[tactic(auto, unfolding(ada_grammar::specs::ReadingExpressions::multiplied_of))]
    fn multiplied(&self, cursor: &mut Cursor<'_>) -> Result<Multiplied<Expression>, OrMemory<Stuck>>
        requires reads { ReadsInside self.now.left (F.pre self.now.read) (F.post self.now.read) }
        ensures { Reads result cursor.new
            (multiplied_of self.now.left (inner_of self.now.left) cursor.old) }
    {
        let (place, operator) = multiplication(cursor)?;
        let factor = self.factor(cursor)?;
        Ok(Multiplied {
            place,
            operator,
            factor,
        })
    }

    /// Factors that are multiplied or divided, behind the first one (4.5.5).
    #[tactic(auto, unfolding(ada_grammar::specs::ReadingExpressions::product_of))]
    fn product(
        &self,
        cursor: &mut Cursor<'_>,
        first: Expression,
    ) -> Result<Expression, OrMemory<Stuck>>
        requires reads { ReadsInside self.now.left (F.pre self.now.read) (F.post self.now.read) }
        ensures { Reads result cursor.new
            (product_of self.now.left (inner_of self.now.left) first cursor.old) }
    {
        let second = self.multiplied(cursor)?;
        let others = OneOrMore {
            first: second,
            others: items(
                self.alloc,
                cursor,
                multiplies,
                |cursor| self.multiplied(cursor),
            )?,
        };
        Ok(formed(self.alloc, ExpressionForm::Multiplying { first, others })?)
    }

    /// A term (4.4).
    #[tactic(auto, unfolding(ada_grammar::specs::ReadingExpressions::term_of))]
    fn term(&self, cursor: &mut Cursor<'_>) -> Result<Expression, OrMemory<Stuck>>
        requires reads { ReadsInside self.now.left (F.pre self.now.read) (F.post self.now.read) }
        ensures { Reads result cursor.new
            (term_of self.now.left (inner_of self.now.left) cursor.old) }
    {
        let first = self.factor(cursor)?;
        if multiplies(cursor) {
            self.product(cursor, first)
        } else {
            Ok(first)
        }
    }

    /// A term behind a sign (4.5.4).
    #[tactic(auto, unfolding(ada_grammar::specs::ReadingExpressions::signed_of))]
    fn signed(&self, cursor: &mut Cursor<'_>, sign: Sign) -> Result<Expression, OrMemory<Stuck>>
        requires reads { ReadsInside self.now.left (F.pre self.now.read) (F.post self.now.read) }
        ensures { Reads result cursor.new
            (signed_of self.now.left (inner_of self.now.left) sign cursor.old) }
    {
        let place = sign_place(cursor, sign)?;
        let operand = self.term(cursor)?;
        let form = ExpressionForm::Signed {
            place,
            sign,
            operand,
        };
        Ok(formed(self.alloc, form)?)
    }

    /// The first term of a sum, with its sign.
    #[tactic(auto, unfolding(ada_grammar::specs::ReadingExpressions::first_term_of))]
    fn first_term(&self, cursor: &mut Cursor<'_>) -> Result<Expression, OrMemory<Stuck>>
        requires reads { ReadsInside self.now.left (F.pre self.now.read) (F.post self.now.read) }
        ensures { Reads result cursor.new
            (first_term_of self.now.left (inner_of self.now.left) cursor.old) }
    {
        if cursor.is_delimiter(Delimiter::Plus) {
            self.signed(cursor, Sign::Plus)
        } else if cursor.is_delimiter(Delimiter::Minus) {
            self.signed(cursor, Sign::Minus)
        } else {
            self.term(cursor)
        }
    }

    /// A term behind a binary adding operator.
    #[tactic(auto, unfolding(ada_grammar::specs::ReadingExpressions::addend_of))]
    fn addend(&self, cursor: &mut Cursor<'_>) -> Result<Addend<Expression>, OrMemory<Stuck>>
        requires reads { ReadsInside self.now.left (F.pre self.now.read) (F.post self.now.read) }
        ensures { Reads result cursor.new
            (addend_of self.now.left (inner_of self.now.left) cursor.old) }
    {
        let (place, operator) = addition(cursor)?;
        let term = self.term(cursor)?;
        Ok(Addend {
            place,
            operator,
            term,
        })
    }

    /// Terms that are added, subtracted or joined, behind the first one (4.5.3).
    #[tactic(auto, unfolding(ada_grammar::specs::ReadingExpressions::addition_behind_of))]
    fn addition_behind(
        &self,
        cursor: &mut Cursor<'_>,
        first: Expression,
    ) -> Result<Expression, OrMemory<Stuck>>
        requires reads { ReadsInside self.now.left (F.pre self.now.read) (F.post self.now.read) }
        ensures { Reads result cursor.new
            (addition_behind_of self.now.left (inner_of self.now.left) first cursor.old) }
    {
        let second = self.addend(cursor)?;
        let others = OneOrMore {
            first: second,
            others: items(self.alloc, cursor, adds, |cursor| self.addend(cursor))?,
        };
        Ok(formed(self.alloc, ExpressionForm::Adding { first, others })?)
    }

    /// A simple expression (4.4).
    #[tactic(auto, unfolding(ada_grammar::specs::ReadingExpressions::sum_of))]
    fn sum(&self, cursor: &mut Cursor<'_>) -> Result<Expression, OrMemory<Stuck>>
        requires reads { ReadsInside self.now.left (F.pre self.now.read) (F.post self.now.read) }
        ensures { Reads result cursor.new
            (sum_of self.now.left (inner_of self.now.left) cursor.old) }
    {
        let first = self.first_term(cursor)?;
        if adds(cursor) {
            self.addition_behind(cursor, first)
        } else {
            Ok(first)
        }
    }

    /// Two sums that are compared, behind the first one (4.5.2).
    #[tactic(auto, unfolding(ada_grammar::specs::ReadingExpressions::compared_of))]
    fn compared(
        &self,
        cursor: &mut Cursor<'_>,
        first: Expression,
    ) -> Result<Expression, OrMemory<Stuck>>
        requires reads { ReadsInside self.now.left (F.pre self.now.read) (F.post self.now.read) }
        ensures { Reads result cursor.new
            (compared_of self.now.left (inner_of self.now.left) first cursor.old) }
    {
        let (place, operator) = comparison(cursor)?;
        let second = self.sum(cursor)?;
        let form = ExpressionForm::Relational {
            left: first,
            place,
            operator,
            right: second,
        };
        Ok(formed(self.alloc, form)?)
    }

    /// A relation (4.4).
    #[tactic(auto, unfolding(ada_grammar::specs::ReadingExpressions::relation_of))]
    fn relation(&self, cursor: &mut Cursor<'_>) -> Result<Expression, OrMemory<Stuck>>
        requires reads { ReadsInside self.now.left (F.pre self.now.read) (F.post self.now.read) }
        ensures { Reads result cursor.new
            (relation_of self.now.left (inner_of self.now.left) cursor.old) }
    {
        let first = self.sum(cursor)?;
        if compares(cursor) {
            self.compared(cursor, first)
        } else {
            Ok(first)
        }
    }

    /// A relation behind this logical operator.
    #[tactic(auto, unfolding(ada_grammar::specs::ReadingExpressions::operand_of))]
    fn operand(
        &self,
        cursor: &mut Cursor<'_>,
        operator: LogicalOperator,
    ) -> Result<Operand<Expression>, OrMemory<Stuck>>
        requires reads { ReadsInside self.now.left (F.pre self.now.read) (F.post self.now.read) }
        ensures { Reads result cursor.new
            (operand_of self.now.left (inner_of self.now.left) operator cursor.old) }
    {
        let place = again(cursor, operator)?;
        let relation = self.relation(cursor)?;
        Ok(Operand { place, relation })
    }

    /// Relations that one logical operator joins, behind the first one (4.5.1).
    #[tactic(auto, unfolding(ada_grammar::specs::ReadingExpressions::joined_of))]
    fn joined(
        &self,
        cursor: &mut Cursor<'_>,
        first: Expression,
    ) -> Result<Expression, OrMemory<Stuck>>
        requires reads { ReadsInside self.now.left (F.pre self.now.read) (F.post self.now.read) }
        ensures { Reads result cursor.new
            (joined_of self.now.left (inner_of self.now.left) first cursor.old) }
    {
        let (place, operator) = logical_operator(cursor)?;
        let relation = self.relation(cursor)?;
        let others = OneOrMore {
            first: Operand { place, relation },
            others: items(
                self.alloc,
                cursor,
                |cursor| joins_again(cursor, operator),
                |cursor| self.operand(cursor, operator),
            )?,
        };
        let form = ExpressionForm::Logical {
            operator,
            first,
            others,
        };
        Ok(formed(self.alloc, form)?)
    }

    /// An expression (4.4).
    #[tactic(auto, unfolding(ada_grammar::specs::ReadingExpressions::logical_of))]
    fn logical(&self, cursor: &mut Cursor<'_>) -> Result<Expression, OrMemory<Stuck>>
        requires reads { ReadsInside self.now.left (F.pre self.now.read) (F.post self.now.read) }
        ensures { Reads result cursor.new
            (logical_of self.now.left (inner_of self.now.left) cursor.old) }
    {
        let first = self.relation(cursor)?;
        if joins(cursor) {
            self.joined(cursor, first)
        } else {
            Ok(first)
        }
    }
}

/// An expression, where `left` levels may still be opened.
#[tactic(auto, using(crate::proofs::Levels::at_level))]
pub fn expression(
    alloc: Global,
    cursor: &mut Cursor<'_>,
    left: usize,
) -> Result<Expression, OrMemory<Stuck>>
    ensures { Reads result cursor.new (expression_of left cursor.old) }
{
    ExpressionReader {
        alloc,
        left,
        read: expression,
    }
    .logical(cursor)
}

/// `[(ARGUMENT {, ARGUMENT})]`, where `left` levels may still be opened; empty where no bracket
/// stands (4.1.1, 6.4).
pub fn arguments(
    alloc: Global,
    cursor: &mut Cursor<'_>,
    left: usize,
) -> Result<Items<Argument<Expression>>, OrMemory<Stuck>>
    ensures { Reads result cursor.new (arguments_of left (inner_of left) cursor.old) }
{
    ExpressionReader {
        alloc,
        left,
        read: expression,
    }
    .arguments(cursor)
}

/// An argument in brackets, before which `left` levels might still be opened (2.8).
pub fn argument(
    alloc: Global,
    cursor: &mut Cursor<'_>,
    left: usize,
) -> Result<Argument<Expression>, OrMemory<Stuck>>
    ensures { Reads result cursor.new (argument_of left (inner_of left) cursor.old) }
{
    ExpressionReader {
        alloc,
        left,
        read: expression,
    }
    .argument(cursor)
}
