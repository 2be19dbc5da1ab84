//! The names in expressions (ISO/IEC 8652:2012, clause 4).

use crate::telling::{Tell, tell_both};
use ada_regions::Occurrences;
use ada_tree::{Addend, Argument, Expression, ExpressionForm, Multiplied, Operand};
use ann_base::NoMemory;

impl<E: Tell> Tell for Operand<E> {
    ghost use Rattle.ada_regions.specs.NamesInExpressions.{names_in_operand};

    ghost names = { names_in_operand E.names };

    fn tell<'t>(&'t self, occurrences: &mut Occurrences<'t>) -> Result<(), NoMemory> {
        self.relation.tell(occurrences)
    }
}

impl<E: Tell> Tell for Addend<E> {
    ghost use Rattle.ada_regions.specs.NamesInExpressions.{names_in_addend};

    ghost names = { names_in_addend E.names };

    fn tell<'t>(&'t self, occurrences: &mut Occurrences<'t>) -> Result<(), NoMemory> {
        self.term.tell(occurrences)
    }
}

impl<E: Tell> Tell for Multiplied<E> {
    ghost use Rattle.ada_regions.specs.NamesInExpressions.{names_in_multiplied};

    ghost names = { names_in_multiplied E.names };

    fn tell<'t>(&'t self, occurrences: &mut Occurrences<'t>) -> Result<(), NoMemory> {
        self.factor.tell(occurrences)
    }
}

impl<E: Tell> Tell for Argument<E> {
    ghost use Rattle.ada_regions.specs.NamesInExpressions.{names_in_argument};

    ghost names = { names_in_argument E.names };

    fn tell<'t>(&'t self, occurrences: &mut Occurrences<'t>) -> Result<(), NoMemory> {
        self.value.tell(occurrences)
    }
}

impl<E: Tell> Tell for ExpressionForm<E> {
    ghost use Rattle.ada_regions.specs.NamesInExpressions.{names_in_form};

    ghost names = { names_in_form E.names };

    fn tell<'t>(&'t self, occurrences: &mut Occurrences<'t>) -> Result<(), NoMemory> {
        match self {
            ExpressionForm::Logical { first, others, .. } => tell_both(occurrences, first, others),
            ExpressionForm::Relational { left, right, .. } => tell_both(occurrences, left, right),
            ExpressionForm::Adding { first, others } => tell_both(occurrences, first, others),
            ExpressionForm::Signed { operand, .. } => operand.tell(occurrences),
            ExpressionForm::Multiplying { first, others } => tell_both(occurrences, first, others),
            ExpressionForm::Highest { operand, .. } => operand.tell(occurrences),
            ExpressionForm::Number { .. }
            | ExpressionForm::Text { .. }
            | ExpressionForm::Null { .. } => Ok(()),
            ExpressionForm::Bracketed { inner, .. } => inner.tell(occurrences),
            ExpressionForm::Named {
                name,
                arguments,
                ..
            } => { tell_both(occurrences, name, arguments) }
        }
    }
}

impl Tell for Expression {
    ghost use Rattle.ada_regions.specs.NamesInExpressions.{names_in_expression};

    ghost names = { names_in_expression };

    #[tactic(auto, using(ada_regions::proofs::ExpressionFolds::expression_tells))]
    fn tell<'t>(&'t self, occurrences: &mut Occurrences<'t>) -> Result<(), NoMemory> {
        self.form.get().tell(occurrences)
    }
}
